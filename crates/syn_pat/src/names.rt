//! What patterns ask of the paths in them: a path that a type may qualify. So the readers and prints of patterns name no type.

ghost use Rattle.std.specs.Prelude.{◌≡◌, ◌++◌, Option, OnErr, OnOk};
ghost use Rattle.syn_path.specs.declared.path.PathOf.{PathOf};
ghost use Rattle.syn_path.specs.declared.path.PathStyle.TheVariants as styles;
ghost use Rattle.syn_ty.specs.path.Alone.{maybe_qualified};
ghost use Rattle.syn_ty.specs.path.Shapes.{expr_style};
ghost use Rattle.syn_ty.specs.ty.Printing as types;
ghost use Rattle.token_core.specs.Prints.{Extends, Print};
ghost use Rattle.token_core.specs.Reads.{Parses, Reader};
ghost use Rattle.token_core.specs.Trees.{trees};

use std::alloc::{AllocError, Global};
use syn_path::path::{PathOf, PathStyle, QSelfOf};
use syn_path::supplied::{Attributes, Value};
use syn_ty::path::PathArgumentsOf;
use syn_ty::path::alone::parse_maybe_qualified;
use syn_ty::ty::TypeOf;
use syn_ty::ty::print::print_qpath;
use token_core::{Error, ParseStream, TokenStream};

/// What may qualify a path, over the arguments of the path's segments.
pub trait Qualifier<G>: Drop {
    /// The read of a path that it may qualify, in the style of expressions, a function of the stream.
    ghost reads: { Reader (Option Self × PathOf G) };

    /// What such a path prints.
    ghost shown: { Option Self → PathOf G → Print };

    /// Reads a path that it may qualify.
    fn parse_path(
        alloc: Global,
        input: &mut ParseStream<'_>,
    ) -> Result<(Option<Self>, PathOf<G>), Error>
        ensures parses { Parses reads result input.old input.new };

    /// Appends such a path; refused, what stood before is kept.
    fn print_path(
        alloc: Global,
        qself: &Option<Self>,
        path: &PathOf<G>,
        out: &mut TokenStream,
    ) -> Result<(), AllocError>
        ensures ok { OnOk result (trees out.new ≡ trees out.old ++ shown qself.now path.now) }
        ensures err { OnErr result (Extends (trees out.old) (trees out.new)) };
}

/// Types qualify the paths that have them in their arguments.
impl<A: Attributes, E: Value> Qualifier<PathArgumentsOf<A, E>> for QSelfOf<TypeOf<A, E>> {
    ghost reads = { maybe_qualified A.reads E.reads styles.Expr };

    ghost shown = { types.qpath A.shown E.values expr_style };

    fn parse_path(
        alloc: Global,
        input: &mut ParseStream<'_>,
    ) -> Result<(Option<QSelfOf<TypeOf<A, E>>>, PathOf<PathArgumentsOf<A, E>>), Error> {
        parse_maybe_qualified::<A, E>(alloc, input, PathStyle::Expr)
    }

    fn print_path(
        alloc: Global,
        qself: &Option<QSelfOf<TypeOf<A, E>>>,
        path: &PathOf<PathArgumentsOf<A, E>>,
        out: &mut TokenStream,
    ) -> Result<(), AllocError> {
        print_qpath(alloc, qself, path, PathStyle::Expr, out)
    }
}
