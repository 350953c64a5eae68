//! Arguments of paths.

pub mod alone;
pub mod print;
pub mod read;

ghost use Rattle.std.specs.Prelude.{◌≡◌};
ghost use Rattle.syn_ty.specs.path.Paths as spec;
ghost use Rattle.syn_ty.specs.path.Shapes as shapes;
ghost use Rattle.syn_ty.specs.path.Silent.{silent};
ghost use Rattle.syn_ty.specs.ty.Printing as types;

use crate::generics::{Member, TypeParamBoundOf};
use crate::path::print::{print_path, print_segment};
use crate::ty::{NamedArgOf, ReturnTypeOf, TypeOf};
use std::alloc::{AllocError, Global};
use syn_path::path::{Arguments, PathOf, PathSegmentOf, PathStyle};
use syn_path::supplied::{Attributes, Value};
use token_core::token::{Colon, Comma, Eq, Gt, Lt, Paren, PathSep, Plus};
use token_core::{Ident, Lifetime, Punctuated, TokenStream};

/// The arguments of a segment, over the attributes and expressions in them.
#[cycle(types)]
#[derive(Drop)]
pub enum PathArgumentsOf<A, E> {
    None,
    /// `<'a, T>`
    AngleBracketed(AngleBracketedGenericArgumentsOf<GenericArgumentOf<A, E>>),
    /// `(A, B) -> C`
    Parenthesized(ParenthesizedGenericArgumentsOf<TypeOf<A, E>, A>),
}

/// Arguments between angle marks, over them.
#[derive(Drop)]
pub struct AngleBracketedGenericArgumentsOf<G> {
    pub colon2_token: Option<PathSep>,
    pub lt_token: Lt,
    pub args: Punctuated<G, Comma>,
    pub gt_token: Gt,
}

/// Arguments in parentheses and their output, over their types.
#[derive(Drop)]
pub struct ParenthesizedGenericArgumentsOf<T, A> {
    pub paren_token: Paren,
    pub inputs: Punctuated<NamedArgOf<T, A>, Comma>,
    pub output: ReturnTypeOf<T>,
}

/// An argument between angle marks.
#[cycle(types)]
#[derive(Drop)]
pub enum GenericArgumentOf<A, E> {
    /// `'a`
    Lifetime(Lifetime),
    /// `T`
    Type(TypeOf<A, E>),
    /// `{ n + 1 }`
    Const(E),
    /// `Item = T`
    AssocType(AssocTypeOf<A, E>),
    /// `N = 1`
    AssocConst(AssocConstOf<GenericArgumentOf<A, E>, E>),
    /// `Item: A + B`
    Constraint(ConstraintOf<A, E>),
}

/// What an associated type is: `Item = T`.
#[cycle(types)]
#[derive(Drop)]
pub struct AssocTypeOf<A, E> {
    pub ident: Ident,
    pub generics: Option<AngleBracketedGenericArgumentsOf<GenericArgumentOf<A, E>>>,
    pub eq_token: Eq,
    pub ty: TypeOf<A, E>,
}

/// What an associated constant is, over the arguments of its name and its value: `N = 1`.
#[derive(Drop)]
pub struct AssocConstOf<G, E> {
    pub ident: Ident,
    pub generics: Option<AngleBracketedGenericArgumentsOf<G>>,
    pub eq_token: Eq,
    pub value: E,
}

/// The bounds of an associated type: `Item: A + B`.
#[cycle(types)]
#[derive(Drop)]
pub struct ConstraintOf<A, E> {
    pub ident: Ident,
    pub generics: Option<AngleBracketedGenericArgumentsOf<GenericArgumentOf<A, E>>>,
    pub colon_token: Colon,
    pub bounds: Punctuated<TypeParamBoundOf<A, E>, Plus>,
}

impl<A, E> Default for PathArgumentsOf<A, E> {
    ghost is_default = { λ a. a ≡ spec.no_arguments };

    fn default() -> PathArgumentsOf<A, E> {
        PathArgumentsOf::None
    }
}

impl<A, E> PathArgumentsOf<A, E> {
    /// Whether no argument is there: in parentheses there may be none, and yet they are arguments.
    pub fn is_empty(&self) -> bool
        ensures { result ≡ spec.is_empty self.now }
    {
        match self {
            PathArgumentsOf::None => true,
            PathArgumentsOf::AngleBracketed(arguments) => arguments.args.is_empty(),
            PathArgumentsOf::Parenthesized(_) => false,
        }
    }

    pub fn is_none(&self) -> bool
        ensures { result ≡ spec.is_none self.now }
    {
        match self {
            PathArgumentsOf::None => true,
            PathArgumentsOf::AngleBracketed(_) => false,
            PathArgumentsOf::Parenthesized(_) => false,
        }
    }
}

impl<A: Attributes, E: Value> Arguments for PathArgumentsOf<A, E> {
    ghost absent = { spec.no_arguments };

    ghost is_absent = { spec.is_none };

    ghost shown = { types.arguments A.shown E.values shapes.as_written };

    ghost silent = { silent A.shown E.values };

    fn none() -> PathArgumentsOf<A, E> {
        PathArgumentsOf::None
    }

    fn are_none(&self) -> bool {
        self.is_none()
    }

    fn print_path(
        alloc: Global,
        path: &PathOf<PathArgumentsOf<A, E>>,
        out: &mut TokenStream,
    ) -> Result<(), AllocError> {
        print_path(alloc, path, PathStyle::AsWritten, out)
    }

    fn print_segment(
        alloc: Global,
        segment: &PathSegmentOf<PathArgumentsOf<A, E>>,
        out: &mut TokenStream,
    ) -> Result<(), AllocError> {
        print_segment(alloc, segment, PathStyle::AsWritten, out)
    }
}

// ---- parts of paths that lead back to no type

/// An argument that is a lifetime prints first.
impl<A, E> Member for GenericArgumentOf<A, E> {
    ghost first = { spec.is_lifetime };

    #[tactic(auto, using(crate::proofs::generics_laws::Prints::argument_kinds))]
    fn is_lifetime(&self) -> bool {
        match self {
            GenericArgumentOf::Lifetime(_) => true,
            GenericArgumentOf::Type(_)
            | GenericArgumentOf::Const(_)
            | GenericArgumentOf::AssocType(_)
            | GenericArgumentOf::AssocConst(_)
            | GenericArgumentOf::Constraint(_) => false,
        }
    }
}
