//! Arguments of paths, and paths with them, are printed.

ghost use Rattle.std.specs.Prelude.{◌≡◌, [], ◌∷◌, ◌++◌, option_map, OnOk, OnErr};
ghost use Rattle.token_core.specs.Trees.{trees};
ghost use Rattle.token_core.specs.Prints.{Extends};
ghost use Rattle.syn_ty.specs.generics.Members as members;
ghost use Rattle.syn_ty.specs.path.Paths as spec;
ghost use Rattle.syn_ty.specs.path.Printing as printing;
ghost use Rattle.syn_ty.specs.path.Shapes as shapes;
ghost use Rattle.syn_ty.specs.ty.Printing as types;

use crate::generics::Member;
use crate::generics::print::{print_added_comma, print_bounds};
use crate::path::{
    AngleBracketedGenericArgumentsOf, AssocConstOf, AssocTypeOf, ConstraintOf, GenericArgumentOf,
    ParenthesizedGenericArgumentsOf, PathArgumentsOf,
};
use crate::ty::print::{print_inputs, print_type};
use crate::ty::{ReturnTypeOf, TypeOf};
use std::alloc::{AllocError, Global};
use syn_path::path::{Arguments, PathOf, PathSegmentOf, PathStyle, QSelfOf};
use syn_path::supplied::{Attributes, Value};
use token_core::token::{Comma, Gt, PathSep};
use token_core::{ToTokens, TokenStream, TokensOrDefault};

impl<A: Attributes, E: Value> ToTokens for PathArgumentsOf<A, E> {
    ghost print = { types.arguments A.shown E.values shapes.as_written };

    fn append_tokens(&self, alloc: Global, out: &mut TokenStream) -> Result<(), AllocError> {
        print_arguments(alloc, self, PathStyle::AsWritten, out)
    }
}

/// Appends an argument; a const argument in braces, but for a literal, a block and an identifier alone.
impl<A: Attributes, E: Value> ToTokens for GenericArgumentOf<A, E> {
    ghost print = { types.argument A.shown E.values };

    fn append_tokens(&self, alloc: Global, out: &mut TokenStream) -> Result<(), AllocError> {
        print_argument(alloc, self, out)
    }
}

/// Appends the arguments between their marks, lifetimes first; a comma is added where the last lifetime has none and others follow.
impl<A: Attributes, E: Value> ToTokens
    for AngleBracketedGenericArgumentsOf<GenericArgumentOf<A, E>> {
    ghost print = { types.angle A.shown E.values shapes.as_written };

    fn append_tokens(&self, alloc: Global, out: &mut TokenStream) -> Result<(), AllocError> {
        print_angle(alloc, self, PathStyle::AsWritten, out)
    }
}

impl<A: Attributes, E: Value> ToTokens for AssocTypeOf<A, E> {
    ghost print = { types.assoc_type A.shown E.values };

    fn append_tokens(&self, alloc: Global, out: &mut TokenStream) -> Result<(), AllocError> {
        print_assoc_type(alloc, self, out)
    }
}

impl<A: Attributes, E: Value> ToTokens for AssocConstOf<GenericArgumentOf<A, E>, E> {
    ghost print = { types.assoc_const A.shown E.values };

    fn append_tokens(&self, alloc: Global, out: &mut TokenStream) -> Result<(), AllocError> {
        print_assoc_const(alloc, self, out)
    }
}

/// Appends the name, the colon and the bounds; the colon without bounds too.
impl<A: Attributes, E: Value> ToTokens for ConstraintOf<A, E> {
    ghost print = { types.constraint A.shown E.values };

    fn append_tokens(&self, alloc: Global, out: &mut TokenStream) -> Result<(), AllocError> {
        print_constraint(alloc, self, out)
    }
}

impl<A: Attributes, E: Value> ToTokens for ParenthesizedGenericArgumentsOf<TypeOf<A, E>, A> {
    ghost print = { types.parenthesized A.shown E.values };

    fn append_tokens(&self, alloc: Global, out: &mut TokenStream) -> Result<(), AllocError> {
        print_parenthesized(alloc, self, out)
    }
}

/// Appends a path; refused, what stood before is kept.
#[cycle(print)]
#[tactic(auto, using(token_core::proofs::Puts::puts))]
pub fn print_path<A: Attributes, E: Value>(
    alloc: Global,
    path: &PathOf<PathArgumentsOf<A, E>>,
    style: PathStyle,
    out: &mut TokenStream,
) -> Result<(), AllocError>
    ensures ok { OnOk result (trees out.new ≡ trees out.old ++ printing.path A.shown E.values style path.now) }
    ensures err { OnErr result (Extends (trees out.old) (trees out.new)) }
{
    path.leading_colon.append_tokens(alloc, out)?;
    print_segments(alloc, path, style, out)
}

/// Each segment with its mark.
#[cycle(print)]
#[tactic(auto, using(token_core::proofs::Puts::puts))]
fn print_segments<A: Attributes, E: Value>(
    alloc: Global,
    path: &PathOf<PathArgumentsOf<A, E>>,
    style: PathStyle,
    out: &mut TokenStream,
) -> Result<(), AllocError>
    ensures ok { OnOk result
        (trees out.new ≡ trees out.old ++ printing.segments A.shown E.values style path.now.segments) }
    ensures err { OnErr result (Extends (trees out.old) (trees out.new)) }
{
    let mut marks = path.segments.marks().iter();
    for segment in path.segments.values() {
        print_segment(alloc, segment, style, out)?;
        marks.next().append_tokens(alloc, out)?;
    }
    Ok(())
}

#[cycle(print)]
#[tactic(auto, using(token_core::proofs::Puts::puts))]
pub(crate) fn print_segment<A: Attributes, E: Value>(
    alloc: Global,
    segment: &PathSegmentOf<PathArgumentsOf<A, E>>,
    style: PathStyle,
    out: &mut TokenStream,
) -> Result<(), AllocError>
    ensures ok { OnOk result (trees out.new ≡ trees out.old ++ printing.segment A.shown E.values style segment.now) }
    ensures err { OnErr result (Extends (trees out.old) (trees out.new)) }
{
    segment.ident.to_tokens(alloc, out)?;
    print_arguments(alloc, &segment.arguments, style, out)
}

#[cycle(print)]
#[tactic(auto, using(token_core::proofs::Puts::puts, crate::proofs::ty_laws::Prints::arguments))]
fn print_arguments<A: Attributes, E: Value>(
    alloc: Global,
    arguments: &PathArgumentsOf<A, E>,
    style: PathStyle,
    out: &mut TokenStream,
) -> Result<(), AllocError>
    ensures ok { OnOk result (trees out.new ≡ trees out.old ++ types.arguments A.shown E.values style arguments.now) }
    ensures err { OnErr result (Extends (trees out.old) (trees out.new)) }
{
    match arguments {
        PathArgumentsOf::None => Ok(()),
        PathArgumentsOf::AngleBracketed(arguments) => print_angle(alloc, arguments, style, out),
        PathArgumentsOf::Parenthesized(arguments) => {
            print_parenthesized_start(alloc, style, out)?;
            print_parenthesized(alloc, arguments, out)
        }
    }
}

/// Arguments between angle marks: lifetimes, each with its comma; a comma where the last has none and others follow; the others, each with its comma.
#[cycle(print)]
#[tactic(auto, using(token_core::proofs::Puts::puts))]
fn print_angle<A: Attributes, E: Value>(
    alloc: Global,
    arguments: &AngleBracketedGenericArgumentsOf<GenericArgumentOf<A, E>>,
    style: PathStyle,
    out: &mut TokenStream,
) -> Result<(), AllocError>
    ensures ok { OnOk result (trees out.new ≡ trees out.old ++ types.angle A.shown E.values style arguments.now) }
    ensures err { OnErr result (Extends (trees out.old) (trees out.new)) }
{
    print_angle_start(alloc, arguments, style, out)?;
    print_argument_kind(alloc, arguments, true, out)?;
    print_added_comma(alloc, &arguments.args, out)?;
    print_argument_kind(alloc, arguments, false, out)?;
    arguments.gt_token.to_tokens(alloc, out)
}

/// The arguments that are lifetimes, or those that are not, each with its comma.
#[cycle(print)]
#[tactic(auto, using(token_core::proofs::Puts::puts, crate::proofs::generics_laws::Sorted::kinds))]
fn print_argument_kind<A: Attributes, E: Value>(
    alloc: Global,
    arguments: &AngleBracketedGenericArgumentsOf<GenericArgumentOf<A, E>>,
    lifetimes: bool,
    out: &mut TokenStream,
) -> Result<(), AllocError>
    ensures ok { OnOk result (trees out.new ≡ trees out.old ++ printing.kind A.shown E.values lifetimes arguments.now) }
    ensures err { OnErr result (Extends (trees out.old) (trees out.new)) }
{
    let mut commas = arguments.args.marks().iter();
    for argument in arguments.args.values() {
        print_argument_member(alloc, argument, commas.next(), lifetimes, out)?;
    }
    Ok(())
}

/// An argument with its comma, where it is of the kind.
#[cycle(print)]
#[tactic(auto, using(token_core::proofs::Puts::puts, crate::proofs::generics_laws::Sorted::kinds))]
fn print_argument_member<A: Attributes, E: Value>(
    alloc: Global,
    argument: &GenericArgumentOf<A, E>,
    comma: Option<&Comma>,
    lifetimes: bool,
    out: &mut TokenStream,
) -> Result<(), AllocError>
    ensures ok { OnOk result (trees out.new ≡ trees out.old ++ members.each (types.argument A.shown E.values)
        (members.those spec.is_lifetime lifetimes ((argument.now, option_map (λ c. c.now) comma.entry) ∷ []))) }
    ensures err { OnErr result (Extends (trees out.old) (trees out.new)) }
{
    if argument.is_lifetime() != lifetimes {
        return Ok(());
    }
    print_argument(alloc, argument, out)?;
    match comma {
        Some(comma) => comma.to_tokens(alloc, out),
        None => Ok(()),
    }
}

#[cycle(print)]
#[tactic(auto, using(token_core::proofs::Puts::puts, crate::proofs::ty_laws::Prints::arguments))]
pub fn print_argument<A: Attributes, E: Value>(
    alloc: Global,
    argument: &GenericArgumentOf<A, E>,
    out: &mut TokenStream,
) -> Result<(), AllocError>
    ensures ok { OnOk result (trees out.new ≡ trees out.old ++ types.argument A.shown E.values argument.now) }
    ensures err { OnErr result (Extends (trees out.old) (trees out.new)) }
{
    match argument {
        GenericArgumentOf::Lifetime(lifetime) => lifetime.to_tokens(alloc, out),
        GenericArgumentOf::Type(ty) => print_type(alloc, ty, out),
        GenericArgumentOf::Const(value) => value.print_const_argument(alloc, out),
        GenericArgumentOf::AssocType(assoc) => print_assoc_type(alloc, assoc, out),
        GenericArgumentOf::AssocConst(assoc) => print_assoc_const(alloc, assoc, out),
        GenericArgumentOf::Constraint(constraint) => print_constraint(alloc, constraint, out),
    }
}

/// The arguments of the name of an associated item, where it has some, as they stand.
#[cycle(print)]
#[tactic(auto, using(token_core::proofs::Puts::puts))]
fn print_generics<A: Attributes, E: Value>(
    alloc: Global,
    generics: &Option<AngleBracketedGenericArgumentsOf<GenericArgumentOf<A, E>>>,
    out: &mut TokenStream,
) -> Result<(), AllocError>
    ensures ok { OnOk result (trees out.new ≡ trees out.old ++ types.optional_angle A.shown E.values generics.now) }
    ensures err { OnErr result (Extends (trees out.old) (trees out.new)) }
{
    match generics {
        Some(arguments) => print_angle(alloc, arguments, PathStyle::AsWritten, out),
        None => Ok(()),
    }
}

#[cycle(print)]
#[tactic(auto, using(token_core::proofs::Puts::puts, crate::proofs::ty_laws::Prints::arguments))]
fn print_assoc_type<A: Attributes, E: Value>(
    alloc: Global,
    assoc: &AssocTypeOf<A, E>,
    out: &mut TokenStream,
) -> Result<(), AllocError>
    ensures ok { OnOk result (trees out.new ≡ trees out.old ++ types.assoc_type A.shown E.values assoc.now) }
    ensures err { OnErr result (Extends (trees out.old) (trees out.new)) }
{
    assoc.ident.to_tokens(alloc, out)?;
    print_generics(alloc, &assoc.generics, out)?;
    assoc.eq_token.to_tokens(alloc, out)?;
    print_type(alloc, &assoc.ty, out)
}

#[cycle(print)]
#[tactic(auto, using(token_core::proofs::Puts::puts))]
fn print_assoc_const<A: Attributes, E: Value>(
    alloc: Global,
    assoc: &AssocConstOf<GenericArgumentOf<A, E>, E>,
    out: &mut TokenStream,
) -> Result<(), AllocError>
    ensures ok { OnOk result (trees out.new ≡ trees out.old ++ types.assoc_const A.shown E.values assoc.now) }
    ensures err { OnErr result (Extends (trees out.old) (trees out.new)) }
{
    assoc.ident.to_tokens(alloc, out)?;
    print_generics(alloc, &assoc.generics, out)?;
    assoc.eq_token.to_tokens(alloc, out)?;
    assoc.value.print_const_argument(alloc, out)
}

/// The colon prints without bounds too.
#[cycle(print)]
#[tactic(auto, using(token_core::proofs::Puts::puts, crate::proofs::ty_laws::Prints::arguments))]
fn print_constraint<A: Attributes, E: Value>(
    alloc: Global,
    constraint: &ConstraintOf<A, E>,
    out: &mut TokenStream,
) -> Result<(), AllocError>
    ensures ok { OnOk result (trees out.new ≡ trees out.old ++ types.constraint A.shown E.values constraint.now) }
    ensures err { OnErr result (Extends (trees out.old) (trees out.new)) }
{
    constraint.ident.to_tokens(alloc, out)?;
    print_generics(alloc, &constraint.generics, out)?;
    constraint.colon_token.to_tokens(alloc, out)?;
    print_bounds(alloc, &constraint.bounds, out)
}

/// Arguments in their parentheses, and the output.
#[cycle(print)]
#[tactic(auto, using(token_core::proofs::Puts::puts))]
fn print_parenthesized<A: Attributes, E: Value>(
    alloc: Global,
    arguments: &ParenthesizedGenericArgumentsOf<TypeOf<A, E>, A>,
    out: &mut TokenStream,
) -> Result<(), AllocError>
    ensures ok { OnOk result (trees out.new ≡ trees out.old ++ types.parenthesized A.shown E.values arguments.now) }
    ensures err { OnErr result (Extends (trees out.old) (trees out.new)) }
{
    let mut content = TokenStream::new(alloc);
    print_inputs(alloc, &arguments.inputs, &mut content)?;
    arguments.paren_token.surround(content, out)?;
    match &arguments.output {
        ReturnTypeOf::Default => Ok(()),
        ReturnTypeOf::Type(arrow, ty) => {
            arrow.to_tokens(alloc, out)?;
            print_type(alloc, ty.get(), out)
        }
    }
}

/// Appends what follows the type that qualifies a path: `as` and the segments up to `>`, and those after it. `>` stands after as many segments as
/// `position` says, or as there are; where that is none, there is no `as`. A missing `as` is printed all the same.
#[cycle(print)]
#[tactic(auto, using(token_core::proofs::Puts::puts, syn_path::proofs::path_laws::Around::qualifies))]
pub fn print_qualified<A: Attributes, E: Value>(
    alloc: Global,
    qself: &QSelfOf<TypeOf<A, E>>,
    path: &PathOf<PathArgumentsOf<A, E>>,
    style: PathStyle,
    out: &mut TokenStream,
) -> Result<(), AllocError>
    ensures ok { OnOk result
        (trees out.new ≡ trees out.old ++ printing.qualified A.shown E.values style qself.now path.now) }
    ensures err { OnErr result (Extends (trees out.old) (trees out.new)) }
{
    let before = qself.position.min(path.segments.len());
    if before == 0 {
        qself.gt_token.to_tokens(alloc, out)?;
        return print_path(alloc, path, style, out);
    }
    TokensOrDefault(&qself.as_token).append_tokens(alloc, out)?;
    path.leading_colon.append_tokens(alloc, out)?;
    print_around(alloc, path, before, &qself.gt_token, style, out)
}

/// The segments, with `>` after as many as are to stand before it; those print as they stand.
#[cycle(print)]
#[tactic(auto, using(token_core::proofs::Puts::puts))]
fn print_around<A: Attributes, E: Value>(
    alloc: Global,
    path: &PathOf<PathArgumentsOf<A, E>>,
    before: usize,
    gt_token: &Gt,
    style: PathStyle,
    out: &mut TokenStream,
) -> Result<(), AllocError>
    ensures ok { OnOk result (trees out.new ≡ trees out.old
        ++ printing.around A.shown E.values style gt_token.now before path.now.segments.0 path.now.segments.1) }
    ensures err { OnErr result (Extends (trees out.old) (trees out.new)) }
{
    let mut marks = path.segments.marks().iter();
    let mut before = before;
    for segment in path.segments.values() {
        print_closing(alloc, segment, before, gt_token, style, out)?;
        marks.next().append_tokens(alloc, out)?;
        before = before.saturating_sub(1);
    }
    Ok(())
}

/// A segment, and `>` after it where it is the last of those before.
#[cycle(print)]
#[tactic(auto, using(token_core::proofs::Puts::puts, syn_path::proofs::path_laws::Around::closings))]
fn print_closing<A: Attributes, E: Value>(
    alloc: Global,
    segment: &PathSegmentOf<PathArgumentsOf<A, E>>,
    before: usize,
    gt_token: &Gt,
    style: PathStyle,
    out: &mut TokenStream,
) -> Result<(), AllocError>
    ensures ok { OnOk result
        (trees out.new ≡ trees out.old ++ printing.closing A.shown E.values style gt_token.now before segment.now) }
    ensures err { OnErr result (Extends (trees out.old) (trees out.new)) }
{
    if before == 0 {
        return print_segment(alloc, segment, style, out);
    }
    print_segment(alloc, segment, PathStyle::AsWritten, out)?;
    if before == 1 {
        gt_token.to_tokens(alloc, out)
    } else {
        Ok(())
    }
}

/// The start of arguments between angle marks: in an expression after `::`, which is printed where it is missing.
#[tactic(auto, using(token_core::proofs::Puts::puts))]
fn print_angle_start<A, E>(
    alloc: Global,
    arguments: &AngleBracketedGenericArgumentsOf<GenericArgumentOf<A, E>>,
    style: PathStyle,
    out: &mut TokenStream,
) -> Result<(), AllocError>
    ensures ok { OnOk result (trees out.new ≡ trees out.old ++ shapes.angle_start style arguments.now) }
    ensures err { OnErr result (Extends (trees out.old) (trees out.new)) }
{
    match style {
        PathStyle::Expr => TokensOrDefault(&arguments.colon2_token).append_tokens(alloc, out)?,
        PathStyle::AsWritten => arguments.colon2_token.append_tokens(alloc, out)?,
    }
    arguments.lt_token.to_tokens(alloc, out)
}

/// Before arguments in parentheses: `::` in an expression.
#[tactic(auto, using(token_core::proofs::Puts::puts))]
fn print_parenthesized_start(
    alloc: Global,
    style: PathStyle,
    out: &mut TokenStream,
) -> Result<(), AllocError>
    ensures ok { OnOk result (trees out.new ≡ trees out.old ++ shapes.parenthesized_start style) }
    ensures err { OnErr result (Extends (trees out.old) (trees out.new)) }
{
    match style {
        PathStyle::Expr => PathSep::default().to_tokens(alloc, out),
        PathStyle::AsWritten => Ok(()),
    }
}
