//! Patterns are printed.

ghost use Rattle.std.specs.Prelude.{◌≡◌, ◌++◌, OnOk, OnErr};
ghost use Rattle.token_core.specs.Prints.{Extends};
ghost use Rattle.token_core.specs.Trees.{trees};
ghost use Rattle.syn_pat.specs.pat.Pats as spec;
ghost use Rattle.syn_pat.specs.pat.Printing as printing;
ghost use Rattle.syn_pat.specs.pat.Printing.{shown};

use crate::names::Qualifier;
use crate::pat::{
    FieldOver, FieldPatOf, GuardOver, IdentOver, OrOver, ParenOver, PatIdentOf, PatOf, PatOver,
    PatRangeBoundOf, PatRest, PatStructOf, PatWild, PathOver, RangeBoundOver, RangeOver,
    ReferenceOver, SliceOver, StructOver, TupleOver, TupleStructOver, TypedOver,
};
use std::alloc::{AllocError, Global};
use syn_attr::attr::Attribute;
use syn_attr::attr::print::print_outer;
use syn_attr::expr::Expr;
use syn_attr::expr::print::print_value;
use syn_path::path::Arguments;
use syn_path::supplied::{Place, Subtree};
use syn_ty::ty::print::{print_last_comma, print_lone_comma, print_verbatim};
use token_core::token::Comma;
use token_core::{Boxed, Punctuated, ToTokens, TokenStream};

impl<X: Subtree, G: Arguments, Q: Qualifier<G>, T: ToTokens> ToTokens for PatOver<X, G, Q, T> {
    ghost print = { printing.pat X.prints (shown Q.shown T.print) };

    fn append_tokens(&self, alloc: Global, out: &mut TokenStream) -> Result<(), AllocError> {
        print_pat(alloc, self, out)
    }
}

impl<X: Subtree, G: Arguments, Q: Qualifier<G>, T: ToTokens> ToTokens for GuardOver<X, G, Q, T> {
    ghost print = { printing.guarded X.prints (shown Q.shown T.print) };

    fn append_tokens(&self, alloc: Global, out: &mut TokenStream) -> Result<(), AllocError> {
        print_guarded(alloc, self, out)
    }
}

impl<X: Subtree, G: Arguments, Q: Qualifier<G>, T: ToTokens> ToTokens for IdentOver<X, G, Q, T> {
    ghost print = { printing.binding X.prints (shown Q.shown T.print) };

    fn append_tokens(&self, alloc: Global, out: &mut TokenStream) -> Result<(), AllocError> {
        print_binding(alloc, self, out)
    }
}

impl<X: Subtree, G: Arguments, Q: Qualifier<G>, T: ToTokens> ToTokens for OrOver<X, G, Q, T> {
    ghost print = { printing.alternatives X.prints (shown Q.shown T.print) };

    fn append_tokens(&self, alloc: Global, out: &mut TokenStream) -> Result<(), AllocError> {
        print_alternatives(alloc, self, out)
    }
}

impl<X: Subtree, G: Arguments, Q: Qualifier<G>, T: ToTokens> ToTokens for ParenOver<X, G, Q, T> {
    ghost print = { printing.paren X.prints (shown Q.shown T.print) };

    fn append_tokens(&self, alloc: Global, out: &mut TokenStream) -> Result<(), AllocError> {
        print_paren(alloc, self, out)
    }
}

impl<X: Subtree, G: Arguments, Q: Qualifier<G>> ToTokens for PathOver<X, G, Q> {
    ghost print = { printing.by_path X.prints Q.shown };

    fn append_tokens(&self, alloc: Global, out: &mut TokenStream) -> Result<(), AllocError> {
        print_by_path(alloc, self, out)
    }
}

impl<X: Subtree, G: Arguments, Q: Qualifier<G>> ToTokens for RangeOver<X, G, Q> {
    ghost print = { printing.range X.prints Q.shown };

    fn append_tokens(&self, alloc: Global, out: &mut TokenStream) -> Result<(), AllocError> {
        print_range(alloc, self, out)
    }
}

impl<X: Subtree, G: Arguments, Q: Qualifier<G>> ToTokens for RangeBoundOver<X, G, Q> {
    ghost print = { printing.range_bound X.prints Q.shown };

    fn append_tokens(&self, alloc: Global, out: &mut TokenStream) -> Result<(), AllocError> {
        match self {
            PatRangeBoundOf::Const(bound) => bound.append_tokens(alloc, out),
            PatRangeBoundOf::Lit(bound) => bound.append_tokens(alloc, out),
            PatRangeBoundOf::Path(bound) => bound.append_tokens(alloc, out),
        }
    }
}

impl<X: Subtree, G: Arguments, Q: Qualifier<G>, T: ToTokens> ToTokens
    for ReferenceOver<X, G, Q, T> {
    ghost print = { printing.reference X.prints (shown Q.shown T.print) };

    fn append_tokens(&self, alloc: Global, out: &mut TokenStream) -> Result<(), AllocError> {
        print_reference(alloc, self, out)
    }
}

impl<X: Subtree> ToTokens for PatRest<X> {
    ghost print = { printing.rest X.prints };

    fn append_tokens(&self, alloc: Global, out: &mut TokenStream) -> Result<(), AllocError> {
        print_rest(alloc, self, out)
    }
}

impl<X: Subtree, G: Arguments, Q: Qualifier<G>, T: ToTokens> ToTokens for SliceOver<X, G, Q, T> {
    ghost print = { printing.slice X.prints (shown Q.shown T.print) };

    fn append_tokens(&self, alloc: Global, out: &mut TokenStream) -> Result<(), AllocError> {
        print_slice(alloc, self, out)
    }
}

impl<X: Subtree, G: Arguments, Q: Qualifier<G>, T: ToTokens> ToTokens for StructOver<X, G, Q, T> {
    ghost print = { printing.fielded X.prints (shown Q.shown T.print) };

    fn append_tokens(&self, alloc: Global, out: &mut TokenStream) -> Result<(), AllocError> {
        print_struct(alloc, self, out)
    }
}

impl<X: Subtree, G: Arguments, Q: Qualifier<G>, T: ToTokens> ToTokens for TupleOver<X, G, Q, T> {
    ghost print = { printing.tuple X.prints (shown Q.shown T.print) };

    fn append_tokens(&self, alloc: Global, out: &mut TokenStream) -> Result<(), AllocError> {
        print_tuple(alloc, self, out)
    }
}

impl<X: Subtree, G: Arguments, Q: Qualifier<G>, T: ToTokens> ToTokens
    for TupleStructOver<X, G, Q, T> {
    ghost print = { printing.tuple_struct X.prints (shown Q.shown T.print) };

    fn append_tokens(&self, alloc: Global, out: &mut TokenStream) -> Result<(), AllocError> {
        print_tuple_struct(alloc, self, out)
    }
}

impl<X: Subtree, G: Arguments, Q: Qualifier<G>, T: ToTokens> ToTokens for TypedOver<X, G, Q, T> {
    ghost print = { printing.typed X.prints (shown Q.shown T.print) };

    fn append_tokens(&self, alloc: Global, out: &mut TokenStream) -> Result<(), AllocError> {
        print_typed(alloc, self, out)
    }
}

impl<X: Subtree> ToTokens for PatWild<X> {
    ghost print = { printing.wild X.prints };

    fn append_tokens(&self, alloc: Global, out: &mut TokenStream) -> Result<(), AllocError> {
        print_wild(alloc, self, out)
    }
}

impl<X: Subtree, G: Arguments, Q: Qualifier<G>, T: ToTokens> ToTokens for FieldOver<X, G, Q, T> {
    ghost print = { printing.field X.prints (shown Q.shown T.print) };

    fn append_tokens(&self, alloc: Global, out: &mut TokenStream) -> Result<(), AllocError> {
        print_field(alloc, self, out)
    }
}

/// Appends a pattern; refused, what stood before is kept.
#[cycle(print)]
#[tactic(auto, using(token_core::proofs::Puts::puts))]
pub fn print_pat<X: Subtree, G: Arguments, Q: Qualifier<G>, T: ToTokens>(
    alloc: Global,
    pat: &PatOver<X, G, Q, T>,
    out: &mut TokenStream,
) -> Result<(), AllocError>
    ensures ok { OnOk result (trees out.new ≡ trees out.old ++ printing.pat X.prints (shown Q.shown T.print) pat.now) }
    ensures err { OnErr result (Extends (trees out.old) (trees out.new)) }
{
    match pat {
        PatOf::Const(pat) => pat.to_tokens(alloc, out),
        PatOf::Guard(pat) => print_guarded(alloc, pat, out),
        PatOf::Ident(pat) => print_binding(alloc, pat, out),
        PatOf::Lit(pat) => pat.to_tokens(alloc, out),
        PatOf::Macro(pat) => pat.to_tokens(alloc, out),
        PatOf::Or(pat) => print_alternatives(alloc, pat, out),
        PatOf::Paren(pat) => print_paren(alloc, pat, out),
        PatOf::Path(pat) => pat.to_tokens(alloc, out),
        PatOf::Range(pat) => pat.to_tokens(alloc, out),
        PatOf::Reference(pat) => print_reference(alloc, pat, out),
        PatOf::Rest(pat) => print_rest(alloc, pat, out),
        PatOf::Slice(pat) => print_slice(alloc, pat, out),
        PatOf::Struct(pat) => print_struct(alloc, pat, out),
        PatOf::Tuple(pat) => print_tuple(alloc, pat, out),
        PatOf::TupleStruct(pat) => print_tuple_struct(alloc, pat, out),
        PatOf::Type(pat) => print_typed(alloc, pat, out),
        PatOf::Verbatim(tokens) => print_verbatim(alloc, tokens, out),
        PatOf::Wild(pat) => print_wild(alloc, pat, out),
    }
}

#[cycle(print)]
#[tactic(auto, using(token_core::proofs::Puts::puts))]
fn print_guarded<X: Subtree, G: Arguments, Q: Qualifier<G>, T: ToTokens>(
    alloc: Global,
    pat: &GuardOver<X, G, Q, T>,
    out: &mut TokenStream,
) -> Result<(), AllocError>
    ensures ok { OnOk result
        (trees out.new ≡ trees out.old ++ printing.guarded X.prints (shown Q.shown T.print) pat.now) }
    ensures err { OnErr result (Extends (trees out.old) (trees out.new)) }
{
    print_outer(alloc, &pat.attrs, out)?;
    print_pat(alloc, pat.pat.get(), out)?;
    pat.if_token.to_tokens(alloc, out)?;
    print_guard(alloc, pat.guard.get(), out)
}

#[cycle(print)]
#[tactic(auto, using(token_core::proofs::Puts::puts))]
fn print_binding<X: Subtree, G: Arguments, Q: Qualifier<G>, T: ToTokens>(
    alloc: Global,
    pat: &IdentOver<X, G, Q, T>,
    out: &mut TokenStream,
) -> Result<(), AllocError>
    ensures ok { OnOk result
        (trees out.new ≡ trees out.old ++ printing.binding X.prints (shown Q.shown T.print) pat.now) }
    ensures err { OnErr result (Extends (trees out.old) (trees out.new)) }
{
    print_name(alloc, pat, out)?;
    match &pat.subpat {
        Some((at_token, subpat)) => {
            at_token.to_tokens(alloc, out)?;
            print_pat(alloc, subpat.get(), out)
        }
        None => Ok(()),
    }
}

#[cycle(print)]
#[tactic(auto, using(token_core::proofs::Puts::puts))]
fn print_alternatives<X: Subtree, G: Arguments, Q: Qualifier<G>, T: ToTokens>(
    alloc: Global,
    pat: &OrOver<X, G, Q, T>,
    out: &mut TokenStream,
) -> Result<(), AllocError>
    ensures ok { OnOk result
        (trees out.new ≡ trees out.old ++ printing.alternatives X.prints (shown Q.shown T.print) pat.now) }
    ensures err { OnErr result (Extends (trees out.old) (trees out.new)) }
{
    print_outer(alloc, &pat.attrs, out)?;
    pat.leading_vert.append_tokens(alloc, out)?;
    print_cases(alloc, pat, out)
}

#[cycle(print)]
#[tactic(auto, using(token_core::proofs::Puts::puts))]
fn print_paren<X: Subtree, G: Arguments, Q: Qualifier<G>, T: ToTokens>(
    alloc: Global,
    pat: &ParenOver<X, G, Q, T>,
    out: &mut TokenStream,
) -> Result<(), AllocError>
    ensures ok { OnOk result
        (trees out.new ≡ trees out.old ++ printing.paren X.prints (shown Q.shown T.print) pat.now) }
    ensures err { OnErr result (Extends (trees out.old) (trees out.new)) }
{
    print_outer(alloc, &pat.attrs, out)?;
    let mut content = TokenStream::new(alloc);
    print_pat(alloc, pat.pat.get(), &mut content)?;
    pat.paren_token.surround(content, out)
}

#[cycle(print)]
#[tactic(auto, using(token_core::proofs::Puts::puts))]
fn print_reference<X: Subtree, G: Arguments, Q: Qualifier<G>, T: ToTokens>(
    alloc: Global,
    pat: &ReferenceOver<X, G, Q, T>,
    out: &mut TokenStream,
) -> Result<(), AllocError>
    ensures ok { OnOk result
        (trees out.new ≡ trees out.old ++ printing.reference X.prints (shown Q.shown T.print) pat.now) }
    ensures err { OnErr result (Extends (trees out.old) (trees out.new)) }
{
    print_outer(alloc, &pat.attrs, out)?;
    pat.and_token.to_tokens(alloc, out)?;
    pat.mutability.append_tokens(alloc, out)?;
    print_pat(alloc, pat.pat.get(), out)
}

#[cycle(print)]
#[tactic(auto, using(token_core::proofs::Puts::puts))]
fn print_slice<X: Subtree, G: Arguments, Q: Qualifier<G>, T: ToTokens>(
    alloc: Global,
    pat: &SliceOver<X, G, Q, T>,
    out: &mut TokenStream,
) -> Result<(), AllocError>
    ensures ok { OnOk result
        (trees out.new ≡ trees out.old ++ printing.slice X.prints (shown Q.shown T.print) pat.now) }
    ensures err { OnErr result (Extends (trees out.old) (trees out.new)) }
{
    print_outer(alloc, &pat.attrs, out)?;
    let mut content = TokenStream::new(alloc);
    print_elements(alloc, &pat.elems, &mut content)?;
    pat.bracket_token.surround(content, out)
}

#[tactic(auto, using(token_core::proofs::Puts::puts))]
fn print_by_path<X: Subtree, G: Arguments, Q: Qualifier<G>>(
    alloc: Global,
    pat: &PathOver<X, G, Q>,
    out: &mut TokenStream,
) -> Result<(), AllocError>
    ensures ok { OnOk result (trees out.new ≡ trees out.old ++ printing.by_path X.prints Q.shown pat.now) }
    ensures err { OnErr result (Extends (trees out.old) (trees out.new)) }
{
    print_outer(alloc, &pat.attrs, out)?;
    Q::print_path(alloc, &pat.qself, &pat.path, out)
}

#[tactic(auto, using(token_core::proofs::Puts::puts))]
fn print_range<X: Subtree, G: Arguments, Q: Qualifier<G>>(
    alloc: Global,
    pat: &RangeOver<X, G, Q>,
    out: &mut TokenStream,
) -> Result<(), AllocError>
    ensures ok { OnOk result (trees out.new ≡ trees out.old ++ printing.range X.prints Q.shown pat.now) }
    ensures err { OnErr result (Extends (trees out.old) (trees out.new)) }
{
    print_outer(alloc, &pat.attrs, out)?;
    print_bound(alloc, &pat.start, out)?;
    pat.limits.to_tokens(alloc, out)?;
    print_bound(alloc, &pat.end, out)
}

/// A bound that is there.
#[tactic(auto, using(token_core::proofs::Puts::puts))]
fn print_bound<X: Subtree, G: Arguments, Q: Qualifier<G>>(
    alloc: Global,
    bound: &Option<Boxed<RangeBoundOver<X, G, Q>>>,
    out: &mut TokenStream,
) -> Result<(), AllocError>
    ensures ok { OnOk result (trees out.new ≡ trees out.old ++ printing.optional_bound X.prints Q.shown bound.now) }
    ensures err { OnErr result (Extends (trees out.old) (trees out.new)) }
{
    match bound {
        Some(bound) => bound.get().to_tokens(alloc, out),
        None => Ok(()),
    }
}

#[cycle(print)]
#[tactic(auto, using(token_core::proofs::Puts::puts))]
fn print_struct<X: Subtree, G: Arguments, Q: Qualifier<G>, T: ToTokens>(
    alloc: Global,
    pat: &StructOver<X, G, Q, T>,
    out: &mut TokenStream,
) -> Result<(), AllocError>
    ensures ok { OnOk result
        (trees out.new ≡ trees out.old ++ printing.fielded X.prints (shown Q.shown T.print) pat.now) }
    ensures err { OnErr result (Extends (trees out.old) (trees out.new)) }
{
    print_outer(alloc, &pat.attrs, out)?;
    Q::print_path(alloc, &pat.qself, &pat.path, out)?;
    let mut content = TokenStream::new(alloc);
    print_fields(alloc, pat, &mut content)?;
    print_struct_rest(alloc, pat, &mut content)?;
    pat.brace_token.surround(content, out)
}

/// Each field of a struct's pattern with its comma.
#[cycle(print)]
#[tactic(auto, using(token_core::proofs::Puts::puts))]
fn print_fields<X: Subtree, G: Arguments, Q: Qualifier<G>, T: ToTokens>(
    alloc: Global,
    pat: &StructOver<X, G, Q, T>,
    out: &mut TokenStream,
) -> Result<(), AllocError>
    ensures ok { OnOk result
        (trees out.new ≡ trees out.old ++ printing.fields X.prints (shown Q.shown T.print) pat.now.fields) }
    ensures err { OnErr result (Extends (trees out.old) (trees out.new)) }
{
    let mut commas = pat.fields.marks().iter();
    for field in pat.fields.values() {
        print_member(alloc, field, out)?;
        print_pat(alloc, field.pat.get(), out)?;
        commas.next().append_tokens(alloc, out)?;
    }
    Ok(())
}

#[cycle(print)]
#[tactic(auto, using(token_core::proofs::Puts::puts))]
fn print_tuple<X: Subtree, G: Arguments, Q: Qualifier<G>, T: ToTokens>(
    alloc: Global,
    pat: &TupleOver<X, G, Q, T>,
    out: &mut TokenStream,
) -> Result<(), AllocError>
    ensures ok { OnOk result
        (trees out.new ≡ trees out.old ++ printing.tuple X.prints (shown Q.shown T.print) pat.now) }
    ensures err { OnErr result (Extends (trees out.old) (trees out.new)) }
{
    print_outer(alloc, &pat.attrs, out)?;
    let mut content = TokenStream::new(alloc);
    print_elements(alloc, &pat.elems, &mut content)?;
    let is_rest = begins_with_rest(&pat.elems);
    print_tuple_comma(alloc, &pat.elems, is_rest, &mut content)?;
    pat.paren_token.surround(content, out)
}

#[cycle(print)]
#[tactic(auto, using(token_core::proofs::Puts::puts))]
fn print_tuple_struct<X: Subtree, G: Arguments, Q: Qualifier<G>, T: ToTokens>(
    alloc: Global,
    pat: &TupleStructOver<X, G, Q, T>,
    out: &mut TokenStream,
) -> Result<(), AllocError>
    ensures ok { OnOk result
        (trees out.new ≡ trees out.old ++ printing.tuple_struct X.prints (shown Q.shown T.print) pat.now) }
    ensures err { OnErr result (Extends (trees out.old) (trees out.new)) }
{
    print_outer(alloc, &pat.attrs, out)?;
    Q::print_path(alloc, &pat.qself, &pat.path, out)?;
    let mut content = TokenStream::new(alloc);
    print_elements(alloc, &pat.elems, &mut content)?;
    pat.paren_token.surround(content, out)
}

/// Appends a pattern with its type; refused, what stood before is kept.
#[cycle(print)]
#[tactic(auto, using(token_core::proofs::Puts::puts))]
pub fn print_typed<X: Subtree, G: Arguments, Q: Qualifier<G>, T: ToTokens>(
    alloc: Global,
    pat: &TypedOver<X, G, Q, T>,
    out: &mut TokenStream,
) -> Result<(), AllocError>
    ensures ok { OnOk result
        (trees out.new ≡ trees out.old ++ printing.typed X.prints (shown Q.shown T.print) pat.now) }
    ensures err { OnErr result (Extends (trees out.old) (trees out.new)) }
{
    print_outer(alloc, &pat.attrs, out)?;
    print_pat(alloc, pat.pat.get(), out)?;
    pat.colon_token.to_tokens(alloc, out)?;
    pat.ty.get().append_tokens(alloc, out)
}

/// Each element with its comma.
#[cycle(print)]
#[tactic(auto, using(token_core::proofs::Puts::puts))]
fn print_elements<X: Subtree, G: Arguments, Q: Qualifier<G>, T: ToTokens>(
    alloc: Global,
    elems: &Punctuated<PatOver<X, G, Q, T>, Comma>,
    out: &mut TokenStream,
) -> Result<(), AllocError>
    ensures ok { OnOk result
        (trees out.new ≡ trees out.old ++ printing.list X.prints (shown Q.shown T.print) elems.now) }
    ensures err { OnErr result (Extends (trees out.old) (trees out.new)) }
{
    let mut commas = elems.marks().iter();
    for element in elems.values() {
        print_pat(alloc, element, out)?;
        commas.next().append_tokens(alloc, out)?;
    }
    Ok(())
}

/// Each of the alternatives with its `|`.
#[cycle(print)]
#[tactic(auto, using(token_core::proofs::Puts::puts))]
fn print_cases<X: Subtree, G: Arguments, Q: Qualifier<G>, T: ToTokens>(
    alloc: Global,
    pat: &OrOver<X, G, Q, T>,
    out: &mut TokenStream,
) -> Result<(), AllocError>
    ensures ok { OnOk result
        (trees out.new ≡ trees out.old ++ printing.list X.prints (shown Q.shown T.print) pat.now.cases) }
    ensures err { OnErr result (Extends (trees out.old) (trees out.new)) }
{
    let mut marks = pat.cases.marks().iter();
    for case in pat.cases.values() {
        print_pat(alloc, case, out)?;
        marks.next().append_tokens(alloc, out)?;
    }
    Ok(())
}

#[tactic(auto, using(token_core::proofs::Puts::puts))]
fn print_rest<X: Subtree>(
    alloc: Global,
    pat: &PatRest<X>,
    out: &mut TokenStream,
) -> Result<(), AllocError>
    ensures ok { OnOk result (trees out.new ≡ trees out.old ++ printing.rest X.prints pat.now) }
    ensures err { OnErr result (Extends (trees out.old) (trees out.new)) }
{
    print_outer(alloc, &pat.attrs, out)?;
    pat.dot2_token.to_tokens(alloc, out)
}

#[tactic(auto, using(token_core::proofs::Puts::puts))]
fn print_wild<X: Subtree>(
    alloc: Global,
    pat: &PatWild<X>,
    out: &mut TokenStream,
) -> Result<(), AllocError>
    ensures ok { OnOk result (trees out.new ≡ trees out.old ++ printing.wild X.prints pat.now) }
    ensures err { OnErr result (Extends (trees out.old) (trees out.new)) }
{
    print_outer(alloc, &pat.attrs, out)?;
    pat.underscore_token.to_tokens(alloc, out)
}

/// A binding before its `@`.
#[tactic(auto, using(token_core::proofs::Puts::puts))]
fn print_name<P, X: Subtree>(
    alloc: Global,
    pat: &PatIdentOf<P, Attribute<X>>,
    out: &mut TokenStream,
) -> Result<(), AllocError>
    ensures ok { OnOk result (trees out.new ≡ trees out.old ++ printing.name X.prints pat.now) }
    ensures err { OnErr result (Extends (trees out.old) (trees out.new)) }
{
    print_outer(alloc, &pat.attrs, out)?;
    pat.by_ref.append_tokens(alloc, out)?;
    pat.mutability.append_tokens(alloc, out)?;
    pat.ident.to_tokens(alloc, out)
}

/// A field before its pattern: its member and colon, if it has a colon.
#[tactic(auto, using(token_core::proofs::Puts::puts))]
fn print_member<P, X: Subtree>(
    alloc: Global,
    field: &FieldPatOf<P, Attribute<X>>,
    out: &mut TokenStream,
) -> Result<(), AllocError>
    ensures ok { OnOk result (trees out.new ≡ trees out.old ++ printing.member X.prints field.now) }
    ensures err { OnErr result (Extends (trees out.old) (trees out.new)) }
{
    print_outer(alloc, &field.attrs, out)?;
    match &field.colon_token {
        Some(colon) => {
            field.member.to_tokens(alloc, out)?;
            colon.to_tokens(alloc, out)
        }
        None => Ok(()),
    }
}

#[tactic(auto, using(token_core::proofs::Puts::puts))]
fn print_field<X: Subtree, G: Arguments, Q: Qualifier<G>, T: ToTokens>(
    alloc: Global,
    field: &FieldOver<X, G, Q, T>,
    out: &mut TokenStream,
) -> Result<(), AllocError>
    ensures ok { OnOk result
        (trees out.new ≡ trees out.old ++ printing.field X.prints (shown Q.shown T.print) field.now) }
    ensures err { OnErr result (Extends (trees out.old) (trees out.new)) }
{
    print_member(alloc, field, out)?;
    print_pat(alloc, field.pat.get(), out)
}

/// The `..` of a struct's pattern, after a comma that sets it apart from the last field.
#[tactic(auto, using(token_core::proofs::Puts::puts))]
fn print_struct_rest<P, Q, R, X: Subtree>(
    alloc: Global,
    pat: &PatStructOf<P, Attribute<X>, R, Q>,
    out: &mut TokenStream,
) -> Result<(), AllocError>
    ensures ok { OnOk result (trees out.new ≡ trees out.old ++ printing.struct_rest X.prints pat.now) }
    ensures err { OnErr result (Extends (trees out.old) (trees out.new)) }
{
    match &pat.rest {
        Some(rest) => {
            print_last_comma(alloc, &pat.fields, Comma::default(), out)?;
            print_rest(alloc, rest, out)
        }
        None => Ok(()),
    }
}

/// Whether the first element is `..`.
#[tactic(auto, using(crate::proofs::pat_laws::Commas::firsts))]
fn begins_with_rest<X, G, Q, T>(elems: &Punctuated<PatOver<X, G, Q, T>, Comma>) -> bool
    ensures { result ≡ printing.begins spec.is_rest elems.now.0 }
{
    match elems.first() {
        Some(pat) => pat.is_rest(),
        None => false,
    }
}

/// A comma after a lone element that has none, which sets the tuple apart from a pattern in parentheses; `(..)` is a tuple
/// without one.
#[tactic(auto, using(token_core::proofs::Puts::puts))]
fn print_tuple_comma<T>(
    alloc: Global,
    elems: &Punctuated<T, Comma>,
    is_rest: bool,
    out: &mut TokenStream,
) -> Result<(), AllocError>
    ensures ok { OnOk result (trees out.new ≡ trees out.old ++ printing.comma_unless is_rest elems.now.0 elems.now.1) }
    ensures err { OnErr result (Extends (trees out.old) (trees out.new)) }
{
    if is_rest {
        Ok(())
    } else {
        print_lone_comma(alloc, elems, out)
    }
}

/// The guard of a pattern: the supplied subtree in this place, and anything else as it prints as a value.
#[tactic(auto, using(token_core::proofs::Puts::puts, syn_attr::proofs::attr_laws::Prints::places))]
fn print_guard<X: Subtree>(
    alloc: Global,
    guard: &Expr<X>,
    out: &mut TokenStream,
) -> Result<(), AllocError>
    ensures ok { OnOk result (trees out.new ≡ trees out.old ++ printing.guard X.prints guard.now) }
    ensures err { OnErr result (Extends (trees out.old) (trees out.new)) }
{
    match guard {
        Expr::Other(tree) => tree.print(alloc, Place::Guard, out),
        _ => print_value(alloc, guard, out),
    }
}
