//! Where clauses, and generics and their views, are printed.

ghost use Rattle.std.specs.Prelude.{◌≡◌, ◌++◌, OnOk, OnErr};
ghost use Rattle.token_core.specs.Prints.{Extends};
ghost use Rattle.token_core.specs.Trees.{trees};
ghost use Rattle.syn_generics.specs.generics.Printing as printing;
ghost use Rattle.syn_generics.specs.generics.Views as views;
ghost use Rattle.syn_ty.specs.generics.Shapes as shapes;
ghost use Rattle.syn_ty.specs.ty.Printing as types;

use crate::generics::{
    GenericsOf, ImplGenericsOf, PredicateLifetimeOf, PredicateTypeOf, TurbofishOf, TypeGenericsOf,
    WhereClauseOf, WherePredicateOf,
};
use std::alloc::{AllocError, Global};
use syn_path::supplied::{Attributes, Value};
use syn_ty::generics::print::{print_bound_lifetimes, print_sorted};
use syn_ty::generics::{BoundLifetimesOf, GenericParamOf, Style};
use syn_ty::ty::print::print_type;
use token_core::token::PathSep;
use token_core::{ToTokens, TokenStream, TokensOrDefault};

#[tactic(auto, using(token_core::proofs::Puts::puts))]
fn print_predicate_lifetime<A: Attributes>(
    alloc: Global,
    predicate: &PredicateLifetimeOf<A>,
    out: &mut TokenStream,
) -> Result<(), AllocError>
    ensures ok { OnOk result (trees out.new ≡ trees out.old ++ printing.predicate_lifetime_by A.shown predicate.now) }
    ensures err { OnErr result (Extends (trees out.old) (trees out.new)) }
{
    A::print_outer(alloc, &predicate.attrs, out)?;
    predicate.lifetime.to_tokens(alloc, out)?;
    predicate.colon_token.to_tokens(alloc, out)?;
    predicate.bounds.to_tokens(alloc, out)
}

impl<A: Attributes> ToTokens for PredicateLifetimeOf<A> {
    ghost print = { printing.predicate_lifetime_by A.shown };

    fn append_tokens(&self, alloc: Global, out: &mut TokenStream) -> Result<(), AllocError> {
        print_predicate_lifetime(alloc, self, out)
    }
}

#[tactic(auto, using(token_core::proofs::Puts::puts))]
fn print_predicate_type<A: Attributes, E: Value>(
    alloc: Global,
    predicate: &PredicateTypeOf<A, E>,
    out: &mut TokenStream,
) -> Result<(), AllocError>
    ensures ok { OnOk result (trees out.new ≡ trees out.old ++ printing.predicate_type A.shown E.values predicate.now) }
    ensures err { OnErr result (Extends (trees out.old) (trees out.new)) }
{
    A::print_outer(alloc, &predicate.attrs, out)?;
    print_binder(alloc, &predicate.lifetimes, out)?;
    print_type(alloc, &predicate.bounded_ty, out)?;
    predicate.colon_token.to_tokens(alloc, out)?;
    predicate.bounds.to_tokens(alloc, out)
}

/// A binder; nothing without one.
#[tactic(auto, using(token_core::proofs::Puts::puts))]
fn print_binder<A: Attributes, E: Value>(
    alloc: Global,
    binder: &Option<BoundLifetimesOf<GenericParamOf<A, E>>>,
    out: &mut TokenStream,
) -> Result<(), AllocError>
    ensures ok { OnOk result
        (trees out.new ≡ trees out.old ++ shapes.binder_by (types.param A.shown E.values) binder.now) }
    ensures err { OnErr result (Extends (trees out.old) (trees out.new)) }
{
    match binder {
        Some(binder) => print_bound_lifetimes(alloc, binder, out),
        None => Ok(()),
    }
}

/// `where` and the predicates; nothing without predicates.
#[tactic(auto, using(token_core::proofs::Puts::puts, crate::proofs::generics_laws::Prints::clauses))]
fn print_where<A: Attributes, E: Value>(
    alloc: Global,
    clause: &WhereClauseOf<A, E>,
    out: &mut TokenStream,
) -> Result<(), AllocError>
    ensures ok { OnOk result (trees out.new ≡ trees out.old ++ printing.where_clause A.shown E.values clause.now) }
    ensures err { OnErr result (Extends (trees out.old) (trees out.new)) }
{
    if clause.predicates.is_empty() {
        return Ok(());
    }
    clause.where_token.to_tokens(alloc, out)?;
    clause.predicates.to_tokens(alloc, out)
}

impl<A: Attributes, E: Value> ToTokens for PredicateTypeOf<A, E> {
    ghost print = { printing.predicate_type A.shown E.values };

    fn append_tokens(&self, alloc: Global, out: &mut TokenStream) -> Result<(), AllocError> {
        print_predicate_type(alloc, self, out)
    }
}

impl<A: Attributes, E: Value> ToTokens for WherePredicateOf<A, E> {
    ghost print = { printing.predicate A.shown E.values };

    fn append_tokens(&self, alloc: Global, out: &mut TokenStream) -> Result<(), AllocError> {
        match self {
            WherePredicateOf::Lifetime(predicate) => predicate.append_tokens(alloc, out),
            WherePredicateOf::Type(predicate) => predicate.append_tokens(alloc, out),
        }
    }
}

impl<A: Attributes, E: Value> ToTokens for WhereClauseOf<A, E> {
    ghost print = { printing.where_clause A.shown E.values };

    fn append_tokens(&self, alloc: Global, out: &mut TokenStream) -> Result<(), AllocError> {
        print_where(alloc, self, out)
    }
}

/// The parameters between `<` and `>`, lifetimes first; nothing without parameters.
#[tactic(auto, using(token_core::proofs::Puts::puts, crate::proofs::generics_laws::Views::betweens))]
fn print_between<A: Attributes, E: Value>(
    alloc: Global,
    generics: &GenericsOf<A, E>,
    style: Style,
    out: &mut TokenStream,
) -> Result<(), AllocError>
    ensures ok { OnOk result (trees out.new ≡ trees out.old ++ views.between_as A.shown E.values style generics.now) }
    ensures err { OnErr result (Extends (trees out.old) (trees out.new)) }
{
    if generics.params.is_empty() {
        return Ok(());
    }
    TokensOrDefault(&generics.lt_token).append_tokens(alloc, out)?;
    print_sorted(alloc, &generics.params, style, out)?;
    TokensOrDefault(&generics.gt_token).append_tokens(alloc, out)
}

/// The names after `::`; nothing without parameters.
#[tactic(auto, using(token_core::proofs::Puts::puts, crate::proofs::generics_laws::Views::after_seps, crate::proofs::generics_laws::Views::showns))]
fn print_turbofish<A: Attributes, E: Value>(
    alloc: Global,
    generics: &GenericsOf<A, E>,
    out: &mut TokenStream,
) -> Result<(), AllocError>
    ensures ok { OnOk result (trees out.new ≡ trees out.old ++ views.turbofish generics.now) }
    ensures err { OnErr result (Extends (trees out.old) (trees out.new)) }
{
    if generics.params.is_empty() {
        return Ok(());
    }
    PathSep::default().to_tokens(alloc, out)?;
    print_between(alloc, generics, Style::Name, out)
}

impl<A: Attributes, E: Value> ToTokens for GenericsOf<A, E> {
    ghost print = { printing.generics A.shown E.values };

    #[tactic(auto, using(crate::proofs::generics_laws::Views::showns))]
    fn append_tokens(&self, alloc: Global, out: &mut TokenStream) -> Result<(), AllocError> {
        print_between(alloc, self, Style::Whole, out)
    }
}

impl<'a, A: Attributes, E: Value> ToTokens for ImplGenericsOf<'a, A, E> {
    ghost print = { λ view. printing.generics A.shown E.values (views.stripped view.generics.now) };

    #[tactic(auto, using(crate::proofs::generics_laws::Views::showns))]
    fn append_tokens(&self, alloc: Global, out: &mut TokenStream) -> Result<(), AllocError> {
        print_between(alloc, self.generics, Style::NoDefault, out)
    }
}

impl<'a, A: Attributes, E: Value> ToTokens for TypeGenericsOf<'a, A, E> {
    ghost print = { λ view. views.names view.generics.now };

    #[tactic(auto, using(crate::proofs::generics_laws::Views::showns))]
    fn append_tokens(&self, alloc: Global, out: &mut TokenStream) -> Result<(), AllocError> {
        print_between(alloc, self.generics, Style::Name, out)
    }
}

impl<'a, A: Attributes, E: Value> ToTokens for TurbofishOf<'a, A, E> {
    ghost print = { λ view. views.turbofish view.generics.now };

    fn append_tokens(&self, alloc: Global, out: &mut TokenStream) -> Result<(), AllocError> {
        print_turbofish(alloc, self.generics, out)
    }
}
