//! The nodes of generics and where clauses.

ghost use Rattle.std.specs.Prelude.{◌≡◌, ◌++◌, OnOk};
ghost use Rattle.syn_walk.specs.walk.Generics as spec;
ghost use Rattle.syn_walk.specs.walk.Nodes.{seen};

use crate::walk::add::{add_bounds, add_lifetimes, add_params, add_type};
use crate::walk::{NodeOf, Walk};
use std::alloc::AllocError;
use syn_generics::generics::{
    GenericsOf, PredicateLifetimeOf, PredicateTypeOf, WhereClauseOf, WherePredicateOf,
};
use token_core::Items;

/// The parameters, and then the where clause.
impl<A, E> Walk<A, E> for GenericsOf<A, E> {
    ghost visits = { spec.generics };

    #[tactic(auto, using(crate::proofs::Walks::walks))]
    fn add_nodes<'a>(&'a self, out: &mut Items<NodeOf<'a, A, E>>) -> Result<(), AllocError> {
        add_params(&self.params, out)?;
        match &self.where_clause {
            None => Ok(()),
            Some(clause) => clause.add_nodes(out),
        }
    }
}

impl<A, E> Walk<A, E> for WhereClauseOf<A, E> {
    ghost visits = { spec.where_clause };

    fn add_nodes<'a>(&'a self, out: &mut Items<NodeOf<'a, A, E>>) -> Result<(), AllocError> {
        self.predicates.add_nodes(out)
    }
}

impl<A, E> Walk<A, E> for WherePredicateOf<A, E> {
    ghost visits = { spec.predicate };

    fn add_nodes<'a>(&'a self, out: &mut Items<NodeOf<'a, A, E>>) -> Result<(), AllocError> {
        match self {
            WherePredicateOf::Lifetime(predicate) => add_predicate_lifetime(predicate, out),
            WherePredicateOf::Type(predicate) => add_predicate_type(predicate, out),
        }
    }
}

#[tactic(auto, using(crate::proofs::Walks::walks))]
fn add_predicate_lifetime<'a, A, E>(
    predicate: &'a PredicateLifetimeOf<A>,
    out: &mut Items<NodeOf<'a, A, E>>,
) -> Result<(), AllocError>
    ensures { OnOk result (seen out.new ≡ seen out.old ++ spec.predicate_lifetime predicate.now) }
{
    out.push(NodeOf::Lifetime(&predicate.lifetime))?;
    add_lifetimes(&predicate.bounds, out)
}

#[tactic(auto, using(crate::proofs::Walks::walks))]
fn add_predicate_type<'a, A, E>(
    predicate: &'a PredicateTypeOf<A, E>,
    out: &mut Items<NodeOf<'a, A, E>>,
) -> Result<(), AllocError>
    ensures { OnOk result (seen out.new ≡ seen out.old ++ spec.predicate_type predicate.now) }
{
    if let Some(binder) = &predicate.lifetimes {
        add_params(&binder.lifetimes, out)?;
    }
    add_type(&predicate.bounded_ty, out)?;
    add_bounds(&predicate.bounds, out)
}
