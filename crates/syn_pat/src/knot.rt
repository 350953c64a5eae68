//! The knot: the reader of patterns, which hands itself to one turn.

ghost use Rattle.syn_pat.specs.pat.Knot as knot;
ghost use Rattle.syn_pat.specs.pat.Reading.{named};
ghost use Rattle.token_core.specs.Reads.{Parses};

use crate::names::Qualifier;
use crate::pat::PatOver;
use crate::patterns::Patterns;
use crate::place::PatPlace;
use std::alloc::Global;
use std::marker::PhantomData;
use syn_forms::nested::Tree;
use syn_path::path::Arguments;
use syn_path::supplied::Subtree;
use token_core::{Boxed, Error, ParseStream};

impl<X: Subtree, G: Arguments, Q: Qualifier<G>, T: Drop> Tree<PatPlace> for PatOver<X, G, Q, T> {
    ghost read = { knot.pat X.reads (named Q.reads G.is_absent) };
}

/// Reads a pattern in its place.
#[cycle(knot)]
#[tactic(auto, using(crate::proofs::pat_laws::Knot::turns))]
pub fn parse_pat<X: Subtree, G: Arguments, Q: Qualifier<G>, T: Drop>(
    alloc: Global,
    of: PhantomData<PatOver<X, G, Q, T>>,
    input: &mut ParseStream<'_>,
    place: PatPlace,
) -> Result<Boxed<PatOver<X, G, Q, T>>, Error>
    ensures parses { Parses (knot.pat X.reads (named Q.reads G.is_absent) place) result input.old input.new }
{
    Patterns {
        alloc,
        of: PhantomData,
        begin: input.cursor(),
        patterns: parse_pat::<X, G, Q, T>,
    }
    .pat_step(input, place)
}
