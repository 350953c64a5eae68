//! Two values with a comma between them. What their read promises is proved from the clauses of the read of one, whatever it reads.

ghost use Rattle.token_core.specs.Fronted.{Fronted};
ghost use Rattle.token_core.specs.Reads.{Follows, Reader, Reads};
ghost use Rattle.syn_forms.specs.declared.places.TypePlace.TheVariants.{Plus};
ghost use Rattle.syn_ty.specs.ty.Frontings as frontings;
ghost use Rattle.syn_ty.specs.ty.Knot as knot;
ghost use Rattle.syn_laws.specs.pair.Fronts as pairs;

use std::alloc::Global;
use syn_path::supplied::{Attributes, Value};
use syn_ty::ty::TypeOf;
use token_core::token::Comma;
use token_core::{Error, Parse, ParseStream};

/// Two values with a comma between them.
#[derive(Drop)]
pub struct Pair<T> {
    pub first: T,
    pub comma: Comma,
    pub second: T,
}

/// Reads two values with a comma between them. On the front of a list it promises what the type promises there, if a comma may follow a value.
#[tactic(auto, using(token_core::proofs::Suffixes::follows))]
pub fn parse_pair<T: Parse>(alloc: Global, input: &mut ParseStream<'_>) -> Result<Pair<T>, Error>
    ensures reads { (f : Reader T) → pairs.IsReadBy T.reads T.refuses f →
        Reads (pairs.read f input.old) result input.new }
    ensures within { Follows input.old input.new }
    ensures fronts { pairs.KeepsPair T.fronts input.old result input.new }
{
    let first = input.parse::<T>(alloc)?;
    let comma = input.parse::<Comma>(alloc)?;
    let second = input.parse::<T>(alloc)?;
    Ok(Pair {
        first,
        comma,
        second,
    })
}

/// Reads two types with a comma between them, before what does not go on with a type.
pub fn parse_types<A: Attributes, E: Value>(
    alloc: Global,
    input: &mut ParseStream<'_>,
) -> Result<Pair<TypeOf<A, E>>, Error>
    ensures reads { Reads (pairs.read (knot.ty A.reads E.reads Plus) input.old) result input.new }
    ensures within { Follows input.old input.new }
    ensures fronts { Fronted (pairs.fronting (frontings.ty A.Attributes E.Value Plus)) input.old result input.new }
{
    parse_pair::<TypeOf<A, E>>(alloc, input)
}
