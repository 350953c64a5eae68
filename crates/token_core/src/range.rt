//! The marks of ranges.

ghost use Rattle.token_core.specs.Fronted.{Fronted, said};
ghost use Rattle.token_core.specs.Grammars as grammars;
ghost use Rattle.token_core.specs.Headline.{Headline, Heads};
ghost use Rattle.token_core.specs.Ranges as spec;
ghost use Rattle.token_core.specs.Reads.{Reads, Gives, Fails, Parses};

use crate::error::Error;
use crate::parse::Parse;
use crate::parse_stream::ParseStream;
use crate::to_tokens::ToTokens;
use crate::token::{DotDot, DotDotDot, DotDotEq};
use crate::tree::TokenStream;
use std::alloc::{AllocError, Global};

/// Whether a range has its end.
#[derive(Clone, Copy)]
pub enum RangeLimits {
    /// `..`
    HalfOpen(DotDot),
    /// `..=`
    Closed(DotDotEq),
}

#[tactic(auto, using(crate::proofs::Suffixes::follows_self), unfolding(crate::specs::Ranges::read))]
fn parse_limits(alloc: Global, input: &mut ParseStream<'_>) -> Result<RangeLimits, Error>
    ensures parses { Parses spec.read result input.old input.new }
{
    if input.peek::<DotDotEq>() {
        return Ok(RangeLimits::Closed(input.parse::<DotDotEq>(alloc)?));
    }
    if input.peek::<DotDot>() && !input.peek::<DotDotDot>() {
        Ok(RangeLimits::HalfOpen(input.parse::<DotDot>(alloc)?))
    } else {
        Err(input.expected(alloc, "`..=` or `..`"))
    }
}

/// Reads `..=`, or `..` that isn't `...`.
impl Parse for RangeLimits {
    ghost reads = { Gives spec.read };

    ghost refuses = { Fails spec.read };

    ghost promise = { Headline grammars.limits.grammar };

    ghost fronts = { said grammars.limits };

    fn parse(alloc: Global, input: &mut ParseStream<'_>) -> Result<RangeLimits, Error> {
        parse_limits(alloc, input)
    }
}

impl RangeLimits {
    /// Reads `..=`, `..`, or `...`, which is kept as `..=`.
    pub fn parse_obsolete(alloc: Global, input: &mut ParseStream<'_>) -> Result<RangeLimits, Error>
        ensures parses { Parses spec.read_obsolete result input.old input.new }
        ensures promise { Heads grammars.obsolete_limits.grammar input.old result input.new }
        ensures fronts { Fronted grammars.obsolete_limits input.old result input.new }
    {
        parse_obsolete_limits(alloc, input)
    }
}

#[tactic(auto, using(crate::proofs::Suffixes::follows_self), unfolding(crate::specs::Ranges::read_obsolete))]
fn parse_obsolete_limits(alloc: Global, input: &mut ParseStream<'_>) -> Result<RangeLimits, Error>
    ensures parses { Parses spec.read_obsolete result input.old input.new }
{
    if input.peek::<DotDotDot>() {
        let dots = input.parse::<DotDotDot>(alloc)?;
        let spans = dots.spans;
        Ok(RangeLimits::Closed(DotDotEq { spans }))
    } else {
        parse_limits(alloc, input)
    }
}

impl ToTokens for RangeLimits {
    ghost print = { spec.print };

    fn append_tokens(&self, alloc: Global, out: &mut TokenStream) -> Result<(), AllocError> {
        match self {
            RangeLimits::HalfOpen(dots) => dots.append_tokens(alloc, out),
            RangeLimits::Closed(dots) => dots.append_tokens(alloc, out),
        }
    }
}
