//! Tokens that a tree holds as they were written, and refusals that point at what was read.

ghost use Rattle.token_core.specs.Positions.{IsReached};
ghost use Rattle.token_core.specs.Reads.{Reads};
ghost use Rattle.token_core.specs.Refusal.{Made, refusal, fixed};
ghost use Rattle.syn_forms.specs.verbatim.Reading as reading;

use std::alloc::Global;
use token_core::verbatim::between;
use token_core::{Cursor, Error, ErrorKind, ParseStream, Span, TokenStream};

/// A copy of the trees from a position up to where the stream stands, as in syn's `verbatim::between`. A group that ends
/// further on is entered and not kept; an invisible group that was read to its end is kept. It is refused for want of memory alone.
#[tactic(auto, using(token_core::proofs::Places::reached_outside), unfolding(crate::specs::verbatim::Reading::since))]
pub fn since(
    alloc: Global,
    from: &Cursor<'_>,
    input: &ParseStream<'_>,
) -> Result<TokenStream, Error>
    requires reached { IsReached (reading.position input.now) from.now }
    ensures reads { Reads (reading.since from.now input.now) result input.now }
{
    Ok(between(alloc, from, &input.outside())?)
}

/// A refusal of a kind that has one text, at a token that was read, as by syn's `Error::new`.
pub fn refuse_at(alloc: Global, kind: ErrorKind, span: Span) -> Error
    ensures made { Made result (refusal kind (fixed kind) span span) }
{
    Error::named(alloc, kind, span)
}

/// A refusal of a kind that has one text, from a token on up to the last one that was read, as by syn's `Error::new2`.
pub fn refuse_since(alloc: Global, kind: ErrorKind, from: Span, input: &ParseStream<'_>) -> Error
    ensures made { Made result (refusal kind (fixed kind) from input.now.last) }
{
    Error::of(alloc, kind, kind.text(), from, input.prev_span())
}
