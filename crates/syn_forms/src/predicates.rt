//! Predicates of where clauses: where they and their bounds end, and a predicate of a lifetime after its attributes.

ghost use Rattle.std.specs.Prelude.{◌≡◌, ◌<◌, length};
ghost use Rattle.token_core.specs.Lifetimes.{read_lifetime};
ghost use Rattle.token_core.specs.Reads.{Parses};
ghost use Rattle.token_core.specs.Tokens as token;
ghost use Rattle.syn_forms.specs.lists.Reading.{bounds_to};
ghost use Rattle.syn_forms.specs.nested.Below.{ahead};
ghost use Rattle.syn_forms.specs.predicates.Reading as reading;
ghost use Rattle.syn_forms.specs.tokens.Reading as tokens;

use crate::lists::End;
use crate::nested::Nested;
use crate::params::parse_held_lifetime;
use crate::tokens::{parse_any_lifetime, parse_colon, parse_comma, parse_plus};
use std::alloc::Global;
use std::marker::PhantomData;
use token_core::token::{Brace, Colon, Comma, Eq, PathSep, Plus, Semi};
use token_core::{Cursor, Error, Lifetime, ParseStream, Punctuated};

// ---- ends

/// Whether predicates and the bounds of a type end here: at the end of the group, braces, `,`, `;`, `=` or a `:` that is not
/// `::`.
#[tactic(auto, unfolding(crate::specs::predicates::Reading::ends_predicate))]
fn ends_predicate(input: &ParseStream<'_>) -> bool
    ensures { result ≡ reading.ends_predicate input.now.rest }
{
    input.is_empty()
        || input.peek::<Brace>()
        || input.peek::<Comma>()
        || input.peek::<Semi>()
        || (input.peek::<Colon>() && !input.peek::<PathSep>())
        || input.peek::<Eq>()
}

/// Whether the bounds of a lifetime end here: the same, at every `:`.
#[tactic(auto, unfolding(crate::specs::predicates::Reading::ends_lifetime_predicate))]
fn ends_lifetime_predicate(input: &ParseStream<'_>) -> bool
    ensures { result ≡ reading.ends_lifetime_predicate input.now.rest }
{
    input.is_empty()
        || input.peek::<Brace>()
        || input.peek::<Comma>()
        || input.peek::<Semi>()
        || input.peek::<Colon>()
        || input.peek::<Eq>()
}

/// The predicates of a where clause: a comma stands between them, and may follow the last.
#[derive(Clone, Copy)]
pub struct ToClauseEnd;

impl End<Comma> for ToClauseEnd {
    ghost stops = { λ end first. reading.ends_predicate };

    ghost more = { λ end. token.sees_comma };

    ghost joint = { λ end. tokens.comma };

    fn is_over(self, input: &ParseStream<'_>, first: bool) -> bool {
        ends_predicate(input)
    }

    fn goes_on(self, input: &ParseStream<'_>) -> bool {
        input.peek::<Comma>()
    }

    fn parse_joint(self, alloc: Global, input: &mut ParseStream<'_>) -> Result<Comma, Error> {
        parse_comma(alloc, input)
    }
}

/// The bounds of a predicate of a type: a `+` stands between them, and may follow the last.
#[derive(Clone, Copy)]
pub struct ToPredicateEnd;

impl End<Plus> for ToPredicateEnd {
    ghost stops = { λ end first. reading.ends_predicate };

    ghost more = { λ end. token.sees_plus };

    ghost joint = { λ end. tokens.plus };

    fn is_over(self, input: &ParseStream<'_>, first: bool) -> bool {
        ends_predicate(input)
    }

    fn goes_on(self, input: &ParseStream<'_>) -> bool {
        input.peek::<Plus>()
    }

    fn parse_joint(self, alloc: Global, input: &mut ParseStream<'_>) -> Result<Plus, Error> {
        parse_plus(alloc, input)
    }
}

/// The bounds of a predicate of a lifetime: a `+` stands between them, and may follow the last.
#[derive(Clone, Copy)]
struct ToLifetimePredicateEnd;

impl End<Plus> for ToLifetimePredicateEnd {
    ghost stops = { λ end first. reading.ends_lifetime_predicate };

    ghost more = { λ end. token.sees_plus };

    ghost joint = { λ end. tokens.plus };

    fn is_over(self, input: &ParseStream<'_>, first: bool) -> bool {
        ends_lifetime_predicate(input)
    }

    fn goes_on(self, input: &ParseStream<'_>) -> bool {
        input.peek::<Plus>()
    }

    fn parse_joint(self, alloc: Global, input: &mut ParseStream<'_>) -> Result<Plus, Error> {
        parse_plus(alloc, input)
    }
}

// ---- predicates of lifetimes

/// The lifetimes after a `:`, further on than the predicate began.
fn parse_lifetime_bounds<'a>(
    alloc: Global,
    begin: Cursor<'a>,
    input: &mut ParseStream<'a>,
) -> Result<Punctuated<Lifetime, Plus>, Error>
    requires few { ahead input.old < length begin }
    ensures parses { Parses (bounds_to read_lifetime reading.ends_lifetime_predicate) result input.old input.new }
{
    let read = parse_held_lifetime;
    Nested {
        alloc,
        of: PhantomData,
        begin,
        read,
    }
    .list(input, (), ToLifetimePredicateEnd)
}

/// `'a: 'b + 'c`: syn's `PredicateLifetime` after its attributes. The bounds end before braces, `,`, `;`, `:` and `=` and at the end
/// of the group; there may be none, and a `+` may follow the last.
///
/// Refused is what has no lifetime and `:` there, and bounds that end otherwise.
#[tactic(auto, using(token_core::proofs::Suffixes::follows, crate::proofs::nested_laws::Ahead::later), unfolding(crate::specs::predicates::Reading::lifetime_predicate))]
pub fn parse_lifetime_predicate(
    alloc: Global,
    input: &mut ParseStream<'_>,
) -> Result<(Lifetime, Colon, Punctuated<Lifetime, Plus>), Error>
    ensures parses { Parses reading.lifetime_predicate result input.old input.new }
{
    let begin = input.cursor();
    let lifetime = parse_any_lifetime(alloc, input)?;
    let colon_token = parse_colon(alloc, input)?;
    let bounds = parse_lifetime_bounds(alloc, begin, input)?;
    Ok((lifetime, colon_token, bounds))
}
