//! What begins a pattern, what holds none, and refusals that name what was looked for.

ghost use Rattle.std.specs.Prelude.{◌≡◌, ◌<◌, ◌≤◌, IfOk};
ghost use Rattle.syn_forms.specs.nested.Below.{ahead};
ghost use Rattle.syn_pat.specs.pat.Reading as reading;
ghost use Rattle.token_core.specs.declared.tree.Delimiter.TheVariants as delimiter;
ghost use Rattle.token_core.specs.Groups as groups;
ghost use Rattle.token_core.specs.Looks.{unmet};
ghost use Rattle.token_core.specs.Reads.{Parses, forked, open_group};
ghost use Rattle.token_core.specs.Refusal.{Made};
ghost use Rattle.token_core.specs.Tokens as token;

use crate::pat::PatWild;
use std::alloc::Global;
use syn_path::supplied::Subtree;
use token_core::token::{
    And, Box, Brace, Bracket, Const, Crate, DotDot, DotDotDot, Lt, Minus, Mut, Not, Or, OrEq, OrOr,
    Paren, PathSep, Ref, SelfType, SelfValue, Super, Underscore,
};
use token_core::{Error, Ident, Items, Lit, ParseStream};

// ---- tests: all parts are tested, so that each answer is one value

/// Whether an identifier is at the front before what makes it a path: `::`, `!`, braces, parentheses or `..`.
#[tactic(auto, unfolding(crate::specs::pat::Reading::sees_named_path))]
fn sees_named_path(input: &ParseStream<'_>) -> bool
    ensures { result ≡ reading.sees_named_path input.now.rest }
{
    input.peek::<Ident>()
        && (input.peek2::<PathSep>()
            || (input.peek2::<Not>()
                || (input.peek2::<Brace>() || (input.peek2::<Paren>() || input.peek2::<DotDot>()))))
}

/// Whether `self` and `::` are at the front.
#[tactic(auto, unfolding(crate::specs::pat::Reading::sees_self_path))]
fn sees_self_path(input: &ParseStream<'_>) -> bool
    ensures { result ≡ reading.sees_self_path input.now.rest }
{
    input.peek::<SelfValue>() && input.peek2::<PathSep>()
}

/// Whether a pattern that begins with a path does so here.
#[tactic(auto, unfolding(crate::specs::pat::Reading::begins_path))]
pub(crate) fn begins_path(input: &ParseStream<'_>) -> bool
    ensures { result ≡ reading.begins_path input.now.rest }
{
    sees_named_path(input)
        || (sees_self_path(input)
            || (input.peek::<PathSep>()
                || (input.peek::<Lt>()
                    || (input.peek::<SelfType>()
                        || (input.peek::<Super>() || input.peek::<Crate>())))))
}

/// Whether a literal, perhaps after `-`, or a const block begins here.
#[tactic(auto, unfolding(crate::specs::pat::Reading::begins_bound))]
pub(crate) fn begins_bound(input: &ParseStream<'_>) -> bool
    ensures { result ≡ reading.begins_bound input.now.rest }
{
    input.peek::<Minus>() || (input.peek::<Lit>() || input.peek::<Const>())
}

/// Whether a binding begins here.
#[tactic(auto, unfolding(crate::specs::pat::Reading::begins_binding))]
pub(crate) fn begins_binding(input: &ParseStream<'_>) -> bool
    ensures { result ≡ reading.begins_binding input.now.rest }
{
    input.peek::<Ref>()
        || (input.peek::<Mut>() || (input.peek::<SelfValue>() || input.peek::<Ident>()))
}

/// Whether a `..` that is not `...` is at the front.
#[tactic(auto, unfolding(crate::specs::pat::Reading::sees_half_open))]
pub(crate) fn sees_half_open(input: &ParseStream<'_>) -> bool
    ensures { result ≡ reading.sees_half_open input.now.rest }
{
    input.peek::<DotDot>() && !input.peek::<DotDotDot>()
}

/// Whether a `|` that is neither `||` nor `|=` is at the front.
#[tactic(auto, unfolding(crate::specs::pat::Reading::sees_vert))]
pub(crate) fn sees_vert(input: &ParseStream<'_>) -> bool
    ensures { result ≡ reading.sees_vert input.now.rest }
{
    input.peek::<Or>() && (!input.peek::<OrOr>() && !input.peek::<OrEq>())
}

// ---- tokens: each read says that something was taken

/// `|`
#[tactic(auto, using(crate::proofs::pat_laws::Taken::past_tokens))]
pub(crate) fn parse_vert(alloc: Global, input: &mut ParseStream<'_>) -> Result<Or, Error>
    ensures parses { Parses token.bar result input.old input.new }
    ensures taken { IfOk result (λ _. ahead input.new < ahead input.old) }
{
    input.parse::<Or>(alloc)
}

/// `box`
#[tactic(auto, using(crate::proofs::pat_laws::Taken::past_tokens))]
pub(crate) fn parse_box(alloc: Global, input: &mut ParseStream<'_>) -> Result<Box, Error>
    ensures parses { Parses token.box_word result input.old input.new }
    ensures taken { IfOk result (λ _. ahead input.new < ahead input.old) }
{
    input.parse::<Box>(alloc)
}

/// `..`
#[tactic(auto, using(token_core::proofs::Suffixes::follows))]
pub(crate) fn parse_dot_dot(alloc: Global, input: &mut ParseStream<'_>) -> Result<DotDot, Error>
    ensures parses { Parses token.dot_dot result input.old input.new }
{
    input.parse::<DotDot>(alloc)
}

/// Opens braces: the stream that it answers is of what they hold.
#[tactic(auto, using(syn_forms::proofs::nested_laws::Ahead::inside_groups))]
pub(crate) fn open_braces<'a>(
    alloc: Global,
    input: &mut ParseStream<'a>,
) -> Result<(Brace, ParseStream<'a>), Error>
    ensures parses { Parses (λ s. groups.opened groups.brace (open_group delimiter.Brace groups.brace_name s))
        result input.old input.new }
    ensures inside { IfOk result (λ p. ahead p.1 < ahead input.old) }
{
    input.braced(alloc)
}

/// `_`
#[tactic(auto, using(token_core::proofs::Suffixes::follows))]
pub(crate) fn parse_wild<X: Subtree>(
    alloc: Global,
    input: &mut ParseStream<'_>,
) -> Result<PatWild<X>, Error>
    ensures parses { Parses reading.wild result input.old input.new }
{
    let underscore_token = input.parse::<Underscore>(alloc)?;
    Ok(PatWild {
        attrs: Items::new(alloc),
        underscore_token,
    })
}

// ---- refusals

/// Where no pattern begins. Before a `...` a `..` was seen, and is not named.
pub(crate) fn no_pattern(alloc: Global, input: &ParseStream<'_>) -> Error
    ensures { Made result
        (unmet (record { input = forked input.now; missing = reading.missing (token.sees_dot_dot input.now.rest) })) }
{
    let mut look = input.lookahead1();
    look.note::<Ident>();
    look.note::<PathSep>();
    look.note::<Lt>();
    look.note::<Underscore>();
    look.note::<Lit>();
    look.note::<Const>();
    look.note::<Ref>();
    look.note::<Mut>();
    look.note::<And>();
    look.note::<Paren>();
    look.note::<Bracket>();
    look.peek::<DotDot>();
    look.error(alloc)
}

/// Where no bound of a range begins.
pub(crate) fn no_bound(alloc: Global, input: &ParseStream<'_>) -> Error
    ensures { Made result (unmet (record { input = forked input.now; missing = reading.missing_bound })) }
{
    let mut look = input.lookahead1();
    look.note::<Lit>();
    look.note::<Ident>();
    look.note::<PathSep>();
    look.note::<Lt>();
    look.note::<SelfValue>();
    look.note::<SelfType>();
    look.note::<Super>();
    look.note::<Crate>();
    look.note::<Const>();
    look.error(alloc)
}
