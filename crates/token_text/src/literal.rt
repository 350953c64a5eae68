//! Literals that have a beginning and an end.

ghost use Rattle.std.specs.Prelude.{◌≡◌, MatchOption, true, false, Some, drop, chars};
ghost use Rattle.token_text.specs.Front as spec;
ghost use Rattle.token_text.specs.Pieces as pieces;

use crate::class::Class;
use crate::piece::Closing;
use crate::word;
use token_core::LitKind;

/// How many `#` may stand before the `"` of a raw string.
const MOST_HASHES: usize = 255;

/// As many `#` as stand here before `"`, and what follows that.
#[tactic(auto, using(crate::proofs::Pasts::pasts))]
fn hashes(text: &str) -> Option<(usize, &str)>
    ensures { spec.FindsBy (spec.hashes 0 (chars text.now)) text.now result }
{
    let mut count: usize = 0;
    let mut rest = text;
    while let Some((first, after)) = word::split_first(rest) {
        if first == '"' {
            return Some((count, after));
        }
        // `|` in place of `||`, for one value to prove by
        if (first != '#') | (count == MOST_HASHES) {
            return None;
        }
        count += 1;
        rest = after;
    }
    None
}

/// Whether a character literal goes on here after its quote.
#[tactic(auto, unfolding(crate::specs::Pieces::begins_char))]
fn begins_char(text: &str) -> bool
    ensures { result ≡ pieces.begins_char (chars text.now) }
{
    match word::split_first(text) {
        Some((first, rest)) => first == '\\' || (first != '\'' && word::begins(rest, '\'')),
        None => false,
    }
}

#[tactic(auto, using(crate::proofs::Pasts::pasts))]
fn with_char(kind: LitKind, text: &str) -> Option<(LitKind, Closing, &str)>
    ensures { spec.FindsOpening (spec.with_char kind (chars text.now)) text.now result }
{
    if begins_char(text) {
        Some((kind, Closing::Quote, text))
    } else {
        None
    }
}

#[tactic(auto, using(crate::proofs::Pasts::pasts))]
fn with_hashes(kind: LitKind, text: &str) -> Option<(LitKind, Closing, &str)>
    ensures { spec.FindsOpening (spec.with_hashes kind (spec.hashes 0 (chars text.now))) text.now result }
{
    let (count, rest) = hashes(text)?;
    Some((kind, Closing::Hashes(count), rest))
}

/// The beginning of a string, plain or raw, after `b` or `c`.
#[tactic(auto, using(crate::proofs::Pasts::pasts))]
fn string_after(kind: LitKind, text: &str) -> Option<(LitKind, Closing, &str)>
    ensures { spec.FindsOpening (spec.string_after kind (chars text.now)) text.now result }
{
    let (first, rest) = word::split_first(text)?;
    match first {
        '"' => Some((kind, Closing::DoubleQuote, rest)),
        'r' => with_hashes(kind, rest),
        _ => None,
    }
}

#[tactic(auto, using(crate::proofs::Pasts::pasts))]
fn after_b(text: &str) -> Option<(LitKind, Closing, &str)>
    ensures { spec.FindsOpening (spec.after_b (chars text.now)) text.now result }
{
    let (first, rest) = word::split_first(text)?;
    match first {
        '\'' => with_char(LitKind::Byte, rest),
        _ => string_after(LitKind::ByteStr, text),
    }
}

/// The kind of the literal that begins here, how it ends, and what follows its beginning.
#[tactic(auto, using(crate::proofs::Pasts::pasts), unfolding(crate::specs::Front::opening))]
pub fn opening(text: &str) -> Option<(LitKind, Closing, &str)>
    ensures { spec.FindsOpening (spec.opening (chars text.now)) text.now result }
{
    let (first, rest) = word::split_first(text)?;
    match first {
        '"' => Some((LitKind::Str, Closing::DoubleQuote, rest)),
        '\'' => with_char(LitKind::Char, rest),
        'r' => with_hashes(LitKind::Str, rest),
        'b' => after_b(rest),
        'c' => string_after(LitKind::CStr, rest),
        _ => None,
    }
}

/// What follows a string, of which this follows its opening quote.
#[tactic(auto, using(crate::proofs::Pasts::pasts))]
fn after_string(text: &str) -> Option<&str>
    ensures { spec.Finds (spec.quoted false (chars text.now)) text.now result }
{
    let mut is_escaped = false;
    let mut rest = text;
    while let Some((first, after)) = word::split_first(rest) {
        // `&` in place of `&&`, for one value to prove by
        if !is_escaped & (first == '"') {
            return Some(after);
        }
        is_escaped = !is_escaped & (first == '\\');
        rest = after;
    }
    None
}

/// What follows as many `#`, where they stand here.
#[tactic(auto, using(crate::proofs::Pasts::pasts))]
pub fn past_hashes(text: &str, count: usize) -> Option<&str>
    ensures { MatchOption result (pieces.has_hashes count (chars text.now) ≡ false)
        (λ rest. (pieces.has_hashes count (chars text.now) ≡ true) × (chars rest.now ≡ drop count (chars text.now))
        × spec.Past text.now rest.now) }
{
    let mut left = count;
    let mut rest = text;
    while left > 0 {
        let Some(after) = word::after_char(rest, '#') else {
            return None;
        };
        rest = after;
        left -= 1;
    }
    Some(rest)
}

/// What follows a raw string, of which this follows its opening quote.
#[tactic(auto, using(crate::proofs::Pasts::pasts))]
fn after_raw_string(text: &str, count: usize) -> Option<&str>
    ensures { spec.Finds (spec.hashed count (chars text.now)) text.now result }
{
    let mut rest = text;
    while let Some((first, after)) = word::split_first(rest) {
        if first == '"' {
            if let Some(end) = past_hashes(after, count) {
                return Some(end);
            }
        }
        rest = after;
    }
    None
}

/// What follows a character and its closing quote.
#[tactic(auto, using(crate::proofs::Pasts::pasts), unfolding(crate::specs::Front::one_char))]
fn after_one_char(text: &str) -> Option<&str>
    ensures { spec.Finds (spec.one_char (chars text.now)) text.now result }
{
    let (first, rest) = word::split_first(text)?;
    match first {
        '\\' => after_escaped_char(rest),
        '\'' => None,
        _ => word::after_char(rest, '\''),
    }
}

#[tactic(auto, using(crate::proofs::Pasts::pasts))]
fn after_escaped_char(text: &str) -> Option<&str>
    ensures { spec.Finds (spec.escaped_char (chars text.now)) text.now result }
{
    let (_, rest) = word::split_first(text)?;
    word::after_char(word::after_run(rest, Class::NoQuote), '\'')
}

/// What follows a literal that ends so.
#[tactic(auto, using(crate::proofs::Pasts::pasts), unfolding(crate::specs::Front::closed))]
pub fn after_closing(text: &str, closing: Closing) -> Option<&str>
    ensures { spec.Finds (spec.closed closing (chars text.now)) text.now result }
{
    match closing {
        Closing::DoubleQuote => after_string(text),
        Closing::Hashes(count) => after_raw_string(text, count),
        Closing::Quote => after_one_char(text),
    }
}
