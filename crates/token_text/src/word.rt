//! Runs of characters and words at the front of a text, and raw ones.

ghost use Rattle.std.specs.Prelude.{◌≡◌, ◌∷◌, [], ◌++◌, ◌<◌, ℕ, List, length, drop, encode_utf8, chars, IfSome, MatchOption};
ghost use Rattle.token_text.specs.declared.class.Class.TheVariants.{Blank};
ghost use Rattle.token_text.specs.Characters as c;
ghost use Rattle.token_text.specs.Front as spec;
ghost use Rattle.token_text.specs.Pieces as pieces;

use crate::class::{Class, is_blank, is_letter};

/// The words that have no raw form, as they would be written.
const NOT_RAW: [&str; 5] = ["r#_", "r#crate", "r#self", "r#super", "r#Self"];

/// The first character, and the text after it.
#[tactic(auto, using(crate::proofs::Pasts::pasts))]
pub fn split_first(text: &str) -> Option<(char, &str)>
    ensures { MatchOption result ((chars text.now ≡ []) × (text.now ≡ []))
        (λ (c, rest). (chars text.now ≡ c ∷ chars rest.now) × (text.now ≡ encode_utf8 c ++ rest.now)
        × (length rest.now < length text.now) × spec.Past text.now rest.now) }
{
    let mut chars = text.chars();
    match chars.next() {
        Some(c) => Some((c, chars.as_str())),
        None => None,
    }
}

pub fn is_end(text: &str) -> bool
    ensures { result ≡ c.is_nothing (chars text.now) }
{
    split_first(text).is_none()
}

/// The text up to where its end, `rest`, begins.
#[tactic(auto, using(crate::proofs::Pasts::pasts))]
pub fn up_to<'a>(text: &'a str, rest: &str) -> &'a str
    requires { spec.Past text.now rest.now }
    ensures { text.now ≡ result.now ++ rest.now }
{
    &text[..text.len() - rest.len()]
}

/// What follows this character.
#[tactic(auto, using(crate::proofs::Pasts::pasts))]
pub fn after_char(text: &str, ch: char) -> Option<&str>
    ensures { spec.Finds (spec.after_char ch (chars text.now)) text.now result }
{
    let (first, rest) = split_first(text)?;
    if first == ch { Some(rest) } else { None }
}

/// What follows the first character, where there is one.
#[tactic(auto, using(crate::proofs::Pasts::pasts))]
pub fn after_first(text: &str) -> &str
    ensures rest { chars result.now ≡ drop 1 (chars text.now) }
    ensures past { spec.Past text.now result.now }
{
    match split_first(text) {
        Some((_, rest)) => rest,
        None => text,
    }
}

/// Whether this character stands here.
pub fn begins(text: &str, ch: char) -> bool
    ensures { result ≡ c.begins_with (pieces.is_char ch) (chars text.now) }
{
    match split_first(text) {
        Some((first, _)) => first == ch,
        None => false,
    }
}

/// What follows the characters of a class.
#[inline(always)]
#[tactic(auto, using(crate::proofs::Pasts::pasts))]
pub fn after_run(text: &str, class: Class) -> &str
    ensures rest { chars result.now ≡ c.after_run class (chars text.now) }
    ensures past { spec.Past text.now result.now }
{
    let mut rest = text;
    while let Some((ch, after)) = split_first(rest) {
        if !class.passes(ch) {
            return rest;
        }
        rest = after;
    }
    rest
}

/// What follows the blank at the front.
#[tactic(auto, using(crate::proofs::Pasts::pasts))]
fn after_blank(text: &str) -> Option<&str>
    ensures blank { spec.Finds (spec.after_blank (chars text.now)) text.now result }
    ensures less { IfSome result (λ rest. length rest.now < length text.now) }
{
    let first = text.as_bytes().first()?;
    if is_blank(*first as char) {
        Some(&text[1..])
    } else {
        None
    }
}

/// What follows the blanks at the front.
#[tactic(auto, using(crate::proofs::Pasts::pasts))]
pub fn after_blanks(text: &str) -> &str
    ensures rest { chars result.now ≡ c.after_run Blank (chars text.now) }
    ensures past { spec.Past text.now result.now }
{
    let mut rest = text;
    while let Some(after) = after_blank(rest) {
        rest = after;
    }
    rest
}

#[tactic(auto, unfolding(crate::specs::Characters::is_start, crate::specs::Characters::is_letter))]
pub fn is_start(ch: char) -> bool
    ensures { result ≡ c.is_start ch }
{
    is_letter(ch) || ch == '_'
}

/// What follows the word at the front.
#[tactic(auto, using(crate::proofs::Pasts::pasts), unfolding(crate::specs::Front::word))]
fn after_word(text: &str) -> Option<&str>
    ensures { spec.Finds (spec.word (chars text.now)) text.now result }
{
    let (first, rest) = split_first(text)?;
    if is_start(first) {
        Some(after_run(rest, Class::Continue))
    } else {
        None
    }
}

/// What follows `r#`.
#[tactic(auto, using(crate::proofs::Pasts::pasts))]
fn after_raw_mark(text: &str) -> Option<&str>
    ensures { spec.Finds (spec.raw_mark (chars text.now)) text.now result }
{
    let (r, text) = split_first(text)?;
    let (hash, text) = split_first(text)?;
    if r == 'r' && hash == '#' {
        Some(text)
    } else {
        None
    }
}

/// What follows the raw word at the front, also of a word that has no raw form.
#[tactic(auto, using(crate::proofs::Pasts::pasts), unfolding(crate::specs::Front::raw_word))]
fn after_raw_word(text: &str) -> Option<&str>
    ensures { spec.Finds (spec.raw_word (chars text.now)) text.now result }
{
    after_word(after_raw_mark(text)?)
}

#[tactic(auto, unfolding(crate::specs::Pieces::has_raw_form))]
fn has_raw_form(word: &str) -> bool
    ensures { result ≡ pieces.has_raw_form word.now }
{
    !NOT_RAW.contains(&word)
}

/// What follows the word at the front, raw or not.
#[tactic(auto, using(crate::proofs::Pasts::pasts), unfolding(crate::specs::Front::any_word))]
pub fn after_any_word(text: &str) -> Option<&str>
    ensures { spec.Finds (spec.any_word (chars text.now)) text.now result }
{
    match after_raw_word(text) {
        Some(rest) => {
            if has_raw_form(up_to(text, rest)) {
                Some(rest)
            } else {
                None
            }
        }
        None => after_word(text),
    }
}

/// What follows the suffix of a literal, where it has one.
#[tactic(auto, using(crate::proofs::Pasts::pasts), unfolding(crate::specs::Front::after_suffix))]
pub fn after_suffix(text: &str) -> &str
    ensures rest { chars result.now ≡ spec.after_suffix (chars text.now) }
    ensures past { spec.Past text.now result.now }
{
    match split_first(text) {
        Some((first, _)) if is_letter(first) => after_run(text, Class::Continue),
        Some(_) => text,
        None => text,
    }
}
