//! What a string literal holds.

ghost use Rattle.std.specs.Prelude.{◌≡◌, ◌⊎◌, ◌++◌, [], ◌≤◌, Some, None, length, IfOk, IfErr, OnOk, replicate, string_bytes, encode_utf8, chars};
ghost use Rattle.token_core.specs.Refusal.{Stored, custom, out_of_memory};
ghost use Rattle.token_core.specs.Lits as lits;
ghost use Rattle.token_core.specs.declared.tree.LitKind.TheVariants.{Str};
ghost use Rattle.token_text.specs.Front as front;
ghost use Rattle.token_text.specs.Strings as spec;

use crate::escape::{after_closing, shown};
use crate::literal::opening;
use crate::piece::Closing;
use crate::word;
use std::alloc::{AllocError, Global};
use token_core::{Error, ErrorKind, LitKind, LitStr, Span};

/// What a string literal holds.
#[derive(Drop)]
pub struct Content<'a> {
    pub held: Held,
    /// Where its closing quote stands.
    pub closing: Span,
    pub suffix: &'a str,
}

/// The characters that a string holds.
#[derive(Drop)]
pub struct Held {
    pub text: String,
    /// The place of the character of each byte.
    pub places: Vec<Span>,
}

impl Held {
    fn new(alloc: Global) -> Held
        ensures { (string_bytes result.text ≡ []) × (result.places.items ≡ []) }
    {
        Held {
            text: String::new(alloc),
            places: Vec::new(alloc),
        }
    }

    fn push(&mut self, ch: char, place: Span) -> Result<(), AllocError>
        ensures text { OnOk result (string_bytes self.new.text ≡ string_bytes self.old.text ++ encode_utf8 ch) }
        ensures places { OnOk result
            (self.new.places.items ≡ self.old.places.items ++ replicate (length (encode_utf8 ch)) place) }
    {
        self.text.push(ch)?;
        push_times(&mut self.places, place, ch.len_utf8())
    }

    /// Puts in a character that was found, if one was.
    fn add(&mut self, found: Option<char>, place: Span) -> Result<(), AllocError>
        ensures { OnOk result (spec.Adds found place (string_bytes self.old.text) self.old.places.items
            (string_bytes self.new.text) self.new.places.items) }
    {
        match found {
            Some(ch) => self.push(ch, place),
            None => Ok(()),
        }
    }
}

#[tactic(auto, using(crate::proofs::Escapes::one_more))]
fn push_times(places: &mut Vec<Span>, place: Span, count: usize) -> Result<(), AllocError>
    ensures { OnOk result (places.new.items ≡ places.old.items ++ replicate count place) }
{
    let mut left = count;
    while left > 0 {
        places.push(place)?;
        left -= 1;
    }
    Ok(())
}

/// A place in the literal's text: in that which the literal stands in, where it stands in one, and else the literal's.
#[tactic(auto, using(crate::proofs::StringLaws::insides))]
pub fn inside(lit: &LitStr, from: usize, to: usize) -> Span
    requires { (from ≤ length lit.now.text) × (to ≤ length lit.now.text) }
    ensures { result ≡ spec.inside lit.now from to }
{
    let Span { lo, hi } = lit.span;
    if lo <= hi && hi - lo == lit.text().len() {
        Span::new(lo + from, lo + to)
    } else {
        lit.span
    }
}

/// Where this end of the literal's text begins.
#[tactic(auto, using(crate::proofs::StringLaws::offset_is))]
pub fn offset(lit: &LitStr, rest: &str) -> usize
    requires { front.Past lit.now.text rest.now }
    ensures gives { result ≡ spec.offset lit.now (chars rest.now) }
    ensures within { result ≤ length lit.now.text }
{
    word::up_to(lit.text(), rest).len()
}

/// From where this end of the literal's text begins to where that one does.
fn between(lit: &LitStr, rest: &str, after: &str) -> Span
    requires { front.Past lit.now.text rest.now × front.Past lit.now.text after.now }
    ensures { result ≡ spec.between lit.now (chars rest.now) (chars after.now) }
{
    let from = offset(lit, rest);
    let to = offset(lit, after);
    inside(lit, from, to)
}

fn is_str(kind: LitKind) -> bool
    ensures { result ≡ lits.is_str kind }
{
    match kind {
        LitKind::Str => true,
        LitKind::ByteStr => false,
        LitKind::CStr => false,
        LitKind::Byte => false,
        LitKind::Char => false,
        LitKind::Int => false,
        LitKind::Float => false,
    }
}

/// How a string ends, and what follows its beginning.
fn opened(text: &str) -> Option<(Closing, &str)>
    ensures { spec.FindsString (front.opening (chars text.now)) text.now result }
{
    match opening(text) {
        Some((kind, closing, body)) => {
            if is_str(kind) {
                Some((closing, body))
            } else {
                None
            }
        }
        None => None,
    }
}

/// Takes what the literal holds from `body` on, up to its end or to what is malformed.
#[tactic(auto, using(crate::proofs::Pasts::pasts))]
fn take_held<'a>(
    lit: &'a LitStr,
    body: &'a str,
    closing: Closing,
    held: &mut Held,
) -> Result<&'a str, AllocError>
    requires past { front.Past lit.now.text body.now }
    requires none { (string_bytes held.old.text ≡ []) × (held.old.places.items ≡ []) }
    ensures taken { IfOk result (λ rest. spec.Taken lit.now closing (chars body.now) rest.now
        (string_bytes held.new.text) held.new.places.items) }
    ensures stops { IfOk result
        (λ rest. (spec.shown closing (chars rest.now) ≡ None) × front.Past lit.now.text rest.now) }
{
    let mut rest = body;
    while let Some((found, after)) = shown(rest, closing) {
        held.add(found, between(lit, rest, after))?;
        rest = after;
    }
    Ok(rest)
}

/// What the literal holds, or why it is no string.
pub fn read_content(alloc: Global, lit: &LitStr) -> Result<Content<'_>, Error>
    ensures found { IfOk result
        (λ c. spec.Found lit.now (string_bytes c.held.text) c.held.places.items c.closing (chars c.suffix.now)
        × front.Past lit.now.text c.suffix.now) }
    ensures malformed { IfErr result (λ e. (e ≡ out_of_memory) ⊎ spec.Malformed lit.now e) }
{
    match opened(lit.text()) {
        Some((closing, body)) => read_body(alloc, lit, closing, body),
        None => Err(no_string(alloc, lit)),
    }
}

/// The same, where `body` follows the beginning of a string.
#[tactic(auto, using(crate::proofs::Pasts::pasts))]
fn read_body<'a>(
    alloc: Global,
    lit: &'a LitStr,
    closing: Closing,
    body: &'a str,
) -> Result<Content<'a>, Error>
    requires opens { front.opening (chars lit.now.text) ≡ Some (Str, closing, chars body.now) }
    requires past { front.Past lit.now.text body.now }
    ensures found { IfOk result
        (λ c. spec.Found lit.now (string_bytes c.held.text) c.held.places.items c.closing (chars c.suffix.now)
        × front.Past lit.now.text c.suffix.now) }
    ensures malformed { IfErr result (λ e. (e ≡ out_of_memory) ⊎ spec.Malformed lit.now e) }
{
    let mut held = Held::new(alloc);
    let rest = take_held(lit, body, closing, &mut held)?;
    let Some(suffix) = after_closing(rest, closing) else {
        return Err(stuck(alloc, lit, rest));
    };
    if !word::is_end(word::after_suffix(suffix)) {
        return Err(no_string(alloc, lit));
    }
    let closing = between(lit, rest, suffix);
    Ok(Content {
        held,
        closing,
        suffix,
    })
}

fn no_string(alloc: Global, lit: &LitStr) -> Error
    ensures { Stored result (spec.no_string lit.now) }
{
    Error::of(
        alloc,
        ErrorKind::Custom,
        "expected string literal",
        lit.span,
        lit.span,
    )
}

/// What is wrong with an escape, of which this follows the backslash.
#[tactic(auto, unfolding(crate::specs::Strings::escape_text))]
fn escape_text(ch: char) -> &'static str
    ensures { result.now ≡ spec.escape_text ch }
{
    match ch {
        'x' => "expected two hexadecimal digits up to 7F after `\\x`",
        'u' => "expected the number of a character in braces after `\\u`",
        _ => "unknown escape",
    }
}

/// Why the string neither goes on nor ends at `rest`.
#[tactic(auto, using(crate::proofs::Pasts::pasts))]
fn stuck(alloc: Global, lit: &LitStr, rest: &str) -> Error
    requires { front.Past lit.now.text rest.now }
    ensures { Stored result (spec.stuck lit.now (chars rest.now)) }
{
    let Some((first, after)) = word::split_first(rest) else {
        return no_string(alloc, lit);
    };
    if first == '\r' {
        let place = between(lit, rest, after);
        return malformed(alloc, "carriage return without a line feed", place);
    }
    bad_escape(alloc, lit, rest, after)
}

/// What is wrong with the escape that begins at `from`, of which `after` follows the backslash.
#[tactic(auto, using(crate::proofs::Pasts::pasts))]
fn bad_escape(alloc: Global, lit: &LitStr, from: &str, after: &str) -> Error
    requires { front.Past lit.now.text from.now × front.Past lit.now.text after.now }
    ensures { Stored result (spec.bad_escape lit.now (chars from.now) (chars after.now)) }
{
    match word::split_first(after) {
        Some((ch, end)) => malformed(alloc, escape_text(ch), between(lit, from, end)),
        None => no_string(alloc, lit),
    }
}

/// A refusal of what the literal holds, in the caller's own words.
pub fn malformed(alloc: Global, text: &str, place: Span) -> Error
    ensures { Stored result (custom place place text.now) }
{
    Error::of(alloc, ErrorKind::Custom, text, place, place)
}
