//! What tests see of classes alone.

ghost use Rattle.std.specs.Prelude.{◌≡◌, ◌≤◌, drop, length};
ghost use Rattle.token_core.specs.Classes as classes;
ghost use Rattle.token_core.specs.Front.{front};
ghost use Rattle.token_core.specs.Lifetimes.{sees_lifetime};
ghost use Rattle.token_core.specs.Reads as reads;
ghost use Rattle.token_core.specs.Sees as spec;

use crate::class::Class;
use crate::place::Place;
use crate::tree::{Delimiter, LitKind, Spacing};
use crate::word::KEYWORDS;

/// Whether it is an identifier, keywords and `_` too.
pub(crate) fn is_any_ident(class: Class) -> bool
    ensures { result ≡ spec.is_any_ident class }
{
    match class {
        Class::Word(_) => true,
        Class::Raw => true,
        Class::Ident => true,
        Class::Mark(_, _) => false,
        Class::Literal(_) => false,
        Class::Open(_) => false,
        Class::End => false,
    }
}

/// Whether it is an identifier that is no keyword.
pub(crate) fn is_ident(class: Class) -> bool
    ensures { result ≡ spec.is_ident class }
{
    match class {
        Class::Word(number) => number >= KEYWORDS,
        Class::Raw => true,
        Class::Ident => true,
        Class::Mark(_, _) => false,
        Class::Literal(_) => false,
        Class::Open(_) => false,
        Class::End => false,
    }
}

/// Whether it is the word of this number.
pub(crate) fn is_word(class: Class, number: u8) -> bool
    ensures { result ≡ spec.is_word class number }
{
    match class {
        Class::Word(n) => n == number,
        Class::Raw => false,
        Class::Ident => false,
        Class::Mark(_, _) => false,
        Class::Literal(_) => false,
        Class::Open(_) => false,
        Class::End => false,
    }
}

/// Whether it is the opening of a group of this delimiter.
pub(crate) fn is_group(class: Class, delimiter: Delimiter) -> bool
    ensures { result ≡ spec.is_group class delimiter }
{
    match class {
        Class::Open(open) => open == delimiter,
        Class::Word(_) => false,
        Class::Raw => false,
        Class::Ident => false,
        Class::Mark(_, _) => false,
        Class::Literal(_) => false,
        Class::End => false,
    }
}

/// Whether it is a quote that belongs with what follows.
fn is_quote(class: Class) -> bool
    ensures { result ≡ spec.is_quote class }
{
    match class {
        Class::Mark(spacing, ch) => ch == '\'' && spacing == Spacing::Joint,
        Class::Word(_) => false,
        Class::Raw => false,
        Class::Ident => false,
        Class::Literal(_) => false,
        Class::Open(_) => false,
        Class::End => false,
    }
}

/// Whether it is this character of a mark, and belongs with the next one unless it is the last.
fn is_char(class: Class, ch: char, last: bool) -> bool
    ensures { result ≡ spec.is_char class ch last }
{
    match class {
        Class::Mark(spacing, c) => c == ch && (last || spacing == Spacing::Joint),
        Class::Word(_) => false,
        Class::Raw => false,
        Class::Ident => false,
        Class::Literal(_) => false,
        Class::Open(_) => false,
        Class::End => false,
    }
}

/// The kind of a literal tree.
pub(crate) fn literal_kind(class: Class) -> Option<LitKind>
    ensures { result ≡ spec.literal_kind class }
{
    match class {
        Class::Literal(kind) => Some(kind),
        Class::Word(_) => None,
        Class::Raw => None,
        Class::Ident => None,
        Class::Mark(_, _) => None,
        Class::Open(_) => None,
        Class::End => None,
    }
}

/// Whether it is the end of a group, or of the list.
pub(crate) fn is_end(class: Class) -> bool
    ensures { result ≡ classes.is_end class }
{
    match class {
        Class::End => true,
        Class::Word(_) => false,
        Class::Raw => false,
        Class::Ident => false,
        Class::Mark(_, _) => false,
        Class::Literal(_) => false,
        Class::Open(_) => false,
    }
}

/// Whether it bounds an invisible group.
pub(crate) fn bounds(class: Class) -> bool
    ensures { result ≡ spec.bounds class }
{
    match class {
        Class::Open(delimiter) => delimiter == Delimiter::None,
        Class::End => true,
        Class::Word(_) => false,
        Class::Raw => false,
        Class::Ident => false,
        Class::Mark(_, _) => false,
        Class::Literal(_) => false,
    }
}

/// What follows a first tree of this class; a quote counts with the identifier after it.
fn after_class<'a>(class: Class, more: Place<'a>) -> Option<Place<'a>>
    ensures { result ≡ spec.after_class class more.entry }
{
    match class {
        Class::Mark(_, _) => Some(after_mark(class, more)),
        Class::Word(_) => Some(more),
        Class::Raw => Some(more),
        Class::Ident => Some(more),
        Class::Literal(_) => Some(more),
        Class::Open(_) => Some(more),
        Class::End => None,
    }
}

fn after_mark<'a>(class: Class, more: Place<'a>) -> Place<'a>
    ensures { result ≡ spec.after_mark class more.entry }
{
    if !is_quote(class) {
        return more;
    }
    let (next, after) = more.step();
    if is_any_ident(next) { after } else { more }
}

/// Whether a mark of the characters from the `i`th on stands there.
#[tactic(auto, using(crate::proofs::Marks::marks))]
fn sees_chars(at: Place<'_>, chars: &[char], i: usize) -> bool
    requires { i ≤ length chars.now }
    ensures { result ≡ spec.are_chars (drop i chars.now) at.entry }
{
    if i == chars.len() {
        return true;
    }
    if !is_char(at.class(), chars[i], i + 1 == chars.len()) {
        return false;
    }
    if i + 1 == chars.len() {
        return true;
    }
    let (_, more) = at.step();
    sees_chars(more, chars, i + 1)
}

impl<'a> Place<'a> {
    /// The class of the first token.
    pub(crate) fn class(&self) -> Class
        ensures { result ≡ spec.class_at (front self.now) }
    {
        self.front_class()
    }

    /// What follows the first tree; a lifetime counts as one, a group too.
    pub(crate) fn after_one(&self) -> Option<Place<'a>>
        ensures { result ≡ reads.after_one self.now }
    {
        let (class, more) = self.step();
        after_class(class, more)
    }

    /// Whether a mark of these characters is at the front.
    pub(crate) fn sees_mark(&self, chars: &[char]) -> bool
        ensures { result ≡ reads.sees_mark chars.now self.now }
    {
        sees_chars(self.again(), chars, 0)
    }

    /// Whether a lifetime is at the front.
    #[tactic(auto, using(crate::proofs::SeenClasses::lifetime_seen))]
    pub(crate) fn sees_lifetime(&self) -> bool
        ensures { result ≡ sees_lifetime self.now }
    {
        let (class, more) = self.step();
        is_quote(class) && is_any_ident(more.class())
    }
}
