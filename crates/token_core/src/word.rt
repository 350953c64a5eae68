//! The words, by their numbers.

ghost use Rattle.std.specs.Prelude.{◌≡◌};
ghost use Rattle.token_core.specs.Marks as spec;

use crate::span::Span;
use crate::token_names::{name_at, text_at};

/// The word of a number.
#[derive(Clone, Copy)]
pub struct Word<const N: u32> {
    pub span: Span,
}

/// How many words there are.
pub(crate) const WORDS: u32 = 54;

/// How many of them are keywords. Those that follow are identifiers but in their places.
pub(crate) const KEYWORDS: u8 = 52;

/// The number of `builtin`.
pub(crate) const BUILTIN: u8 = 52;

/// The number of `true`.
pub(crate) const TRUE: u8 = 45;

/// The number of `false`.
pub(crate) const FALSE: u8 = 29;

/// The words by their numbers, each with its name in refusals: the keywords, those that had a type first, and then
/// `builtin` and `union`. Types and proofs name a word by its number.
static TABLE: [(&str, &str); 54] = [
    ("Self", "`Self`"),
    ("self", "`self`"),
    ("super", "`super`"),
    ("crate", "`crate`"),
    ("as", "`as`"),
    ("box", "`box`"),
    ("const", "`const`"),
    ("dyn", "`dyn`"),
    ("extern", "`extern`"),
    ("fn", "`fn`"),
    ("for", "`for`"),
    ("if", "`if`"),
    ("impl", "`impl`"),
    ("mut", "`mut`"),
    ("ref", "`ref`"),
    ("try", "`try`"),
    ("unsafe", "`unsafe`"),
    ("use", "`use`"),
    ("where", "`where`"),
    ("_", "`_`"),
    ("abstract", "`abstract`"),
    ("async", "`async`"),
    ("await", "`await`"),
    ("become", "`become`"),
    ("break", "`break`"),
    ("continue", "`continue`"),
    ("do", "`do`"),
    ("else", "`else`"),
    ("enum", "`enum`"),
    ("false", "`false`"),
    ("final", "`final`"),
    ("in", "`in`"),
    ("let", "`let`"),
    ("loop", "`loop`"),
    ("macro", "`macro`"),
    ("match", "`match`"),
    ("mod", "`mod`"),
    ("move", "`move`"),
    ("override", "`override`"),
    ("priv", "`priv`"),
    ("pub", "`pub`"),
    ("return", "`return`"),
    ("static", "`static`"),
    ("struct", "`struct`"),
    ("trait", "`trait`"),
    ("true", "`true`"),
    ("type", "`type`"),
    ("typeof", "`typeof`"),
    ("unsized", "`unsized`"),
    ("virtual", "`virtual`"),
    ("while", "`while`"),
    ("yield", "`yield`"),
    ("builtin", "`builtin`"),
    ("union", "`union`"),
];

/// The text of the word of a number, none where the number names none.
pub(crate) fn word_text(n: u32) -> &'static str
    ensures { result.now ≡ spec.text_of n }
{
    text_at(&TABLE, n)
}

/// The word of a number as refusals name it.
pub(crate) fn word_name(n: u32) -> &'static str
    ensures { result.now ≡ spec.word_name n }
{
    name_at(&TABLE, n)
}
