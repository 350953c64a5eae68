//! Classes of entries: what tests tell apart, without the tree and its text.

ghost use Rattle.std.specs.Prelude.{◌≡◌, map};
ghost use Rattle.token_core.specs.Classes as spec;
ghost use Rattle.token_core.specs.Classes.{layer_class, IsClass};
ghost use Rattle.token_core.specs.Keywords.{text_of};
ghost use Rattle.token_core.specs.declared.tree.TokenTree.{out-TokenTree};

use crate::tree::{Delimiter, LitKind, Spacing, TokenTree};
use crate::word::word_text;

/// What an entry is.
#[derive(Clone, Copy)]
pub(crate) enum Class {
    /// A plain identifier that is a word of the table, by its number.
    Word(u8),
    /// A raw identifier.
    Raw,
    /// Another identifier.
    Ident,
    /// A character of a mark.
    Mark(Spacing, char),
    Literal(LitKind),
    /// The opening of a group.
    Open(Delimiter),
    /// The end of a group.
    End,
}

/// The numbers of the words that begin with this byte.
fn numbers_from(first: u8) -> &'static [u8]
    ensures { map (λ n. (n, text_of n)) result.now ≡ spec.words_from first }
{
    match first {
        b'S' => &[0],
        b'_' => &[19],
        b'a' => &[4, 20, 21, 22],
        b'b' => &[5, 23, 24, 52],
        b'c' => &[3, 6, 25],
        b'd' => &[7, 26],
        b'e' => &[8, 27, 28],
        b'f' => &[9, 10, 29, 30],
        b'i' => &[11, 12, 31],
        b'l' => &[32, 33],
        b'm' => &[13, 34, 35, 36, 37],
        b'o' => &[38],
        b'p' => &[39, 40],
        b'r' => &[14, 41],
        b's' => &[1, 2, 42, 43],
        b't' => &[15, 44, 45, 46, 47],
        b'u' => &[16, 17, 48, 53],
        b'v' => &[49],
        b'w' => &[18, 50],
        b'y' => &[51],
        _ => &[],
    }
}

fn among(numbers: &[u8], text: &str) -> Option<u8>
    ensures { result ≡ spec.among (map (λ n. (n, text_of n)) numbers.now) text.now }
{
    for number in numbers {
        if text == word_text(*number as u32) {
            return Some(*number);
        }
    }
    None
}

/// The number of a text among the words.
#[tactic(auto, using(crate::proofs::Classes::found))]
fn word_number(text: &str) -> Option<u8>
    ensures { result ≡ spec.word_number text.now }
{
    match text.as_bytes() {
        [first, ..] => among(numbers_from(*first), text),
        [] => None,
    }
}

/// The class of an identifier of this text.
#[tactic(auto, unfolding(crate::specs::Classes::text_class))]
pub(crate) fn text_class(text: &str) -> Class
    ensures { result ≡ spec.text_class text.now }
{
    match word_number(text) {
        Some(number) => Class::Word(number),
        None => {
            if text.as_bytes().starts_with(b"r#") {
                Class::Raw
            } else {
                Class::Ident
            }
        }
    }
}

pub(crate) fn tree_class(tree: &TokenTree) -> Class
    ensures { result ≡ layer_class (out-TokenTree tree.now) }
{
    match tree {
        TokenTree::Ident(ident) => text_class(ident.text()),
        TokenTree::Punct(punct) => Class::Mark(punct.spacing, punct.ch),
        TokenTree::Literal(literal) => Class::Literal(literal.kind),
        TokenTree::Group(group) => Class::Open(group.delimiter()),
    }
}

/// A tree, or the end of a group, by its class.
#[derive(Clone, Copy)]
pub(crate) struct Entry<'a> {
    pub(crate) tree: &'a TokenTree,
    pub(crate) class: Class,
    /// Of a group, the number of entries of its content.
    pub(crate) content: usize,
    ghost is: { IsClass class (out-TokenTree tree.now) },
}
