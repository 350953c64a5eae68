//! The tokens that a stream may be tested for, by their numbers: the marks, the words, and the others.

ghost use Rattle.std.specs.Prelude.{◌≡◌, ◌<◌, [], get_or, map};
ghost use Rattle.token_core.specs.Marks.{quoted};
ghost use Rattle.token_core.specs.TokenNames as spec;

use crate::mark::{MARKS, mark_name};
use crate::word::{WORDS, word_name};

/// The number of the first that is no mark and no word: the numbers of the words follow those of the marks.
const OTHERS: u32 = 81;

// the others, in the order of their names below
pub(crate) const IDENT: u8 = 81;

pub(crate) const LIFETIME: u8 = 82;

pub(crate) const LIT: u8 = 83;

pub(crate) const LIT_STR: u8 = 84;

pub(crate) const PAREN: u8 = 85;

pub(crate) const BRACE: u8 = 86;

pub(crate) const BRACKET: u8 = 87;

pub(crate) const INVISIBLE: u8 = 88;

/// The number of a token without a name.
const NAMELESS: u8 = 89;

/// How many tokens there are; all that have no name count as the last.
pub(crate) const COUNT: usize = 90;

/// Those that are no marks and no words, as refusals name them.
static OTHER_NAMES: [&str; 8] = [
    "identifier",
    "lifetime",
    "literal",
    "string literal",
    "parentheses",
    "curly braces",
    "square brackets",
    "invisible group",
];

/// A token as refusals name it.
#[tactic(auto, unfolding(crate::specs::Marks::mark_name, crate::specs::Marks::word_name))]
pub(crate) fn token_name(number: u8) -> &'static str
    ensures { result.now ≡ spec.name_of number }
{
    let n = number as u32;
    if n < MARKS {
        mark_name(n)
    } else if n < OTHERS {
        word_name(n - MARKS)
    } else {
        other_name(n - OTHERS)
    }
}

fn other_name(n: u32) -> &'static str
    ensures { result.now ≡ get_or spec.other_names n (quoted []) }
{
    other_at(&OTHER_NAMES, n)
}

#[tactic(auto, using(crate::proofs::Tables::rows))]
fn other_at(table: &[&'static str], n: u32) -> &'static str
    ensures { result.now ≡ get_or (map (λ t. t.now) table.now) n (quoted []) }
{
    match table.get(n as usize) {
        Some(name) => name,
        None => "``",
    }
}

/// The text in a row of a table, none past its end.
#[tactic(auto, using(crate::proofs::Tables::rows))]
pub(crate) fn text_at(table: &[(&'static str, &'static str)], n: u32) -> &'static str
    ensures { result.now ≡ get_or (map (λ r. r.0.now) table.now) n [] }
{
    match table.get(n as usize) {
        Some(row) => row.0,
        None => "",
    }
}

/// The name in a row of a table, and past its end that of none.
#[tactic(auto, using(crate::proofs::Tables::rows))]
pub(crate) fn name_at<T>(table: &[(T, &'static str)], n: u32) -> &'static str
    ensures { result.now ≡ get_or (map (λ r. r.1.now) table.now) n (quoted []) }
{
    match table.get(n as usize) {
        Some(row) => row.1,
        None => "``",
    }
}

/// The number of a mark, by its number among the marks.
pub(crate) fn mark_number(n: u32) -> u8
    ensures gives { result ≡ spec.mark_number n }
    ensures known { result < spec.token_count }
{
    if n < MARKS { n as u8 } else { NAMELESS }
}

/// The number of a word, by its number among the words.
pub(crate) fn word_number(n: u32) -> u8
    ensures gives { result ≡ spec.word_number n }
    ensures known { result < spec.token_count }
{
    if n < WORDS { 27 + n as u8 } else { NAMELESS }
}
