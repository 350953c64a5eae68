//! Named marks, by their numbers.

ghost use Rattle.std.specs.Prelude.{◌≡◌, [], get_or, map};
ghost use Rattle.token_core.specs.Marks as spec;

use crate::span::Span;
use crate::token_names::name_at;

/// The spans of the characters of a mark; a short mark repeats its last.
#[derive(Clone, Copy)]
pub struct Spans {
    pub first: Span,
    pub second: Span,
    pub third: Span,
}

/// The mark of a number, with the spans of its `LEN` characters.
#[derive(Clone, Copy)]
pub struct Mark<const N: u32, const LEN: usize> {
    pub spans: [Span; LEN],
}

/// How many marks there are.
pub(crate) const MARKS: u32 = 27;

/// The marks by their numbers: the characters of each, and its name in refusals.
static TABLE: [(&[char], &str); 27] = [
    (&['!'], "`!`"),
    (&[':', ':'], "`::`"),
    (&['<'], "`<`"),
    (&['>'], "`>`"),
    (&[','], "`,`"),
    (&['&'], "`&`"),
    (&['@'], "`@`"),
    (&[':'], "`:`"),
    (&['.', '.'], "`..`"),
    (&['.', '.', '.'], "`...`"),
    (&['.', '.', '='], "`..=`"),
    (&['='], "`=`"),
    (&['=', '='], "`==`"),
    (&['=', '>'], "`=>`"),
    (&['<', '='], "`<=`"),
    (&['-'], "`-`"),
    (&['!', '='], "`!=`"),
    (&['|'], "`|`"),
    (&['|', '='], "`|=`"),
    (&['|', '|'], "`||`"),
    (&['+'], "`+`"),
    (&['#'], "`#`"),
    (&['?'], "`?`"),
    (&['-', '>'], "`->`"),
    (&[';'], "`;`"),
    (&['<', '<', '='], "`<<=`"),
    (&['*'], "`*`"),
];

/// The characters of the mark of a number, none where the number names none.
pub(crate) fn mark_chars(n: u32) -> &'static [char]
    ensures { result.now ≡ spec.chars_of n }
{
    chars_at(&TABLE, n)
}

#[tactic(auto, using(crate::proofs::Tables::rows))]
fn chars_at(table: &[(&'static [char], &'static str)], n: u32) -> &'static [char]
    ensures { result.now ≡ get_or (map (λ r. r.0.now) table.now) n [] }
{
    match table.get(n as usize) {
        Some(row) => row.0,
        None => &[],
    }
}

/// The mark of a number as refusals name it.
pub(crate) fn mark_name(n: u32) -> &'static str
    ensures { result.now ≡ spec.mark_name n }
{
    name_at(&TABLE, n)
}

/// As many spans as the mark has characters.
pub(crate) fn spread<const LEN: usize>(spans: Spans) -> [Span; LEN]
    ensures { result ≡ spec.spread LEN spans }
{
    let mut all = [spans.third; LEN];
    if LEN > 0 {
        all[0] = spans.first;
    }
    if LEN > 1 {
        all[1] = spans.second;
    }
    all
}
