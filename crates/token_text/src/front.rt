//! The piece at the front of a text.

ghost use Rattle.std.specs.Prelude.{◌≡◌, ◌∷◌, chars};
ghost use Rattle.token_text.specs.Characters as c;
ghost use Rattle.token_text.specs.Front as spec;
ghost use Rattle.token_text.specs.Pieces as pieces;

use crate::class::{Class, is_blank, stands_alone, starts_word};
use crate::piece::{Closing, Docs, Leaf, Piece};
use crate::{comment, literal, number, word};
use token_core::{Delimiter, ErrorKind, LitKind, Spacing};

fn is_mark(ch: char) -> bool
    ensures { result ≡ c.is_mark ch }
{
    matches!(ch, '!' | '#'..='&' | '*'..='/' | ':'..='@' | '^' | '|' | '~')
}

/// Whether a mark belongs with what follows it.
#[inline(always)]
#[tactic(auto, unfolding(crate::specs::Pieces::spacing))]
fn spacing(rest: &str) -> Spacing
    ensures { result ≡ pieces.spacing (chars rest.now) }
{
    match word::split_first(rest) {
        Some((next, after)) if is_mark(next) && !comment::begins(next, after) => Spacing::Joint,
        Some(_) => Spacing::Alone,
        None => Spacing::Alone,
    }
}

#[inline(always)]
fn mark(ch: char, rest: &str) -> Piece
    ensures { result ≡ spec.mark_piece ch (chars rest.now) }
{
    Piece::Leaf(Leaf::Mark(ch, spacing(rest)))
}

/// A comment, or the mark `/`, before `rest`.
#[tactic(auto, using(crate::proofs::Pasts::pasts), unfolding(crate::specs::Front::slash))]
fn slash(rest: &str, docs: Docs) -> Result<(Piece, &str), ErrorKind>
    ensures { spec.Tells (spec.slash docs (chars rest.now)) rest.now result }
{
    match word::split_first(rest) {
        Some(('/', after)) => comment::line(after, docs),
        Some(('*', after)) => comment::block(after, docs),
        Some(_) => Ok((mark('/', rest), rest)),
        None => Ok((mark('/', rest), rest)),
    }
}

/// The bracket of an invisible group, of which this follows the backslash.
#[tactic(auto, using(crate::proofs::Pasts::pasts), unfolding(crate::specs::Front::backslash))]
fn backslash(rest: &str) -> Result<(Piece, &str), ErrorKind>
    ensures { spec.Tells (spec.backslash (chars rest.now)) rest.now result }
{
    match word::split_first(rest) {
        Some(('(', after)) => Ok((Piece::Open(Delimiter::None), after)),
        Some((')', after)) => Ok((Piece::Close(Delimiter::None), after)),
        Some(_) => Err(ErrorKind::UnknownToken),
        None => Err(ErrorKind::UnknownToken),
    }
}

/// The piece of one character that this one is before `rest`.
#[inline(always)]
#[tactic(auto, unfolding(crate::specs::Front::single))]
fn single(ch: char, rest: &str) -> Result<Piece, ErrorKind>
    ensures { result ≡ spec.single ch (chars rest.now) }
{
    match ch {
        _ if is_blank(ch) => Ok(Piece::Leaf(Leaf::Blank)),
        '(' => Ok(Piece::Open(Delimiter::Parenthesis)),
        ')' => Ok(Piece::Close(Delimiter::Parenthesis)),
        '[' => Ok(Piece::Open(Delimiter::Bracket)),
        ']' => Ok(Piece::Close(Delimiter::Bracket)),
        '{' => Ok(Piece::Open(Delimiter::Brace)),
        '}' => Ok(Piece::Close(Delimiter::Brace)),
        _ if is_mark(ch) => Ok(mark(ch, rest)),
        _ => Err(ErrorKind::UnknownToken),
    }
}

/// A word, or the piece of one character; `text` is the character and `rest`.
#[tactic(auto, using(crate::proofs::Pasts::pasts))]
fn word_or_single<'a>(text: &'a str, ch: char, rest: &'a str) -> Result<(Piece, &'a str), ErrorKind>
    requires { spec.Past text.now rest.now }
    ensures { spec.Tells (spec.word_or_single ch (chars rest.now) (spec.any_word (chars text.now))) text.now result }
{
    match word::after_any_word(text) {
        Some(after) => Ok((Piece::Leaf(Leaf::Word), after)),
        None => Ok((single(ch, rest)?, rest)),
    }
}

/// A lifetime, of which this follows the quote.
#[tactic(auto, using(crate::proofs::Pasts::pasts))]
fn lifetime(rest: &str) -> Result<(Piece, &str), ErrorKind>
    ensures { spec.Tells (spec.known spec.lifetime_piece (spec.any_word (chars rest.now))) rest.now result }
{
    match word::after_any_word(rest) {
        Some(after) => Ok((Piece::Leaf(Leaf::Lifetime), after)),
        None => Err(ErrorKind::UnknownToken),
    }
}

#[tactic(auto, using(crate::proofs::Pasts::pasts))]
fn number(first: char, rest: &str) -> Result<(Piece, &str), ErrorKind>
    ensures { spec.Tells (spec.numeral (spec.number first (chars rest.now))) rest.now result }
{
    let (kind, end) = number::number(first, rest)?;
    Ok((literal_piece(kind), word::after_suffix(end)))
}

fn literal_piece(kind: LitKind) -> Piece
    ensures { result ≡ spec.literal_piece kind }
{
    Piece::Leaf(Leaf::Literal(kind))
}

/// A number, a word or the piece of one character; `text` is the character and `rest`.
#[tactic(auto, using(crate::proofs::Pasts::pasts), unfolding(crate::specs::Front::plain))]
fn plain<'a>(text: &'a str, first: char, rest: &'a str) -> Result<(Piece, &'a str), ErrorKind>
    requires { (chars text.now ≡ first ∷ chars rest.now) × spec.Past text.now rest.now }
    ensures { spec.Tells (spec.plain first (chars rest.now)) text.now result }
{
    // `&` in place of `&&`, for one value to prove by
    if (first == 'b') & word::begins(rest, '\'') {
        return Err(ErrorKind::UnknownToken);
    }
    if first.is_ascii_digit() {
        number(first, rest)
    } else {
        word_or_single(text, first, rest)
    }
}

/// What is no literal with a beginning and an end; `text` is the character and `rest`.
#[tactic(auto, using(crate::proofs::Pasts::pasts), unfolding(crate::specs::Front::unopened))]
fn unopened<'a>(
    text: &'a str,
    first: char,
    rest: &'a str,
    docs: Docs,
) -> Result<(Piece, &'a str), ErrorKind>
    requires { (chars text.now ≡ first ∷ chars rest.now) × spec.Past text.now rest.now }
    ensures { spec.Tells (spec.unopened docs first (chars rest.now)) text.now result }
{
    match first {
        '/' => slash(rest, docs),
        '\'' => lifetime(rest),
        '\\' => backslash(rest),
        _ => plain(text, first, rest),
    }
}

/// A literal of this kind, which ends so, of which this follows the beginning.
#[tactic(auto, using(crate::proofs::Pasts::pasts))]
fn enclosed(kind: LitKind, closing: Closing, body: &str) -> Result<(Piece, &str), ErrorKind>
    ensures { spec.Tells (spec.literal kind (spec.closed closing (chars body.now))) body.now result }
{
    match literal::after_closing(body, closing) {
        Some(end) => Ok((literal_piece(kind), word::after_suffix(end))),
        None => Err(ErrorKind::UnterminatedToken),
    }
}

/// A piece of one character, before `rest`, and what follows it.
#[inline(always)]
#[tactic(auto, using(crate::proofs::Pasts::pasts))]
fn alone(ch: char, rest: &str) -> Result<(Piece, &str), ErrorKind>
    ensures { spec.Tells (spec.before (chars rest.now) (spec.single ch (chars rest.now))) rest.now result }
{
    Ok((single(ch, rest)?, rest))
}

/// What may begin as a literal does; `text` is the character and `rest`.
#[tactic(auto, using(crate::proofs::Pasts::pasts), unfolding(crate::specs::Front::look))]
fn longer<'a>(
    text: &'a str,
    first: char,
    rest: &'a str,
    docs: Docs,
) -> Result<(Piece, &'a str), ErrorKind>
    requires { (chars text.now ≡ first ∷ chars rest.now) × spec.Past text.now rest.now }
    ensures { spec.Tells (spec.look docs (chars text.now)) text.now result }
{
    match literal::opening(text) {
        Some((kind, closing, body)) => enclosed(kind, closing, body),
        None => unopened(text, first, rest, docs),
    }
}

/// The piece that begins with this character, before `rest`; most are told by it alone.
#[inline(always)]
fn begun<'a>(
    text: &'a str,
    first: char,
    rest: &'a str,
    docs: Docs,
) -> Result<(Piece, &'a str), ErrorKind>
    requires { (chars text.now ≡ first ∷ chars rest.now) × spec.Past text.now rest.now }
    ensures { spec.Tells (spec.look docs (chars text.now)) text.now result }
{
    if stands_alone(first) {
        alone(first, rest)
    } else if starts_word(first) {
        Ok((
            Piece::Leaf(Leaf::Word),
            word::after_run(rest, Class::Continue),
        ))
    } else {
        longer(text, first, rest, docs)
    }
}

/// The longest piece at the front and what follows it, or why none begins there.
#[inline(always)]
#[tactic(auto, unfolding(crate::specs::Front::look, crate::specs::Front::opening))]
pub fn front(text: &str, docs: Docs) -> Result<(Piece, &str), ErrorKind>
    ensures { spec.Tells (spec.look docs (chars text.now)) text.now result }
{
    match word::split_first(text) {
        Some((first, rest)) => begun(text, first, rest, docs),
        None => Err(ErrorKind::UnknownToken),
    }
}
