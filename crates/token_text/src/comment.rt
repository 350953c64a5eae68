//! Comments.

ghost use Rattle.std.specs.Prelude.{◌≡◌, chars};
ghost use Rattle.token_text.specs.Characters.{upto};
ghost use Rattle.token_text.specs.Front as spec;
ghost use Rattle.token_text.specs.Pieces as pieces;

use crate::class::Class;
use crate::piece::{Docs, Form, Leaf, Piece, Style};
use crate::word;
use token_core::ErrorKind;

/// Whether the character, which stands before `rest`, begins a comment.
#[tactic(auto, unfolding(crate::specs::Pieces::begins_comment))]
pub fn begins(ch: char, rest: &str) -> bool
    ensures { result ≡ pieces.begins_comment ch (chars rest.now) }
{
    match word::split_first(rest) {
        Some((next, _)) => ch == '/' && (next == '/' || next == '*'),
        None => false,
    }
}

/// Whether a line comment, of which this follows `//`, is documentation.
#[tactic(auto, unfolding(crate::specs::Pieces::is_line_doc))]
fn is_line_doc(text: &str) -> bool
    ensures { result ≡ pieces.is_line_doc (chars text.now) }
{
    match word::split_first(text) {
        Some((first, rest)) => first == '!' || (first == '/' && !word::begins(rest, '/')),
        None => false,
    }
}

/// Whether a block comment, of which this follows `/*`, is documentation.
#[tactic(auto, unfolding(crate::specs::Pieces::is_block_doc))]
fn is_block_doc(text: &str) -> bool
    ensures { result ≡ pieces.is_block_doc (chars text.now) }
{
    match word::split_first(text) {
        Some((first, rest)) => first == '!' || (first == '*' && !begins_star_or_slash(rest)),
        None => false,
    }
}

fn begins_star_or_slash(text: &str) -> bool
    ensures { result ≡ spec.begins_star_or_slash (chars text.now) }
{
    match word::split_first(text) {
        Some((first, _)) => first == '*' || first == '/',
        None => false,
    }
}

/// Of documentation, what this comment belongs to, of which this follows `//` or `/*`.
fn style_of(text: &str) -> Style
    ensures { result ≡ pieces.style_of (chars text.now) }
{
    if word::begins(text, '!') {
        Style::Inner
    } else {
        Style::Outer
    }
}

/// Whether a carriage return stands here that no line feed follows.
fn has_lone_return(text: &str) -> bool
    ensures { result ≡ pieces.has_lone_return (chars text.now) }
{
    let mut rest = text;
    while let Some((first, after)) = word::split_first(rest) {
        // `&` in place of `&&`, for one value to prove by
        if (first == '\r') & !word::begins(after, '\n') {
            return true;
        }
        rest = after;
    }
    false
}

/// A comment of documentation up to `rest`, of which `text` follows the first two characters; `until` ends that in which carriage
/// returns are looked for.
#[tactic(auto, using(crate::proofs::Pasts::pasts))]
fn doc<'a>(
    form: Form,
    text: &'a str,
    rest: &'a str,
    until: &str,
) -> Result<(Piece, &'a str), ErrorKind>
    requires { spec.Past text.now rest.now × spec.Past text.now until.now }
    ensures { spec.Tells (spec.doc_in form (chars text.now) (chars rest.now)
        (upto (chars text.now) (chars until.now))) text.now result }
{
    if has_lone_return(word::up_to(text, until)) {
        Err(ErrorKind::UnknownToken)
    } else {
        Ok((Piece::Leaf(Leaf::Doc(style_of(text), form)), rest))
    }
}

/// A line comment of documentation, of which this follows `//`.
#[tactic(auto, using(crate::proofs::Pasts::pasts), unfolding(crate::specs::Front::line_doc))]
fn line_doc(text: &str, docs: Docs) -> Result<(Piece, &str), ErrorKind>
    ensures { spec.Tells (spec.line_doc docs (chars text.now)) text.now result }
{
    match docs {
        Docs::Refuse => Err(ErrorKind::DocComment),
        Docs::Read => {
            let rest = word::after_run(text, Class::NoLineFeed);
            doc(Form::Line, text, rest, word::after_first(rest))
        }
    }
}

/// A block comment of documentation, of which this follows `/*`.
#[tactic(auto, using(crate::proofs::Pasts::pasts), unfolding(crate::specs::Front::block_doc))]
fn block_doc(text: &str, docs: Docs) -> Result<(Piece, &str), ErrorKind>
    ensures { spec.Tells (spec.block_doc docs (chars text.now)) text.now result }
{
    match docs {
        Docs::Refuse => Err(ErrorKind::DocComment),
        Docs::Read => match after_block(text) {
            Some(rest) => doc(Form::Block, text, rest, rest),
            None => Err(ErrorKind::UnterminatedToken),
        },
    }
}

/// A line comment, of which this follows `//`: up to the line feed.
#[tactic(auto, using(crate::proofs::Pasts::pasts), unfolding(crate::specs::Front::line_comment))]
pub fn line(text: &str, docs: Docs) -> Result<(Piece, &str), ErrorKind>
    ensures { spec.Tells (spec.line_comment docs (chars text.now)) text.now result }
{
    if is_line_doc(text) {
        line_doc(text, docs)
    } else {
        Ok((
            Piece::Leaf(Leaf::Blank),
            word::after_run(text, Class::NoLineFeed),
        ))
    }
}

/// A block comment, of which this follows `/*`.
#[tactic(auto, using(crate::proofs::Pasts::pasts), unfolding(crate::specs::Front::block_comment))]
pub fn block(text: &str, docs: Docs) -> Result<(Piece, &str), ErrorKind>
    ensures { spec.Tells (spec.block_comment docs (chars text.now)) text.now result }
{
    if is_block_doc(text) {
        return block_doc(text, docs);
    }
    match after_block(text) {
        Some(rest) => Ok((Piece::Leaf(Leaf::Blank), rest)),
        None => Err(ErrorKind::UnterminatedToken),
    }
}

/// What follows the end of a comment, in which others may stand.
#[tactic(auto, using(crate::proofs::Pasts::pasts))]
fn after_block(text: &str) -> Option<&str>
    ensures { spec.Finds (spec.comment 0 (chars text.now)) text.now result }
{
    let mut depth: usize = 0;
    let mut rest = text;
    while let Some((first, after)) = word::split_first(rest) {
        let Some((next, past)) = word::split_first(after) else {
            return None;
        };
        // `&` in place of `&&`, for one value to prove by
        if (first == '/') & (next == '*') {
            depth += 1;
            rest = past;
        } else if (first == '*') & (next == '/') {
            if depth == 0 {
                return Some(past);
            }
            depth -= 1;
            rest = past;
        } else {
            rest = after;
        }
    }
    None
}
