//! A refusal for people: where in a text it points, what it says, and the line, with marks under the place.

ghost use Rattle.std.specs.Prelude.{◌≡◌, ◌+◌, ◌<◌, ◌≤◌, ◌++◌, replicate, length, chars, codes, decimal, IfOk, OnOk, string_bytes};
ghost use Rattle.token_text.specs.Characters.{size};
ghost use Rattle.token_text.specs.Front.{Past};
ghost use Rattle.token_text.specs.Note as spec;

use crate::front::front;
use crate::piece::{Docs, Leaf, Piece};
use crate::word::{begins, split_first, up_to};
use std::alloc::{AllocError, Global};
use token_core::{Error, ErrorKind};
use unicode_width::UnicodeWidthChar;

/// Characters that show nothing or change how the text about them is shown, beside those of control: soft hyphens, joiners, spaces without a
/// width, marks of direction and of order, fillers, and the byte order mark.
const HIDDEN: [char; 45] = [
    '\u{ad}', '\u{34f}', '\u{61c}', '\u{115f}', '\u{1160}', '\u{17b4}', '\u{17b5}', '\u{180b}',
    '\u{180c}', '\u{180d}', '\u{180e}', '\u{200b}', '\u{200c}', '\u{200d}', '\u{200e}', '\u{200f}',
    '\u{2028}', '\u{2029}', '\u{202a}', '\u{202b}', '\u{202c}', '\u{202d}', '\u{202e}', '\u{2060}',
    '\u{2061}', '\u{2062}', '\u{2063}', '\u{2064}', '\u{2065}', '\u{2066}', '\u{2067}', '\u{2068}',
    '\u{2069}', '\u{206a}', '\u{206b}', '\u{206c}', '\u{206d}', '\u{206e}', '\u{206f}', '\u{3164}',
    '\u{feff}', '\u{ffa0}', '\u{fff9}', '\u{fffa}', '\u{fffb}',
];

/// What a refusal of a text says and where it points, for people:
///
/// ```text
/// NAME:LINE:COLUMN: TEXT
/// the line of the text
///     ^^^^
/// ```
///
/// NAME is the text's own, as that of its file. The line ends before its line feed, or its carriage return and line feed. In it each character of
/// control but the tab stands as its picture (U+2400 to U+2421), or, from U+0080 on, as its number, so that none reaches a terminal; characters
/// that show nothing, such as the byte order mark, stand as their numbers too: `<U+FEFF>`.
///
/// Lines and columns are counted from 1, columns as a terminal shows the line of the note: a wide character takes two, a tab one. Under the line
/// each tab stands again, so that the marks stand under the place however wide tabs are shown. The marks go from where the refusal begins to where
/// it ends (`place_of`), no further than its line, and are one at least. A place in a character is its front. The end of the text, and what is past
/// it, is shown directly after the last token: not in an empty line, nor behind a comment.
///
/// That memory ran out has no place: its note is `NAME: TEXT`. No note ends in a line feed. One is refused for want of memory alone.
pub fn note(alloc: Global, name: &str, text: &str, refusal: &Error) -> Result<String, AllocError>
    ensures { IfOk result (λ s. string_bytes s ≡ spec.of_refusal name.now text.now refusal.now) }
{
    match refusal.kind() {
        ErrorKind::OutOfMemory => placeless(alloc, name, refusal.text()),
        _ => placed(alloc, name, text, refusal),
    }
}

fn placeless(alloc: Global, name: &str, said: &str) -> Result<String, AllocError>
    ensures { IfOk result (λ s. string_bytes s ≡ name.now ++ (codes ": " ++ said.now)) }
{
    format!(in alloc; "{name}: {said}")
}

fn placed(alloc: Global, name: &str, text: &str, refusal: &Error) -> Result<String, AllocError>
    ensures { IfOk result (λ s. string_bytes s ≡ spec.placed name.now text.now refusal.now) }
{
    let (start, end) = place_of(text, refusal);
    note_at(alloc, name, text, refusal.text(), start, end)
}

/// From which to which byte of a text a refusal of it points. One that points nowhere, as at the end of a whole read, points at the end of the text.
pub fn place_of(text: &str, refusal: &Error) -> (usize, usize)
    ensures { result ≡ spec.place_of text.now refusal.now }
{
    let start = start_of(text, refusal);
    (start, start.max(refusal.end().hi))
}

fn start_of(text: &str, refusal: &Error) -> usize
    ensures { result ≡ spec.start_of text.now refusal.now }
{
    let span = refusal.start();
    if span.hi == 0 { text.len() } else { span.lo }
}

/// The same for any message, from one byte of the text to another.
pub fn note_at(
    alloc: Global,
    name: &str,
    text: &str,
    message: &str,
    start: usize,
    end: usize,
) -> Result<String, AllocError>
    ensures { IfOk result (λ s. string_bytes s ≡ spec.note name.now text.now message.now start end) }
{
    note_from(alloc, name, 1, text, message, start, end)
}

/// The same of a text that was cut from a larger one: its first line is the one of this number there.
pub fn note_from(
    alloc: Global,
    name: &str,
    line: u32,
    text: &str,
    message: &str,
    start: usize,
    end: usize,
) -> Result<String, AllocError>
    ensures { IfOk result (λ s. string_bytes s ≡ spec.note_from name.now line text.now message.now start end) }
{
    let (start, end) = shown_place(text, start, end);
    let (head, rest) = cut(text, start);
    let following = first_line(rest);
    let (inside, _) = cut(following, end.saturating_sub(head.len()));
    let before = visible(alloc, last_line(head))?;
    let after = visible(alloc, following)?;
    let marked = visible(alloc, inside)?;
    let front = before.as_str();
    let back = after.as_str();
    let pointed = marked.as_str();
    let blanks = drawn(alloc, front, ' ', '\t')?;
    let marks = marks(alloc, pointed)?;
    let under = blanks.as_str();
    let line = line as usize + line_feeds(head);
    let heading = heading(alloc, name, line, 1 + under.len(), message)?;
    let first = heading.as_str();
    let carets = marks.as_str();
    joined(alloc, first, front, back, under, carets)
}

/// The line and the column that the note for a place says (`note_from`).
pub fn line_and_column(
    alloc: Global,
    line: u32,
    text: &str,
    start: usize,
) -> Result<(usize, usize), AllocError>
    ensures { IfOk result (λ p. p ≡ spec.line_and_column line text.now start) }
{
    let (start, _) = shown_place(text, start, start);
    let (head, _) = cut(text, start);
    let before = visible(alloc, last_line(head))?;
    let under = drawn(alloc, before.as_str(), ' ', '\t')?;
    let blanks = under.as_str();
    Ok((line as usize + line_feeds(head), 1 + blanks.len()))
}

/// The first line of a note.
fn heading(
    alloc: Global,
    name: &str,
    line: usize,
    column: usize,
    message: &str,
) -> Result<String, AllocError>
    ensures { IfOk result (λ s. string_bytes s
        ≡ name.now ++ (codes ":" ++ (decimal line ++ (codes ":" ++ (decimal column ++ (codes ": " ++ message.now)))))) }
{
    format!(in alloc; "{name}:{line}:{column}: {message}")
}

/// A note: its first line, the line of the text from its parts, and what stands under it.
fn joined(
    alloc: Global,
    heading: &str,
    before: &str,
    after: &str,
    blanks: &str,
    marks: &str,
) -> Result<String, AllocError>
    ensures { IfOk result (λ s. string_bytes s
        ≡ heading.now ++ (codes "\n" ++ (before.now ++ (after.now ++ (codes "\n" ++ (blanks.now ++ marks.now)))))) }
{
    format!(in alloc; "{heading}\n{before}{after}\n{blanks}{marks}")
}

/// Where a place of a text is shown: the end of the text, and what is past it, after the last token.
fn shown_place(text: &str, start: usize, end: usize) -> (usize, usize)
    ensures { result ≡ spec.shown_place text.now start end }
{
    if start < text.len() {
        (start, end)
    } else {
        let last = text.len() - after_tokens(text).len();
        (last, last)
    }
}

/// What follows the last token: blanks and comments. Where no token begins, the rest of the line counts as one.
#[tactic(auto, using(crate::proofs::Pasts::pasts))]
fn after_tokens(text: &str) -> &str
    ensures rest { chars result.now ≡ spec.after_tokens (chars text.now) }
    ensures past { Past text.now result.now }
{
    let mut last = text;
    let mut rest = text;
    while let Some((_, next)) = split_first(rest) {
        match front(rest, Docs::Refuse) {
            Ok((piece, after)) => {
                last = if is_token(piece) { after } else { last };
                rest = after;
            }
            Err(_) => {
                rest = line_end(next);
                last = rest;
            }
        }
    }
    last
}

/// Whether it is no blank and no comment.
fn is_token(piece: Piece) -> bool
    ensures { result ≡ spec.is_token piece }
{
    match piece {
        Piece::Leaf(Leaf::Blank) => false,
        Piece::Leaf(_) | Piece::Open(_) | Piece::Close(_) => true,
    }
}

/// The characters that end within the first bytes, and what follows them.
fn cut(text: &str, count: usize) -> (&str, &str)
    ensures front { chars result.0.now ≡ spec.within count (chars text.now) }
    ensures rest { chars result.1.now ≡ spec.beyond count (chars text.now) }
    ensures size { length result.0.now ≡ size (spec.within count (chars text.now)) }
{
    let rest = beyond(text, count);
    (up_to(text, rest), rest)
}

/// What follows the characters that end within the first bytes.
#[tactic(auto, using(crate::proofs::Pasts::pasts))]
fn beyond(text: &str, count: usize) -> &str
    ensures rest { chars result.now ≡ spec.beyond count (chars text.now) }
    ensures past { Past text.now result.now }
{
    let mut left = count;
    let mut rest = text;
    while let Some((ch, after)) = split_first(rest) {
        let size = ch.len_utf8();
        if left < size {
            return rest;
        }
        left -= size;
        rest = after;
    }
    rest
}

/// The first line of a text, without its end.
fn first_line(text: &str) -> &str
    ensures { chars result.now ≡ spec.first_line (chars text.now) }
{
    up_to(text, line_end(text))
}

/// The text from the end of its first line on.
#[tactic(auto, using(crate::proofs::Pasts::pasts))]
fn line_end(text: &str) -> &str
    ensures rest { chars result.now ≡ spec.line_end (chars text.now) }
    ensures past { Past text.now result.now }
{
    let mut rest = text;
    while let Some((ch, after)) = split_first(rest) {
        if ends_line(ch, after) {
            return rest;
        }
        rest = after;
    }
    rest
}

/// Whether a line ends at this character, which stands before `rest`.
fn ends_line(ch: char, rest: &str) -> bool
    ensures { result ≡ spec.ends_line ch (chars rest.now) }
{
    ch == '\n' || (ch == '\r' && begins(rest, '\n'))
}

/// The text after its last line feed.
#[tactic(auto, using(crate::proofs::Pasts::pasts))]
fn last_line(text: &str) -> &str
    ensures { chars result.now ≡ spec.last_line (chars text.now) }
{
    let mut line = text;
    let mut rest = text;
    while let Some((ch, after)) = split_first(rest) {
        if ch == '\n' {
            line = after;
        }
        rest = after;
    }
    line
}

/// How many line feeds a text has.
fn line_feeds(text: &str) -> usize
    ensures count { result ≡ spec.line_feeds (chars text.now) }
    ensures few { result ≤ length text.now }
{
    let mut count = 0;
    let mut rest = text;
    while let Some((ch, after)) = split_first(rest) {
        if ch == '\n' {
            count += 1;
        }
        rest = after;
    }
    count
}

/// A text as a note shows a line (`note`): each character of control but the tab as its picture or its number, and what shows nothing as its number.
pub fn visible(alloc: Global, text: &str) -> Result<String, AllocError>
    ensures { IfOk result (λ s. string_bytes s ≡ spec.visible (chars text.now)) }
{
    let mut out = String::new(alloc);
    let mut rest = text;
    while let Some((ch, after)) = split_first(rest) {
        push_visible(&mut out, ch)?;
        rest = after;
    }
    Ok(out)
}

/// Appends what stands for a character.
fn push_visible(out: &mut String, ch: char) -> Result<(), AllocError>
    ensures { OnOk result (string_bytes out.new ≡ string_bytes out.old ++ spec.visible_char ch) }
{
    if is_hidden(ch) {
        let number = ch as u32;
        write!(out, "<U+{number:04X}>")
    } else {
        out.push(picture(ch))
    }
}

/// Whether a character stands as its number.
fn is_hidden(ch: char) -> bool
    ensures { result ≡ spec.is_hidden ch }
{
    ('\u{80}' <= ch && ch <= '\u{9f}') || HIDDEN.contains(&ch)
}

/// The picture of a character of control, and any other character itself.
fn picture(ch: char) -> char
    ensures { result ≡ spec.picture ch }
{
    if ch == '\u{7f}' {
        '\u{2421}'
    } else if ch < ' ' && ch != '\t' {
        char::from_u32(0x2400 + ch as u32).unwrap_or(ch)
    } else {
        ch
    }
}

/// How many columns a character takes.
fn columns_of(ch: char) -> usize
    ensures { result ≡ spec.columns_of ch }
{
    if ch == '\t' {
        1
    } else {
        ch.width().unwrap_or(1)
    }
}

/// As many characters as the text takes columns: these, and for each tab that one.
fn drawn(alloc: Global, text: &str, fill: char, tab: char) -> Result<String, AllocError>
    requires fill { fill < 128 }
    requires tab { tab < 128 }
    ensures { IfOk result (λ s. string_bytes s ≡ spec.drawn fill tab (chars text.now)) }
{
    let mut out = String::new(alloc);
    let mut rest = text;
    while let Some((ch, after)) = split_first(rest) {
        let mark = if ch == '\t' { tab } else { fill };
        repeat(&mut out, mark, columns_of(ch))?;
        rest = after;
    }
    Ok(out)
}

/// Appends a character so many times.
fn repeat(out: &mut String, ch: char, times: usize) -> Result<(), AllocError>
    requires { ch < 128 }
    ensures { OnOk result (string_bytes out.new ≡ string_bytes out.old ++ replicate times ch) }
{
    for _turn in 0..times {
        out.push(ch)?;
    }
    Ok(())
}

/// The marks under a text; one, where it takes no column.
fn marks(alloc: Global, text: &str) -> Result<String, AllocError>
    ensures { IfOk result (λ s. string_bytes s ≡ spec.marks (chars text.now)) }
{
    let mut marks = drawn(alloc, text, '^', '^')?;
    if marks.is_empty() {
        marks.push('^')?;
    }
    Ok(marks)
}
