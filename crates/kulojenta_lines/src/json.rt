//! Answers as lines of JSON, each an object.

ghost use Rattle.std.specs.Prelude.{◌≡◌, ◌<◌, [], ◌∷◌, ◌++◌, chars, length, MatchOption, IfOk, OnOk, string_bytes};
ghost use Rattle.kulojenta_lines.specs.Json as spec;
ghost use Rattle.kulojenta_lines.specs.declared.json.Place.{Place};

use std::alloc::{AllocError, Global};

/// Where a text is refused: from which byte to which, and in which line and column.
#[derive(Clone, Copy, PartialEq, Eq)]
pub struct Place {
    pub start: usize,
    pub end: usize,
    pub line: usize,
    pub column: usize,
}

/// The line for a text that was read: `{"print":".."}`.
pub fn print_line(alloc: Global, print: &str) -> Result<String, AllocError>
    ensures { IfOk result (λ s. string_bytes s ≡ spec.print_line print.now) }
{
    let print = escaped(alloc, print)?;
    let print = print.as_str();
    format!(in alloc; "{{\"print\":\"{print}\"}}")
}

/// The line for a text that is refused: `{"kind":"..","text":"..","start":0,"end":1,"line":1,"column":1}`.
pub fn refusal_line(
    alloc: Global,
    kind: &str,
    text: &str,
    place: Place,
) -> Result<String, AllocError>
    ensures { IfOk result (λ s. string_bytes s ≡ spec.refusal_line kind.now text.now place) }
{
    let kind = escaped(alloc, kind)?;
    let text = escaped(alloc, text)?;
    let placed = placed(alloc, place)?;
    let kind = kind.as_str();
    let text = text.as_str();
    let placed = placed.as_str();
    format!(in alloc; "{{\"kind\":\"{kind}\",\"text\":\"{text}\"{placed}")
}

/// The end of the line for a refusal, which says its place.
fn placed(alloc: Global, place: Place) -> Result<String, AllocError>
    ensures { IfOk result (λ s. string_bytes s ≡ spec.placed place) }
{
    let Place {
        start,
        end,
        line,
        column,
    } = place;
    format!(in alloc; ",\"start\":{start},\"end\":{end},\"line\":{line},\"column\":{column}}}")
}

/// The line for a text that has no answer for a reason without a place in it: `{"kind":"..","text":".."}`.
pub fn placeless_line(alloc: Global, kind: &str, text: &str) -> Result<String, AllocError>
    ensures { IfOk result (λ s. string_bytes s ≡ spec.placeless_line kind.now text.now) }
{
    let kind = escaped(alloc, kind)?;
    let text = escaped(alloc, text)?;
    let kind = kind.as_str();
    let text = text.as_str();
    format!(in alloc; "{{\"kind\":\"{kind}\",\"text\":\"{text}\"}}")
}

/// A text as it stands between the quotes of a string of JSON.
fn escaped(alloc: Global, text: &str) -> Result<String, AllocError>
    ensures { IfOk result (λ s. string_bytes s ≡ spec.escaped (chars text.now)) }
{
    let mut out = String::new(alloc);
    let mut rest = text;
    while let Some((ch, after)) = split_first(rest) {
        push_escaped(&mut out, ch)?;
        rest = after;
    }
    Ok(out)
}

/// The first character, and the text after it.
fn split_first(text: &str) -> Option<(char, &str)>
    ensures { MatchOption result ((chars text.now ≡ []) × (text.now ≡ []))
        (λ (c, rest). (chars text.now ≡ c ∷ chars rest.now) × (length rest.now < length text.now)) }
{
    let mut chars = text.chars();
    match chars.next() {
        Some(c) => Some((c, chars.as_str())),
        None => None,
    }
}

/// Appends what stands for a character.
fn push_escaped(out: &mut String, ch: char) -> Result<(), AllocError>
    ensures { OnOk result (string_bytes out.new ≡ string_bytes out.old ++ spec.escaped_char ch) }
{
    if is_coded(ch) {
        let number = ch as u32;
        write!(out, "\\u{number:04x}")
    } else {
        push_quoted(out, ch)
    }
}

/// Appends a character that stands as itself, a quote or a backslash behind a backslash.
fn push_quoted(out: &mut String, ch: char) -> Result<(), AllocError>
    ensures { OnOk result (string_bytes out.new ≡ string_bytes out.old ++ spec.quoted ch) }
{
    if ch == '"' || ch == '\\' {
        out.push('\\')?;
    }
    out.push(ch)
}

/// Whether a character stands as its number.
fn is_coded(ch: char) -> bool
    ensures { result ≡ spec.is_coded ch }
{
    ch < ' ' || ('\u{7f}' <= ch && ch <= '\u{9f}') || ch == '\u{2028}' || ch == '\u{2029}'
}
