//! A run over any input and output, and a read of a text.

ghost use Rattle.std.specs.Prelude.{◌≡◌, ◌++◌, codes, string_bytes};
ghost use Rattle.std.specs.Io.KnownBytes.{Appends};
ghost use Rattle.token_core.specs.Spans.{none};
ghost use Rattle.token_text.specs.declared.piece.Docs.TheVariants.{Read as documented};
ghost use Rattle.token_text.specs.Wholes.{text_end};
ghost use Rattle.syn_run.specs.Run as spec;
ghost use Rattle.syn_run.specs.Readers.{category};
ghost use Rattle.syn_run.specs.Table.{named};
ghost use Rattle.syn_run.specs.Faults as faults;

use crate::channel::{Sink, Source};
use crate::fault::Fault;
use crate::readers::Reader;
use std::alloc::Global;
use syn_path::supplied::Subtree;
use token_core::{Error, Span, TokenStream};
use token_text::{Docs, check_text, lex_with, text_of};

/// How many levels a text may go down where nothing else is asked: so many fit in a stack of 2 MB. Code as it is written goes down fewer than 30.
pub const LIMIT: usize = 128;

/// Reads all of the input by the reader of this name, and writes one line: the text of the print of what was read, or
/// `error: ` and why there is none. Answers the status: 0, or 2 for an unknown name, for which nothing is read, or 1.
/// Where the line can't be written, the status is 1.
pub fn run<X: Subtree, R: Source, W: Sink>(
    alloc: Global,
    name: &str,
    input: &mut R,
    output: &mut W,
) -> u8
    ensures { spec.Ran (category X.Subtree) name.now (R.remaining input.old)
        (R.can_fail input.old) (input.new ≡ input.old) (Appends (W.contents output.old) (W.contents output.new))
        (W.can_fail output.old) result }
{
    match answer::<X, R>(alloc, name, input) {
        Ok(text) => end(output, "", text.as_str(), 0),
        Err(fault) => refuse(&fault, output),
    }
}

/// Says that there is no tree, and why.
pub fn refuse<W: Sink>(fault: &Fault, output: &mut W) -> u8
    ensures { spec.Ends (Appends (W.contents output.old) (W.contents output.new)) (W.can_fail output.old)
        (spec.line (faults.of_fault fault.now)) (faults.status fault.now) result }
{
    end(output, "error: ", fault.text(), fault.status())
}

/// Writes the line that a run ends with.
fn end<W: Sink>(output: &mut W, first: &str, second: &str, status: u8) -> u8
    ensures { spec.Ends (Appends (W.contents output.old) (W.contents output.new)) (W.can_fail output.old)
        (first.now ++ second.now ++ codes "\n") status result }
{
    match output.write_line(first, second) {
        Ok(()) => status,
        Err(_) => 1,
    }
}

/// The text that a run shows.
fn answer<X: Subtree, R: Source>(alloc: Global, name: &str, input: &mut R) -> Result<String, Fault>
    ensures { spec.Answers (category X.Subtree) (named name.now) (R.remaining input.old)
        (R.can_fail input.old) (input.new ≡ input.old) (faults.answer string_bytes result) }
{
    let Some(reader) = Reader::named(name) else {
        return Err(Fault::UnknownReader);
    };
    let bytes = input.read_all(alloc)?;
    shown::<X>(alloc, reader, &bytes)
}

fn shown<X: Subtree>(alloc: Global, reader: Reader, input: &[u8]) -> Result<String, Fault>
    ensures { spec.AnswersTo (category X.Subtree reader) none input.now (faults.answer string_bytes result) }
{
    match str::from_utf8(input) {
        Ok(text) => Ok(reprinted::<X>(alloc, reader, Span::none(), text, Docs::Refuse)?),
        Err(_) => Err(Fault::NotUtf8),
    }
}

/// Reads all of a text by a reader, and answers the text of the print of what was read: over any supplied subtree. The text is read in the
/// scope of its end, so that a refusal where something is missing there points to it. It is refused for want of memory, as `lex_documented`
/// refuses it, which reads comments of documentation as attributes, or as the reader refuses its tokens.
pub fn read_text<X: Subtree>(alloc: Global, reader: Reader, text: &str) -> Result<String, Error>
    ensures { spec.Replies documented (category X.Subtree reader) (text_end text.now) text.now string_bytes result }
{
    let scope = Span::new(text.len(), text.len());
    reprinted::<X>(alloc, reader, scope, text, Docs::Read)
}

/// `read_text` of a text that nests no deeper than a limit (`token_core::nesting`). Another one is refused (`NestedTooDeep`) at the first
/// token that passes it, before anything goes down the text by calls within calls.
pub fn read_text_within<X: Subtree>(
    alloc: Global,
    reader: Reader,
    text: &str,
    limit: usize,
) -> Result<String, Error>
    ensures { spec.RepliesWithin documented limit (category X.Subtree reader) (text_end text.now) text.now string_bytes result }
{
    check_text(alloc, text, Docs::Read, limit)?;
    read_text::<X>(alloc, reader, text)
}

/// The text of the print of what a reader reads of a text in a scope.
fn reprinted<X: Subtree>(
    alloc: Global,
    reader: Reader,
    scope: Span,
    text: &str,
    docs: Docs,
) -> Result<String, Error>
    ensures { spec.Replies docs (category X.Subtree reader) scope text.now string_bytes result }
{
    let tokens = lex_with(alloc, text, docs)?;
    let print = reader.reprint::<X>(alloc, scope, tokens)?;
    Ok(text_of(alloc, &print)?)
}
