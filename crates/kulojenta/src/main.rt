//! Reads texts by a named reader, and writes the print of each; where one is refused, says where and why.
#![tactic(auto)]

use clap::{Arg, ArgAction, ArgMatches, Command};
use kulojenta_lines::{Place, name_of, next_line, placeless_line, print_line, refusal_line};
use std::alloc::{AllocError, Global};
use std::fs::File;
use std::io::{BufReader, BufWriter, ErrorKind, Read, Write};
use std::process::ExitCode;
use std::{env, io};
use syn_run::readers::Reader;
use syn_run::run::{LIMIT, read_text_within};
use syn_verbatim::expr::VerbatimExpr;
use token_core::{Error, ErrorKind as Kind};
use token_text::{line_and_column, note_from, place_of, visible};

/// The status where a text is refused.
const REFUSED: u8 = 1;
/// The status where the command line is no text, or names no reader.
const WRONG: u8 = 2;
/// The status where there is no answer, since memory ran out.
const NO_ANSWER: u8 = 3;
/// The status where an input can't be read, or the output not be written.
const UNREAD: u8 = 4;
/// The byte order mark.
const MARK: char = '\u{feff}';

/// What is asked of each text.
#[derive(Clone, Copy)]
struct Asked {
    reader: Reader,
    /// Each line of an input is a text, and not all of it.
    lines: bool,
    /// Each answer is a line of JSON.
    json: bool,
    /// Of what is refused nothing is said on the standard error.
    quiet: bool,
}

/// Where a text comes from: the name of its input, the number of its first line there, and how many bytes were passed over before it.
#[derive(Clone, Copy)]
struct Origin<'a> {
    name: &'a str,
    line: u32,
    passed: usize,
}

impl<'a> Origin<'a> {
    /// That of a text at the front of an input.
    fn first(name: &'a str) -> Origin<'a> {
        Origin {
            name,
            line: 1,
            passed: 0,
        }
    }
}

fn main(rt: HostRuntime) -> ExitCode {
    ExitCode::from(match answer(&rt) {
        Ok(status) => status,
        Err(error) => stopped(&rt, &error),
    })
}

/// Says why a run ended before its end. Where nobody reads the output any more, nothing is said of it.
fn stopped(rt: &HostRuntime, error: &io::Error) -> u8 {
    match error.kind() {
        ErrorKind::BrokenPipe => UNREAD,
        ErrorKind::OutOfMemory => say(rt, "kulojenta", error, NO_ANSWER),
        ErrorKind::InvalidData => {
            let _ = eprintln!(rt; "kulojenta: the command line is not UTF-8");
            WRONG
        }
        _ => say(rt, "kulojenta: the output can't be written", error, UNREAD),
    }
}

/// Says on the standard error of what the system refused why.
fn say(rt: &HostRuntime, of: &str, error: &io::Error, status: u8) -> u8 {
    let _ = eprintln!(rt; "{of}: {error}");
    status
}

/// Reads the command line, and does what it asks.
fn answer(rt: &HostRuntime) -> io::Result<u8> {
    let words: Vec<String> = env::args(rt)?.collect(rt.alloc())?;
    match command(rt.alloc())?.try_get_matches_from(words.as_slice()) {
        Ok(matches) => ask(rt, &matches),
        Err(error) => {
            let _ = error.print(rt);
            Ok(error.exit_code() as u8)
        }
    }
}

/// What may stand on the command line.
fn command<'a>(alloc: Global) -> Result<Command<'a>, AllocError> {
    let reader = Arg::new(alloc, "READER").required(true).help(
        "The reader's name, such as Type, Generics or Pat::parse_multi (docs/READERS.txt lists all)",
    );
    let files = Arg::new(alloc, "FILE")
        .num_args(0..)
        .action(ArgAction::Append)
        .help("The files to read; without one, or of -, the standard input");
    let lines = "Each line of the input is a text; where it is refused, its line is empty";
    let json = "Answers each text by a line of JSON";
    let quiet = "Says nothing of texts that are refused, but by the status";
    Command::new(alloc, "kulojenta")
        .version("3.0.9")
        .about("Reads Rust source by one reader, and prints the tokens of what was read")
        .arg(flag(alloc, "lines", lines))?
        .arg(flag(alloc, "json", json))?
        .arg(flag(alloc, "quiet", quiet))?
        .arg(reader)?
        .arg(files)
}

fn flag<'a>(alloc: Global, name: &'a str, help: &'a str) -> Arg<'a> {
    Arg::new(alloc, name)
        .long(name)
        .action(ArgAction::SetTrue)
        .help(help)
}

/// Reads the inputs that the command line names, or the standard input, one after the other. Answers the greatest of their statuses.
fn ask(rt: &HostRuntime, matches: &ArgMatches<'_>) -> io::Result<u8> {
    let name = matches.get_str("READER").unwrap_or("");
    let Some(reader) = Reader::named(name) else {
        let name = visible(rt.alloc(), name)?;
        let _ = eprintln!(rt; "kulojenta: unknown reader {name}");
        return Ok(WRONG);
    };
    let asked = Asked {
        reader,
        lines: matches.get_flag("lines"),
        json: matches.get_flag("json"),
        quiet: matches.get_flag("quiet"),
    };
    let mut output = BufWriter::new(rt.alloc(), io::writer(rt))?;
    let mut status = 0;
    match matches.get_strs("FILE") {
        Some(paths) => {
            for path in paths {
                status = status.max(read_path(rt, asked, path, &mut output)?);
            }
        }
        None => status = read_path(rt, asked, "-", &mut output)?,
    }
    output.flush()?;
    Ok(status)
}

/// Reads the file of this path, or of `-` the standard input.
fn read_path<W: Write>(
    rt: &HostRuntime,
    asked: Asked,
    path: &str,
    output: &mut W,
) -> io::Result<u8> {
    if path == "-" {
        return read_input(rt, asked, "<stdin>", rt.reader(), output);
    }
    let name = visible(rt.alloc(), path)?;
    match File::open(rt, path) {
        Ok(file) => read_input(rt, asked, name.as_str(), file, output),
        Err(error) => unread(rt, asked, name.as_str(), error, output),
    }
}

fn read_input<R: Read + Drop, W: Write>(
    rt: &HostRuntime,
    asked: Asked,
    name: &str,
    input: R,
    output: &mut W,
) -> io::Result<u8> {
    if asked.lines {
        read_lines(rt, asked, name, input, output)
    } else {
        read_whole(rt, asked, name, input, output)
    }
}

/// Reads all of an input as one text.
fn read_whole<R: Read + Drop, W: Write>(
    rt: &HostRuntime,
    asked: Asked,
    name: &str,
    mut input: R,
    output: &mut W,
) -> io::Result<u8> {
    let mut bytes = Vec::new(rt.alloc());
    match input.read_to_end(&mut bytes) {
        Ok(_) => read_bytes(rt, asked, Origin::first(name), &bytes, output),
        Err(error) => unread(rt, asked, name, error, output),
    }
}

/// Reads each line of an input as a text by itself. What was answered is written before more of the input is waited for.
fn read_lines<R: Read + Drop, W: Write>(
    rt: &HostRuntime,
    asked: Asked,
    name: &str,
    input: R,
    output: &mut W,
) -> io::Result<u8> {
    let mut input = BufReader::new(rt.alloc(), input)?;
    let mut bytes = Vec::new(rt.alloc());
    let mut origin = Origin::first(name);
    let mut status = 0;
    for _ in 0..u64::MAX {
        if !input.buffer().contains(&b'\n') {
            output.flush()?;
        }
        match next_line(&mut input, &mut bytes) {
            Ok(true) => {}
            Ok(false) => break,
            Err(error) => return Ok(status.max(unread(rt, asked, name, error, output)?)),
        }
        status = status.max(read_bytes(rt, asked, origin, &bytes, output)?);
        origin.line = origin.line.saturating_add(1);
    }
    Ok(status)
}

/// Says that an input can't be read, and why; for want of memory the run ends.
fn unread<W: Write>(
    rt: &HostRuntime,
    asked: Asked,
    name: &str,
    error: io::Error,
    output: &mut W,
) -> io::Result<u8> {
    if error.kind() == ErrorKind::OutOfMemory {
        return Err(error);
    }
    if asked.json && !asked.lines {
        let text = format!(in rt.alloc(); "{error}")?;
        let line = placeless_line(rt.alloc(), "CannotRead", text.as_str())?;
        write_line(output, line.as_str())?;
    }
    output.flush()?;
    Ok(say(rt, name, &error, UNREAD))
}

/// Reads a text, and answers it.
fn read_bytes<W: Write>(
    rt: &HostRuntime,
    asked: Asked,
    origin: Origin<'_>,
    bytes: &[u8],
    output: &mut W,
) -> io::Result<u8> {
    match str::from_utf8(bytes) {
        Ok(text) if origin.line == 1 => {
            let (passed, rest) = after_byte_order_mark(text);
            answer_text(rt, asked, Origin { passed, ..origin }, rest, output)
        }
        Ok(text) => answer_text(rt, asked, origin, text, output),
        Err(error) => {
            let from = error.valid_up_to();
            let said = format!(in rt.alloc(); "input is not UTF-8, from byte {from} on")?;
            placeless(
                rt,
                asked,
                origin,
                ("NotUtf8", said.as_str()),
                REFUSED,
                output,
            )
        }
    }
}

/// How many bytes the byte order mark takes that editors may put before a text, and the text without it.
fn after_byte_order_mark(text: &str) -> (usize, &str) {
    match text.strip_prefix(MARK) {
        Some(rest) => (MARK.len_utf8(), rest),
        None => (0, text),
    }
}

/// Answers a text.
fn answer_text<W: Write>(
    rt: &HostRuntime,
    asked: Asked,
    origin: Origin<'_>,
    text: &str,
    output: &mut W,
) -> io::Result<u8> {
    match read(rt.alloc(), asked.reader, text) {
        Ok(print) => {
            write_print(rt.alloc(), asked, print.as_str(), output)?;
            Ok(0)
        }
        Err(refusal) if refusal.kind() == Kind::OutOfMemory => {
            let said = (name_of(Kind::OutOfMemory), refusal.text());
            placeless(rt, asked, origin, said, NO_ANSWER, output)
        }
        Err(refusal) => {
            refuse(rt, asked, origin, text, &refusal, output)?;
            Ok(REFUSED)
        }
    }
}

/// What a reader reads of a text, printed.
fn read(alloc: Global, reader: Reader, text: &str) -> Result<String, Error> {
    read_text_within::<VerbatimExpr>(alloc, reader, text, LIMIT)
}

fn write_print<W: Write>(
    alloc: Global,
    asked: Asked,
    print: &str,
    output: &mut W,
) -> io::Result<()> {
    if asked.json {
        let line = print_line(alloc, print)?;
        write_line(output, line.as_str())
    } else {
        write_line(output, print)
    }
}

fn write_line<W: Write>(output: &mut W, text: &str) -> io::Result<()> {
    output.write_all(text.as_bytes())?;
    output.write_all(b"\n")
}

/// Says where and why a text is refused.
fn refuse<W: Write>(
    rt: &HostRuntime,
    asked: Asked,
    origin: Origin<'_>,
    text: &str,
    refusal: &Error,
    output: &mut W,
) -> io::Result<()> {
    let (start, end) = place_of(text, refusal);
    if asked.json {
        let (line, column) = line_and_column(rt.alloc(), origin.line, text, start)?;
        let place = Place {
            start: start.saturating_add(origin.passed),
            end: end.saturating_add(origin.passed),
            line,
            column,
        };
        let kind = name_of(refusal.kind());
        let line = refusal_line(rt.alloc(), kind, refusal.text(), place)?;
        return write_line(output, line.as_str());
    }
    leave_line(asked, output)?;
    if !asked.quiet {
        let Origin { name, line, .. } = origin;
        let said = note_from(rt.alloc(), name, line, text, refusal.text(), start, end)?;
        let _ = eprintln!(rt; "{said}");
    }
    Ok(())
}

/// Says why a text has no answer, for a reason without a place in it: its name, and what is said of it.
fn placeless<W: Write>(
    rt: &HostRuntime,
    asked: Asked,
    origin: Origin<'_>,
    (kind, said): (&str, &str),
    status: u8,
    output: &mut W,
) -> io::Result<u8> {
    if asked.json {
        let line = placeless_line(rt.alloc(), kind, said)?;
        write_line(output, line.as_str())?;
        return Ok(status);
    }
    leave_line(asked, output)?;
    let Origin { name, line, .. } = origin;
    if asked.quiet && status == REFUSED {
        return Ok(status);
    }
    let _ = if asked.lines {
        eprintln!(rt; "{name}:{line}: {said}")
    } else {
        eprintln!(rt; "{name}: {said}")
    };
    Ok(status)
}

/// Leaves the line of a text empty, and writes what was answered before a note is.
fn leave_line<W: Write>(asked: Asked, output: &mut W) -> io::Result<()> {
    if asked.lines {
        output.write_all(b"\n")?;
    }
    if asked.quiet { Ok(()) } else { output.flush() }
}
