//! Where a run reads from and writes to.

ghost use Rattle.std.specs.Prelude.{◌≡◌, ◌+◌, ◌<◌, ◌≤◌, ◌++◌, ℕ, List, [], Option, IfOk, OnOk, OnErr, IfErr, IfSome, codes, length, take};
ghost use Rattle.std.specs.Io.KnownBytes.{Appends};
ghost use Rattle.token_core.specs.Toks.{Bytes};
ghost use Rattle.syn_run.specs.declared.channel.Unread.{Unread};

use std::alloc::{AllocError, Global};
use std::io::{ErrorKind, Read, Write};
use std::marker::Model;

/// Why not all of an input was read.
#[derive(Clone, Copy, PartialEq, Eq)]
pub enum Unread {
    OutOfMemory,
    CannotRead,
}

impl From<AllocError> for Unread {
    ghost from_gives = { λ _ e. e ≡ Unread.OutOfMemory };

    fn from(_e: AllocError) -> Unread {
        Unread::OutOfMemory
    }
}

/// Not all of a line was written.
#[derive(Clone, Copy, PartialEq, Eq)]
pub struct Unwritten;

/// Where input comes from.
pub trait Source {
    /// The bytes that it has left, where they are known.
    ghost remaining: { Self → Option Bytes };

    /// Reading all of it may fail.
    ghost can_fail: { Self → Type 0 };

    /// Reads all that is left.
    fn read_all(&mut self, alloc: Global) -> Result<Vec<u8>, Unread>
        ensures ok { IfOk result (λ v. IfSome (remaining self.old) (λ xs. v.items ≡ xs)) }
        ensures err { IfErr result (λ e. e ≡ Unread.CannotRead → can_fail self.old) };
}

/// Where output goes.
pub trait Sink {
    /// The bytes that it holds, where they are known.
    ghost contents: { Self → Option Bytes };

    /// Writing these bytes may fail.
    ghost can_fail: { Self → Bytes → Type 0 };

    /// Writes a line: a first part, a second one and a line feed.
    fn write_line(&mut self, first: &str, second: &str) -> Result<(), Unwritten>
        ensures ok { OnOk result
            (Appends (contents self.old) (contents self.new) (first.now ++ second.now ++ codes "\n")) }
        ensures err { OnErr result (can_fail self.old (first.now ++ second.now ++ codes "\n")) };
}

/// Any reader or writer. Nothing is known of when it fails.
#[derive(Drop)]
pub struct Plain<T>(pub T);

const CHUNK: usize = 4096;

impl<R: Read> Source for Plain<R> {
    ghost remaining = { λ p. R.remaining p.0 };

    ghost can_fail = { λ _. Unit {0} };

    fn read_all(&mut self, alloc: Global) -> Result<Vec<u8>, Unread> {
        let mut bytes = Vec::new(alloc);
        let mut chunk = [0u8; CHUNK];
        for _ in 0..u64::MAX {
            match self.0.read(&mut chunk) {
                Ok(0) => return Ok(bytes),
                Ok(count) => bytes.extend_from_slice(&chunk[..count])?,
                Err(e) => {
                    if e.kind() != ErrorKind::Interrupted {
                        return Err(Unread::CannotRead);
                    }
                }
            }
        }
        Err(Unread::CannotRead)
    }
}

impl<W: Write> Sink for Plain<W> {
    ghost contents = { λ p. W.contents p.0 };

    ghost can_fail = { λ _ _. Unit {0} };

    fn write_line(&mut self, first: &str, second: &str) -> Result<(), Unwritten> {
        let writer = &mut self.0;
        write_all(writer, first)?;
        write_all(writer, second)?;
        write_all(writer, "\n")?;
        flush(writer)
    }
}

fn write_all<W: Write>(writer: &mut W, text: &str) -> Result<(), Unwritten>
    ensures { OnOk result (Appends (W.contents writer.old) (W.contents writer.new) text.now) }
{
    match writer.write_all(text.as_bytes()) {
        Ok(()) => Ok(()),
        Err(_) => Err(Unwritten),
    }
}

fn flush<W: Write>(writer: &mut W) -> Result<(), Unwritten>
    ensures { OnOk result (Appends (W.contents writer.old) (W.contents writer.new) (codes "")) }
{
    match writer.flush() {
        Ok(()) => Ok(()),
        Err(_) => Err(Unwritten),
    }
}

/// A slice of bytes is read without a failure.
impl Source for &[u8] {
    ghost remaining = { λ s. Option.Some s.now };

    ghost can_fail = { λ _. ⊥ };

    fn read_all(&mut self, alloc: Global) -> Result<Vec<u8>, Unread> {
        let mut bytes = Vec::new(alloc);
        bytes.extend_from_slice(self)?;
        Ok(bytes)
    }
}

/// Room for `N` bytes, which is filled from its front. Writing a line fails exactly where the line is longer than the room that is
/// left. In a contract it is the bytes that were written.
#[derive(Drop)]
pub struct Room<const N: usize> {
    bytes: [u8; N],
    used: usize,
}

impl<const N: usize> Model for Room<N> {
    ghost Value = { List ℕ };

    ghost view = { λ r. take r.used r.bytes };

    ghost invariant = { λ r. r.used ≤ N };
}

impl<const N: usize> Room<N> {
    pub fn new() -> Room<N>
        ensures { result ≡ [] }
    {
        Room {
            bytes: [0; N],
            used: 0,
        }
    }

    /// What was written.
    pub fn written(&self) -> &[u8]
        ensures value { result.now ≡ self.now }
        ensures within { length self.now ≤ N }
    {
        &self.bytes[..self.used]
    }

    /// How many bytes it still takes.
    fn left(&self) -> usize
        ensures { result + length self.now ≡ N }
    {
        N - self.used
    }

    fn push(&mut self, text: &str)
        requires { length self.old + length text.now ≤ N }
        ensures { self.new ≡ self.old ++ text.now }
    {
        let end = self.used + text.len();
        let all = &mut self.bytes[..];
        all[self.used..end].copy_from_slice(text.as_bytes());
        self.used = end;
    }
}

/// A line is written as a whole or not at all.
impl<const N: usize> Sink for Room<N> {
    ghost contents = { λ r. Option.Some r };

    ghost can_fail = { λ r line. N < length r + length line };

    fn write_line(&mut self, first: &str, second: &str) -> Result<(), Unwritten>
        ensures ok { OnOk result (self.new ≡ self.old ++ (first.now ++ second.now ++ codes "\n")) }
        ensures err { OnErr result (N < length self.old + length (first.now ++ second.now ++ codes "\n")) }
        ensures unchanged { OnErr result (self.new ≡ self.old) }
    {
        if self.left() < first.len() + second.len() + 1 {
            return Err(Unwritten);
        }
        self.push(first);
        self.push(second);
        self.push("\n");
        Ok(())
    }
}
