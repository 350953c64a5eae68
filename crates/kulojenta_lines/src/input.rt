//! The lines of an input, one after the other.

ghost use Rattle.std.specs.Prelude.{◌≡◌, ◌<◌, ◌↔◌, length, IfOk, IfSome, IsTrue, OnOk};
ghost use Rattle.std.specs.Io.BufRead.{DropsThrough, ends_with_byte, first_line, strip_last};
ghost use Rattle.kulojenta_lines.specs.Input as spec;

use std::io;
use std::io::BufRead;

/// Reads the next line of an input, in the place of what `line` held, and answers whether there is one: without its line feed, or its carriage
/// return and line feed. The last line may lack them.
pub fn next_line<R: BufRead>(input: &mut R, line: &mut Vec<u8>) -> io::Result<bool>
    ensures some { IfOk result (λ some. IfSome (R.remaining input.old) (λ bytes. IsTrue some ↔ (0 < length bytes))) }
    ensures line { OnOk result (IfSome (R.remaining input.old) (λ bytes. line.new.items ≡ first_line bytes)) }
    ensures rest { OnOk result (DropsThrough (R.remaining input.old) (R.remaining input.new) 10) }
{
    line.clear();
    let count = input.read_until(b'\n', line)?;
    drop_end(line);
    Ok(count > 0)
}

/// Drops a line's end.
fn drop_end(line: &mut Vec<u8>)
    ensures { line.new.items ≡ spec.without_end line.old.items }
{
    if drop_last(line, b'\n') {
        let _ = drop_last(line, b'\r');
    }
}

/// Drops this byte from the end, where it stands there, and answers whether it did.
fn drop_last(line: &mut Vec<u8>, byte: u8) -> bool
    ensures dropped { result ≡ ends_with_byte byte line.old.items }
    ensures items { line.new.items ≡ strip_last byte line.old.items }
{
    let count = line.len();
    if count == 0 || line[count - 1] != byte {
        return false;
    }
    line.truncate(count - 1);
    true
}
