//! What is said to people where nothing was read.

ghost use Rattle.std.specs.Prelude.{◌≡◌, ◌++◌, codes, IfOk, string_bytes};
ghost use Rattle.syn_run.specs.Complaint as spec;

use crate::fault::Fault;
use std::alloc::{AllocError, Global};
use token_text::note;

/// What is said of a text, the one of this name, of which there is no tree: of a refusal its note (`token_text::note`), of any other fault
/// `NAME: ` and what it is. It is refused for want of memory alone.
pub fn complaint(alloc: Global, name: &str, text: &str, fault: &Fault) -> Result<String, AllocError>
    ensures { IfOk result (λ s. string_bytes s ≡ spec.complaint name.now text.now fault.now) }
{
    match fault {
        Fault::Refused(refusal) => note(alloc, name, text, refusal),
        Fault::UnknownReader | Fault::CannotRead | Fault::NotUtf8 | Fault::OutOfMemory => {
            named(alloc, name, fault.text())
        }
    }
}

fn named(alloc: Global, name: &str, said: &str) -> Result<String, AllocError>
    ensures { IfOk result (λ s. string_bytes s ≡ name.now ++ (codes ": " ++ said.now)) }
{
    format!(in alloc; "{name}: {said}")
}
