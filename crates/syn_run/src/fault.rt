//! Why a run shows no tree.

ghost use Rattle.std.specs.Prelude.{◌≡◌};
ghost use Rattle.syn_run.specs.declared.fault.Fault.{Fault};
ghost use Rattle.syn_run.specs.Faults as faults;

use crate::channel::Unread;
use std::alloc::AllocError;
use token_core::{Error, ErrorKind};

/// Why a run shows no tree.
#[derive(Drop)]
pub enum Fault {
    UnknownReader,
    CannotRead,
    NotUtf8,
    OutOfMemory,
    /// The lexer or the reader refused the input.
    Refused(Error),
}

impl Fault {
    /// What is said of it.
    pub fn text(&self) -> &str
        ensures { result.now ≡ faults.text self.now }
    {
        match self {
            Fault::UnknownReader => "unknown reader",
            Fault::CannotRead => "cannot read input",
            Fault::NotUtf8 => "input is not UTF-8",
            Fault::OutOfMemory => "out of memory",
            Fault::Refused(refusal) => refusal.text(),
        }
    }

    /// The status that a run ends with.
    pub fn status(&self) -> u8
        ensures { result ≡ faults.status self.now }
    {
        match self {
            Fault::UnknownReader => 2,
            Fault::CannotRead | Fault::NotUtf8 | Fault::OutOfMemory | Fault::Refused(_) => 1,
        }
    }
}

impl From<Unread> for Fault {
    ghost from_gives = { λ unread fault. fault ≡ faults.of_unread unread };

    fn from(unread: Unread) -> Fault {
        match unread {
            Unread::OutOfMemory => Fault::OutOfMemory,
            Unread::CannotRead => Fault::CannotRead,
        }
    }
}

impl From<AllocError> for Fault {
    ghost from_gives = { λ _ fault. fault ≡ Fault.OutOfMemory };

    fn from(_e: AllocError) -> Fault {
        Fault::OutOfMemory
    }
}

impl From<Error> for Fault {
    ghost from_gives = { λ refusal fault. fault ≡ faults.of_refusal refusal };

    fn from(refusal: Error) -> Fault {
        match refusal.kind() {
            ErrorKind::OutOfMemory => Fault::OutOfMemory,
            _ => Fault::Refused(refusal),
        }
    }
}
