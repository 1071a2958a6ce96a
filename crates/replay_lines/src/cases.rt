// How a case went, and why a line could not be replayed. Cases are given a line as its bytes, or as
// text; those of the recorded lists are given bytes, and lack no memory.
ghost use Rattle.std.specs.Prelude.{◌≡◌, ◌↔◌, IsTrue};
ghost use Rattle.replay_lines.specs.declared.cases.Replayed.TheVariants.{Same};
ghost use Rattle.replay_lines.specs.declared.cases.NotReplayed.TheVariants.{NoForm, OutOfMemory};
ghost use Rattle.hex.specs.declared.error.FromHexError.TheVariants as from_hex;

use hex::FromHexError;
use std::alloc::{AllocError, AllocFailed};
use std::num::ParseIntError;

// How a case went: its answers are those recorded, or not.
#[derive(Clone, Copy, Debug, PartialEq, Eq)]
pub enum Replayed {
    Same,
    Differs,
}

// Whether the case's answers are those recorded.
impl From<bool> for Replayed {
    ghost from_gives = { λ same replayed. IsTrue same ↔ (replayed ≡ Same) };

    fn from(same: bool) -> Self {
        if same {
            Replayed::Same
        } else {
            Replayed::Differs
        }
    }
}

// Why a line of bytes could not be read.
#[derive(Clone, Copy, Debug, PartialEq, Eq)]
pub enum Unread {
    NoForm,
}

// What `?` converts: each error that reading a line can end with, in a block of its own, as `From` has it.
impl From<FromHexError> for Unread {
    fn from(_error: FromHexError) -> Self {
        Unread::NoForm
    }
}

impl From<ParseIntError> for Unread {
    fn from(_error: ParseIntError) -> Self {
        Unread::NoForm
    }
}

// Why a line of text could not be replayed.
#[derive(Clone, Copy, Debug, PartialEq, Eq)]
pub enum NotReplayed {
    NoForm,
    OutOfMemory,
}

// What `?` converts where a line is text: its cases may lack memory too.
impl From<AllocError> for NotReplayed {
    ghost from_gives = { λ error replayed. replayed ≡ OutOfMemory };

    fn from(_error: AllocError) -> Self {
        NotReplayed::OutOfMemory
    }
}

impl<T: Drop> From<AllocFailed<T>> for NotReplayed {
    ghost from_gives = { λ error replayed. replayed ≡ OutOfMemory };

    fn from(_error: AllocFailed<T>) -> Self {
        NotReplayed::from(AllocError)
    }
}

impl From<FromHexError> for NotReplayed {
    ghost from_gives = { λ error replayed. (error ≡ from_hex.OutOfMemory) ↔ (replayed ≡ OutOfMemory) };

    fn from(error: FromHexError) -> Self {
        match error {
            FromHexError::OutOfMemory => NotReplayed::OutOfMemory,
            _ => NotReplayed::NoForm,
        }
    }
}

impl From<ParseIntError> for NotReplayed {
    ghost from_gives = { λ error replayed. replayed ≡ NoForm };

    fn from(error: ParseIntError) -> Self {
        NotReplayed::from(Unread::from(error))
    }
}

impl From<Unread> for NotReplayed {
    ghost from_gives = { λ error replayed. replayed ≡ NoForm };

    fn from(_error: Unread) -> Self {
        NotReplayed::NoForm
    }
}

// The cases of a recorded list, replayed line by line, each line as its bytes.
pub trait ByteCases: Drop {
    // How the line's case went; None where the line only gives what cases run on.
    fn replay(&mut self, line: &[u8]) -> Result<Option<Replayed>, Unread>;
}

// The cases of a recorded list, replayed line by line, each line as text.
pub trait Cases: Drop {
    // How the line's case went; None where the line only gives what cases run on.
    fn replay(&mut self, line: &str) -> Result<Option<Replayed>, NotReplayed>;
}
