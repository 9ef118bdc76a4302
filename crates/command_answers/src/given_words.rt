//! The words of the command line.

ghost use Rattle.std.specs.Prelude.{◌≡◌, IfOk, IfErr};
ghost use Rattle.std.specs.Vec.Iter.{into_iter_items};

use std::alloc::{AllocError, Global};
use std::error::Error;
use std::rt::Env;
use std::{env, fmt, io};

/// Why the words of the command line were not read.
#[derive(Clone, Copy, Debug, PartialEq, Eq)]
pub enum WordsFault {
    /// There is not enough memory for them.
    NoMemory,
    /// A word is not text.
    NotText,
}

impl fmt::Display for WordsFault {
    ghost use Rattle.std.specs.Prelude.{Some};
    ghost use Rattle.command_answers.specs.Faults.{words_text};

    ghost output = { λ fault. Some (words_text fault) };

    fn fmt<W: fmt::Write>(&self, f: &mut fmt::Formatter<W>) -> fmt::Result {
        match self {
            WordsFault::NoMemory => write!(f, "out of memory"),
            WordsFault::NotText => write!(f, "a word of the command line is not text"),
        }
    }
}

impl Error for WordsFault {}

impl From<AllocError> for WordsFault {
    ghost use Rattle.std.specs.Prelude.{◌≡◌};
    ghost use Rattle.command_answers.specs.declared.given_words.WordsFault.TheVariants as fault;

    ghost from_gives = { λ _ e. e ≡ fault.NoMemory };

    fn from(_error: AllocError) -> WordsFault {
        WordsFault::NoMemory
    }
}

/// Only a lack of memory becomes NoMemory.
impl From<io::Error> for WordsFault {
    ghost use Rattle.std.specs.Prelude.{◌≡◌, ◌↔◌};
    ghost use Rattle.std.specs.IoError.{error_kind};
    ghost use Rattle.std.specs.declared.io.ErrorKind.TheVariants as kind;
    ghost use Rattle.command_answers.specs.declared.given_words.WordsFault.TheVariants as fault;

    ghost from_gives = { λ error e. (e ≡ fault.NoMemory) ↔ (error_kind error ≡ kind.OutOfMemory) };

    fn from(error: io::Error) -> WordsFault {
        if error.kind() == io::ErrorKind::OutOfMemory {
            WordsFault::NoMemory
        } else {
            WordsFault::NotText
        }
    }
}

/// The words that the host gave, all and in order.
fn gathered(alloc: Global, given: env::Args) -> Result<Vec<String>, WordsFault>
    ensures words { IfOk result (λ words. words.items ≡ into_iter_items given) }
    ensures fault { IfErr result (λ fault. fault ≡ WordsFault.NoMemory) }
{
    Ok(given.collect(alloc)?)
}

/// The words of the command line, the program's name first. No clause can say which words the host gives.
pub fn words<R: AllocGlobal + Env>(rt: &R) -> Result<Vec<String>, WordsFault> {
    let given = env::args(rt)?;
    gathered(rt.alloc(), given)
}
