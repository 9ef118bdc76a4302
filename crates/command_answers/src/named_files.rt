//! The files that command lines name.

ghost use Rattle.std.specs.Prelude.{ℕ, List, IfOk};

use std::fs::Files;
use std::io::Read;
use std::{fs, io};

/// Opens the files that arguments name. Only an impl says which file has a name. So a command can't leave its file out,
/// nor take another.
pub trait Opens {
    /// A file that was opened to be read.
    type Opened: Read + Drop;

    /// That an opened file is the one of this name.
    ghost named: { List ℕ → Self.Opened → Type 0 };

    /// Opens the file of that name, to be read from its start.
    fn open_named(&self, name: &str) -> io::Result<Self::Opened>
        ensures { IfOk result (named name.now) };
}

/// The file system opens files, and no clause says what they have.
impl<R: Files> Opens for R {
    ghost use Rattle.std.specs.Prelude.{⊤};

    type Opened = R::File;

    ghost named = { λ name file. ⊤ };

    fn open_named(&self, name: &str) -> io::Result<R::File> {
        fs::open(self, name)
    }
}
