//! Readers and writers that give and take odd pieces, or fail in mid-stream.
ghost use Rattle.std.specs.Prelude.{◌≡◌, ◌<◌, []};

use arrayvec::ArrayVec;
use std::io;
use std::io::{Read, Write};

/// How many bytes a piece has.
#[derive(Clone, Copy)]
pub enum Pieces {
    Whole,
    Single,
    /// 1 to 32 bytes, by the next of the numbers that a seed determines.
    Random(u32),
}

impl Pieces {
    /// How many bytes the next piece has at most.
    pub fn next(&mut self) -> usize
        ensures { 0 < result }
    {
        match self {
            Pieces::Whole => usize::MAX,
            Pieces::Single => 1,
            Pieces::Random(seed) => {
                *seed = seed.wrapping_mul(1_664_525).wrapping_add(1_013_904_223);
                (*seed >> 27) as usize + 1
            }
        }
    }
}

/// Gives the bytes of a text in pieces, and fails once it has given so many.
#[derive(Drop)]
pub struct BrokenReader<'a> {
    pub rest: &'a [u8],
    pub left: usize,
    pub pieces: Pieces,
}

impl Read for BrokenReader<'_> {
    ghost use Rattle.std.specs.Prelude.{Some};

    ghost remaining = { λ reader. Some reader.rest.now };

    fn read(&mut self, buf: &mut [u8]) -> io::Result<usize> {
        if self.left == 0 {
            return Err(io::Error::from(io::ErrorKind::BrokenPipe));
        }
        let most = self.pieces.next();
        let count = buf.len().min(self.left).min(self.rest.len()).min(most);
        let (front, rest) = self.rest.split_at(count);
        buf[..count].copy_from_slice(front);
        self.rest = rest;
        self.left -= count;
        Ok(count)
    }
}

/// Keeps what is written, piece by piece, and fails once it has taken so many bytes. It has room for 256, and
/// allocates nothing.
#[derive(Drop)]
pub struct BrokenWriter {
    pub written: ArrayVec<u8, 256>,
    pub left: usize,
    pub pieces: Pieces,
}

impl BrokenWriter {
    /// A writer that fails behind so many bytes.
    pub fn new(left: usize, pieces: Pieces) -> BrokenWriter
        ensures { result.written.items ≡ [] }
    {
        BrokenWriter {
            written: ArrayVec::new(),
            left,
            pieces,
        }
    }
}

impl Write for BrokenWriter {
    ghost use Rattle.std.specs.Prelude.{Some};

    ghost contents = { λ writer. Some writer.written.items };

    fn write(&mut self, buf: &[u8]) -> io::Result<usize> {
        if self.left == 0 {
            return Err(io::Error::from(io::ErrorKind::BrokenPipe));
        }
        let count = buf.len().min(self.left).min(self.pieces.next());
        match self.written.try_extend_from_slice(&buf[..count]) {
            Ok(()) => {
                self.left -= count;
                Ok(count)
            }
            Err(_) => Err(io::Error::from(io::ErrorKind::WriteZero)),
        }
    }

    fn flush(&mut self) -> io::Result<()> {
        Ok(())
    }
}

/// Keeps so many bytes, and then takes none. It has room for 256.
#[derive(Drop)]
pub struct FullWriter {
    pub written: ArrayVec<u8, 256>,
    pub left: usize,
}

impl FullWriter {
    /// A writer that takes no byte behind so many.
    pub fn new(left: usize) -> FullWriter
        ensures { result.written.items ≡ [] }
    {
        FullWriter {
            written: ArrayVec::new(),
            left,
        }
    }
}

impl Write for FullWriter {
    ghost use Rattle.std.specs.Prelude.{Some};

    ghost contents = { λ writer. Some writer.written.items };

    fn write(&mut self, buf: &[u8]) -> io::Result<usize> {
        let count = buf.len().min(self.left);
        match self.written.try_extend_from_slice(&buf[..count]) {
            Ok(()) => {
                self.left -= count;
                Ok(count)
            }
            Err(_) => Err(io::Error::from(io::ErrorKind::WriteZero)),
        }
    }

    fn flush(&mut self) -> io::Result<()> {
        Ok(())
    }
}
