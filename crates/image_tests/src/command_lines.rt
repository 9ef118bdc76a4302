//! A command line for the tests.

use std::env::FillError;
use std::rt::Env;

/// A command line of two words, of which the second need not be text.
#[derive(Drop)]
pub(crate) struct TwoWords {
    pub(crate) second: &'static [u8],
}

impl Env for TwoWords {
    fn arg(&self, i: usize, buf: &mut [u8]) -> Result<usize, FillError> {
        let word: &[u8] = match i {
            0 => b"tower",
            1 => self.second,
            _ => return Err(FillError::NotPresent),
        };
        if word.len() > buf.len() {
            return Err(FillError::TooLong);
        }
        buf[..word.len()].copy_from_slice(word);
        Ok(word.len())
    }

    fn var(&self, _name: &str, _buf: &mut [u8]) -> Result<usize, FillError> {
        Err(FillError::NotPresent)
    }

    fn var_at(&self, _i: usize, _buf: &mut [u8]) -> Result<usize, FillError> {
        Err(FillError::NotPresent)
    }
}
