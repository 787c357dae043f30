//! What a command reads.

use crate::failure::{Failure, unopened};
use crate::kept::Kept;
use std::fs;
use std::io::{Input, Read, Result as IoResult};
use std::rt::Files;

/// What a command reads: a file, or standard input.
#[derive(Drop)]
pub(crate) enum Source<F: Drop, I: Drop> {
    File(F),
    Standard(I),
}

impl<F: Read + Drop, I: Read + Drop> Read for Source<F, I> {
    fn read(&mut self, buf: &mut [u8]) -> IoResult<usize> {
        match self {
            Source::File(file) => file.read(buf),
            Source::Standard(input) => input.read(buf),
        }
    }
}

// Opens the file of this name, or standard input where it is `-`.
pub(crate) fn open<R: Files + Input>(rt: &R, name: &str) -> IoResult<Source<R::File, R::Reader>> {
    if name == "-" {
        return Ok(Source::Standard(rt.reader()));
    }
    Ok(Source::File(fs::open(rt, name)?))
}

/// Opens a file whose last lines are kept where it is asked why a command failed.
pub(crate) fn opened<R: Files + Input + AllocGlobal>(
    rt: &R,
    name: &str,
    why: bool,
) -> Result<Kept<Source<R::File, R::Reader>>, Failure> {
    match open(rt, name) {
        Ok(source) => Ok(Kept::new(rt.alloc(), source, why)),
        Err(error) => Err(unopened(rt.alloc(), name, error.kind())),
    }
}

/// How many bytes a file has, where it is one of which that is known.
pub(crate) fn size_of<R: Files>(rt: &R, name: &str) -> Option<u64> {
    if name == "-" {
        return None;
    }
    let size = rt.metadata(name).ok()?.len();
    if size == 0 {
        return None;
    }
    Some(size)
}
