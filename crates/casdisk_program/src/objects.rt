//! Answers as JSON objects.

use casdisk_texts::RunFault;
use std::alloc::AllocError as NoMemory;
use std::io;
use std::io::Write;

/// Writes an object, where memory was there for it.
pub(crate) fn print_object<R: Print>(
    rt: &R,
    object: Result<Vec<u8>, NoMemory>,
) -> Result<(), RunFault> {
    let Ok(object) = object else {
        return Err(RunFault::NoMemory);
    };
    match io::writer(rt).write_all(object.as_slice()) {
        Ok(()) => Ok(()),
        Err(_) => Err(RunFault::Output),
    }
}
