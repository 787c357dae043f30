//! A line as its bytes.

ghost use Rattle.std.specs.Prelude.{◌++◌, ◌≡◌, IfOk, OnErr, OnOk};

use std::alloc::{AllocError as NoMemory, Global};
use std::marker::Model;

/// A line, without its line feed.
#[derive(Debug, Drop)]
pub struct TextLine {
    bytes: Vec<u8>,
}

impl Model for TextLine {
    ghost use Rattle.std.specs.Prelude.{List, ℕ};

    ghost Value = { List ℕ };

    ghost view = { λ l. l.bytes.items };
}

impl TextLine {
    /// These bytes.
    pub fn new(bytes: Vec<u8>) -> TextLine
        ensures value { result ≡ bytes.items }
    {
        TextLine { bytes }
    }

    /// The same bytes, in memory of their own.
    ///
    /// # Errors
    ///
    /// `NoMemory` alone.
    pub fn copy_of(alloc: Global, bytes: &[u8]) -> Result<TextLine, NoMemory>
        ensures same { IfOk result (λ line. line ≡ bytes.now) }
    {
        Ok(TextLine {
            bytes: Vec::from_slice(alloc, bytes)?,
        })
    }

    pub fn as_slice(&self) -> &[u8]
        ensures value { result.now ≡ self.now }
    {
        self.bytes.as_slice()
    }

    /// The bytes, given back.
    pub fn into_vec(self) -> Vec<u8>
        ensures value { result.items ≡ self }
    {
        self.bytes
    }
}

/// Puts copies of these lines at the end of others.
///
/// # Errors
///
/// `NoMemory` alone; some copies may be there.
pub(crate) fn add_copies(
    alloc: Global,
    out: &mut Vec<TextLine>,
    lines: &[TextLine],
) -> Result<(), NoMemory>
    ensures added { OnOk result (out.new.items ≡ out.old.items ++ lines.now) }
{
    for k in 0..lines.len() {
        out.push(TextLine::copy_of(alloc, lines[k].as_slice())?)?;
    }
    Ok(())
}
