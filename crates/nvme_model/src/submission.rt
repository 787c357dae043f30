//! Submission queue entries with the data beside them, as lists that contracts see.

ghost use Rattle.std.specs.Borrow.{sem};
ghost use Rattle.std.specs.Prelude.{◌≡◌, ◌<◌, IfOk, length};

use std::alloc::{AllocError as NoMemory, Global};
use std::marker::Model;

/// A list of bytes of any length.
#[derive(Debug, Drop)]
pub struct Payload {
    bytes: Vec<u8>,
}

impl Model for Payload {
    ghost use Rattle.std.specs.Prelude.{List, ℕ};

    ghost Value = { List ℕ };

    ghost view = { λ p. p.bytes.items };
}

impl Payload {
    ghost use Rattle.nvme_model.specs.Lends.{LendsBytes};

    /// These bytes.
    pub fn new(bytes: Vec<u8>) -> Payload
        ensures { result ≡ bytes.items }
    {
        Payload { bytes }
    }

    /// The same bytes, in memory of their own.
    ///
    /// # Errors
    ///
    /// `NoMemory` alone.
    pub fn copy_of(alloc: Global, bytes: &[u8]) -> Result<Payload, NoMemory>
        ensures same { IfOk result (λ payload. payload ≡ bytes.now) }
    {
        let mut copy = Vec::with_capacity(alloc, bytes.len())?;
        copy.extend_from_slice(bytes)?;
        Ok(Payload { bytes: copy })
    }

    pub fn as_slice(&self) -> &[u8]
        ensures { result.now ≡ self.now }
    {
        self.bytes.as_slice()
    }

    /// The bytes, to be changed; their number stays.
    pub fn as_mut_slice(&mut self) -> &mut [u8]
        ensures* writes_back { sem 𝓛 (LendsBytes self.entry result) }
        ensures value { result.now ≡ self.old }
    {
        self.bytes.as_mut_slice()
    }

    /// The bytes, given back.
    pub fn into_vec(self) -> Vec<u8>
        ensures { result.items ≡ self }
    {
        self.bytes
    }
}

/// A submission queue entry of 64 bytes, and the data beside it.
#[derive(Debug, Drop)]
pub struct Submission {
    pub entry: [u8; 64],
    pub payload: Payload,
}

/// The same entries, each with its data in memory of its own.
///
/// # Errors
///
/// `NoMemory` alone.
pub fn copies_of(alloc: Global, entries: &[Submission]) -> Result<Vec<Submission>, NoMemory>
    ensures same { IfOk result (λ copies. copies.items ≡ entries.now) }
{
    let mut copies = Vec::with_capacity(alloc, entries.len())?;
    for one in entries {
        copies.push_reserved(Submission {
            entry: one.entry,
            payload: Payload::copy_of(alloc, one.payload.as_slice())?,
        });
    }
    Ok(copies)
}

/// A list of entries in order, maybe none.
#[derive(Debug, Drop)]
pub struct Submissions {
    items: Vec<Submission>,
}

impl Model for Submissions {
    ghost use Rattle.std.specs.Prelude.{List};
    ghost use Rattle.nvme_model.specs.declared.submission.Submission.{Submission};

    ghost Value = { List Submission };

    ghost view = { λ b. b.items.items };
}

impl Submissions {
    /// These entries.
    pub fn new(items: Vec<Submission>) -> Submissions
        ensures { result ≡ items.items }
    {
        Submissions { items }
    }

    pub fn as_slice(&self) -> &[Submission]
        ensures { result.now ≡ self.now }
    {
        self.items.as_slice()
    }

    /// The entries, given back.
    pub fn into_vec(self) -> Vec<Submission>
        ensures { result.items ≡ self }
    {
        self.items
    }
}

/// The entries of one accepted Publish in order, at least one.
#[derive(Drop)]
pub struct Batch {
    items: Vec<Submission>,
}

impl Model for Batch {
    ghost use Rattle.std.specs.Prelude.{List, ◌<◌, length};
    ghost use Rattle.nvme_model.specs.declared.submission.Submission.{Submission};

    ghost Value = { List Submission };

    ghost view = { λ b. b.items.items };

    ghost invariant = { λ b. 0 < length b.items.items };
}

impl Batch {
    /// These entries.
    pub fn new(items: Vec<Submission>) -> Batch
        requires { 0 < length items.items }
        ensures { result ≡ items.items }
    {
        Batch { items }
    }

    pub fn as_slice(&self) -> &[Submission]
        ensures value { result.now ≡ self.now }
        ensures some { 0 < length result.now }
    {
        self.items.as_slice()
    }

    /// The entries, given back.
    pub fn into_vec(self) -> Vec<Submission>
        ensures value { result.items ≡ self }
        ensures some { 0 < length result.items }
    {
        self.items
    }
}
