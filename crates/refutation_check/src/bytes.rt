//! The fields of entries and completions that say who answers whom.

ghost use Rattle.std.specs.Prelude.{◌≡◌, ◌<◌, ◌^◌};
ghost use Rattle.nvme_model.specs.EntryBytes.{cqe_fields};
ghost use Rattle.host_laws.specs.Book.{cid_of};

use byteorder::{ByteOrder, LittleEndian};
use nvme_model::submission::Submission;

/// The CID of an entry.
pub fn cid_of(entry: &Submission) -> u16
    ensures value { result ≡ cid_of entry.now }
    ensures fits { cid_of entry.now < 2 ^ 16 }
{
    LittleEndian::read_u16(&entry.entry[2..4])
}

/// The submission queue that a completion names.
pub fn queue_of(cqe: &[u8; 16]) -> u16
    ensures value { result ≡ (cqe_fields cqe.now).sqid }
{
    LittleEndian::read_u16(&cqe[10..12])
}

/// The CID that a completion names.
pub fn cid_named(cqe: &[u8; 16]) -> u16
    ensures value { result ≡ (cqe_fields cqe.now).cid }
{
    LittleEndian::read_u16(&cqe[12..14])
}
