//! Completion queue entries in words.

ghost use Rattle.std.specs.Prelude.{◌≡◌, IfOk, string_bytes};
ghost use Rattle.nvme_model.specs.EntryBytes.{cqe_fields};
ghost use Rattle.history_words.specs.Completions.{completion_told, reserved_told};

use crate::little::{u16_at, u32_at};
use crate::names::status_text;
use crate::texts::{joined, set_text};
use itoa::Buffer;
use nvme_model::status::Status;
use std::alloc::{AllocError as NoMemory, Global};

// The fields that every completion of this controller leaves zero, where they aren't.
fn reserved_text(alloc: Global, cqe: &[u8; 16]) -> Result<String, NoMemory>
    ensures value { IfOk result (λ text. string_bytes text ≡ reserved_told (cqe_fields cqe.now)) }
{
    let word = u16_at(cqe, 14);
    let crd = set_text(alloc, "CRD", u32::from(word / 4096 % 4))?;
    let more = set_text(alloc, "More", u32::from(word / 16_384 % 2))?;
    let dnr = set_text(alloc, "DNR", u32::from(word / 32_768))?;
    let first = set_text(alloc, "DW0", u32_at(cqe, 0))?;
    let second = set_text(alloc, "DW1", u32_at(cqe, 4))?;
    joined(
        alloc,
        &[
            crd.as_str(),
            more.as_str(),
            dnr.as_str(),
            first.as_str(),
            second.as_str(),
        ],
    )
}

/// A completion in words: its command's CID, its status by name and numbers, its submission queue, SQHD and its
/// phase; and each field that has to be zero, where it isn't.
///
/// # Errors
///
/// `NoMemory` alone.
pub fn completion_words(alloc: Global, cqe: &[u8; 16]) -> Result<String, NoMemory>
    ensures value { IfOk result (λ text. string_bytes text ≡ completion_told (cqe_fields cqe.now)) }
{
    let word = u16_at(cqe, 14);
    let status = Status::new((word / 512 % 8) as u8, (word / 2 % 256) as u8);
    let named = status_text(alloc, status)?;
    let reserved = reserved_text(alloc, cqe)?;
    let mut cid = Buffer::new();
    let mut queue = Buffer::new();
    let mut head = Buffer::new();
    let mut phase = Buffer::new();
    joined(
        alloc,
        &[
            "CID ",
            cid.format(u16_at(cqe, 12)),
            ", ",
            named.as_str(),
            ", queue ",
            queue.format(u16_at(cqe, 10)),
            ", SQHD ",
            head.format(u16_at(cqe, 8)),
            ", phase ",
            phase.format(word % 2),
            reserved.as_str(),
        ],
    )
}
