//! Completion queue entries.

ghost use Rattle.std.specs.Prelude.{◌≡◌, ◌↔◌, IsErr, IfOk};
ghost use Rattle.nvme_model.specs.EntryBytes.{IsCqe, cqe_fields};
ghost use Rattle.entry_codec.specs.declared.cqe.Cqe.{Cqe};
ghost use Rattle.entry_codec.specs.Cqe.{FitsCqe, SetsReserved, completion_bytes, completion_fields, cqe_fault_number};

use crate::little::{put_u16, u16_at, u32_at};
use nvme_model::status::Status;
use thiserror::Error;

/// A completion queue entry of 16 bytes, whose fields DW0, DW1, CRD, More and DNR are zero (Base 2.0, Completion Queue
/// Entry).
#[derive(Clone, Copy, Debug, PartialEq, Eq)]
pub struct Cqe {
    /// SQ Head Pointer: the slot of the submission queue from which the next entry is fetched.
    pub sqhd: u16,
    /// The number of the submission queue.
    pub sqid: u16,
    /// The CID of the command.
    pub cid: u16,
    /// The phase tag.
    pub phase: bool,
    pub status: Status,
}

/// Why 16 bytes are no completion queue entry.
#[derive(Clone, Copy, Debug, Drop, Error, PartialEq, Eq)]
pub enum CqeFault {
    /// One of DW0, DW1, CRD, More and DNR isn't zero.
    #[error("DW0, DW1, CRD, More or DNR isn't zero")]
    ReservedNotZero,
}

impl CqeFault {
    /// The number that texts give it, 31.
    pub fn number(&self) -> u8
        ensures value { result ≡ cqe_fault_number self.now }
    {
        match self {
            CqeFault::ReservedNotZero => 31,
        }
    }
}

/// The 16 bytes of the completion.
pub fn encode_cqe(cqe: &Cqe) -> [u8; 16]
    ensures value { result ≡ completion_bytes cqe.now }
    ensures is { IsCqe result (completion_fields cqe.now) }
    ensures fits { FitsCqe cqe.now }
{
    let code = 2 * u16::from(cqe.status.sc()) + 512 * u16::from(cqe.status.sct());
    let mut bytes = [0; 16];
    put_u16(&mut bytes, 8, cqe.sqhd);
    put_u16(&mut bytes, 10, cqe.sqid);
    put_u16(&mut bytes, 12, cqe.cid);
    put_u16(&mut bytes, 14, u16::from(cqe.phase) + code);
    bytes
}

/// The completion with these bytes, or that they aren't one.
///
/// # Errors
///
/// `ReservedNotZero`, 31, where one of DW0, DW1, CRD, More and DNR isn't zero.
pub fn decode_cqe(bytes: &[u8; 16]) -> Result<Cqe, CqeFault>
    ensures fault { IsErr result ↔ SetsReserved (cqe_fields bytes.now) }
    ensures fields { IfOk result (λ cqe. completion_fields cqe ≡ cqe_fields bytes.now) }
    ensures back { IfOk result (λ cqe. bytes.now ≡ completion_bytes cqe) }
    ensures again { (cqe : Cqe) → FitsCqe cqe → bytes.now ≡ completion_bytes cqe → result ≡ Ok cqe }
{
    let word = u16_at(bytes, 14);
    if u32_at(bytes, 0) != 0 || u32_at(bytes, 4) != 0 || word / 4096 != 0 {
        return Err(CqeFault::ReservedNotZero);
    }
    Ok(Cqe {
        sqhd: u16_at(bytes, 8),
        sqid: u16_at(bytes, 10),
        cid: u16_at(bytes, 12),
        phase: word % 2 == 1,
        status: Status::new((word / 512 % 8) as u8, (word / 2 % 256) as u8),
    })
}
