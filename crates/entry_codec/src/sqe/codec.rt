//! Submission queue entries from their bytes, and back.

ghost use Rattle.std.specs.Prelude.{◌≡◌, List, ℕ};
ghost use Rattle.nvme_model.specs.EntryBytes.{IsSqe, sqe_fields};
ghost use Rattle.entry_codec.specs.Bytes.{IsBytes};
ghost use Rattle.entry_codec.specs.Sqe.{sqe_bytes};

use crate::little::{
    put_u8, put_u16, put_u32, put_u64, put_u128, u8_at, u16_at, u32_at, u64_at, u128_at,
};
use crate::sqe::Sqe;

/// The entry with these bytes. Any 64 bytes are an entry.
pub fn decode_sqe(bytes: &[u8; 64]) -> Sqe
    ensures value { result ≡ sqe_fields bytes.now }
    ensures back { bytes.now ≡ sqe_bytes result }
{
    Sqe {
        opcode: u8_at(bytes, 0),
        flags: u8_at(bytes, 1),
        cid: u16_at(bytes, 2),
        nsid: u32_at(bytes, 4),
        cdw2: u32_at(bytes, 8),
        cdw3: u32_at(bytes, 12),
        mptr: u64_at(bytes, 16),
        dptr: u128_at(bytes, 24),
        cdw10: u32_at(bytes, 40),
        cdw11: u32_at(bytes, 44),
        cdw12: u32_at(bytes, 48),
        cdw13: u32_at(bytes, 52),
        cdw14: u32_at(bytes, 56),
        cdw15: u32_at(bytes, 60),
    }
}

/// The 64 bytes of the entry.
pub fn encode_sqe(sqe: &Sqe) -> [u8; 64]
    ensures value { result ≡ sqe_bytes sqe.now }
    ensures is { IsSqe result sqe.now }
    ensures only { (bytes : List ℕ) → IsSqe bytes sqe.now → IsBytes bytes → bytes ≡ result }
{
    let mut bytes = [0; 64];
    put_u8(&mut bytes, 0, sqe.opcode);
    put_u8(&mut bytes, 1, sqe.flags);
    put_u16(&mut bytes, 2, sqe.cid);
    put_u32(&mut bytes, 4, sqe.nsid);
    put_u32(&mut bytes, 8, sqe.cdw2);
    put_u32(&mut bytes, 12, sqe.cdw3);
    put_u64(&mut bytes, 16, sqe.mptr);
    put_u128(&mut bytes, 24, sqe.dptr);
    put_u32(&mut bytes, 40, sqe.cdw10);
    put_u32(&mut bytes, 44, sqe.cdw11);
    put_u32(&mut bytes, 48, sqe.cdw12);
    put_u32(&mut bytes, 52, sqe.cdw13);
    put_u32(&mut bytes, 56, sqe.cdw14);
    put_u32(&mut bytes, 60, sqe.cdw15);
    bytes
}
