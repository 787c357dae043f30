//! Submission queue entries.

ghost use Rattle.std.specs.Prelude.{◌≡◌, ◌<◌, ◌≤◌, ◌+◌, ◌↔◌, IsTrue};
ghost use Rattle.nvme_model.specs.EntryBytes.{slba as slba_of, block_count as blocks_of};
ghost use Rattle.nvme_model.specs.Commands.{is_flush, is_write, is_read, is_compare, is_write_zeroes, data_length};
ghost use Rattle.nvme_model.specs.Operations.{op_of_fields};
ghost use Rattle.nvme_model.specs.Verdict.{has_invalid_field};
ghost use Rattle.entry_codec.specs.Fuse.{fuse_number};
ghost use Rattle.entry_codec.specs.Sqe.{command_fields, unused};

use crate::fuse::Fuse;
use crate::opcode;
use nvme_model::operation::Op;
use std::marker::Model;

mod codec;

pub use crate::sqe::codec::{decode_sqe, encode_sqe};

/// A submission queue entry of 64 bytes (Base 2.0, Submission Queue Entry).
#[derive(Clone, Copy, Debug, PartialEq, Eq)]
pub struct Sqe {
    /// The opcode, bits 7:0 of CDW0.
    pub opcode: u8,
    // bits 15:8 of CDW0: FUSE, four reserved bits and PSDT
    flags: u8,
    /// The command's CID, bits 31:16 of CDW0.
    pub cid: u16,
    /// The number of the namespace.
    pub nsid: u32,
    /// CDW2, which is reserved.
    pub cdw2: u32,
    /// CDW3, which is reserved.
    pub cdw3: u32,
    /// MPTR, the pointer to metadata.
    pub mptr: u64,
    /// DPTR, the pointer to data.
    pub dptr: u128,
    /// CDW10: SLBA's low half, where the command has one.
    pub cdw10: u32,
    /// CDW11: SLBA's high half, where the command has one.
    pub cdw11: u32,
    /// CDW12: NLB in its low half, where the command has one.
    pub cdw12: u32,
    /// CDW13.
    pub cdw13: u32,
    /// CDW14.
    pub cdw14: u32,
    /// CDW15.
    pub cdw15: u32,
}

impl Model for Sqe {
    ghost use Rattle.std.specs.Prelude.{◌+◌, ◌*◌, ◌/◌, ◌%◌};
    ghost use Rattle.nvme_model.specs.EntryBytes.{Sqe as SqeFields};

    ghost Value = { SqeFields };

    ghost view = { λ s. record {
      opcode = s.opcode;
      fuse = s.flags % 4;
      reserved = (s.flags / 4) % 16;
      psdt = s.flags / 64;
      cid = s.cid;
      nsid = s.nsid;
      cdw2 = s.cdw2;
      cdw3 = s.cdw3;
      mptr = s.mptr;
      dptr = s.dptr;
      cdw10 = s.cdw10;
      cdw11 = s.cdw11;
      cdw12 = s.cdw12;
      cdw13 = s.cdw13;
      cdw14 = s.cdw14;
      cdw15 = s.cdw15;
    } };

    ghost inverse = { λ v. record {
      opcode = v.opcode;
      flags = v.fuse + 4 * v.reserved + 64 * v.psdt;
      cid = v.cid;
      nsid = v.nsid;
      cdw2 = v.cdw2;
      cdw3 = v.cdw3;
      mptr = v.mptr;
      dptr = v.dptr;
      cdw10 = v.cdw10;
      cdw11 = v.cdw11;
      cdw12 = v.cdw12;
      cdw13 = v.cdw13;
      cdw14 = v.cdw14;
      cdw15 = v.cdw15;
    } };
}

impl Sqe {
    /// The entry of a command on namespace 1: its first block and its number of blocks, 0's based; zero elsewhere.
    pub fn command(opcode: u8, fuse: Fuse, cid: u16, slba: u64, nlb: u16) -> Sqe
        ensures fields { result ≡ command_fields opcode (fuse_number fuse) cid slba nlb }
        ensures slba { slba_of result ≡ slba }
        ensures blocks { blocks_of result ≡ nlb + 1 }
    {
        Sqe {
            opcode,
            flags: fuse.number(),
            cid,
            nsid: 1,
            cdw2: 0,
            cdw3: 0,
            mptr: 0,
            dptr: 0,
            cdw10: (slba % 0x1_0000_0000) as u32,
            cdw11: (slba / 0x1_0000_0000) as u32,
            cdw12: u32::from(nlb),
            cdw13: 0,
            cdw14: 0,
            cdw15: 0,
        }
    }

    /// FUSE, bits 9:8 of CDW0.
    pub fn fuse(&self) -> u8
        ensures value { result ≡ self.now.fuse }
        ensures width { result < 4 }
    {
        self.flags % 4
    }

    /// The reserved bits 13:10 of CDW0.
    pub fn reserved(&self) -> u8
        ensures value { result ≡ self.now.reserved }
        ensures width { result < 16 }
    {
        self.flags / 4 % 16
    }

    /// PSDT, bits 15:14 of CDW0.
    pub fn psdt(&self) -> u8
        ensures value { result ≡ self.now.psdt }
        ensures width { result < 4 }
    {
        self.flags / 64
    }

    /// SLBA of a Read, Write, Compare or Write Zeroes: its first block.
    pub fn slba(&self) -> u64
        ensures value { result ≡ slba_of self.now }
    {
        u64::from(self.cdw10) + 0x1_0000_0000 * u64::from(self.cdw11)
    }

    /// The number of blocks of a Read, Write, Compare or Write Zeroes, 1 to 65,536: NLB is 0's based.
    pub fn blocks(&self) -> u32
        ensures value { result ≡ blocks_of self.now }
        ensures some { 1 ≤ result }
        ensures most { result ≤ 65536 }
    {
        self.cdw12 % 65_536 + 1
    }

    /// Whether the command is Flush, opcode 00h.
    pub fn is_flush(&self) -> bool
        ensures value { result ≡ is_flush self.now }
    {
        self.opcode == opcode::FLUSH
    }

    /// Whether the command is Write, opcode 01h.
    pub fn is_write(&self) -> bool
        ensures value { result ≡ is_write self.now }
    {
        self.opcode == opcode::WRITE
    }

    /// Whether the command is Read, opcode 02h.
    pub fn is_read(&self) -> bool
        ensures value { result ≡ is_read self.now }
    {
        self.opcode == opcode::READ
    }

    /// Whether the command is Compare, opcode 05h.
    pub fn is_compare(&self) -> bool
        ensures value { result ≡ is_compare self.now }
    {
        self.opcode == opcode::COMPARE
    }

    /// Whether the command is Write Zeroes, opcode 08h.
    pub fn is_write_zeroes(&self) -> bool
        ensures value { result ≡ is_write_zeroes self.now }
    {
        self.opcode == opcode::WRITE_ZEROES
    }

    /// What a single command that passed its checks does; None for a Flush.
    pub fn operation(&self) -> Option<Op>
        ensures value { result ≡ op_of_fields self.now }
    {
        if self.is_write() {
            return Some(Op::Write);
        }
        if self.is_read() {
            return Some(Op::Read);
        }
        if self.is_compare() {
            return Some(Op::Compare);
        }
        if self.is_write_zeroes() {
            return Some(Op::WriteZeroes);
        }
        None
    }

    /// How many bytes of data lie beside the entry: 512 a block of a Write or a Compare, else none.
    pub fn data_length(&self) -> usize
        ensures value { result ≡ data_length self.now }
    {
        if self.is_write() || self.is_compare() {
            512 * self.blocks() as usize
        } else {
            0
        }
    }

    /// Whether a field that has to be zero isn't, or FUSE is 11b.
    pub fn has_invalid_field(&self) -> bool
        ensures value { result ≡ has_invalid_field self.now }
    {
        if self.sets_unused() {
            return true;
        }
        if self.fuse() == 3 {
            return true;
        }
        self.is_flush() && self.names_blocks()
    }

    // A field that no command has isn't zero.
    fn sets_unused(&self) -> bool
        ensures value { IsTrue result ↔ (0 < unused self.now) }
    {
        self.flags / 4 != 0
            || self.cdw2 != 0
            || self.cdw3 != 0
            || self.mptr != 0
            || self.dptr != 0
            || self.cdw12 / 65_536 != 0
            || self.cdw13 != 0
            || self.cdw14 != 0
            || self.cdw15 != 0
    }

    // A field that says which blocks isn't zero.
    fn names_blocks(&self) -> bool
        ensures value { IsTrue result ↔ (0 < self.now.cdw10 + self.now.cdw11 + self.now.cdw12) }
    {
        self.cdw10 != 0 || self.cdw11 != 0 || self.cdw12 != 0
    }
}
