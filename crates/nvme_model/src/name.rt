//! The name of a claim, and the block that spells it.

ghost use Rattle.std.specs.Prelude.{◌≡◌, ◌≤◌, length};
ghost use Rattle.nvme_model.specs.EntryBytes.{field};
ghost use Rattle.nvme_model.specs.Slots as slots;

use crate::block::slot_block;
use byteorder::{ByteOrder, LittleEndian};
use std::marker::Model;

/// The name of a claim: its host number and its serial.
#[derive(Clone, Copy, Debug, Drop, PartialEq, Eq, Hash)]
pub struct Name {
    pub host: u32,
    pub serial: u64,
}

impl Model for Name {
    ghost use Rattle.nvme_model.specs.Slots as slots;

    ghost Value = { slots.Name };

    ghost view = { λ n. record { host = n.host; serial = n.serial } };

    ghost inverse = { λ n. record { host = n.host; serial = n.serial } };
}

// The host number of a block.
fn host_in(bytes: &[u8]) -> u32
    requires { 4 ≤ length bytes.now }
    ensures value { result ≡ field 0 4 bytes.now }
{
    LittleEndian::read_u32(&bytes[0..4])
}

// The serial of a block.
fn serial_in(bytes: &[u8]) -> u64
    requires { 16 ≤ length bytes.now }
    ensures value { result ≡ field 8 8 bytes.now }
{
    LittleEndian::read_u64(&bytes[8..16])
}

/// The name that a block spells, where it spells one.
pub fn name_of(bytes: &[u8]) -> Option<Name>
    ensures value { result ≡ slots.name_of bytes.now }
{
    if bytes.len() != 512 {
        return None;
    }
    let host = host_in(bytes);
    let serial = serial_in(bytes);
    if host == 0 {
        return None;
    }
    if serial == 0 {
        return None;
    }
    if bytes != slot_block(host, serial).as_slice() {
        return None;
    }
    Some(Name { host, serial })
}
