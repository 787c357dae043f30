//! Numbers at places in bytes, the least byte first.

ghost use Rattle.std.specs.Prelude.{length, ◌+◌, ◌≡◌, ◌≤◌};
ghost use Rattle.nvme_model.specs.EntryBytes.{field};

use byteorder::{ByteOrder, LittleEndian};

// The number in the two bytes from `first` on.
pub(crate) fn u16_at(bytes: &[u8], first: usize) -> u16
    requires { first + 2 ≤ length bytes.now }
    ensures value { result ≡ field first 2 bytes.now }
{
    LittleEndian::read_u16(&bytes[first..first + 2])
}

// The number in the four bytes from `first` on.
pub(crate) fn u32_at(bytes: &[u8], first: usize) -> u32
    requires { first + 4 ≤ length bytes.now }
    ensures value { result ≡ field first 4 bytes.now }
{
    LittleEndian::read_u32(&bytes[first..first + 4])
}
