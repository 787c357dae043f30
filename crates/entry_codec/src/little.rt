//! Little endian numbers at a place among bytes.

#![tactic(auto, using(std::proofs::lemmas::Slice::overwrites))]

ghost use Rattle.std.specs.Prelude.{◌≡◌, ◌≤◌, ◌<◌, ◌^◌, ◌+◌, ◌++◌, length, take, drop};
ghost use Rattle.byteorder.specs.Endian.{little_bytes};
ghost use Rattle.nvme_model.specs.EntryBytes.{field};

use byteorder::{ByteOrder, LittleEndian};

/// The byte at `first`.
pub fn u8_at(bytes: &[u8], first: usize) -> u8
    requires { first + 1 ≤ length bytes.now }
    ensures value { result ≡ field first 1 bytes.now }
{
    bytes[first]
}

/// The number in the two bytes from `first` on.
pub fn u16_at(bytes: &[u8], first: usize) -> u16
    requires { first + 2 ≤ length bytes.now }
    ensures value { result ≡ field first 2 bytes.now }
{
    LittleEndian::read_u16(&bytes[first..first + 2])
}

/// The number in the four bytes from `first` on.
pub fn u32_at(bytes: &[u8], first: usize) -> u32
    requires { first + 4 ≤ length bytes.now }
    ensures value { result ≡ field first 4 bytes.now }
{
    LittleEndian::read_u32(&bytes[first..first + 4])
}

/// The number in the eight bytes from `first` on.
pub fn u64_at(bytes: &[u8], first: usize) -> u64
    requires { first + 8 ≤ length bytes.now }
    ensures value { result ≡ field first 8 bytes.now }
{
    LittleEndian::read_u64(&bytes[first..first + 8])
}

/// The number in the sixteen bytes from `first` on.
pub fn u128_at(bytes: &[u8], first: usize) -> u128
    requires { first + 16 ≤ length bytes.now }
    ensures value { result ≡ field first 16 bytes.now }
{
    LittleEndian::read_u128(&bytes[first..first + 16])
}

/// Writes the byte at `first`.
pub fn put_u8(bytes: &mut [u8], first: usize, n: u8)
    requires { first + 1 ≤ length bytes.old }
    ensures front { take (first + 1) bytes.new ≡ take first bytes.old ++ little_bytes 1 n }
    ensures rest { drop (first + 1) bytes.new ≡ drop (first + 1) bytes.old }
    ensures fits { n < 256 ^ 1 }
{
    bytes[first] = n;
}

/// Writes the number to the two bytes from `first` on.
pub fn put_u16(bytes: &mut [u8], first: usize, n: u16)
    requires { first + 2 ≤ length bytes.old }
    ensures front { take (first + 2) bytes.new ≡ take first bytes.old ++ little_bytes 2 n }
    ensures rest { drop (first + 2) bytes.new ≡ drop (first + 2) bytes.old }
    ensures fits { n < 256 ^ 2 }
{
    LittleEndian::write_u16(&mut bytes[first..first + 2], n);
}

/// Writes the number to the four bytes from `first` on.
pub fn put_u32(bytes: &mut [u8], first: usize, n: u32)
    requires { first + 4 ≤ length bytes.old }
    ensures front { take (first + 4) bytes.new ≡ take first bytes.old ++ little_bytes 4 n }
    ensures rest { drop (first + 4) bytes.new ≡ drop (first + 4) bytes.old }
    ensures fits { n < 256 ^ 4 }
{
    LittleEndian::write_u32(&mut bytes[first..first + 4], n);
}

/// Writes the number to the eight bytes from `first` on.
pub fn put_u64(bytes: &mut [u8], first: usize, n: u64)
    requires { first + 8 ≤ length bytes.old }
    ensures front { take (first + 8) bytes.new ≡ take first bytes.old ++ little_bytes 8 n }
    ensures rest { drop (first + 8) bytes.new ≡ drop (first + 8) bytes.old }
    ensures fits { n < 256 ^ 8 }
{
    LittleEndian::write_u64(&mut bytes[first..first + 8], n);
}

/// Writes the number to the sixteen bytes from `first` on.
pub fn put_u128(bytes: &mut [u8], first: usize, n: u128)
    requires { first + 16 ≤ length bytes.old }
    ensures front { take (first + 16) bytes.new ≡ take first bytes.old ++ little_bytes 16 n }
    ensures rest { drop (first + 16) bytes.new ≡ drop (first + 16) bytes.old }
    ensures fits { n < 256 ^ 16 }
{
    LittleEndian::write_u128(&mut bytes[first..first + 16], n);
}
