//! What lies in a block, as much of it as a picture shows.

ghost use Rattle.std.specs.Prelude.{◌≡◌, ◌+◌, ◌%◌, bytes_eq};
ghost use Rattle.nvme_model.specs.Array.{zeros};
ghost use Rattle.picture_shapes.specs.Contents.{content_of, digits_of, first_byte, sums, unwritten};

use nvme_model::{Name, name_of};

/// What lies in a block: the ticket that wrote it, none where none did; two hexadecimal digits of its bytes; whether
/// they are zeros; and the name that they spell, where they are those of a held slot.
#[derive(Clone, Copy, Debug, PartialEq, Eq)]
pub struct Content {
    pub ticket: Option<u64>,
    pub digits: u8,
    pub zeros: bool,
    pub name: Option<Name>,
}

// The sum of two bytes, as a byte.
fn sum_of(one: u8, other: u8) -> u8
    ensures value { result ≡ (one + other) % 256 }
{
    ((u16::from(one) + u16::from(other)) % 256) as u8
}

// The sum of the sums of bytes.
fn sums(bytes: &[u8]) -> u8
    ensures value { result ≡ sums 0 0 bytes.now }
{
    let mut sum = 0;
    let mut all = 0;
    for byte in bytes {
        sum = sum_of(sum, *byte);
        all = sum_of(all, sum);
    }
    all
}

// The first byte.
fn first_byte(bytes: &[u8]) -> u8
    ensures value { result ≡ first_byte bytes.now }
{
    match bytes.first() {
        Some(byte) => *byte,
        None => 0,
    }
}

// The two digits that stand for a block's bytes.
fn digits_of(bytes: &[u8]) -> u8
    ensures value { result ≡ digits_of bytes.now }
{
    sum_of(first_byte(bytes), sums(bytes))
}

/// Whether the bytes are those of a block of zeros.
pub(crate) fn is_zeros(bytes: &[u8]) -> bool
    ensures value { result ≡ bytes_eq bytes.now zeros }
{
    bytes == [0; 512].as_slice()
}

/// What a ticket wrote.
pub(crate) fn content_of(ticket: u64, bytes: &[u8]) -> Content
    ensures value { result ≡ content_of ticket bytes.now }
{
    Content {
        ticket: Some(ticket),
        digits: digits_of(bytes),
        zeros: is_zeros(bytes),
        name: name_of(bytes),
    }
}

/// The zeros that a volume begins with.
pub(crate) fn unwritten() -> Content
    ensures value { result ≡ unwritten }
{
    Content {
        ticket: None,
        digits: 0,
        zeros: true,
        name: None,
    }
}
