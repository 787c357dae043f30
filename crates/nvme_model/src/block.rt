//! The block that says who holds a slot.

ghost use Rattle.std.specs.Prelude.{◌≡◌};
ghost use Rattle.nvme_model.specs.Slots.{slot_block as block_of_name};

/// The block of a slot that this host holds under this serial: the host number in bytes 0 to 3 and the serial in bytes
/// 8 to 15, both little endian, and zeros elsewhere.
pub fn slot_block(host: u32, serial: u64) -> [u8; 512]
    ensures value { result ≡ block_of_name (record { host = host; serial = serial }) }
{
    let mut block = [0; 512];
    block[0..4].copy_from_slice(&host.to_le_bytes());
    block[8..16].copy_from_slice(&serial.to_le_bytes());
    block
}
