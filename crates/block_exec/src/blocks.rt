//! Single blocks of a unit's data and of the volume.

ghost use Rattle.std.specs.Prelude.{◌≡◌, ◌≤◌, ◌<◌, ◌*◌, ◌+◌, bytes_eq, length, slice_set};
ghost use Rattle.nvme_model.specs.Array.{zeros};
ghost use Rattle.nvme_model.specs.declared.operation.Found.{Found as Finding};
ghost use Rattle.block_array.specs.Blocks.{contents_of};
ghost use Rattle.block_exec.specs.Bytes.{block_at, data_at, put_at};
ghost use Rattle.block_exec.specs.Progress.{compared_as};

use block_array::{BLOCK, Volume};
use nvme_model::operation::Found;

/// The block at this place of a unit's data.
#[tactic(auto, using(crate::proofs::Slices::block_lent))]
pub fn block_of(bytes: &[u8], place: u32) -> &[u8]
    requires within { 512 * place + 512 ≤ length bytes.now }
    ensures block { result.now ≡ data_at bytes.now place }
    ensures size { length result.now ≡ BLOCK }
{
    let at = place as usize * BLOCK;
    &bytes[at..at + BLOCK]
}

/// Makes this the block at that place of a unit's data.
#[tactic(auto, using(crate::proofs::Slices::block_back))]
pub fn put_block(bytes: &mut [u8], place: u32, block: &[u8])
    requires within { 512 * place + 512 ≤ length bytes.old }
    requires whole { length block.now ≡ BLOCK }
    ensures put { bytes.new ≡ put_at bytes.old place block.now }
{
    let at = place as usize * BLOCK;
    bytes[at..at + BLOCK].copy_from_slice(block);
}

/// Compares the block of this number with these bytes.
pub fn compared(volume: &Volume, lba: u64, bytes: &[u8]) -> Found
    requires within { lba < length volume.now }
    requires whole { length bytes.now ≡ BLOCK }
    ensures found { result ≡ compared_as (bytes_eq (block_at volume.now lba) bytes.now) }
{
    if volume.equal_block(lba, bytes) {
        Found::Equal
    } else {
        Found::Differs
    }
}

/// Makes the block in the box at this place the block of this number, and leaves the old one in the box.
pub fn hand_over(volume: &mut Volume, lba: u64, boxes: &mut [Box<[u8; 512]>], at: usize) -> Found
    requires within { lba < length volume.old }
    requires boxed { at < length boxes.old }
    ensures found { result ≡ Finding.Written }
    ensures volume { volume.new ≡ slice_set volume.old lba (block_at (contents_of boxes.old) at) }
    ensures boxes { contents_of boxes.new ≡ slice_set (contents_of boxes.old) at (block_at volume.old lba) }
{
    volume.swap_block(lba, &mut boxes[at]);
    Found::Written
}

/// Makes the block of this number zeros.
pub fn clear_block(volume: &mut Volume, lba: u64)
    requires within { lba < length volume.old }
    ensures cleared { volume.new ≡ slice_set volume.old lba zeros }
{
    volume.write_block(lba, &[0; BLOCK]);
}
