//! The blocks after an effect that writes.

ghost use Rattle.std.specs.Prelude.{◌≡◌, ◌≤◌, ◌<◌, ◌+◌, ℕ, length, true};
ghost use Rattle.nvme_model.specs.Array.{has_block};
ghost use Rattle.nvme_model.specs.Operations.{write_data};
ghost use Rattle.history_check.specs.Contents.{contents_in, written_in};

use crate::commands::Commands;
use block_array::Volume;
use nvme_model::array::Range;

/// Writes a ticket's data to the blocks of a range.
pub fn write_range(volume: &mut Volume, ticket: &Commands, range: Range)
    requires within { range.slba + range.blocks ≤ length volume.old }
    requires whole { (l : ℕ) → has_block range l ≡ true → length (write_data ticket.now l) ≡ 512 }
    ensures length { length volume.new ≡ length volume.old }
    ensures value { (l : ℕ) →
        l < length volume.old → contents_in volume.new l ≡ written_in (contents_in volume.old) ticket.now range l }
{
    // A read tells the proof that the blocks are few enough for their numbers.
    let _count = volume.len();
    for place in 0..range.blocks {
        let lba = range.slba + u64::from(place);
        volume.write_block(lba, ticket.write_data(lba));
    }
}
