//! Cells between boundaries, by arithmetic.

ghost use Rattle.std.specs.Prelude.{◌≡◌, ◌+◌, ◌<◌, ◌≤◌, ◌^◌};
ghost use Rattle.nvme_model.specs.Cells.{cell, in_one_cell};
ghost use Rattle.nvme_model.specs.Cut.{longest};
ghost use Rattle.atomic_units.specs.Room.{cell_room};

use nvme_model::config::AtomicParameters;

/// The cell of a block.
fn cell(parameters: &AtomicParameters, lba: u64) -> u64
    ensures value { result ≡ cell parameters.now lba }
{
    let size = u64::from(parameters.nabsn) + 1;
    let offset = u64::from(parameters.nabo);
    if parameters.nabsn == 0 || lba < offset {
        return 0;
    }
    (lba - offset) / size + 1
}

/// Whether these blocks are all in one cell: whether the last is in the cell of the first.
#[tactic(auto, using(crate::proofs::Ends::in_one_cell_ends))]
pub fn in_one_cell(parameters: &AtomicParameters, slba: u64, blocks: u32) -> bool
    requires some { 1 ≤ blocks }
    requires within { slba + blocks < 2 ^ 64 }
    ensures value { result ≡ in_one_cell parameters.now slba blocks }
{
    cell(parameters, slba + u64::from(blocks) - 1) == cell(parameters, slba)
}

/// How many blocks from this one on come before the next boundary, at most `most`.
fn cell_room(parameters: &AtomicParameters, lba: u64, most: u32) -> u32
    requires within { lba ≤ 65536 }
    ensures value { result ≡ cell_room parameters.now lba most }
{
    let size = u64::from(parameters.nabsn) + 1;
    let offset = u64::from(parameters.nabo);
    if parameters.nabsn == 0 {
        return most;
    }
    let left = if lba < offset {
        offset - lba
    } else {
        size - (lba - offset) % size
    };
    most.min(left as u32)
}

/// The most blocks from this one on that can be one unit, at most `blocks`.
#[tactic(auto, using(crate::proofs::Longest::longest_room))]
pub fn longest(parameters: &AtomicParameters, slba: u64, blocks: u32) -> u32
    requires some { 1 ≤ blocks }
    requires within { slba + blocks ≤ 65536 }
    ensures value { result ≡ longest parameters.now slba blocks }
{
    let most = blocks.min(u32::from(parameters.awun) + 1);
    cell_room(parameters, slba, most)
}
