//! Looks at the controller of a disk, which make no step.

ghost use Rattle.std.specs.Prelude.{◌≡◌, ◌<◌, ◌≤◌, ◌⊎◌, IfErr, IfOk, MatchOption, length};
ghost use Rattle.nvme_model.specs.Medium.{medium};
ghost use Rattle.c_handles.specs.Pieces.{IsForgotten, IsPiece, lines_told};

use crate::disk::Disk;
use crate::numbers::{BUSY, FORGOTTEN, NO_BLOCK, NO_MEMORY};
use crate::pieces::{Piece, piece_told};
use meet_lock::{Busy, Glance};
use std::alloc::{AllocError as NoMemory, Global};
use step_core::Core;

// The lines of its history from a place on that fit into so many bytes.
#[derive(Drop)]
struct LinesFrom {
    alloc: Global,
    from: usize,
    room: usize,
}

impl Glance<Core> for LinesFrom {
    type Told = Result<Option<Piece>, NoMemory>;

    ghost tells = { λ l core told. IfOk told (λ o. MatchOption o (IsForgotten core l.from)
        (IsPiece (lines_told core l.from) l.from l.room)) };

    fn look(self, core: &Core) -> Result<Option<Piece>, NoMemory> {
        piece_told(self.alloc, core, self.from, self.room)
    }
}

// How many entries its history has.
#[derive(Drop)]
struct Entries;

impl Glance<Core> for Entries {
    type Told = u64;

    ghost tells = { λ l core told. told ≡ length core.past };

    fn look(self, core: &Core) -> u64 {
        core.history().len() as u64
    }
}

// A block as it lies in the volume, where there is one of this number.
#[derive(Drop)]
struct BlockAt {
    lba: u64,
}

impl Glance<Core> for BlockAt {
    type Told = Option<[u8; 512]>;

    ghost tells = { λ l core told. MatchOption told (core.config.blocks ≤ l.lba)
        (λ b. (l.lba < core.config.blocks) × (b ≡ medium core.past l.lba)) };

    fn look(self, core: &Core) -> Option<[u8; 512]> {
        core.medium(self.lba).copied()
    }
}

impl Disk {
    ghost use Rattle.c_handles.specs.Disks.{AsSeen, HasLooked, IsUnseen, disk_config, disk_past};

    /// The lines of its history from a place on that fit into so many bytes. Place 0 is the configuration's, and place
    /// k the k-th entry's. It takes as long as these lines and the one behind them have bytes.
    ///
    /// # Errors
    ///
    /// The number of the answer: 12 where another handle of the disk had the controller, 11 where the text couldn't be
    /// made, 129 where the entry at that place was forgotten.
    pub fn history(&mut self, alloc: Global, from: usize, room: usize) -> Result<Piece, u32>
        ensures looked { HasLooked self.old self.new }
        ensures piece { IfOk result (λ p. AsSeen self.new (λ s. IsPiece (lines_told s from) from room p)) }
        ensures cause { IfErr result (λ n. (n ≡ 11) ⊎ ((n ≡ 12) × IsUnseen self.old self.new)
            ⊎ ((n ≡ 129) × AsSeen self.new (λ s. IsForgotten s from))) }
    {
        let look = LinesFrom { alloc, from, room };
        let told = match self.engine.glance(&mut self.server, look) {
            Ok(told) => told,
            Err(Busy) => return Err(BUSY),
        };
        match told {
            Ok(Some(piece)) => Ok(piece),
            Ok(None) => Err(FORGOTTEN),
            Err(_) => Err(NO_MEMORY),
        }
    }

    /// How many entries its history has.
    ///
    /// # Errors
    ///
    /// The number of the answer: 12 where another handle of the disk had the controller.
    pub fn history_count(&mut self) -> Result<u64, u32>
        ensures looked { HasLooked self.old self.new }
        ensures count { IfOk result (λ n. n ≡ length (disk_past self.new)) }
        ensures cause { IfErr result (λ n. (n ≡ 12) × IsUnseen self.old self.new) }
    {
        match self.engine.glance(&mut self.server, Entries) {
            Ok(count) => Ok(count),
            Err(Busy) => Err(BUSY),
        }
    }

    /// A block as it lies in the volume.
    ///
    /// # Errors
    ///
    /// The number of the answer: 12 where another handle of the disk had the controller, 104 where there is no such
    /// block.
    pub fn medium(&mut self, lba: u64) -> Result<[u8; 512], u32>
        ensures looked { HasLooked self.old self.new }
        ensures block { IfOk result
            (λ b. (lba < (disk_config self.new).blocks) × (b ≡ medium (disk_past self.new) lba)) }
        ensures cause { IfErr result (λ n. ((n ≡ 104) × ((disk_config self.new).blocks ≤ lba))
            ⊎ ((n ≡ 12) × IsUnseen self.old self.new)) }
    {
        let told = match self.engine.glance(&mut self.server, BlockAt { lba }) {
            Ok(told) => told,
            Err(Busy) => return Err(BUSY),
        };
        match told {
            Some(block) => Ok(block),
            None => Err(NO_BLOCK),
        }
    }
}
