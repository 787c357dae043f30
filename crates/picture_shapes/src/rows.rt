//! The rows of lanes: each bar and each box takes one while it is open, and what comes later takes it again.

ghost use Rattle.std.specs.Prelude.{◌≡◌, [], IfOk, OnOk};
ghost use Rattle.std.specs.List.{position};
ghost use Rattle.picture_shapes.specs.Rows.{is_row_free, row_taken, rows_freed, rows_taken};

use std::alloc::{AllocError as NoMemory, Global};
use std::marker::Model;

/// A row of a lane, and whether something is open in it.
#[derive(Clone, Copy, Debug, PartialEq, Eq)]
pub struct LaneRow {
    pub lane: u16,
    pub used: bool,
}

/// The rows of some lanes, in the order in which they were first taken.
#[derive(Drop)]
pub struct Rows {
    rows: Vec<LaneRow>,
}

impl Model for Rows {
    ghost use Rattle.std.specs.Prelude.{List};
    ghost use Rattle.picture_shapes.specs.declared.rows.LaneRow.{LaneRow};

    ghost Value = { List LaneRow };

    ghost view = { λ r. r.rows.items };
}

// The first free row of a lane.
fn free_row(rows: &[LaneRow], lane: u16) -> Option<usize>
    ensures value { result ≡ position (is_row_free lane) rows.now }
{
    rows.iter().position(|row| row.lane == lane && !row.used)
}

impl Rows {
    /// None.
    pub fn new(alloc: Global) -> Rows
        ensures { result ≡ [] }
    {
        Rows {
            rows: Vec::new(alloc),
        }
    }

    /// Takes the first free row of a lane, or a new one behind all others.
    ///
    /// # Errors
    ///
    /// `NoMemory` where a growth is refused.
    pub fn take(&mut self, lane: u16) -> Result<usize, NoMemory>
        ensures index { IfOk result (λ i. i ≡ row_taken lane self.old) }
        ensures rows { OnOk result (self.new ≡ rows_taken lane self.old) }
    {
        let used = LaneRow { lane, used: true };
        match free_row(self.rows.as_slice(), lane) {
            Some(i) => {
                if i < self.rows.len() {
                    self.rows[i] = used;
                }
                Ok(i)
            }
            None => {
                let i = self.rows.len();
                self.rows.push(used)?;
                Ok(i)
            }
        }
    }

    /// Gives a row back.
    pub fn free(&mut self, lane: u16, row: usize)
        ensures { self.new ≡ rows_freed lane row self.old }
    {
        if row < self.rows.len() {
            self.rows[row] = LaneRow { lane, used: false };
        }
    }

    pub fn as_slice(&self) -> &[LaneRow]
        ensures { result.now ≡ self.now }
    {
        self.rows.as_slice()
    }
}
