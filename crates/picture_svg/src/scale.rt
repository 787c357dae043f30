//! Where columns and rows lie.

ghost use Rattle.std.specs.Prelude.{◌≡◌, ◌==◌, ◌-◌, ◌≤◌, IfOk, length, min, nat_lt};
ghost use Rattle.std.specs.List.{count_by};
ghost use Rattle.picture_svg.specs.Columns.{column_left, edge_of, left_end_of, right_end_of};
ghost use Rattle.picture_svg.specs.Scale.{bottom_of, scale_by, scale_of, top_at, tops};

use crate::columns::{Columns, top_of};
use crate::layout::Layout;
use picture_shapes::{LaneRow, Lanes, Picture};
use std::alloc::{AllocError as NoMemory, Global};
use std::marker::Model;

/// Where columns and rows lie, in pixels.
#[derive(Debug, Drop)]
pub(crate) struct Scale {
    from: u64,
    columns: u64,
    rows: Vec<u64>,
    waits: Vec<u64>,
    tickets: Vec<u64>,
    lanes: Layout,
    bottom: u64,
}

impl Model for Scale {
    ghost use Rattle.picture_svg.specs.Scale.{ScaleState};

    ghost Value = { ScaleState };

    ghost view = { λ s. record {
      from = s.from;
      columns = s.columns;
      rows = s.rows.items;
      waits = s.waits.items;
      tickets = s.tickets.items;
      lanes = s.lanes;
      bottom = s.bottom;
    } };
}

// How many rows are of a lane with a lower number.
fn lower_rows(rows: &[LaneRow], lane: u16) -> u64
    ensures value { result ≡ count_by (λ row. nat_lt row.lane lane) rows.now }
{
    let mut count = 0;
    for row in rows {
        if row.lane < lane {
            count += 1;
        }
    }
    count
}

// How many rows are of a lane.
fn lane_rows(rows: &[LaneRow], lane: u16) -> u64
    ensures value { result ≡ count_by (λ row. row.lane == lane) rows.now }
{
    let mut count = 0;
    for row in rows {
        if row.lane == lane {
            count += 1;
        }
    }
    count
}

// The tops of rows, of which so many lie above.
fn tops(alloc: Global, above: u64, rows: &[LaneRow]) -> Result<Vec<u64>, NoMemory>
    ensures value { IfOk result (λ list. list.items ≡ tops above rows.now) }
{
    let mut list = Vec::with_capacity(alloc, rows.len())?;
    for i in 0..rows.len() {
        let lane = rows[i].lane;
        let rank = lower_rows(rows, lane).saturating_add(lane_rows(&rows[..i], lane));
        list.push(top_of(above.saturating_add(rank)))?;
    }
    Ok(list)
}

// How many rows there are, of a million at most.
fn row_count(rows: &[LaneRow]) -> u64
    ensures value { result ≡ min (length rows.now) 1000000 }
    ensures bound { result ≤ 1000000 }
{
    (rows.len() as u64).min(1_000_000)
}

// How many columns there are from one place to another.
fn column_count(from: u64, last: u64) -> u64
    ensures value { result ≡ min (last - (from - 1)) 10000 }
{
    last.saturating_sub(from.saturating_sub(1)).min(10_000)
}

// The scale of rows, and of columns from one place to another.
fn scale_by(
    alloc: Global,
    from: u64,
    last: u64,
    rows: &[LaneRow],
    waits: &[LaneRow],
    tickets: &[LaneRow],
    lanes: &Lanes,
) -> Result<Scale, NoMemory>
    ensures value { IfOk result
        (λ scale. scale ≡ scale_by from last rows.now waits.now tickets.now lanes.now) }
{
    let above = row_count(rows);
    let more = above + row_count(waits);
    let all = more + row_count(tickets);
    let count = column_count(from, last);
    let lanes = Layout::new(alloc, Columns { from, count }, all, lanes)?;
    let bottom = top_of(lanes.rows_below());
    Ok(Scale {
        from,
        columns: count,
        rows: tops(alloc, 0, rows)?,
        waits: tops(alloc, above, waits)?,
        tickets: tops(alloc, more, tickets)?,
        lanes,
        bottom,
    })
}

impl Scale {
    /// The scale of a picture.
    ///
    /// # Errors
    ///
    /// `NoMemory` where a growth is refused.
    pub(crate) fn new(alloc: Global, picture: &Picture) -> Result<Scale, NoMemory>
        ensures value { IfOk result (λ scale. scale ≡ scale_of picture.now) }
    {
        let bars = picture.bars();
        let tickets = picture.tickets().rows();
        scale_by(
            alloc,
            picture.from(),
            picture.last(),
            bars.rows(),
            bars.waits(),
            tickets,
            picture.lanes(),
        )
    }

    // Where the columns lie.
    fn columns(&self) -> Columns
        ensures value { result ≡ record { from = self.now.from; count = self.now.columns } }
    {
        Columns {
            from: self.from,
            count: self.columns,
        }
    }

    /// The left edge of a step's column; of a step before the first, that of the picture.
    pub(crate) fn column(&self, place: u64) -> u64
        ensures value { result ≡ column_left self.now.from place }
        ensures bound { result ≤ 880084 }
    {
        self.columns().column(place)
    }

    /// The left end of what begins at this step, or began before the first column.
    pub(crate) fn left(&self, place: u64) -> u64
        ensures value { result ≡ left_end_of self.now.from place }
        ensures bound { result ≤ 880088 }
    {
        self.columns().left(place)
    }

    /// The right edge of the last column.
    pub(crate) fn edge(&self) -> u64
        ensures value { result ≡ edge_of self.now.columns }
        ensures bound { result ≤ 880084 }
    {
        self.columns().edge()
    }

    /// The right end of what ends at this step, or is still open.
    pub(crate) fn right(&self, place: Option<u64>) -> u64
        ensures value { result ≡ right_end_of self.now.from self.now.columns place }
    {
        self.columns().right(place)
    }

    /// Where the lanes of blocks and of slots lie.
    pub(crate) fn lanes(&self) -> &Layout
        ensures { result.now ≡ self.now.lanes }
    {
        &self.lanes
    }

    /// The top of a row of a submission queue.
    pub(crate) fn row_top(&self, row: usize) -> u64
        ensures value { result ≡ top_at self.now.rows row }
        ensures bound { result ≤ 46000066 }
    {
        top_at(self.rows.as_slice(), row)
    }

    /// The top of a row of a completion queue.
    pub(crate) fn wait_top(&self, row: usize) -> u64
        ensures value { result ≡ top_at self.now.waits row }
        ensures bound { result ≤ 46000066 }
    {
        top_at(self.waits.as_slice(), row)
    }

    /// The top of a row of a ticket.
    pub(crate) fn ticket_top(&self, row: usize) -> u64
        ensures value { result ≡ top_at self.now.tickets row }
        ensures bound { result ≤ 46000066 }
    {
        top_at(self.tickets.as_slice(), row)
    }

    /// The tops of the rows of the submission queues.
    pub(crate) fn rows(&self) -> &[u64]
        ensures { result.now ≡ self.now.rows }
    {
        self.rows.as_slice()
    }

    /// The tops of the rows of the completion queues.
    pub(crate) fn waits(&self) -> &[u64]
        ensures { result.now ≡ self.now.waits }
    {
        self.waits.as_slice()
    }

    /// The end of all rows.
    pub(crate) fn bottom(&self) -> u64
        ensures value { result ≡ bottom_of self.now }
        ensures bound { result ≤ 46000066 }
    {
        self.bottom.min(46_000_066)
    }
}

/// The top of a row; that of the first where there is no such row.
pub(crate) fn top_at(tops: &[u64], row: usize) -> u64
    ensures value { result ≡ top_at tops.now row }
    ensures bound { result ≤ 46000066 }
{
    match tops.get(row) {
        Some(top) => (*top).min(46_000_066),
        None => 66,
    }
}
