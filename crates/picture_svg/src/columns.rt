//! Where the columns of steps lie.

ghost use Rattle.std.specs.Prelude.{◌≡◌, ◌-◌, ◌/◌, ◌≤◌};
ghost use Rattle.picture_svg.specs.Columns.{change_of, column_left, edge_of, left_end_of, right_end_of};
ghost use Rattle.picture_svg.specs.Columns.{top_of, until_of};

/// The columns of a picture, in pixels: the place of the first, and how many there are, of which 10,000 are drawn.
#[derive(Clone, Copy, Debug, PartialEq, Eq)]
pub struct Columns {
    pub from: u64,
    pub count: u64,
}

impl Columns {
    /// The left edge of a step's column; of a step before the first, that of the picture.
    pub fn column(&self, place: u64) -> u64
        ensures value { result ≡ column_left self.now.from place }
        ensures bound { result ≤ 880084 }
    {
        84 + 88 * place.saturating_sub(self.from).min(10_000)
    }

    /// The left end of what begins at this step, or began before the first column.
    pub fn left(&self, place: u64) -> u64
        ensures value { result ≡ left_end_of self.now.from place }
        ensures bound { result ≤ 880088 }
    {
        if place < self.from {
            84
        } else {
            self.column(place) + 4
        }
    }

    /// The right edge of the last column.
    pub fn edge(&self) -> u64
        ensures value { result ≡ edge_of self.now.count }
        ensures bound { result ≤ 880084 }
    {
        84 + 88 * self.count.min(10_000)
    }

    /// The right end of what ends at this step, or is still open.
    pub fn right(&self, place: Option<u64>) -> u64
        ensures value { result ≡ right_end_of self.now.from self.now.count place }
    {
        match place {
            Some(place) => self.column(place) + 84,
            None => self.edge(),
        }
    }

    /// Where something changes at this step, or changed before the first column.
    pub fn change(&self, place: u64) -> u64
        ensures value { result ≡ change_of self.now.from place }
        ensures bound { result ≤ 880128 }
    {
        if place < self.from {
            84
        } else {
            self.column(place) + 44
        }
    }

    /// Where something ends that changes at this step, or is still open.
    pub fn until(&self, place: Option<u64>) -> u64
        ensures value { result ≡ until_of self.now.from self.now.count place }
    {
        match place {
            Some(place) => self.change(place),
            None => self.edge(),
        }
    }
}

/// How many characters have room in so many pixels.
pub fn room(pixels: u64) -> u64
    ensures value { result ≡ (pixels - 12) / 7 }
{
    pixels.saturating_sub(12) / 7
}

/// The top of the row with this number from above, of a million at most.
pub fn top_of(rank: u64) -> u64
    ensures value { result ≡ top_of rank }
    ensures bound { result ≤ 46000066 }
{
    66 + 46 * rank.min(1_000_000)
}
