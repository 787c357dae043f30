//! The tables of a trace. Queues, entries, completions and lines are numbered from 0.

use atomic_units::Units;
use entry_codec::Cqe;
use fused_match::Item;
use nvme_model::config::ConfigNumbers;
use trace::TraceOptions;

/// The value of a block that is still open. No block of bytes has it.
pub const OPEN: u64 = 2;

/// The value of a block that held what nobody writes or finds. No block of bytes has it.
pub const NOBODYS: u64 = 4;

/// One entry that was published.
#[derive(Clone, Copy)]
pub struct Published {
    /// The line of its Publish, and its place there.
    pub line: usize,
    pub place: usize,
    pub item: Item,
    /// The place of its first block's value among all values.
    pub values: usize,
    /// The line of the completion that seems to be its own.
    pub answered: usize,
    /// The same, where that says success.
    pub succeeded: usize,
    /// Whether it was refused, where any status will do: then its item is one of namespace 0.
    pub refused: bool,
    /// Whether it may have been, as far as the completions say.
    pub doubtful: bool,
    /// Whether a later entry of its queue has its identifier.
    pub reused: bool,
}

/// One completion that was reaped.
#[derive(Clone, Copy)]
pub struct Awaited {
    /// The line of its Reap.
    pub line: usize,
    /// The submission queue.
    pub queue: usize,
    pub cqe: Cqe,
    /// The place of its first block's value among all values.
    pub values: usize,
    /// How many bytes of data it has.
    pub length: usize,
    /// The entry that it seems to be for.
    pub entry: usize,
    /// Whether no other entry can be meant.
    pub sure: bool,
}

/// What a line says.
#[derive(Clone, Copy)]
pub enum Line {
    /// So many entries of this submission queue were published before it, and behind it.
    Publish(usize, usize, usize),
    /// A completion of this completion queue was reaped.
    Reap(usize),
}

/// What has to happen around a block's value that one entry alone writes.
#[derive(Clone, Copy)]
pub struct Need {
    /// Whether it is the only writing of this value to this block.
    pub alone: bool,
    /// How many commands find it there.
    pub finders: usize,
    /// The line before which one of those isn't published, or one further on in its chain.
    pub until: usize,
    /// The line before which something of its chain has ended.
    pub due: usize,
    /// The place of what the pair that finds it writes there, where one does.
    pub next: usize,
    /// The place of the first of its chain, in which each pair writes what the next one finds.
    pub chain: usize,
}

impl Need {
    /// That of a value that nobody finds.
    pub(crate) fn none(place: usize) -> Need {
        Need {
            alone: false,
            finders: 0,
            until: 0,
            due: usize::MAX,
            next: usize::MAX,
            chain: place,
        }
    }
}

/// Why no line of a trace can be so.
#[derive(Clone, Copy, Debug, PartialEq, Eq)]
pub enum Unfit {
    /// There is no such queue.
    Queue,
    /// DW0, DW1, CRD, More or DNR isn't zero.
    Reserved,
    /// The phase tag isn't the one that is due.
    Phase,
    /// The completion's submission queue doesn't use this completion queue.
    OtherQueue,
}

/// The tables of a trace.
#[derive(Drop)]
pub struct TraceTables {
    pub options: TraceOptions,
    pub numbers: ConfigNumbers,
    pub units: Units,
    /// By line.
    pub lines: Vec<Line>,
    /// By submission queue, in their order.
    pub entries: Vec<Vec<Published>>,
    /// All completions, in the order of their Reaps.
    pub completions: Vec<Awaited>,
    /// By completion queue, which completions, in their order.
    pub wanted: Vec<Vec<usize>>,
    /// By submission queue, which completions, in their order.
    pub awaited: Vec<Vec<usize>>,
    /// By submission queue, the identifiers of those completions beside their places there, in order.
    pub by_cid: Vec<Vec<(u16, usize)>>,
    /// The values of blocks, by place.
    pub values: Vec<u64>,
    /// What has to happen around them, by place.
    pub needs: Vec<Need>,
    /// By block, what it held at the beginning; none, where all held zeros.
    pub first: Vec<u64>,
    /// Why the line behind these can't be, where there is one.
    pub unfit: Option<Unfit>,
    /// Whether there may be more tickets than may be in flight.
    pub crowded: bool,
    /// Whether it is sure which entry each completion is for, that there are tickets enough, and what blocks held: then
    /// blocks are apart that no command joins, and no order of completions.
    pub tidy: bool,
}

impl TraceTables {
    /// The entry of a submission queue with this number.
    pub fn entry(&self, queue: usize, number: usize) -> Option<Published> {
        self.entries.get(queue)?.get(number).copied()
    }

    /// A completion.
    pub fn completion(&self, number: usize) -> Option<Awaited> {
        self.completions.get(number).copied()
    }

    /// The completion of a completion queue with this number, and which it is of all.
    pub fn wanted(&self, cq: usize, number: usize) -> Option<(usize, Awaited)> {
        let which = *self.wanted.get(cq)?.get(number)?;
        Some((which, self.completion(which)?))
    }

    /// The completion for a submission queue with this number.
    pub fn awaited(&self, queue: usize, number: usize) -> Option<Awaited> {
        let which = *self.awaited.get(queue)?.get(number)?;
        self.completion(which)
    }

    /// The completion queue of a submission queue.
    pub fn cq_of(&self, queue: usize) -> usize {
        match queue.checked_rem(usize::from(self.numbers.cqs)) {
            Some(cq) => cq,
            None => 0,
        }
    }

    /// The value at this place; that of zeros where there is none.
    pub fn value(&self, place: usize) -> u64 {
        self.values.get(place).copied().unwrap_or(0)
    }

    /// What a block held at the beginning.
    pub fn first(&self, block: u64) -> u64 {
        let place = block.min(65_536) as usize;
        self.first.get(place).copied().unwrap_or(0)
    }

    /// Leaves open what blocks held whose first answer may be what was written there.
    pub fn leave_open(&mut self) {
        for place in 0..self.first.len() {
            if let Some(value) = self.first.get_mut(place) {
                if *value == NOBODYS {
                    *value = OPEN;
                }
            }
        }
        for place in 0..self.needs.len() {
            if let Some(need) = self.needs.get_mut(place) {
                need.alone = false;
            }
        }
    }

    /// What has to happen around the value at this place.
    pub fn need(&self, place: usize) -> Need {
        self.needs.get(place).copied().unwrap_or(Need::none(place))
    }
}
