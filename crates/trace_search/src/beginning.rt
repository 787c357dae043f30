//! What blocks held at the beginning, where that is unknown: which bytes, and the Writes that stand for them.

use entry_codec::{Cqe, Sqe, Status, encode_cqe};
use history::{BlockLine, Entry, FetchLine, GrantLine, PostLine, PublishLine, ReapLine, UnitRange};
use nvme_model::array::Mode;
use nvme_model::operation::Found;
use nvme_model::status::Verdict;
use nvme_model::submission::{Batch, Payload, Submission};
use std::alloc::{AllocError as NoMemory, Global};
use std::collections::HashMap;
use trace::Seen;
use trace_walk::{NOBODYS, OPEN, TraceTables, Walk};

/// Where the bytes of a value stand in a trace: the line, the entry there, and the block of its data.
pub(crate) type Source = (usize, usize, usize);

/// No place in a trace: zeros.
pub(crate) const ZEROS: Source = (usize::MAX, 0, 0);

/// No place in a trace: bytes that stand nowhere in it.
pub(crate) const FRESH: Source = (usize::MAX, 1, 0);

/// The bytes of a block that stand at this place.
pub(crate) fn add_block(
    trace: &[Seen],
    source: Source,
    bytes: &mut Vec<u8>,
) -> Result<(), NoMemory> {
    if let Some(data) = data_at(trace, source) {
        bytes.extend_from_slice(data)?;
        return Ok(());
    }
    let byte = if source.1 == FRESH.1 { 0xA5 } else { 0 };
    for k in 0..512u32 {
        bytes.push(if k == 0 { byte } else { byte / 3 })?;
    }
    Ok(())
}

fn data_at(trace: &[Seen], source: Source) -> Option<&[u8]> {
    let data = match trace.get(source.0)? {
        Seen::Published(line) => {
            let submission = line.batch.as_slice().get(source.1)?;
            submission.payload.as_slice()
        }
        Seen::Reaped(line) => line.payload.as_slice(),
    };
    data.chunks_exact(512).nth(source.2)
}

// What each block held by the end of a search: its value, that of zeros, or one that is none of a few.
fn values_of(alloc: Global, tables: &TraceTables, walk: &Walk) -> Result<Vec<u64>, NoMemory> {
    let mut values = Vec::new(alloc);
    for value in tables.first.as_slice() {
        let open = *value == OPEN || *value == NOBODYS;
        values.push(if open { 0 } else { *value })?;
    }
    for one in walk.fixed() {
        let place = one.block.min(65_536) as usize;
        if let Some(known) = values.get_mut(place) {
            if one.held {
                *known = one.value;
            } else if one.value == 0 && *known == 0 {
                *known = NOBODYS;
            }
        }
    }
    Ok(values)
}

// Notes where the first of these blocks of data, whose values stand from this place on, stand in the trace.
fn note_places(
    tables: &TraceTables,
    wanted: &mut HashMap<u64, Source>,
    first: usize,
    count: usize,
    line: usize,
    item: usize,
) -> Result<(), NoMemory> {
    for k in 0..count {
        let value = tables.value(first.saturating_add(k));
        if wanted.get(&value).copied() == Some(FRESH) {
            let _ = wanted.insert(value, (line, item, k))?;
        }
    }
    Ok(())
}

// Where the bytes of these values stand in the trace.
fn sources_of(
    alloc: Global,
    tables: &TraceTables,
    values: &[u64],
) -> Result<HashMap<u64, Source>, NoMemory> {
    let mut wanted = HashMap::new(alloc);
    for value in values {
        let _ = wanted.insert(*value, FRESH)?;
    }
    let _ = wanted.insert(0, ZEROS)?;
    for one in tables.completions.as_slice() {
        note_places(
            tables,
            &mut wanted,
            one.values,
            one.length / 512,
            one.line,
            0,
        )?;
    }
    for entries in tables.entries.as_slice() {
        for one in entries.as_slice() {
            let count = one.item.length() / 512;
            note_places(tables, &mut wanted, one.values, count, one.line, one.place)?;
        }
    }
    Ok(wanted)
}

/// By block, where the bytes stand in the trace that it held at the beginning.
pub(crate) fn first_sources(
    alloc: Global,
    tables: &TraceTables,
    walk: &Walk,
) -> Result<Vec<Source>, NoMemory> {
    let mut sources = Vec::new(alloc);
    if tables.first.is_empty() {
        for _ in 0..tables.numbers.blocks {
            sources.push(ZEROS)?;
        }
        return Ok(sources);
    }
    let values = values_of(alloc, tables, walk)?;
    let wanted = sources_of(alloc, tables, &values)?;
    for value in values.as_slice() {
        sources.push(wanted.get(value).copied().unwrap_or(ZEROS))?;
    }
    Ok(sources)
}

/// Writes the entries that stand for what was there.
#[derive(Drop)]
pub(crate) struct BeginningWriter {
    alloc: Global,
    // the queue pair that the trace lacks, its completion queue, and the slots of both
    pair: u16,
    cq: u16,
    sq_size: u64,
    cq_size: u64,
    // how many Writes were written
    pub(crate) count: u64,
}

impl BeginningWriter {
    fn new(alloc: Global, tables: &TraceTables) -> BeginningWriter {
        let numbers = tables.numbers;
        let pair = numbers.pairs.min(16) + 1;
        let cq = if numbers.cqs == numbers.pairs {
            pair
        } else {
            (numbers.pairs.checked_rem(numbers.cqs).unwrap_or(0)).min(16) + 1
        };
        BeginningWriter {
            alloc,
            pair,
            cq,
            sq_size: u64::from(numbers.sq_size),
            cq_size: u64::from(numbers.cq_size),
            count: 0,
        }
    }

    fn completion(&self) -> [u8; 16] {
        let fetched = self.count.saturating_add(1);
        let head = fetched.checked_rem(self.sq_size).unwrap_or(0);
        let round = self.count.checked_div(self.cq_size).unwrap_or(0);
        encode_cqe(&Cqe {
            sqhd: head.min(65_535) as u16,
            sqid: self.pair,
            cid: 0,
            phase: round % 2 == 0,
            status: Status::SUCCESS,
        })
    }

    fn publish(&self, block: u64, payload: Payload) -> Result<Entry, NoMemory> {
        let mut entry = [0; 64];
        entry[0] = 1;
        entry[4] = 1;
        entry[40] = (block % 256) as u8;
        entry[41] = (block / 256 % 256) as u8;
        let mut batch = Vec::new(self.alloc);
        batch.push(Submission { entry, payload })?;
        Ok(Entry::Publish(PublishLine {
            queue: self.pair,
            batch: Batch::new(batch),
        }))
    }

    // Writes what stands for what one block held.
    fn write(
        &mut self,
        trace: &[Seen],
        block: u64,
        source: Source,
        entries: &mut Vec<Entry>,
    ) -> Result<(), NoMemory> {
        let mut bytes = Vec::new(self.alloc);
        add_block(trace, source, &mut bytes)?;
        let cqe = self.completion();
        let ticket = self.count.saturating_add(1);
        entries.push(self.publish(block, Payload::new(bytes))?)?;
        entries.push(Entry::Fetch(FetchLine {
            queue: self.pair,
            ticket,
            verdict: Verdict::Single,
        }))?;
        entries.push(Entry::Grant(GrantLine {
            ticket,
            unit: 0,
            range: UnitRange::new(block, 1),
            mode: Mode::Exclusive,
        }))?;
        entries.push(Entry::Block(BlockLine {
            ticket,
            unit: 0,
            lba: block,
            found: Found::Written,
            effect: true,
        }))?;
        entries.push(Entry::Post(PostLine {
            ticket,
            cqe,
            payload: Payload::new(Vec::new(self.alloc)),
        }))?;
        entries.push(Entry::Reap(ReapLine {
            queue: self.cq,
            cqe,
        }))?;
        self.count = ticket;
        Ok(())
    }

    // How many Writes more a completion queue that others use needs, so that its slots and phase tags stand as at the
    // beginning.
    fn missing(&self, tables: &TraceTables, count: u64) -> u64 {
        if tables.numbers.cqs == tables.numbers.pairs {
            return 0;
        }
        let rounds = self.cq_size.saturating_mul(2);
        match count.checked_rem(rounds) {
            Some(0) | None => 0,
            Some(over) => rounds.saturating_sub(over),
        }
    }
}

/// Writes the Writes that stand for what blocks held, and says how many they are.
pub(crate) fn write_beginning(
    alloc: Global,
    tables: &TraceTables,
    trace: &[Seen],
    sources: &[Source],
    entries: &mut Vec<Entry>,
) -> Result<u64, NoMemory> {
    let mut writer = BeginningWriter::new(alloc, tables);
    let mut count = 0u64;
    for source in sources {
        if *source != ZEROS {
            count = count.saturating_add(1);
        }
    }
    for _ in 0..writer.missing(tables, count) {
        writer.write(trace, 0, ZEROS, entries)?;
    }
    let mut block = 0u64;
    for source in sources {
        if *source != ZEROS {
            writer.write(trace, block, *source, entries)?;
        }
        block = block.saturating_add(1);
    }
    Ok(writer.count)
}
