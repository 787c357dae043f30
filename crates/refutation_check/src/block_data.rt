//! What commands of a trace wrote, compared and found on a block.

ghost use Rattle.std.specs.Prelude.{◌≡◌, option_copied};
ghost use Rattle.nvme_model.specs.Array.{zeros};
ghost use Rattle.nvme_model.specs.EntryBytes.{slba};
ghost use Rattle.nvme_model.specs.Operations.{compare_data, data_block, op, write_data};
ghost use Rattle.nvme_model.specs.Tickets.{first_fields};
ghost use Rattle.refutation.specs.Slices.{answer_data, answer_of, found_block, ticket_of};
ghost use Rattle.refutation_check.specs.Commands.{name_of};
ghost use Rattle.refutation_check.specs.EntryData.{block_of, found_payload, found_slba};
ghost use Rattle.refutation_check.specs.Known.{IsKnown, trace_of};

use crate::effects::op_at;
use crate::known::Known;
use crate::order::Effect;
use entry_codec::decode_sqe;
use nvme_model::operation::Op;
use nvme_model::submission::Submission;
use trace::ReapedLine;

const ZEROS: [u8; 512] = [0; 512];

// A block of zeros.
pub(crate) fn zero_block() -> &'static [u8]
    ensures value { result.now ≡ zeros }
{
    &ZEROS
}

// The block of data for a block, where the first is for block `slba`; less or nothing where the data ends.
fn block_of(bytes: &[u8], slba: u64, block: u64) -> &[u8]
    ensures value { result.now ≡ block_of bytes.now slba block }
{
    let skipped = u128::from(block.saturating_sub(slba));
    if skipped >= bytes.len() as u128 {
        return &[];
    }
    let start = 512 * skipped;
    if start >= bytes.len() as u128 {
        return &[];
    }
    let rest = &bytes[start as usize..];
    if rest.len() <= 512 {
        return rest;
    }
    let (first, _) = rest.split_at(512);
    first
}

fn slba_of(entry: Option<&Submission>) -> u64
    ensures value { result ≡ found_slba (option_copied entry.entry) }
{
    match entry {
        Some(entry) => decode_sqe(&entry.entry).slba(),
        None => 0,
    }
}

fn payload_of<'a>(entry: Option<&'a Submission>) -> &'a [u8]
    ensures value { result.now ≡ found_payload (option_copied entry.entry) }
{
    match entry {
        Some(entry) => entry.payload.as_slice(),
        None => &[],
    }
}

fn answer_data<'a>(answer: Option<&'a ReapedLine>) -> &'a [u8]
    ensures value { result.now ≡ answer_data (option_copied answer.entry) }
{
    match answer {
        Some(line) => line.payload.as_slice(),
        None => &[],
    }
}

// A block of what lies beside the second entry of an effect's command.
#[tactic(auto, using(crate::proofs::EntryData::second_by_entries))]
fn second_block<'a>(known: &Known<'a>, effect: &Effect, block: u64) -> &'a [u8]
    ensures value { IsKnown known.now →
        result.now ≡ data_block (ticket_of (trace_of known.now) (name_of effect.now)) 1 block }
{
    let first = known.tables.entry(known.trace, effect.queue, effect.number);
    let second = known
        .tables
        .entry_behind(known.trace, effect.queue, effect.number);
    block_of(payload_of(second), slba_of(first), block)
}

/// What an effect's command compares with a block.
#[tactic(auto, using(crate::proofs::EntryData::first_by_entry))]
pub(crate) fn compared_at<'a>(known: &Known<'a>, effect: &Effect, block: u64) -> &'a [u8]
    ensures value { IsKnown known.now →
        result.now ≡ compare_data (ticket_of (trace_of known.now) (name_of effect.now)) block }
{
    let first = known.tables.entry(known.trace, effect.queue, effect.number);
    block_of(payload_of(first), slba_of(first), block)
}

/// What it writes at that block.
pub(crate) fn written_at<'a>(known: &Known<'a>, effect: &Effect, block: u64) -> &'a [u8]
    ensures value { IsKnown known.now →
        result.now ≡ write_data (ticket_of (trace_of known.now) (name_of effect.now)) block }
{
    match op_at(known, effect) {
        Some(Op::WriteZeroes) => zero_block(),
        Some(Op::Pair) => second_block(known, effect, block),
        Some(Op::Read | Op::Compare | Op::Write) | None => compared_at(known, effect, block),
    }
}

// A block of the data beside the completion of an effect's command.
#[tactic(auto, using(crate::proofs::EntryData::slba_by_entry))]
fn answered_at<'a>(known: &Known<'a>, effect: &Effect, block: u64) -> &'a [u8]
    ensures value { IsKnown known.now → result.now ≡ block_of
        (answer_data (answer_of (trace_of known.now) (name_of effect.now)))
        (slba (first_fields (ticket_of (trace_of known.now) (name_of effect.now)))) block }
{
    let first = known.tables.entry(known.trace, effect.queue, effect.number);
    let answer = known
        .tables
        .completion(known.trace, effect.queue, effect.number);
    block_of(answer_data(answer), slba_of(first), block)
}

/// What that block was where an effect says yes.
pub(crate) fn found_at<'a>(known: &Known<'a>, effect: &Effect, block: u64) -> &'a [u8]
    ensures value { IsKnown known.now → result.now ≡ found_block
        (op (ticket_of (trace_of known.now) (name_of effect.now)))
        (ticket_of (trace_of known.now) (name_of effect.now))
        (answer_data (answer_of (trace_of known.now) (name_of effect.now))) block }
{
    match op_at(known, effect) {
        Some(Op::Read) => answered_at(known, effect, block),
        Some(Op::Compare | Op::Write | Op::WriteZeroes | Op::Pair) | None => {
            compared_at(known, effect, block)
        }
    }
}
