//! The claims, the releases, the takeovers and the Writes of a batch.

ghost use Rattle.std.specs.Prelude.{[], bytes_eq, is_some, length, not, suc, ◌&&◌, ◌+◌, ◌<◌, ◌==◌};
ghost use Rattle.std.specs.Prelude.{◌^◌, ◌||◌, ◌≡◌};
ghost use Rattle.std.specs.List.{list_any};
ghost use Rattle.std.specs.Option.{option_to_list};
ghost use Rattle.nvme_model.specs.Array.{has_block, overlap, zeros};
ghost use Rattle.nvme_model.specs.Slots.{is_pair_on_one, releases, swap_by, swap_of, touches};
ghost use Rattle.slot_check.specs.Batch.{claimed_twice_in, release_broken_in, release_wrong_in, takeover_broken_in};
ghost use Rattle.slot_check.specs.Batch.{takeover_wrong_in};
ghost use Rattle.slot_check.specs.Broken.{first_touched, write_alone};
ghost use Rattle.slot_check.specs.Names.{claims_name, names_in};
ghost use Rattle.slot_check.specs.Takeovers.{takeovers_kept};

use crate::broken::BrokenDiscipline;
use crate::names::Names;
use crate::queue::completion_queue;
use crate::swap::Swap;
use crate::takeover::Takeover;
use crate::takeovers::Takeovers;
use entry_codec::decode_sqe;
use history::Config;
use nvme_model::array::Range;
use nvme_model::submission::Submission;
use nvme_model::{Name, name_of};

/// Whether an area has a block.
pub fn has_block(slots: Range, lba: u64) -> bool
    ensures value { result ≡ has_block slots lba }
{
    slots.slba <= lba && u128::from(lba) < u128::from(slots.slba) + u128::from(slots.blocks)
}

// Whether these blocks share one with an area.
fn overlaps(slba: u64, blocks: u32, slots: Range) -> bool
    ensures value { result ≡ overlap (record { slba = slba; blocks = blocks }) slots }
{
    let from = u128::from(slba);
    let area = u128::from(slots.slba);
    0 < blocks
        && 0 < slots.blocks
        && from < area + u128::from(slots.blocks)
        && area < from + u128::from(blocks)
}

// Whether an entry writes in an area.
fn touches(slots: Range, one: &Submission) -> bool
    ensures value { result ≡ touches slots one.now }
{
    let entry = decode_sqe(&one.entry);
    (entry.is_write() || entry.is_write_zeroes()) && overlaps(entry.slba(), entry.blocks(), slots)
}

/// Whether two entries are a pair on one block.
pub fn is_pair_on_one(a: &Submission, b: &Submission) -> bool
    ensures value { result ≡ is_pair_on_one a.now b.now }
{
    let first = decode_sqe(&a.entry);
    let second = decode_sqe(&b.entry);
    first.is_compare()
        && second.is_write()
        && first.fuse() == 1
        && second.fuse() == 2
        && first.slba() == second.slba()
        && first.blocks() == 1
        && second.blocks() == 1
}

// Whether the bytes are those of a free slot.
fn is_free(bytes: &[u8]) -> bool
    ensures value { result ≡ bytes_eq bytes.now zeros }
{
    bytes == [0; 512].as_slice()
}

// A claim or a release of this name, if there is one.
fn swap_by(claims: bool, queue: u16, number: u64, lba: u64, name: Option<Name>) -> Option<Swap>
    requires room { number + 1 < 2 ^ 64 }
    ensures value { option_to_list result ≡ swap_by claims queue number lba name }
{
    match name {
        Some(name) => Some(Swap::new(claims, queue, number, lba, name)),
        None => None,
    }
}

/// The claim or the release that two entries are, the first of them with this number on this queue.
pub fn swap_of(queue: u16, number: u64, a: &Submission, b: &Submission) -> Option<Swap>
    requires room { number + 1 < 2 ^ 64 }
    ensures value { option_to_list result ≡ swap_of queue number a.now b.now }
{
    if !is_pair_on_one(a, b) {
        return None;
    }
    let lba = decode_sqe(&a.entry).slba();
    if is_free(a.payload.as_slice()) {
        return swap_by(true, queue, number, lba, name_of(b.payload.as_slice()));
    }
    if is_free(b.payload.as_slice()) {
        return swap_by(false, queue, number, lba, name_of(a.payload.as_slice()));
    }
    None
}

// Whether the entry of this number is the second of one of these claims and releases.
fn is_second(of: &[Swap], number: u64) -> bool
    ensures value { result ≡ list_any (λ w. suc w.number == number) of.now }
{
    of.iter().any(|swap| swap.second() == number)
}

// Whether the entry of this number writes in the area, and is no second of one of these.
fn writes_alone(slots: Range, one: &Submission, number: u64, of: &[Swap]) -> bool
    ensures value { result ≡
        (touches slots one.now && not (list_any (λ w. suc w.number == number) of.now)) }
{
    touches(slots, one) && !is_second(of, number)
}

// The first block of an area that an entry touches, where it touches it.
fn first_touched(slots: Range, one: &Submission) -> u64
    ensures value { result ≡ first_touched slots one.now }
{
    decode_sqe(&one.entry).slba().max(slots.slba)
}

/// The first Write of a batch that touches an area and is no second of one of these claims and releases, by the first
/// block of the area that it touches.
pub fn write_alone(
    slots: Range,
    queue: u16,
    first: u64,
    batch: &[Submission],
    of: &[Swap],
) -> Option<u64>
    requires room { first + length batch.now < 2 ^ 64 }
    ensures value { result ≡ write_alone slots queue first batch.now of.now }
{
    let _ = queue;
    for place in 0..batch.len() {
        let number = first + place as u64;
        if writes_alone(slots, &batch[place], number, of) {
            return Some(first_touched(slots, &batch[place]));
        }
    }
    None
}

// Whether one of these claims this name.
fn is_named(of: &[Swap], name: Name) -> bool
    ensures value { result ≡ list_any (claims_name name) of.now }
{
    of.iter().any(|swap| swap.claims() && swap.name() == name)
}

// Whether a claim's name is in one of these claims, or in one that was published.
fn is_repeated(names: &Names, swap: Swap, later: &[Swap]) -> bool
    ensures value { result ≡ (swap.claims && (list_any (claims_name swap.name) later.now
        || is_some ((names_in names.now).claim swap.name))) }
{
    swap.claims() && (is_named(later, swap.name()) || names.claim(swap.name()).is_some())
}

/// The first of these claims whose name is in another of them or in one that was published, by its block.
pub fn claimed_twice(names: &Names, of: &[Swap]) -> Option<u64>
    ensures value { result ≡ claimed_twice_in (names_in names.now) of.now }
{
    for place in 0..of.len() {
        if is_repeated(names, of[place], &of[place + 1..]) {
            return Some(of[place].lba());
        }
    }
    None
}

// Whether one of these releases this name of the slot at this block.
fn is_given_up(of: &[Swap], lba: u64, name: Name) -> bool
    ensures value { result ≡ list_any (λ w. releases w lba name) of.now }
{
    of.iter().any(|swap| !swap.claims() && swap.lba() == lba && swap.name() == name)
}

// What a release breaks behind those of its batch before it.
fn release_wrong(
    config: &Config,
    names: &Names,
    takeovers: &Takeovers,
    swap: Swap,
    earlier: &[Swap],
) -> Option<BrokenDiscipline>
    ensures value { result ≡
        release_wrong_in config.now (names_in names.now) (takeovers_kept takeovers.now).taken earlier.now swap }
{
    if swap.claims() {
        return None;
    }
    if !names.believes(swap.lba(), swap.name()) || is_given_up(earlier, swap.lba(), swap.name()) {
        return Some(BrokenDiscipline::Unbelieved(swap.lba()));
    }
    if takeovers.is_taken(swap.lba(), swap.name()) {
        return Some(BrokenDiscipline::TakenOver(swap.lba()));
    }
    if !names.keeps_queue(config, &swap) {
        return Some(BrokenDiscipline::OtherQueue(swap.lba()));
    }
    None
}

/// What the first wrong release of these breaks.
pub fn release_broken(
    config: &Config,
    names: &Names,
    takeovers: &Takeovers,
    of: &[Swap],
) -> Option<BrokenDiscipline>
    ensures value { result ≡
        release_broken_in config.now (names_in names.now) (takeovers_kept takeovers.now).taken [] of.now }
{
    for place in 0..of.len() {
        let wrong = release_wrong(config, names, takeovers, of[place], &of[..place]);
        if let Some(broken) = wrong {
            return Some(broken);
        }
    }
    None
}

// What a takeover breaks.
fn takeover_wrong(config: &Config, names: &Names, takeover: Takeover) -> Option<BrokenDiscipline>
    ensures value { result ≡ takeover_wrong_in config.now (names_in names.now) takeover }
{
    let Some(claim) = names.claim(takeover.dead()) else {
        return Some(BrokenDiscipline::NeverGiven(takeover.lba()));
    };
    if claim.lba() != takeover.lba() {
        return Some(BrokenDiscipline::NeverGiven(takeover.lba()));
    }
    if completion_queue(config, claim.queue()) == completion_queue(config, takeover.queue()) {
        return Some(BrokenDiscipline::OwnQueue(takeover.lba()));
    }
    None
}

/// What the first wrong one of these takeovers breaks.
pub fn takeover_broken(
    config: &Config,
    names: &Names,
    takeovers: &[Takeover],
) -> Option<BrokenDiscipline>
    ensures value { result ≡ takeover_broken_in config.now (names_in names.now) takeovers.now }
{
    for place in 0..takeovers.len() {
        if let Some(broken) = takeover_wrong(config, names, takeovers[place]) {
            return Some(broken);
        }
    }
    None
}
