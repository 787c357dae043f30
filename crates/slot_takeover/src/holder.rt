//! Who holds a slot, as it was at one moment.

ghost use Rattle.std.specs.Prelude.{◌≡◌, ◌<◌, IfOk};
ghost use Rattle.nvme_model.specs.Slots.{name_of};
ghost use Rattle.driver_cas.specs.Drivers.{AsksPort, IsCallOf, IsSameDriver, SharesNoCid, area_of};
ghost use Rattle.driver_cas.specs.declared.call.Call.{Call};
ghost use Rattle.slot_alloc.specs.Areas.{area};
ghost use Rattle.slot_alloc.specs.Progresses.{IsQuiet};
ghost use Rattle.slot_takeover.specs.Holders.{IsHolderBegun, IsHolderPolled, IsRead, IsReadingOf, payload_of_read};
ghost use Rattle.slot_takeover.specs.Holders.{holder_in, holder_named, later_reading};

use driver_cas::{Call, Driver, Fault, Poll, Port, Reply};
use nvme_model::{Name, name_of};
use slot_alloc::Slots;

// The block of a slot that nobody holds.
const ZEROS: [u8; 512] = [0; 512];

/// Who holds a slot.
#[derive(Clone, Copy, Debug, PartialEq, Eq)]
pub enum Holder {
    /// Nobody.
    Free,
    /// Whoever claimed it, or took it over, under this name.
    Of(Name),
    /// Its block is neither zeros nor a name.
    Foreign,
}

/// A question who holds a slot, begun. It can't be copied, and one that is dropped keeps its CID.
#[derive(Drop)]
pub struct ReadingHolder<P> {
    pub(crate) slot: u32,
    pub(crate) call: Call<P>,
}

/// What polling it gives.
#[derive(Drop)]
pub enum HolderPoll<P> {
    /// It isn't answered.
    Pending(ReadingHolder<P>),
    /// Nor was a completion reaped, for this cause: `Busy` or `NoMemory`.
    Later(Fault, ReadingHolder<P>),
    /// Who held the slot at one moment since the question was begun.
    Done(Holder),
    /// The Read was answered with another status than success.
    Failed(Fault),
}

/// Begins to ask who holds slot `i`: one Read of its block is published.
///
/// # Errors
///
/// Those of `Driver::start_read`. Nothing was published.
pub fn read_holder<P: Port>(
    slots: &Slots,
    driver: &mut Driver<P>,
    i: u32,
) -> Result<ReadingHolder<P>, Fault>
    requires area { area_of driver.old ≡ area slots.now }
    requires slot { i < (area slots.now).blocks }
    ensures same { IsSameDriver driver.old driver.new }
    ensures later { P.follows driver.old.port driver.new.port }
    ensures is { IsHolderBegun driver.old driver.new i result }
    ensures of { IfOk result (λ k. IsReadingOf driver.new k) }
{
    let call = driver.start_read(slots.block(i), 1)?;
    Ok(ReadingHolder { slot: i, call })
}

// The name that a block spells, or somebody foreign where it spells none.
fn named_by(bytes: &[u8]) -> Holder
    ensures value { result ≡ holder_named (name_of bytes.now) }
{
    match name_of(bytes) {
        Some(name) => Holder::Of(name),
        None => Holder::Foreign,
    }
}

// Who holds a slot of which the block has these bytes.
fn holder_of(bytes: &[u8]) -> Holder
    ensures value { result ≡ holder_in bytes.now }
{
    if bytes == ZEROS.as_slice() {
        return Holder::Free;
    }
    named_by(bytes)
}

// Who holds a slot by what a Read of its block was answered.
fn holder_by(reply: Reply) -> Holder
    requires read { IsRead reply }
    ensures value { result ≡ holder_in (payload_of_read reply) }
{
    match reply {
        Reply::Read(payload) => holder_of(payload.as_slice()),
        // A Read is answered by its data.
        Reply::Written | Reply::Equal | Reply::Differs | Reply::Swapped => unreachable!(),
    }
}

/// Who holds the slot, once its block is read. Reaps at most one completion.
pub fn poll_holder<P: Port>(driver: &mut Driver<P>, reading: ReadingHolder<P>) -> HolderPoll<P>
    requires of { IsReadingOf driver.old reading }
    ensures is { IsHolderPolled driver.new reading result }
    ensures quiet { IsQuiet driver.old driver.new }
    ensures later { P.follows driver.old.port driver.new.port }
    ensures asks { AsksPort driver.old driver.new reading.call (later_reading result) }
    ensures others { (other : Call P) →
        IsCallOf driver.old other → SharesNoCid reading.call other → IsCallOf driver.new other }
{
    let ReadingHolder { slot, call } = reading;
    match driver.poll(call) {
        Poll::Pending(call) => HolderPoll::Pending(ReadingHolder { slot, call }),
        Poll::Later(fault, call) => HolderPoll::Later(fault, ReadingHolder { slot, call }),
        Poll::Done(reply) => HolderPoll::Done(holder_by(reply)),
        Poll::Failed(fault) => HolderPoll::Failed(fault),
    }
}
