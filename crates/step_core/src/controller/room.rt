//! Room for entries of the history, taken early, so that what is promised can't want memory.

ghost use Rattle.std.specs.Prelude.{◌≡◌, ◌≤◌, ◌<◌, ◌+◌, ◌-◌, ◌^◌, ◌⊎◌, IfErr, OnErr, OnOk, length};

use history::History;
use nvme_model::refusal::Why;
use range_reserve::Ranges;

/// Makes room for one more entry beside those that are promised.
pub(super) fn keep_room(history: &mut History, promised: usize) -> Result<(), Why>
    requires few { promised + 1 < 2 ^ 64 }
    ensures past { history.new.past ≡ history.old.past }
    ensures forgotten { history.new.forgotten ≡ history.old.forgotten }
    ensures kept { history.old.room ≤ history.new.room }
    ensures ok { OnOk result (promised + 1 ≤ history.new.room) }
    ensures full { OnErr result (history.old.room ≤ promised) }
    ensures few { OnOk result (length history.new.past + 1 < 2 ^ 64) }
    ensures why { IfErr result (λ why. why ≡ Why.NoMemory) }
{
    match history.reserve(promised + 1) {
        Ok(()) => Ok(()),
        Err(_) => Err(Why::NoMemory),
    }
}

/// Takes room for one more entry, of what is promised or else anew.
pub(super) fn take_room(history: &mut History, promised: &mut usize) -> Result<(), Why>
    requires room { promised.old ≤ history.old.room }
    ensures past { history.new.past ≡ history.old.past }
    ensures forgotten { history.new.forgotten ≡ history.old.forgotten }
    ensures kept { history.old.room ≤ history.new.room }
    ensures ok { OnOk result ((promised.new ≡ promised.old - 1) × (promised.new + 1 ≤ history.new.room)) }
    ensures err { OnErr result ((promised.old ≡ 0) × (promised.new ≡ 0)) }
    ensures full { OnErr result (history.old.room ≡ 0) }
    ensures why { IfErr result (λ why. why ≡ Why.NoMemory) }
{
    if *promised > 0 {
        *promised -= 1;
        return Ok(());
    }
    match history.reserve(1) {
        Ok(()) => Ok(()),
        Err(_) => Err(Why::NoMemory),
    }
}

/// Takes room for one more entry and one more range, of what is promised or else anew.
pub(super) fn take_both(
    history: &mut History,
    ranges: &mut Ranges,
    promised: &mut usize,
) -> Result<(), Why>
    requires room { promised.old ≤ history.old.room }
    requires held { promised.old ≤ ranges.old.room }
    ensures past { history.new.past ≡ history.old.past }
    ensures forgotten { history.new.forgotten ≡ history.old.forgotten }
    ensures ranges { ranges.new.held ≡ ranges.old.held }
    ensures kept { history.old.room ≤ history.new.room }
    ensures kept_ranges { ranges.old.room ≤ ranges.new.room }
    ensures ok { OnOk result ((promised.new ≡ promised.old - 1) × (promised.new + 1 ≤ history.new.room)) }
    ensures both { OnOk result (promised.new + 1 ≤ ranges.new.room) }
    ensures err { OnErr result ((promised.old ≡ 0) × (promised.new ≡ 0)) }
    ensures full { OnErr result ((history.old.room ≡ 0) ⊎ (ranges.old.room ≡ 0)) }
    ensures why { IfErr result (λ why. why ≡ Why.NoMemory) }
{
    if *promised > 0 {
        *promised -= 1;
        return Ok(());
    }
    if history.reserve(1).is_err() {
        return Err(Why::NoMemory);
    }
    if ranges.reserve(1).is_err() {
        return Err(Why::NoMemory);
    }
    Ok(())
}
