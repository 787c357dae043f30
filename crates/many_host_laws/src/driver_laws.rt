//! What drivers of one engine may conclude from what each of them did itself.

ghost use Rattle.std.specs.Prelude.{[], Option, true, ℕ, ◌≡◌, ◌≢◌};
ghost use Rattle.nvme_model.specs.Legal.{IsLegal};
ghost use Rattle.nvme_model.specs.Passes.{SharedPast, entries};
ghost use Rattle.nvme_model.specs.declared.array.Range.{Range};
ghost use Rattle.nvme_model.specs.declared.config.ConfigNumbers.{ConfigNumbers};
ghost use Rattle.meet_lock.specs.Passes.{seen};
ghost use Rattle.driver_calls.specs.Events.{events};
ghost use Rattle.driver_calls.specs.Log.{is_tidy};
ghost use Rattle.driver_cas.specs.Drivers.{area_of, host_of, made, serial_of};
ghost use Rattle.driver_cas.specs.Ports.{view_of};
ghost use Rattle.driver_cas.specs.Starts.{IsUntouched};
ghost use Rattle.slot_alloc.specs.Areas.{slot_of};
ghost use Rattle.slot_alloc.specs.SlotRules.{DriverContinues, KeepsSlotRules, ReleasedName};
ghost use Rattle.slot_alloc.specs.Claims.{IsHeldBy};
ghost use Rattle.slot_alloc.specs.declared.claim.Claim.{Claim};
ghost use Rattle.slot_log_laws.specs.SlotRules.{keeps_slot_rules};
ghost use Rattle.many_host_laws.specs.Hosts.{AreTwoHosts, IsHost, IsHostIn};
ghost use Rattle.many_host_laws.specs.Rosters.{keeps_to};

use driver_cas::{Driver, SharedPort};
use std::snapshot::Snapshot;

/// A driver that was made just now, with a pass that had seen nothing, is a host.
pub fn a_new_driver_is_a_host(driver: &Driver<SharedPort<'_>>)
    ensures { driver.now.port ≡ driver.now.began.value → seen driver.now.port.pass ≡ [] →
        let v = view_of driver.now.port in
        IsHost v.config (area_of driver.now) v.pass v.queue (host_of driver.now) driver.now }
{
    let _ = driver;
}

/// A host stays one, with its numbers, over whatever it does by the rules of slots, and over meetings and notices.
pub fn a_host_goes_on(old: &Snapshot<Driver<SharedPort<'_>>>, new: &Driver<SharedPort<'_>>)
    ensures slot_rules { (c : ConfigNumbers) (slots : Range) (pass queue host : ℕ) (released : Option ReleasedName) →
        DriverContinues old.now.value new.now released → KeepsSlotRules new.now
        → IsHost c slots pass queue host old.now.value →
        IsHost c slots pass queue host new.now }
    ensures untouched { (c : ConfigNumbers) (slots : Range) (pass queue host : ℕ) →
        IsUntouched old.now.value new.now → IsHost c slots pass queue host old.now.value →
        IsHost c slots pass queue host new.now }
{
    let _ = old;
    let _ = new;
}

/// What a host did, by the history of a meeting alone: by these facts of each of many hosts that history is theirs
/// (`IsRosterOf`).
pub fn what_a_host_did(driver: &Driver<SharedPort<'_>>)
    ensures log { (met : SharedPast) → IsHostIn driver.now met →
        let v = view_of driver.now.port in made driver.now ≡ events v.config v.queue v.pass met }
    ensures legal { (met : SharedPast) → IsHostIn driver.now met →
        IsLegal (view_of driver.now.port).config (entries met) }
    ensures own { (met : SharedPast) → IsHostIn driver.now met →
        let v = view_of driver.now.port in keeps_to v.config v.queue v.pass met ≡ true }
    ensures tidy { (met : SharedPast) → IsHostIn driver.now met →
        let v = view_of driver.now.port in is_tidy (events v.config v.queue v.pass met) ≡ true }
    ensures slot_rules { (met : SharedPast) → IsHostIn driver.now met →
        let v = view_of driver.now.port in
        keeps_slot_rules (area_of driver.now) (host_of driver.now) (serial_of driver.now)
        (events v.config v.queue v.pass met) ≡ true }
{
    let _ = driver;
}

/// Two drivers that keep the rules of slots and have met, of an engine whose other passes serve, never both have a
/// claim of one slot.
pub fn two_hosts_never_hold_one_slot(one: &Driver<SharedPort<'_>>, other: &Driver<SharedPort<'_>>)
    ensures { (passes : ℕ) (met : SharedPast) (claim second : Claim) → AreTwoHosts passes one.now other.now met →
        IsHeldBy one.now claim → IsHeldBy other.now second → slot_of claim ≢ slot_of second }
{
    let _ = one;
    let _ = other;
}
