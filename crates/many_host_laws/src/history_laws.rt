//! Drivers that share a history with each other and with servers.

ghost use Rattle.std.specs.Prelude.{[], false, true, ℕ, ◌<◌, ◌≡◌, ◌≤◌};
ghost use Rattle.nvme_model.specs.Array.{has_block};
ghost use Rattle.nvme_model.specs.Passes.{SharedPast, entries};
ghost use Rattle.nvme_model.specs.Slots.{Name, disciplined};
ghost use Rattle.nvme_model.specs.declared.array.Range.{Range};
ghost use Rattle.nvme_model.specs.declared.config.ConfigNumbers.{ConfigNumbers};
ghost use Rattle.meet_lock.specs.Lock.{AreOfPasses};
ghost use Rattle.driver_calls.specs.Views.{log_of};
ghost use Rattle.slot_log_laws.specs.Hosts.{IsSlotView};
ghost use Rattle.slot_log_laws.specs.Swaps.{log_believed};
ghost use Rattle.many_host_laws.specs.Rosters.{IsRosterOf, Roster, all_in_place, keeps_to, view_of_pass};
ghost use Rattle.shared_system.specs.Servers.{serves};

/// Where each driver of a history keeps the rules of slots by what it did itself, and all else is served, the whole
/// history keeps the discipline of the slot area; and the premises of a host, with all that follows from them, hold of
/// each driver.
pub fn drivers_that_keep_the_rules_keep_the_discipline()
    ensures whole { (c : ConfigNumbers) (slots : Range) (r : Roster) (shared : SharedPast) →
        IsRosterOf c slots r shared → disciplined c slots (entries shared) ≡ true }
    ensures each { (c : ConfigNumbers) (slots : Range) (r : Roster) (shared : SharedPast) (p : ℕ) →
        IsRosterOf c slots r shared → r.drives p ≡ true →
        IsSlotView [] slots (r.host p) (r.last p) (view_of_pass c r shared p) }
{}

/// A history that passes alone made is that of drivers, each of which keeps to its queues, and of servers, where each
/// pass is one or the other.
pub fn each_pass_drives_or_serves()
    ensures { (c : ConfigNumbers) (r : Roster) (passes : ℕ) (shared : SharedPast) → AreOfPasses passes shared →
        ((p : ℕ) → 0 < p → p ≤ passes → r.drives p ≡ true → keeps_to c (r.queue p) p shared ≡ true) →
        ((p : ℕ) → 0 < p → p ≤ passes → r.drives p ≡ false → serves p shared ≡ true) →
        all_in_place c r shared ≡ true }
{}

/// So no two of them believe one slot.
pub fn one_driver_believes_a_slot()
    ensures { (c : ConfigNumbers) (slots : Range) (r : Roster) (shared : SharedPast) (p q l : ℕ) (n m : Name) →
        IsRosterOf c slots r shared → r.drives p ≡ true → r.drives q ≡ true → has_block slots l ≡ true →
        log_believed (log_of (view_of_pass c r shared p)) l n ≡ true →
        log_believed (log_of (view_of_pass c r shared q)) l m ≡ true → p ≡ q }
{}
