//! What is known of the history of an engine that is closed with all its passes.

ghost use Rattle.std.specs.Prelude.{List, length, ℕ, ◌+◌, ◌<◌, ◌≡◌};
ghost use Rattle.nvme_model.specs.History.{Past};
ghost use Rattle.nvme_model.specs.Legal.{IsLegal};
ghost use Rattle.nvme_model.specs.declared.array.Range.{Range};
ghost use Rattle.nvme_model.specs.declared.config.ConfigNumbers.{ConfigNumbers};
ghost use Rattle.meet_lock.specs.Passes.{IsSeenWhole, number, seen};
ghost use Rattle.work_queue.specs.Engines.{EnginePass};
ghost use Rattle.driver_calls.specs.Events.{events};
ghost use Rattle.driver_cas.specs.Drivers.{made, port_of};
ghost use Rattle.driver_cas.specs.Ports.{pass_of};
ghost use Rattle.many_host_laws.specs.Hosts.{IsHost};
ghost use Rattle.slot_log_laws.specs.Counts.{log_claims};
ghost use Rattle.many_host_laws.specs.Closing.{AreClosing, HasDone, HasRounds, HaveClaimed, KeepsSlots};

use driver_cas::{Driver, SharedPort};

/// What the pass of a host's driver did: on the driver's own queues alone, and by the rules of slots.
pub fn what_a_hosts_pass_did(driver: &Driver<SharedPort<'_>>)
    ensures { (c : ConfigNumbers) (slots : Range) (pass queue host : ℕ) →
        IsHost c slots pass queue host driver.now → HasDone c slots host queue (pass_of (port_of driver.now)) }
{
    let _ = driver;
}

/// The claims of a slot that its driver's log has are those that the pass published on its queues.
pub fn what_a_hosts_pass_claimed(driver: &Driver<SharedPort<'_>>)
    ensures { (c : ConfigNumbers) (slots : Range) (pass queue host l : ℕ) →
        IsHost c slots pass queue host driver.now →
        let p = pass_of (port_of driver.now) in
        log_claims (events c queue (number p) (seen p)) l ≡ log_claims (made driver.now) l }
{
    let _ = driver;
}

/// Where the first passes only served, and the others are each a host's, the whole history keeps the slots.
pub fn all_passes_keep_the_slots()
    ensures { (c : ConfigNumbers) (slots : Range) (servers : ℕ) (passes : List EnginePass) (past : Past) →
        0 < servers → length passes ≡ servers + c.cqs → AreClosing c slots servers passes →
        IsSeenWhole passes past → IsLegal c past → KeepsSlots c slots past }
{}

/// And where each of the others claimed the first slot so often, so did each host in the whole history.
pub fn each_host_claimed_so_often()
    ensures { (c : ConfigNumbers) (slots : Range) (servers rounds : ℕ) (passes : List EnginePass) (past : Past) →
        0 < servers → length passes ≡ servers + c.cqs → AreClosing c slots servers passes →
        HaveClaimed c slots servers rounds passes → IsSeenWhole passes past → IsLegal c past →
        HasRounds c slots rounds past }
{}
