//! What the log of a driver that keeps the rules of slots says of the history that its port saw, under the premises of
//! a host.

ghost use Rattle.std.specs.Prelude.{◌≡◌, ◌≢◌, ℕ, List, true, Ok, Result, Some};
ghost use Rattle.nvme_model.specs.Array.{has_block};
ghost use Rattle.nvme_model.specs.Config.{completion_queue};
ghost use Rattle.nvme_model.specs.Legal.{IsLegal};
ghost use Rattle.nvme_model.specs.Passes.{SharedPast, entries};
ghost use Rattle.nvme_model.specs.Slots.{Name, believed, disciplined, holder, keeps_discipline};
ghost use Rattle.nvme_model.specs.declared.array.Range.{Range};
ghost use Rattle.nvme_model.specs.declared.config.ConfigNumbers.{ConfigNumbers};
ghost use Rattle.nvme_model.specs.declared.operation.Op.{Op};
ghost use Rattle.nvme_model.specs.declared.status.Status.{Status};
ghost use Rattle.nvme_model.specs.declared.submission.Submission.{Submission};
ghost use Rattle.host_laws.specs.Beside.{IsSole};
ghost use Rattle.driver_calls.specs.Events.{events};
ghost use Rattle.driver_calls.specs.Log.{is_tidy};
ghost use Rattle.driver_calls.specs.Says.{call_outcome};
ghost use Rattle.driver_calls.specs.Views.{PortView};
ghost use Rattle.driver_calls.specs.declared.event.PortEvent.{PortEvent};
ghost use Rattle.driver_calls.specs.declared.reply.Reply.{Reply};
ghost use Rattle.slot_log_laws.specs.Calls.{IsName, IsReleaseBatch, IsReleaseIn};
ghost use Rattle.slot_log_laws.specs.Counts.{claims_on, log_claims};
ghost use Rattle.slot_log_laws.specs.Hosts.{IsSlotView, log_since};
ghost use Rattle.slot_log_laws.specs.Swaps.{log_believed};

/// Where a driver keeps the rules of slots by its log, the whole history keeps the discipline of the slot area.
pub fn logs_that_keep_the_rules_keep_the_discipline()
    ensures { (before : List PortEvent) (slots : Range) (host last : ℕ) (v : PortView) →
        IsSlotView before slots host last v → disciplined v.config slots (entries v.seen) ≡ true }
{}

/// Whoever a log believes of a slot is believed of it in the history, and holds it; and the log believes each name of
/// its host that the history does.
pub fn the_believed_hold_their_slots()
    ensures believed { (before : List PortEvent) (slots : Range) (host last : ℕ) (v : PortView) (l : ℕ) (n : Name) →
        IsSlotView before slots host last v → has_block slots l ≡ true → log_believed (log_since before v) l n ≡ true →
        believed v.config (entries v.seen) l n ≡ true }
    ensures holder { (before : List PortEvent) (slots : Range) (host last : ℕ) (v : PortView) (l : ℕ) (n : Name) →
        IsSlotView before slots host last v → has_block slots l ≡ true → log_believed (log_since before v) l n ≡ true →
        holder (entries v.seen) l ≡ Some n }
    ensures back { (before : List PortEvent) (slots : Range) (host last : ℕ) (v : PortView) (l : ℕ) (n : Name) →
        IsSlotView before slots host last v → has_block slots l ≡ true → n.host ≡ host →
        believed v.config (entries v.seen) l n ≡ true → log_believed (log_since before v) l n ≡ true }
{}

/// In one history no two names are believed of one slot, by whichever logs; so the drivers of two hosts, of two
/// completion queues, or of two passes, never both believe a name of it.
pub fn no_slot_has_two_claims()
    ensures one { (before other : List PortEvent) (slots : Range) (host last guest final : ℕ) (a b : PortView) (l : ℕ)
        (n m : Name) → IsSlotView before slots host last a → IsSlotView other slots guest final b → a.seen ≡ b.seen →
        has_block slots l ≡ true → log_believed (log_since before a) l n ≡ true →
        log_believed (log_since other b) l m ≡ true → n ≡ m }
    ensures hosts { (before other : List PortEvent) (slots : Range) (host last guest final : ℕ) (a b : PortView) (l : ℕ)
        (n m : Name) → IsSlotView before slots host last a → IsSlotView other slots guest final b → a.seen ≡ b.seen →
        has_block slots l ≡ true → log_believed (log_since before a) l n ≡ true →
        log_believed (log_since other b) l m ≡ true → host ≢ guest → ⊥ }
    ensures queues { (before other : List PortEvent) (slots : Range) (host last guest final : ℕ) (a b : PortView)
        (l : ℕ) (n m : Name) →
        IsSlotView before slots host last a → IsSlotView other slots guest final b → a.seen ≡ b.seen →
        a.config ≡ b.config → has_block slots l ≡ true → log_believed (log_since before a) l n ≡ true →
        log_believed (log_since other b) l m ≡ true → a.queue ≢ b.queue → ⊥ }
    ensures passes { (before other : List PortEvent) (slots : Range) (host last guest final : ℕ) (a b : PortView)
        (l : ℕ) (n m : Name) →
        IsSlotView before slots host last a → IsSlotView other slots guest final b → a.seen ≡ b.seen →
        a.config ≡ b.config → has_block slots l ≡ true → log_believed (log_since before a) l n ≡ true →
        log_believed (log_since other b) l m ≡ true → a.pass ≢ b.pass → ⊥ }
{}

/// A release is answered by success, if it is answered: never by a difference, nor by a fault.
pub fn a_release_is_answered_by_success()
    ensures { (before : List PortEvent) (slots : Range) (host last : ℕ) (v : PortView) (q first second j l : ℕ)
        (n : Name) (r : Result Reply Status) → IsSlotView before slots host last v →
        IsReleaseIn (log_since before v) q first second j l n → has_block slots l ≡ true →
        call_outcome (log_since before v) q Op.Pair first second ≡ Some r → r ≡ Ok Reply.Swapped }
{}

/// A release that this driver publishes, and that keeps the discipline where it stands, is of a name that its log
/// believes there. So where it is a premise that releases keep the discipline, the log goes on keeping the rules by
/// them.
pub fn a_release_that_keeps_the_discipline_is_believed()
    ensures { (before : List PortEvent) (slots : Range) (host last : ℕ) (v : PortView) (q l first second : ℕ) (n : Name)
        (batch : List Submission) → IsSlotView before slots host last v → IsName n →
        IsReleaseBatch l first second n batch → has_block slots l ≡ true → completion_queue v.config q ≡ v.queue →
        keeps_discipline v.config slots (entries v.seen) (record { queue = q; batch = batch }) ≡ true →
        log_believed (log_since before v) l n ≡ true }
{}

/// Where one port alone uses the queues of a completion queue, its log has as many claims of a slot as the history has
/// on them.
pub fn a_log_has_the_claims_of_its_queues()
    ensures { (c : ConfigNumbers) (queue pass l : ℕ) (shared : SharedPast) → IsLegal c (entries shared) →
        IsSole c queue pass shared → is_tidy (events c queue pass shared) ≡ true →
        claims_on c (entries shared) queue l ≡ log_claims (events c queue pass shared) l }
{}
