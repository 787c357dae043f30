//! What a driver's log says of its claims and releases, by itself.

ghost use Rattle.std.specs.Prelude.{◌≡◌, ◌≤◌, ◌<◌, ◌&&◌, ◌==◌, ◌∷◌, ◌++◌, ℕ, List, [], true, false, length, Ok, Some};
ghost use Rattle.std.specs.Prelude.{if◌then◌else◌, suc};
ghost use Rattle.std.specs.List.{list_any};
ghost use Rattle.nvme_model.specs.Array.{has_block};
ghost use Rattle.nvme_model.specs.Slots.{Name, same_name, touches};
ghost use Rattle.nvme_model.specs.declared.array.Range.{Range};
ghost use Rattle.nvme_model.specs.declared.operation.Op.{Op};
ghost use Rattle.nvme_model.specs.declared.submission.Submission.{Submission};
ghost use Rattle.driver_calls.specs.Log.{sent};
ghost use Rattle.driver_calls.specs.Says.{IsCallIn, call_outcome};
ghost use Rattle.driver_calls.specs.declared.event.PortEvent.{PortEvent};
ghost use Rattle.driver_calls.specs.declared.reply.Reply.{Reply};
ghost use Rattle.slot_log_laws.specs.Calls.{IsClaimBatch, IsClaimIn, IsName, IsReleaseBatch, IsReleaseIn};
ghost use Rattle.slot_log_laws.specs.Counts.{log_claims};
ghost use Rattle.slot_log_laws.specs.SlotRules.{keeps_slot_rules};
ghost use Rattle.slot_log_laws.specs.Swaps.{log_believed, log_released};

/// A log goes on keeping the rules of slots by whatever is reaped, by batches that touch no slot, by claims under
/// serials above the last, and by releases of names that it believes.
pub fn a_log_goes_on_keeping_the_rules()
    ensures empty { (slots : Range) (host last : ℕ) → keeps_slot_rules slots host last [] ≡ true }
    ensures drawn { (slots : Range) (host last next : ℕ) (log : List PortEvent) → last ≤ next →
        keeps_slot_rules slots host last log ≡ true → keeps_slot_rules slots host next log ≡ true }
    ensures got { (slots : Range) (host last : ℕ) (log : List PortEvent) (cqe payload : List ℕ) →
        keeps_slot_rules slots host last log ≡ true
        → keeps_slot_rules slots host last (PortEvent.Got cqe payload ∷ log) ≡ true }
    ensures outside { (slots : Range) (host last : ℕ) (log : List PortEvent) (q : ℕ) (batch : List Submission) →
        list_any (touches slots) batch ≡ false → keeps_slot_rules slots host last log ≡ true →
        keeps_slot_rules slots host last (PortEvent.Sent q batch ∷ log) ≡ true }
    ensures claim { (slots : Range) (last : ℕ) (log : List PortEvent) (q l first second : ℕ) (n : Name)
        (batch : List Submission) → IsName n → IsClaimBatch l first second n batch → has_block slots l ≡ true →
        last < n.serial → keeps_slot_rules slots n.host last log ≡ true →
        keeps_slot_rules slots n.host n.serial (PortEvent.Sent q batch ∷ log) ≡ true }
    ensures release { (slots : Range) (host last : ℕ) (log : List PortEvent) (q l first second : ℕ) (n : Name)
        (batch : List Submission) → IsName n → IsReleaseBatch l first second n batch → has_block slots l ≡ true →
        log_believed log l n ≡ true → keeps_slot_rules slots host last log ≡ true →
        keeps_slot_rules slots host last (PortEvent.Sent q batch ∷ log) ≡ true }
{}

/// What a log believes of a slot of the area it goes on to believe, until that name is released there.
pub fn what_is_believed_stays()
    ensures got { (log : List PortEvent) (cqe payload : List ℕ) (l : ℕ) (n : Name) → log_believed log l n ≡ true →
        log_believed (PortEvent.Got cqe payload ∷ log) l n ≡ true }
    ensures outside { (slots : Range) (log : List PortEvent) (q : ℕ) (batch : List Submission) (l : ℕ) (n : Name) →
        list_any (touches slots) batch ≡ false → has_block slots l ≡ true → log_believed log l n ≡ true →
        log_believed (PortEvent.Sent q batch ∷ log) l n ≡ true }
    ensures claim { (log : List PortEvent) (q k first second : ℕ) (m : Name) (batch : List Submission) (l : ℕ)
        (n : Name) →
        IsName m → IsClaimBatch k first second m batch → log_believed log l n ≡ true →
        log_believed (PortEvent.Sent q batch ∷ log) l n ≡ true }
    ensures release { (log : List PortEvent) (q k first second : ℕ) (m : Name) (batch : List Submission) (l : ℕ)
        (n : Name) → IsName m → IsReleaseBatch k first second m batch → ((k == l) && same_name m n) ≡ false →
        log_believed log l n ≡ true → log_believed (PortEvent.Sent q batch ∷ log) l n ≡ true }
{}

/// Only the release of a name from a slot of the area releases it there; so a name under a serial above the last never
/// was.
pub fn a_log_releases_what_it_says()
    ensures got { (log : List PortEvent) (cqe payload : List ℕ) (l : ℕ) (n : Name) →
        log_released (PortEvent.Got cqe payload ∷ log) l n ≡ log_released log l n }
    ensures outside { (slots : Range) (log : List PortEvent) (q : ℕ) (batch : List Submission) (l : ℕ) (n : Name) →
        list_any (touches slots) batch ≡ false → has_block slots l ≡ true →
        log_released (PortEvent.Sent q batch ∷ log) l n ≡ log_released log l n }
    ensures claim { (log : List PortEvent) (q k first second : ℕ) (m : Name) (batch : List Submission) (l : ℕ)
        (n : Name) →
        IsName m → IsClaimBatch k first second m batch →
        log_released (PortEvent.Sent q batch ∷ log) l n ≡ log_released log l n }
    ensures release { (log : List PortEvent) (q k first second : ℕ) (m : Name) (batch : List Submission) (l : ℕ)
        (n : Name) → IsName m → IsReleaseBatch k first second m batch → ((k == l) && same_name m n) ≡ false →
        log_released (PortEvent.Sent q batch ∷ log) l n ≡ log_released log l n }
    ensures fresh { (slots : Range) (host last : ℕ) (log : List PortEvent) (l : ℕ) (n : Name) →
        keeps_slot_rules slots host last log ≡ true → has_block slots l ≡ true → last < n.serial →
        log_released log l n ≡ false }
{}

/// A claim adds one to a log's claims of its slot, and to those of no other. A release adds none, and what is reaped
/// adds none.
pub fn a_log_counts_its_claims()
    ensures got { (log : List PortEvent) (cqe payload : List ℕ) (l : ℕ) →
        log_claims (PortEvent.Got cqe payload ∷ log) l ≡ log_claims log l }
    ensures claim { (log : List PortEvent) (q k first second : ℕ) (m : Name) (batch : List Submission) (l : ℕ) →
        IsName m → IsClaimBatch k first second m batch →
        log_claims (PortEvent.Sent q batch ∷ log) l
        ≡ (if k == l then suc (log_claims log l) else log_claims log l) }
    ensures release { (log : List PortEvent) (q k first second : ℕ) (m : Name) (batch : List Submission) (l : ℕ) →
        IsName m → IsReleaseBatch k first second m batch →
        log_claims (PortEvent.Sent q batch ∷ log) l ≡ log_claims log l }
{}

/// The call whose batch was published just now is a claim, or a release, by the log, and it is so in each later log in
/// which its CIDs still name it.
pub fn a_call_is_in_its_log()
    ensures claim { (log : List PortEvent) (q l first second : ℕ) (n : Name) (batch : List Submission) → IsName n →
        IsClaimBatch l first second n batch →
        IsCallIn (PortEvent.Sent q batch ∷ log) q Op.Pair first second (length (sent log q)) →
        IsClaimIn (PortEvent.Sent q batch ∷ log) q first second (length (sent log q)) l n }
    ensures release { (log : List PortEvent) (q l first second : ℕ) (n : Name) (batch : List Submission) → IsName n →
        IsReleaseBatch l first second n batch →
        IsCallIn (PortEvent.Sent q batch ∷ log) q Op.Pair first second (length (sent log q)) →
        IsReleaseIn (PortEvent.Sent q batch ∷ log) q first second (length (sent log q)) l n }
    ensures claim_later { (later log : List PortEvent) (q first second j l : ℕ) (n : Name) →
        IsClaimIn log q first second j l n → IsCallIn (later ++ log) q Op.Pair first second j →
        IsClaimIn (later ++ log) q first second j l n }
    ensures release_later { (later log : List PortEvent) (q first second j l : ℕ) (n : Name) →
        IsReleaseIn log q first second j l n → IsCallIn (later ++ log) q Op.Pair first second j →
        IsReleaseIn (later ++ log) q first second j l n }
{}

/// A claim that was answered `Swapped` is believed by the log, as long as its name isn't released.
pub fn a_won_claim_is_believed_by_its_log()
    ensures { (log : List PortEvent) (q first second j l : ℕ) (n : Name) → IsClaimIn log q first second j l n →
        call_outcome log q Op.Pair first second ≡ Some (Ok Reply.Swapped) → log_released log l n ≡ false →
        log_believed log l n ≡ true }
{}
