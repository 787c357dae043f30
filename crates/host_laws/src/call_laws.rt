//! What a reaped completion says of the command that it answers. A command is named by its submission queue and its
//! number there, from 0.

ghost use Rattle.std.specs.Prelude.{◌≡◌, suc, ◌≤◌, ◌∷◌, ◌++◌, ℕ, List, true, false, Some, None, length};
ghost use Rattle.std.specs.List.{Contains, list_any, list_all};
ghost use Rattle.nvme_model.specs.Statuses.{compare_failure, failed_fused, is_success, same_status};
ghost use Rattle.nvme_model.specs.History.{Past};
ghost use Rattle.nvme_model.specs.Tickets.{ticket, cids_in_use};
ghost use Rattle.nvme_model.specs.Queues.{published_entries};
ghost use Rattle.nvme_model.specs.Open.{blocks_made, is_written};
ghost use Rattle.nvme_model.specs.Placed.{effect};
ghost use Rattle.nvme_model.specs.Owed.{units_of};
ghost use Rattle.nvme_model.specs.Slots.{reaped_success};
ghost use Rattle.nvme_model.specs.Legal.{IsLegal};
ghost use Rattle.host_laws.specs.Calls.{IsFused, IsSingle, takes, reaped_post, cqe_status, is_known, says_yes};
ghost use Rattle.host_laws.specs.Calls.{PairSwaps, PairDiffers, IsDone, CompareDiffers, FailsChecks, ReapAnswers};
ghost use Rattle.host_laws.specs.Calls.{IsEntryWaiting};
ghost use Rattle.nvme_model.specs.declared.config.ConfigNumbers.{ConfigNumbers};
ghost use Rattle.nvme_model.specs.declared.operation.Op.{Op};
ghost use Rattle.nvme_model.specs.declared.entry.PostLine.{PostLine};
ghost use Rattle.nvme_model.specs.declared.entry.ReapLine.{ReapLine};
ghost use Rattle.nvme_model.specs.declared.entry.Entry.{Entry};

/// A Reap answers exactly one published entry, of a submission queue of its completion queue, which was not answered
/// before. It has that entry's CID and queue, and all other entries stay as they were.
pub fn a_reap_answers_one_entry()
    ensures one { (c : ConfigNumbers) (past : Past) (r : ReapLine) → IsLegal c (Entry.Reap r ∷ past) →
        ReapAnswers c past r }
    ensures stays { (c : ConfigNumbers) (later past : Past) (q j : ℕ) (p : PostLine) → IsLegal c (later ++ past) →
        reaped_post c past q j ≡ Some p → reaped_post c (later ++ past) q j ≡ Some p }
    ensures success { (c : ConfigNumbers) (past : Past) (q j : ℕ) (p : PostLine) → IsLegal c past →
        reaped_post c past q j ≡ Some p → is_success (cqe_status p.cqe) ≡ true → reaped_success c past q j ≡ true }
    ensures succeeded { (c : ConfigNumbers) (past : Past) (q j : ℕ) → IsLegal c past →
        reaped_success c past q j ≡ true →
        (p : PostLine) × (reaped_post c past q j ≡ Some p) × (is_success (cqe_status p.cqe) ≡ true) }
{}

/// A CID in use is that of a published entry of that submission queue whose completion is not reaped.
pub fn cids_in_use_are_unreaped()
    ensures { (c : ConfigNumbers) (past : Past) (q cid : ℕ) → IsLegal c past → Contains (cids_in_use past q) cid →
        (j : ℕ) × IsEntryWaiting c past q cid j }
{}

/// Where success was reaped for the second entry of a pair, its effect says yes. Where Compare Failure was reaped for
/// its first, its effect says no, and no Block of it is `written`.
pub fn a_pair_is_answered()
    ensures swaps { (c : ConfigNumbers) (past : Past) (q j : ℕ) (p : PostLine) → IsLegal c past → IsFused past q j →
        reaped_post c past q (suc j) ≡ Some p → is_success (cqe_status p.cqe) ≡ true → PairSwaps past q j }
    ensures differs { (c : ConfigNumbers) (past : Past) (q j : ℕ) (p : PostLine) → IsLegal c past → IsFused past q j →
        reaped_post c past q j ≡ Some p → cqe_status p.cqe ≡ compare_failure → PairDiffers past q j }
    ensures unwritten { (c : ConfigNumbers) (past : Past) (q j : ℕ) (d : PairDiffers past q j) → IsLegal c past →
        list_any (λ b. is_written b.found) (blocks_made past d.ticket 0) ≡ false }
{}

/// Where Compare Failure was reaped for the first entry of a pair, its second is answered by Command Aborted due to
/// Failed Fused Command.
pub fn a_second_fails_with_its_first()
    ensures { (c : ConfigNumbers) (past : Past) (q j : ℕ) (p r : PostLine) → IsLegal c past → IsFused past q j →
        reaped_post c past q j ≡ Some p → cqe_status p.cqe ≡ compare_failure → reaped_post c past q (suc j) ≡ Some r →
        cqe_status r.cqe ≡ failed_fused }
{}

/// Where success was reaped for the first entry of a pair, its second is answered by success too.
pub fn a_second_succeeds_with_its_first()
    ensures { (c : ConfigNumbers) (past : Past) (q j : ℕ) (p r : PostLine) → IsLegal c past → IsFused past q j →
        reaped_post c past q j ≡ Some p → is_success (cqe_status p.cqe) ≡ true →
        reaped_post c past q (suc j) ≡ Some r → is_success (cqe_status r.cqe) ≡ true }
{}

/// Where success was reaped for a Read, Write, Write Zeroes or Compare by itself, its ticket does that, each of its
/// units has its effect, none of them says no, and its data is what the ticket owes. Compare Failure is answered to a
/// Compare alone, of which an effect says no.
pub fn a_command_is_answered()
    ensures done { (c : ConfigNumbers) (past : Past) (q j : ℕ) (o : Op) (p : PostLine) → IsLegal c past →
        IsSingle past q j o → reaped_post c past q j ≡ Some p → is_success (cqe_status p.cqe) ≡ true →
        IsDone c past q j o p.payload }
    ensures equal { (c : ConfigNumbers) (past : Past) (q j : ℕ) (bytes : List ℕ) →
        (d : IsDone c past q j Op.Compare bytes) →
        list_all (λ u. says_yes past d.ticket u.0) (units_of c past d.ticket) ≡ true }
    ensures differs { (c : ConfigNumbers) (past : Past) (q j : ℕ) (o : Op) (p : PostLine) → IsLegal c past →
        IsSingle past q j o → reaped_post c past q j ≡ Some p → cqe_status p.cqe ≡ compare_failure →
        CompareDiffers c past q j }
    ensures compares { (c : ConfigNumbers) (past : Past) (q j : ℕ) (o : Op) (p : PostLine) → IsLegal c past →
        IsSingle past q j o → reaped_post c past q j ≡ Some p → cqe_status p.cqe ≡ compare_failure → o ≡ Op.Compare }
{}

/// A reaped status is success, Compare Failure, or that of a failed check. Where it is neither of the first two, of a
/// pair that of its first, the command failed its checks and has no Block.
pub fn a_failure_does_nothing()
    ensures statuses { (c : ConfigNumbers) (past : Past) (q j : ℕ) (p : PostLine) → IsLegal c past →
        reaped_post c past q j ≡ Some p → is_known (cqe_status p.cqe) ≡ true }
    ensures single { (c : ConfigNumbers) (past : Past) (q j : ℕ) (o : Op) (p : PostLine) → IsLegal c past →
        IsSingle past q j o → reaped_post c past q j ≡ Some p → is_success (cqe_status p.cqe) ≡ false →
        same_status (cqe_status p.cqe) compare_failure ≡ false → FailsChecks past q j }
    ensures pair { (c : ConfigNumbers) (past : Past) (q j : ℕ) (p : PostLine) → IsLegal c past → IsFused past q j →
        reaped_post c past q j ≡ Some p → is_success (cqe_status p.cqe) ≡ false →
        same_status (cqe_status p.cqe) compare_failure ≡ false → FailsChecks past q j }
{}

/// The effects of an entry that was published after a moment stand after it.
pub fn effects_come_after_the_start()
    ensures { (c : ConfigNumbers) (later start : Past) (t q j u : ℕ) → IsLegal c (later ++ start) →
        takes (later ++ start) t q j ≡ true → length (published_entries start q) ≤ j → effect start t u ≡ None }
{}
