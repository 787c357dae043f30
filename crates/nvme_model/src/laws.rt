//! What holds of the definitions, each as the contract of a function that does nothing.

ghost use Rattle.std.specs.Prelude.{◌≡◌, slice_get, ◌+◌, ◌<◌, ◌≤◌, ◌↔◌, is_some, ℕ, List, Some, None, true, false};
ghost use Rattle.std.specs.Prelude.{take, length, suc, ◌∷◌, []};
ghost use Rattle.std.specs.List.{list_any, sum_by};
ghost use Rattle.nvme_model.specs.Config.{completion_queue};
ghost use Rattle.nvme_model.specs.Cells.{is_atomic};
ghost use Rattle.nvme_model.specs.Cut.{IsCut, cut};
ghost use Rattle.nvme_model.specs.EntryBytes.{block_count};
ghost use Rattle.nvme_model.specs.History.{Past};
ghost use Rattle.nvme_model.specs.Tickets.{tickets, ticket, posts_of, in_flight, first_fields};
ghost use Rattle.nvme_model.specs.Operations.{op, has_compare, is_pair, units};
ghost use Rattle.nvme_model.specs.Open.{open_units, unit_range, grants_of, blocks_made, blocks_of, steps_needed};
ghost use Rattle.nvme_model.specs.Open.{is_written};
ghost use Rattle.nvme_model.specs.Value.{value, all_equal};
ghost use Rattle.nvme_model.specs.Medium.{medium};
ghost use Rattle.nvme_model.specs.Completions.{posted_completions};
ghost use Rattle.nvme_model.specs.Placed.{effect, effects_of};
ghost use Rattle.nvme_model.specs.Answered.{says_no};
ghost use Rattle.nvme_model.specs.Refusals.{refusal};
ghost use Rattle.nvme_model.specs.Legal.{IsLegal, IsLegalFile};
ghost use Rattle.nvme_model.specs.FirstBad.{first_bad, IsFirstBad};
ghost use Rattle.nvme_model.specs.Kept.{ControllerInvariant};
ghost use Rattle.nvme_model.specs.Steps.{after, next_entry, ready, run};
ghost use Rattle.nvme_model.specs.OneAtATime.{IsOneAtATime};
ghost use Rattle.nvme_model.specs.Laws.{Apart, MarkedRight, is_held, OwesToFull, IsNumber};
ghost use Rattle.nvme_model.specs.declared.array.Range.{Range};
ghost use Rattle.nvme_model.specs.declared.config.AtomicParameters.{AtomicParameters};
ghost use Rattle.nvme_model.specs.declared.config.ConfigNumbers.{ConfigNumbers};
ghost use Rattle.nvme_model.specs.declared.entry.BlockLine.{BlockLine};
ghost use Rattle.nvme_model.specs.declared.entry.PostLine.{PostLine};
ghost use Rattle.nvme_model.specs.declared.entry.Entry.{Entry};
ghost use Rattle.nvme_model.specs.declared.step.Step.{Step};

/// Whatever steps are asked, the history is legal, and where no open Exclusive unit has a block the volume is its
/// value.
pub fn every_run_is_legal()
    ensures legal { (c : ConfigNumbers) (steps : List Step) → IsLegal c (run c [] steps) }
    ensures volume { (c : ConfigNumbers) (steps : List Step) (l : ℕ) →
        is_held (run c [] steps) l ≡ false → medium (run c [] steps) l ≡ value (run c [] steps) l }
{}

/// What this controller keeps of its history: a history without an entry has it, each step keeps it, also one that is
/// refused, and it gives that the history is legal and its marks stand where this controller puts them.
pub fn what_a_controller_keeps()
    ensures begins { (c : ConfigNumbers) → ControllerInvariant c [] }
    ensures accepted { (c : ConfigNumbers) (past : Past) (step : Step) →
        ControllerInvariant c past → refusal c past step ≡ None
        → ControllerInvariant c (next_entry c past step ∷ past) }
    ensures after { (c : ConfigNumbers) (past : Past) (step : Step) → ControllerInvariant c past
        → ControllerInvariant c (after c past step) }
    ensures legal { (c : ConfigNumbers) (past : Past) → ControllerInvariant c past → IsLegal c past }
    ensures marks { (c : ConfigNumbers) (past : Past) → ControllerInvariant c past → MarkedRight past }
{}

/// An array of blocks that is asked the effects alone, one at a time and each done whole, in the order of the history:
/// its contents are the value, its answers are those of the history, and each completion that is posted or reaped is
/// what they make of it.
pub fn one_operation_at_a_time()
    ensures array { (c : ConfigNumbers) (past : Past) → IsLegal c past → IsOneAtATime c past }
{}

/// Each unit of a ticket that passed its checks and has posted, up to the first that says no, has exactly one effect;
/// no unit has two, a unit has its effect after the unit before it, and each effect stands after its ticket's Fetch and
/// before its first Post.
pub fn each_served_unit_takes_effect_once()
    ensures served { (c : ConfigNumbers) (past : Past) (t u : ℕ) →
        IsLegal c past → 1 ≤ posts_of past t → is_some (op (ticket past t)) ≡ true →
        u < length (units c (ticket past t)) → ((v : ℕ) → v < u → says_no past t v ≡ false) → effects_of past t u ≡ 1 }
    ensures most { (c : ConfigNumbers) (past : Past) (t u : ℕ) → IsLegal c past → effects_of past t u ≤ 1 }
    ensures in_order { (c : ConfigNumbers) (past : Past) (t u : ℕ) →
        IsLegal c past → is_some (effect past t (suc u)) ≡ true → is_some (effect past t u) ≡ true }
    ensures stands { (c : ConfigNumbers) (past : Past) (t u : ℕ) (before : Past) →
        IsLegal c past → effect past t u ≡ Some before → (1 ≤ t) × (t ≤ tickets before) × (posts_of before t ≡ 0) }
{}

/// A pair whose effect says no has no block written, ever, wherever its mark stands; and such an effect leaves every
/// value as it was.
pub fn a_pair_that_differs_writes_nothing()
    ensures unwritten { (c : ConfigNumbers) (past : Past) (t u : ℕ) → IsLegal c past → is_pair (op (ticket past t)) ≡
        true → says_no past t u ≡ true → list_any (λ b. is_written b.found) (blocks_made past t u) ≡ false }
    ensures value { (past : Past) (b : BlockLine) (l : ℕ) → has_compare (op (ticket past b.ticket)) ≡ true →
        all_equal (value past) (ticket past b.ticket) (unit_range past b.ticket b.unit) ≡ false →
        value (Entry.Block b ∷ past) l ≡ value past l }
{}

/// Where no open Exclusive unit has a block, what lies in the volume is its value.
pub fn volume_is_value()
    ensures { (c : ConfigNumbers) (past : Past) (l : ℕ) →
        IsLegal c past → MarkedRight past → is_held past l ≡ false → medium past l ≡ value past l }
{}

/// No two open units of a legal history conflict.
pub fn open_units_are_apart()
    ensures { (c : ConfigNumbers) (past : Past) → IsLegal c past → Apart (open_units past) }
{}

/// `cut` is the one list of maximal atomic ranges; its ranges have all the blocks; and it is one range exactly for an
/// atomic one.
pub fn one_cut()
    ensures is { (u : AtomicParameters) (s n : ℕ) → IsCut u s n (cut u s n) }
    ensures unique { (u : AtomicParameters) (s n : ℕ) (rs : List Range) → IsCut u s n rs → rs ≡ cut u s n }
    ensures sum { (u : AtomicParameters) (s n : ℕ) → sum_by (λ r. r.blocks) (cut u s n) ≡ n }
    ensures one { (u : AtomicParameters) (s n : ℕ) → (length (cut u s n) ≡ 1) ↔ (is_atomic u s n ≡ true) }
{}

/// A ticket of n blocks in m units has at most m Grants and n Blocks, 2n in a pair; a Flush, and a ticket that failed
/// its checks, have none.
pub fn a_ticket_has_few_steps()
    ensures grants { (c : ConfigNumbers) (past : Past) (t : ℕ) →
        IsLegal c past → grants_of past t ≤ length (units c (ticket past t)) }
    ensures blocks { (c : ConfigNumbers) (past : Past) (t : ℕ) →
        IsLegal c past → blocks_of past t ≤ steps_needed (ticket past t) (block_count (first_fields (ticket past t))) }
    ensures idle { (c : ConfigNumbers) (past : Past) (t : ℕ) →
        IsLegal c past → op (ticket past t) ≡ None → (grants_of past t ≡ 0) × (blocks_of past t ≡ 0) }
{}

/// The completions of a completion queue have their phases by their numbers on that queue, whichever submission queues
/// they are for; each names its own ticket's submission queue, which uses that completion queue.
pub fn completions_are_numbered()
    ensures { (c : ConfigNumbers) (past : Past) (q k : ℕ) (p : PostLine) →
        IsLegal c past → slice_get (posted_completions c past q) k ≡ Some p →
        IsNumber c (ticket past p.ticket).queue q k p }
{}

/// With as many completion queues as submission queues each uses the one of its own number.
pub fn each_has_its_own_completion_queue()
    ensures { (c : ConfigNumbers) (q : ℕ) → c.cqs ≡ c.pairs → 1 ≤ q → q ≤ c.pairs → completion_queue c q ≡ q }
{}

/// Where no step is ready, each ticket in flight owes a completion to a full completion queue; and what is ready is not
/// refused.
pub fn never_stuck()
    ensures stuck { (c : ConfigNumbers) (past : Past) (t : ℕ) →
        IsLegal c past → ready c past ≡ None → in_flight past t ≡ true → OwesToFull c past t }
    ensures allowed { (c : ConfigNumbers) (past : Past) (step : Step) →
        ready c past ≡ Some step → refusal c past step ≡ None }
{}

/// Each beginning of a legal history is legal.
pub fn beginnings_are_legal()
    ensures { (c : ConfigNumbers) (entries : List Entry) (k : ℕ) →
        IsLegalFile c entries → IsLegalFile c (take k entries) }
{}

/// A list of entries is legal, or there is one first place at which it is not.
pub fn one_first_bad_place()
    ensures none { (c : ConfigNumbers) (entries : List Entry) → first_bad c entries ≡ None → IsLegalFile c entries }
    ensures legal { (c : ConfigNumbers) (entries : List Entry) → IsLegalFile c entries → first_bad c entries ≡ None }
    ensures place { (c : ConfigNumbers) (entries : List Entry) (k : ℕ) →
        first_bad c entries ≡ Some k → IsFirstBad c entries k }
    ensures first { (c : ConfigNumbers) (entries : List Entry) (k : ℕ) →
        IsFirstBad c entries k → first_bad c entries ≡ Some k }
{}
