//! Laws of one ticket, for controllers and checkers: where it stands in a history, what it owes, and what its own steps
//! say of it.
#![tactic(auto)]

mod stage;

ghost use Rattle.std.specs.Prelude.{◌≡◌, ◌≢◌, ◌+◌, ◌*◌, ◌≤◌, ◌<◌, ◌++◌, ◌∷◌, [], ℕ, Some, None, Option, take, false};
ghost use Rattle.std.specs.Prelude.{is_none, length, slice_get, true, ◌⊎◌, nat_le};
ghost use Rattle.nvme_model.specs.History.{Past};
ghost use Rattle.nvme_model.specs.Tickets.{fetched_ticket, in_flight, ticket, tickets, posts_of};
ghost use Rattle.nvme_model.specs.Queues.{waiting};
ghost use Rattle.nvme_model.specs.Verdict.{taken_entries};
ghost use Rattle.nvme_model.specs.Operations.{op, units};
ghost use Rattle.nvme_model.specs.Open.{blocks_of, differed, grants_of, granted, has_ended, unit_range};
ghost use Rattle.nvme_model.specs.Owed.{all_ended, owed, read_data_by};
ghost use Rattle.nvme_model.specs.Refusals.{next_unit, none_left, owes_nothing_yet, refusal};
ghost use Rattle.nvme_model.specs.Legal.{IsLegal};
ghost use Rattle.nvme_model.specs.Laws.{MarkedRight};
ghost use Rattle.ticket_laws.specs.Standing.{bytes_read, flying, fresh_standing, blocks_left, next_of};
ghost use Rattle.ticket_laws.specs.Standing.{owed_by_standing};
ghost use Rattle.ticket_laws.specs.Standing.{standing, still_owed};
ghost use Rattle.nvme_model.specs.declared.config.ConfigNumbers.{ConfigNumbers};
ghost use Rattle.nvme_model.specs.declared.operation.Op.{Op};
ghost use Rattle.nvme_model.specs.declared.entry.FetchLine.{FetchLine};
ghost use Rattle.nvme_model.specs.declared.entry.GrantLine.{GrantLine};
ghost use Rattle.nvme_model.specs.declared.entry.BlockLine.{BlockLine};
ghost use Rattle.nvme_model.specs.declared.entry.PostLine.{PostLine};
ghost use Rattle.nvme_model.specs.declared.entry.Entry.{Entry};
ghost use Rattle.nvme_model.specs.Completions.{posted_completions, reaped_count};
ghost use Rattle.nvme_model.specs.Steps.{next_entry};
ghost use Rattle.nvme_model.specs.declared.refusal.Why.{Why};
ghost use Rattle.nvme_model.specs.declared.step.Step.{Step};
ghost use Rattle.ticket_laws.specs.Entries.{named_ticket, names_queue, of_ticket, ticket_in};
ghost use Rattle.ticket_laws.specs.Tasks.{Duty, IsInPlace, after_block, after_grant, after_post, duty_at};
ghost use Rattle.ticket_laws.specs.Tasks.{own_all_ended, own_open, own_stage, task_fault};

pub use stage::DutyStage;

/// A step moves its own ticket and no other: a new ticket has begun nothing, a Grant opens one more unit, a Post posts
/// one more completion.
pub fn a_step_moves_its_own_ticket()
    ensures fetched { (c : ConfigNumbers) (past : Past) (f : FetchLine) → IsLegal c (Entry.Fetch f ∷ past) →
        standing (Entry.Fetch f ∷ past) f.ticket ≡ fresh_standing (fetched_ticket past f.queue f.verdict) }
    ensures beside_fetch { (c : ConfigNumbers) (past : Past) (f : FetchLine) (t : ℕ) →
        IsLegal c (Entry.Fetch f ∷ past) → t ≤ tickets past → standing (Entry.Fetch f ∷ past) t ≡ standing past t }
    ensures granted { (c : ConfigNumbers) (past : Past) (g : GrantLine) →
        IsLegal c (Entry.Grant g ∷ past) → standing (Entry.Grant g ∷ past) g.ticket ≡ record (standing past g.ticket)
        { opened = grants_of past g.ticket + 1; unit = Some (record { line = g; made = 0 }) } }
    ensures beside_grant { (c : ConfigNumbers) (past : Past) (g : GrantLine) (t : ℕ) →
        IsLegal c (Entry.Grant g ∷ past) → t ≢ g.ticket → standing (Entry.Grant g ∷ past) t ≡ standing past t }
    ensures beside_block { (c : ConfigNumbers) (past : Past) (b : BlockLine) (t : ℕ) →
        IsLegal c (Entry.Block b ∷ past) → t ≢ b.ticket → standing (Entry.Block b ∷ past) t ≡ standing past t }
    ensures posted { (past : Past) (p : PostLine) → standing (Entry.Post p ∷ past) p.ticket ≡
        record (standing past p.ticket) { posts = posts_of past p.ticket + 1 } }
    ensures beside_post { (past : Past) (p : PostLine) (t : ℕ) →
        t ≢ p.ticket → standing (Entry.Post p ∷ past) t ≡ standing past t }
{}

/// What a ticket owes follows from where it stands, and one in flight has a completion to post exactly where it owes
/// something.
pub fn a_ticket_owes_by_where_it_stands()
    ensures owed { (c : ConfigNumbers) (past : Past) (t : ℕ) → IsLegal c past → MarkedRight past →
        owed c past t ≡ owed_by_standing c (standing past t) (ticket past t).verdict }
    ensures next { (c : ConfigNumbers) (past : Past) (t : ℕ) → IsLegal c past → MarkedRight past →
        in_flight past t ≡ true → is_none (slice_get (still_owed c (standing past t)) 0) ≡ owes_nothing_yet c past t }
{}

/// What a Read reads block by block is, once its units have ended, what its completion carries: each unit's value at
/// its effect; and each of its Blocks reads 512 bytes.
pub fn a_read_sees_each_unit_at_one_moment()
    ensures whole { (c : ConfigNumbers) (past : Past) (t : ℕ) → IsLegal c past → MarkedRight past → op (ticket past t) ≡
        Some Op.Read → all_ended c past t ≡ true → bytes_read past t ≡ read_data_by c past t (Some Op.Read) }
    ensures length { (c : ConfigNumbers) (past : Past) (t : ℕ) →
        IsLegal c past → op (ticket past t) ≡ Some Op.Read → length (bytes_read past t) ≡ 512 * blocks_of past t }
{}

/// The unit that a Grant opens is the first of what is left, and there is none where nothing is.
pub fn the_next_unit_is_the_first_of_what_is_left()
    ensures next { (c : ConfigNumbers) (past : Past) (t : ℕ) → differed past t ≡ false →
        next_unit c past t ≡ next_of c.atomic (op (ticket past t)) (blocks_left c (standing past t)) }
    ensures none { (c : ConfigNumbers) (past : Past) (t : ℕ) →
        none_left c past t ≡ is_none (next_of c.atomic (op (ticket past t)) (blocks_left c (standing past t))) }
{}

/// The entry of a step is of the ticket that the step names; where it names none it is of no ticket, or of one that has
/// no entry yet.
pub fn an_entry_is_of_its_steps_ticket()
    ensures new { (c : ConfigNumbers) (past : Past) (step : Step) (e : Entry) →
        IsLegal c past → e ≡ next_entry c past step
        → names_queue step ≡ true → (ticket_in e ≡ 0) ⊎ (of_ticket (ticket_in e) past ≡ []) }
    ensures named { (c : ConfigNumbers) (past : Past) (step : Step) (e : Entry) → e ≡ next_entry c past step
        → 0 < named_ticket step → ticket_in e ≡ named_ticket step }
    ensures unfetched { (c : ConfigNumbers) (past : Past) (t : ℕ) →
        IsLegal c past → tickets past < t → of_ticket t past ≡ [] }
{}

/// What a ticket's own entries allow is never refused because the ticket isn't in flight or because it isn't its turn;
/// and what a ticket has to do stays.
pub fn a_ticket_stands_by_its_own_entries()
    ensures grant { (c : ConfigNumbers) (past : Past) (t : ℕ)
        → task_fault (duty_at c past t) t (of_ticket t past) (Step.Grant t) ≡ None →
        IsInPlace (refusal c past (Step.Grant t)) }
    ensures block { (c : ConfigNumbers) (past : Past) (t : ℕ)
        → task_fault (duty_at c past t) t (of_ticket t past) (Step.Block t) ≡ None →
        IsInPlace (refusal c past (Step.Block t)) }
    ensures post { (c : ConfigNumbers) (past : Past) (t : ℕ)
        → task_fault (duty_at c past t) t (of_ticket t past) (Step.Post t) ≡ None →
        IsInPlace (refusal c past (Step.Post t)) }
    ensures stays { (c : ConfigNumbers) (later past : Past) (t : ℕ) → IsLegal c (later ++ past) → t ≤ tickets past
        → duty_at c (later ++ past) t ≡ duty_at c past t }
{}

/// How far a ticket has come after each of its steps, by its own entries; and where all its units were begun, none is
/// open and no block differed, all have ended.
pub fn a_ticket_comes_on_by_its_own_steps()
    ensures granted { (c : ConfigNumbers) (past : Past) (g : GrantLine) → IsLegal c (Entry.Grant g ∷ past)
        → own_stage (duty_at c past g.ticket) g.ticket (Entry.Grant g ∷ of_ticket g.ticket past)
        ≡ after_grant (own_stage (duty_at c past g.ticket) g.ticket (of_ticket g.ticket past)) }
    ensures made { (c : ConfigNumbers) (past : Past) (b : BlockLine) → IsLegal c (Entry.Block b ∷ past)
        → own_stage (duty_at c past b.ticket) b.ticket (Entry.Block b ∷ of_ticket b.ticket past)
        ≡ after_block (own_stage (duty_at c past b.ticket) b.ticket (of_ticket b.ticket past)) b.found
        (has_ended (Entry.Block b ∷ past) b.ticket b.unit (unit_range past b.ticket b.unit).blocks) }
    ensures posted { (d : Duty) (its : Past) (p : PostLine)
        → own_stage d p.ticket (Entry.Post p ∷ its) ≡ after_post (own_stage d p.ticket its) }
    ensures over { (c : ConfigNumbers) (past : Past) (t : ℕ) → IsLegal c past → differed past t ≡ false
        → nat_le (length (units c (ticket past t))) (length (granted (of_ticket t past))) ≡ true
        → own_open (op (ticket past t)) (of_ticket t past) t ≡ false
        → own_all_ended (duty_at c past t) (of_ticket t past) t ≡ true }
{}

/// A Reap is refused for want of a completion only where as many Reaps of its queue stand there as posts did at any
/// moment before.
pub fn a_completion_that_was_seen_is_there_until_it_is_reaped()
    ensures reaped { (c : ConfigNumbers) (later past : Past) (q : ℕ) →
        refusal c (later ++ past) (Step.Reap q) ≡ Some Why.NoCompletion
        → length (posted_completions c past q) ≤ reaped_count (later ++ past) q }
{}
