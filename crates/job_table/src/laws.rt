//! How the stage of a ticket moves in a legal history of any controller, and what it owes, as the contracts
//! of functions that do nothing.

ghost use Rattle.std.specs.Prelude.{◌≡◌, ◌∷◌, List, drop, ℕ};
ghost use Rattle.nvme_model.specs.History.{Past};
ghost use Rattle.nvme_model.specs.Legal.{IsLegal};
ghost use Rattle.nvme_model.specs.Operations.{op};
ghost use Rattle.nvme_model.specs.Tickets.{Ticket, first_fields};
ghost use Rattle.fused_match.specs.Judged.{NamesBlocks, operation_in, verdict_by};
ghost use Rattle.fused_match.specs.declared.judged.Judged.{Judged};
ghost use Rattle.nvme_model.specs.declared.config.ConfigNumbers.{ConfigNumbers};
ghost use Rattle.nvme_model.specs.declared.entry.BlockLine.{BlockLine};
ghost use Rattle.nvme_model.specs.declared.entry.Entry.{Entry};
ghost use Rattle.nvme_model.specs.declared.entry.GrantLine.{GrantLine};
ghost use Rattle.nvme_model.specs.declared.entry.PostLine.{PostLine};
ghost use Rattle.nvme_model.specs.declared.status.Status.{Status};
ghost use Rattle.job_table.specs.declared.progress.TicketStage.{TicketStage};
ghost use Rattle.ticket_laws.specs.Standing.{fresh_standing, standing, still_owed};
ghost use Rattle.job_table.specs.Shown.{standing_stage};
ghost use Rattle.job_table.specs.Stages.{first_ticket_stage, noted_in, opened_in, owed_in};

/// A ticket that was just fetched is at the first stage of its verdict. A Grant opens the unit of its range, and a
/// Block moves its unit by what it found, wherever the unit's mark stands; a Post takes the first off what is owed.
pub fn a_step_moves_the_stage()
    ensures fetched { (c : ConfigNumbers) (k : Ticket) (j : Judged) →
        verdict_by j ≡ k.verdict → operation_in j ≡ op k → NamesBlocks j (first_fields k) →
        standing_stage c (fresh_standing k) ≡ first_ticket_stage j }
    ensures granted { (c : ConfigNumbers) (past : Past) (g : GrantLine) → IsLegal c (Entry.Grant g ∷ past) →
        standing_stage c (standing (Entry.Grant g ∷ past) g.ticket)
        ≡ opened_in (standing_stage c (standing past g.ticket)) g.range }
    ensures blocked { (c : ConfigNumbers) (past : Past) (b : BlockLine) → IsLegal c (Entry.Block b ∷ past) →
        standing_stage c (standing (Entry.Block b ∷ past) b.ticket)
        ≡ noted_in (standing_stage c (standing past b.ticket)) b.found }
    ensures posted { (c : ConfigNumbers) (past : Past) (p : PostLine) (owed : List Status) →
        standing_stage c (standing past p.ticket) ≡ TicketStage.Owing owed →
        standing_stage c (standing (Entry.Post p ∷ past) p.ticket) ≡ TicketStage.Owing (drop 1 owed) }
{}

/// What the stage of a ticket owes is what the ticket still owes.
pub fn a_stage_owes_what_its_ticket_owes()
    ensures owes { (c : ConfigNumbers) (past : Past) (t : ℕ) → IsLegal c past →
        owed_in (standing_stage c (standing past t)) ≡ still_owed c (standing past t) }
{}
