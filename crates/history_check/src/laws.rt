//! What the code asks for is what the rules over the tables ask for.

ghost use Rattle.std.specs.Prelude.{◌≡◌, ◌%◌, Option, length};
ghost use Rattle.nvme_model.specs.Completions.{phase};
ghost use Rattle.nvme_model.specs.Config.{completion_queue};
ghost use Rattle.nvme_model.specs.declared.config.ConfigNumbers.{ConfigNumbers};
ghost use Rattle.nvme_model.specs.declared.entry.PostLine.{PostLine};
ghost use Rattle.nvme_model.specs.declared.status.Status.{Status};
ghost use Rattle.history_check.specs.Judged.{post_fits_by};
ghost use Rattle.history_check.specs.Tables.{Tables};
ghost use Rattle.history_check.specs.Contents.{post_fits_at};

/// A Post asks for the head and the phase of its queues' rings, and for its own ticket.
pub fn a_post_asks_for_its_rings()
    ensures { (c : ConfigNumbers) (s : Tables) (p : PostLine) (o : Option Status) →
        post_fits_by c s p o ≡ post_fits_at (s.fetched (s.flight p.ticket).ticket.queue % c.sq_size)
        (phase (s.posts (completion_queue c (s.flight p.ticket).ticket.queue)) c.cq_size) (s.flight p.ticket) p o }
{}
