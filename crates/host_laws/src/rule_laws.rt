//! Which Publish keeps the discipline of a slot area with takeovers, and what it is without any.

ghost use Rattle.std.specs.Prelude.{◌≡◌, ◌↔◌, ◌++◌, ◌∷◌, [], false, length, true, ℕ};
ghost use Rattle.std.specs.List.{list_any};
ghost use Rattle.nvme_model.specs.Array.{has_block};
ghost use Rattle.nvme_model.specs.Config.{completion_queue};
ghost use Rattle.nvme_model.specs.History.{Past};
ghost use Rattle.nvme_model.specs.Queues.{published_entries};
ghost use Rattle.nvme_model.specs.Slots.{Name, believed, disciplined, keeps_discipline, touches};
ghost use Rattle.nvme_model.specs.declared.submission.Submission.{Submission};
ghost use Rattle.host_laws.specs.Batches.{pair_line};
ghost use Rattle.host_laws.specs.Claims.{IsClaim, IsRelease, lba_of};
ghost use Rattle.nvme_model.specs.declared.array.Range.{Range};
ghost use Rattle.nvme_model.specs.declared.config.ConfigNumbers.{ConfigNumbers};
ghost use Rattle.nvme_model.specs.declared.entry.Entry.{Entry};
ghost use Rattle.nvme_model.specs.declared.entry.PublishLine.{PublishLine};
ghost use Rattle.host_laws.specs.Rules.{IsFenced, IsTakeover, is_cut_off, is_name_used, keeps_takeover_discipline};
ghost use Rattle.host_laws.specs.Rules.{takeover_disciplined, takeover_line, takes_right};
ghost use Rattle.host_laws.specs.Takeovers.{is_given_on, still_believed, takeovers, takeovers_in};

/// Where there is no takeover, belief and the discipline are those of claims and releases alone.
pub fn without_takeovers_all_is_as_before()
    ensures believed { (c : ConfigNumbers) (past : Past) (l : ℕ) (n : Name) → takeovers past ≡ [] →
        still_believed c past l n ≡ believed c past l n }
    ensures keeps { (c : ConfigNumbers) (slots : Range) (past : Past) (p : PublishLine) → takeovers past ≡ [] →
        takeovers_in p.queue (length (published_entries past p.queue)) p.batch ≡ [] →
        keeps_takeover_discipline c slots past p ≡ keeps_discipline c slots past p }
    ensures disciplined { (c : ConfigNumbers) (slots : Range) (past : Past) → takeovers past ≡ [] →
        takeover_disciplined c slots past ≡ disciplined c slots past }
{}

/// A host of whom a takeover was published is fenced from there on, under the discipline.
pub fn a_host_that_is_taken_over_is_fenced()
    ensures { (c : ConfigNumbers) (slots : Range) (later past : Past) (q : ℕ) →
        takeover_disciplined c slots (later ++ past) ≡ true → is_cut_off c slots past q ≡ true →
        IsFenced c q later }
{}

/// The discipline is kept Publish by Publish: by a host of whom no takeover was published, with a claim of a name that
/// was never used; with a release of a name that is still believed, on its giver's completion queue; with a takeover to
/// a name that was never used, of one that had the slot given on another completion queue; and with any batch of which
/// no Write and no Write Zeroes touches the slot area. Each beginning of a disciplined history is disciplined.
pub fn the_takeover_discipline_is_kept()
    ensures claim { (c : ConfigNumbers) (slots : Range) (past : Past) (q : ℕ) (a b : Submission) (n : Name) →
        IsClaim a b n → has_block slots (lba_of a) ≡ true → is_name_used slots past n ≡ false →
        is_cut_off c slots past (completion_queue c q) ≡ false →
        keeps_takeover_discipline c slots past (pair_line q a b) ≡ true }
    ensures release { (c : ConfigNumbers) (slots : Range) (past : Past) (q : ℕ) (a b : Submission) (n : Name) →
        IsRelease a b n → has_block slots (lba_of a) ≡ true → still_believed c past (lba_of a) n ≡ true →
        is_given_on c past (completion_queue c q) (lba_of a) n ≡ true →
        is_cut_off c slots past (completion_queue c q) ≡ false →
        keeps_takeover_discipline c slots past (pair_line q a b) ≡ true }
    ensures takeover { (c : ConfigNumbers) (slots : Range) (past : Past) (q : ℕ) (a b : Submission) (dead n : Name) →
        IsTakeover a b dead n → has_block slots (lba_of a) ≡ true → is_name_used slots past n ≡ false →
        takes_right c past (takeover_line past q a dead n) ≡ true →
        is_cut_off c slots past (completion_queue c q) ≡ false →
        keeps_takeover_discipline c slots past (pair_line q a b) ≡ true }
    ensures outside { (c : ConfigNumbers) (slots : Range) (past : Past) (p : PublishLine) →
        list_any (touches slots) p.batch ≡ false → is_cut_off c slots past (completion_queue c p.queue) ≡ false →
        keeps_takeover_discipline c slots past p ≡ true }
    ensures fold { (c : ConfigNumbers) (slots : Range) (past : Past) (p : PublishLine) →
        (takeover_disciplined c slots (Entry.Publish p ∷ past) ≡ true) ↔
        ((takeover_disciplined c slots past ≡ true) × (keeps_takeover_discipline c slots past p ≡ true)) }
    ensures earlier { (c : ConfigNumbers) (slots : Range) (later past : Past) →
        takeover_disciplined c slots (later ++ past) ≡ true → takeover_disciplined c slots past ≡ true }
{}
