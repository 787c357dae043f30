//! What the effect of a takeover, or of a release, finds.

ghost use Rattle.std.specs.Prelude.{◌≡◌, ◌≢◌, Some, false, suc, true, ℕ};
ghost use Rattle.std.specs.List.{Contains};
ghost use Rattle.nvme_model.specs.Array.{has_block};
ghost use Rattle.nvme_model.specs.History.{Past};
ghost use Rattle.nvme_model.specs.Legal.{IsLegal};
ghost use Rattle.nvme_model.specs.Slots.{Name, Swap, holder};
ghost use Rattle.nvme_model.specs.declared.array.Range.{Range};
ghost use Rattle.nvme_model.specs.declared.config.ConfigNumbers.{ConfigNumbers};
ghost use Rattle.nvme_model.specs.Statuses.{is_success};
ghost use Rattle.nvme_model.specs.declared.entry.PostLine.{PostLine};
ghost use Rattle.host_laws.specs.Book.{IsAlwaysApart};
ghost use Rattle.host_laws.specs.Calls.{IsProperPair, PairDiffers, PairSwaps, cqe_status, reaped_post};
ghost use Rattle.host_laws.specs.Claims.{IsPublishedRelease};
ghost use Rattle.host_laws.specs.Effects.{HasEffect, TakesOver};
ghost use Rattle.host_laws.specs.Rules.{is_cut_off, takeover_disciplined};
ghost use Rattle.host_laws.specs.Takeovers.{Takeover, is_given_on, is_taken, takeovers};

/// A takeover that says yes finds the dead name as the slot's holder, and makes its own name the holder.
pub fn a_takeover_takes_the_slot_from_its_holder()
    ensures { (c : ConfigNumbers) (past : Past) (w : Takeover) → IsLegal c past → Contains (takeovers past) w →
        PairSwaps past w.queue w.number → TakesOver past w }
{}

/// A takeover of a slot that the dead name no longer holds differs, and writes nothing (`a_pair_is_answered` of
/// `host_laws`). Once a takeover of a name took effect, that name never holds the slot again.
pub fn a_late_takeover_differs()
    ensures differs { (c : ConfigNumbers) (past : Past) (w : Takeover) (e : HasEffect past w.queue w.number) →
        IsLegal c past → Contains (takeovers past) w → holder e.before w.lba ≢ Some w.dead →
        PairDiffers past w.queue w.number }
    ensures gone { (c : ConfigNumbers) (slots : Range) (past : Past) (l : ℕ) (n : Name) → IsLegal c past →
        takeover_disciplined c slots past ≡ true → has_block slots l ≡ true → is_taken past l n ≡ true →
        holder past l ≢ Some n }
    ensures late { (c : ConfigNumbers) (slots : Range) (past : Past) (w : Takeover)
        (e : HasEffect past w.queue w.number) → IsLegal c past → takeover_disciplined c slots past ≡ true →
        has_block slots w.lba ≡ true → Contains (takeovers past) w → is_taken e.before w.lba w.dead ≡ true →
        PairDiffers past w.queue w.number }
{}

/// A release by a host of whom no takeover was published never finds another name than its own.
pub fn a_release_that_is_not_fenced_never_differs()
    ensures { (c : ConfigNumbers) (slots : Range) (past : Past) (q : ℕ) (r : Swap) → IsLegal c past →
        takeover_disciplined c slots past ≡ true → IsPublishedRelease slots past r →
        is_given_on c past q r.lba r.name ≡ true → is_cut_off c slots past q ≡ false →
        PairDiffers past r.queue r.number → ⊥ }
{}

/// A release by such a host is answered by success, for both its entries, where they name the one namespace, with zeros
/// where this profile wants them, and the CIDs of its submission queue were always apart.
pub fn a_release_that_is_not_fenced_succeeds()
    ensures first { (c : ConfigNumbers) (slots : Range) (past : Past) (q : ℕ) (r : Swap) (p : PostLine) →
        IsLegal c past → takeover_disciplined c slots past ≡ true → IsPublishedRelease slots past r →
        is_given_on c past q r.lba r.name ≡ true → is_cut_off c slots past q ≡ false →
        IsAlwaysApart c past r.queue → IsProperPair past r.queue r.number →
        reaped_post c past r.queue r.number ≡ Some p → is_success (cqe_status p.cqe) ≡ true }
    ensures second { (c : ConfigNumbers) (slots : Range) (past : Past) (q : ℕ) (r : Swap) (p : PostLine) →
        IsLegal c past → takeover_disciplined c slots past ≡ true → IsPublishedRelease slots past r →
        is_given_on c past q r.lba r.name ≡ true → is_cut_off c slots past q ≡ false →
        IsAlwaysApart c past r.queue → IsProperPair past r.queue r.number →
        reaped_post c past r.queue (suc r.number) ≡ Some p → is_success (cqe_status p.cqe) ≡ true }
{}
