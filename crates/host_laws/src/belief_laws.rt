//! Who holds a slot where slots are taken over.

ghost use Rattle.std.specs.Prelude.{◌≡◌, Some, false, suc, true, ℕ};
ghost use Rattle.std.specs.List.{Contains};
ghost use Rattle.nvme_model.specs.Config.{completion_queue};
ghost use Rattle.host_laws.specs.Claims.{is_released_on};
ghost use Rattle.nvme_model.specs.Array.{has_block};
ghost use Rattle.nvme_model.specs.History.{Past};
ghost use Rattle.nvme_model.specs.Legal.{IsLegal};
ghost use Rattle.nvme_model.specs.Slots.{Name, holder, reaped_success};
ghost use Rattle.nvme_model.specs.declared.array.Range.{Range};
ghost use Rattle.nvme_model.specs.declared.config.ConfigNumbers.{ConfigNumbers};
ghost use Rattle.host_laws.specs.Rules.{is_cut_off, takeover_disciplined};
ghost use Rattle.host_laws.specs.Takeovers.{Takeover, is_given_on, is_kept, still_believed, takeovers};

/// Under the discipline whoever is still believed of a slot is its holder, so no slot has two believed names.
pub fn who_is_still_believed_holds()
    ensures holds { (c : ConfigNumbers) (slots : Range) (past : Past) (l : ℕ) (n : Name) → IsLegal c past →
        takeover_disciplined c slots past ≡ true → has_block slots l ≡ true → still_believed c past l n ≡ true →
        holder past l ≡ Some n }
    ensures one { (c : ConfigNumbers) (slots : Range) (past : Past) (l : ℕ) (n m : Name) → IsLegal c past →
        takeover_disciplined c slots past ≡ true → has_block slots l ≡ true → still_believed c past l n ≡ true →
        still_believed c past l m ≡ true → n ≡ m }
{}

/// A slot that was taken over is believed by the host that took it over, by that host's own Reaps and Publishes, while
/// no release of its name stands on its own completion queue, whatever stands on others.
pub fn a_slot_that_was_taken_over_is_believed()
    ensures kept { (c : ConfigNumbers) (slots : Range) (past : Past) (w : Takeover) →
        takeover_disciplined c slots past ≡ true → has_block slots w.lba ≡ true → Contains (takeovers past) w →
        reaped_success c past w.queue (suc w.number) ≡ true →
        is_released_on c past (completion_queue c w.queue) w.lba w.name ≡ false →
        is_kept c past w.lba w.name ≡ true }
    ensures given { (c : ConfigNumbers) (past : Past) (w : Takeover) → Contains (takeovers past) w →
        is_given_on c past (completion_queue c w.queue) w.lba w.name ≡ true }
{}

/// A host of whom no takeover was published, since it isn't fenced, is right in what it believes of a slot by its own
/// Reaps and Publishes: its name is the slot's holder. So of a slot only one name is believed by such hosts.
pub fn who_is_not_fenced_holds()
    ensures believed { (c : ConfigNumbers) (slots : Range) (past : Past) (q l : ℕ) (n : Name) →
        has_block slots l ≡ true → is_kept c past l n ≡ true → is_given_on c past q l n ≡ true →
        is_cut_off c slots past q ≡ false → still_believed c past l n ≡ true }
    ensures holds { (c : ConfigNumbers) (slots : Range) (past : Past) (q l : ℕ) (n : Name) → IsLegal c past →
        takeover_disciplined c slots past ≡ true → has_block slots l ≡ true → is_kept c past l n ≡ true →
        is_given_on c past q l n ≡ true → is_cut_off c slots past q ≡ false → holder past l ≡ Some n }
    ensures one { (c : ConfigNumbers) (slots : Range) (past : Past) (q r l : ℕ) (n m : Name) → IsLegal c past →
        takeover_disciplined c slots past ≡ true → has_block slots l ≡ true → is_kept c past l n ≡ true →
        is_given_on c past q l n ≡ true → is_cut_off c slots past q ≡ false → is_kept c past l m ≡ true →
        is_given_on c past r l m ≡ true → is_cut_off c slots past r ≡ false → n ≡ m }
{}
