//! Who holds a slot, and which Publish keeps the discipline of the slot area.

ghost use Rattle.std.specs.Prelude.{Bool, ◌↔◌, ◌≡◌, suc, ◌≤◌, ◌<◌, ◌∷◌, ◌++◌, ◌^◌, ℕ, List, true, false, None, Some};
ghost use Rattle.std.specs.Prelude.{length, ◌==◌, ◌&&◌};
ghost use Rattle.std.specs.List.{Contains, list_any};
ghost use Rattle.nvme_model.specs.Array.{has_block, zeros};
ghost use Rattle.nvme_model.specs.Config.{completion_queue};
ghost use Rattle.nvme_model.specs.History.{Past};
ghost use Rattle.nvme_model.specs.Passes.{SharedPast, entries, places};
ghost use Rattle.nvme_model.specs.Slots.{Name, Swap, believed, disciplined, holder, keeps_discipline, name_of};
ghost use Rattle.nvme_model.specs.Slots.{on_its_queue, same_name, slot_block, swaps, touches};
ghost use Rattle.nvme_model.specs.Legal.{IsLegal};
ghost use Rattle.nvme_model.specs.Statuses.{is_success};
ghost use Rattle.nvme_model.specs.declared.entry.PostLine.{PostLine};
ghost use Rattle.host_laws.specs.Book.{IsAlwaysApart};
ghost use Rattle.host_laws.specs.Beside.{IsBeside};
ghost use Rattle.host_laws.specs.Calls.{IsProperPair, PairDiffers, reaped_post, cqe_status};
ghost use Rattle.host_laws.specs.Claims.{IsClaim, IsPublishedClaim, IsPublishedRelease, IsRelease, IsWon, all_drawn};
ghost use Rattle.host_laws.specs.Claims.{claim_of, claims_only_on, is_claimed, is_released_on, lba_of, release_of};
ghost use Rattle.host_laws.specs.Batches.{pair_line, pair_on};
ghost use Rattle.host_laws.specs.Discipline.{others_keep, pass_keeps, passes_keep};
ghost use Rattle.nvme_model.specs.declared.array.Range.{Range};
ghost use Rattle.nvme_model.specs.declared.config.ConfigNumbers.{ConfigNumbers};
ghost use Rattle.nvme_model.specs.declared.submission.Submission.{Submission};
ghost use Rattle.nvme_model.specs.declared.entry.PublishLine.{PublishLine};
ghost use Rattle.nvme_model.specs.declared.entry.Entry.{Entry};

/// The block of a name is read back as that name, and zeros are nobody's.
pub fn names_are_spelled()
    ensures name { (n : Name) → 1 ≤ n.host → n.host < 2 ^ 32 → 1 ≤ n.serial → n.serial < 2 ^ 64 →
        name_of (slot_block n) ≡ Some n }
    ensures zeros { name_of zeros ≡ None }
    ensures length { (bytes : List ℕ) (n : Name) → name_of bytes ≡ Some n → length bytes ≡ 512 }
{}

/// Under the discipline whoever is believed of a slot is its holder, so no slot has two believed names.
pub fn believers_hold()
    ensures holds { (c : ConfigNumbers) (slots : Range) (past : Past) (l : ℕ) (n : Name) → IsLegal c past →
        disciplined c slots past ≡ true → has_block slots l ≡ true → believed c past l n ≡ true →
        holder past l ≡ Some n }
    ensures one { (c : ConfigNumbers) (slots : Range) (past : Past) (l : ℕ) (n m : Name) → IsLegal c past →
        disciplined c slots past ≡ true → has_block slots l ≡ true → believed c past l n ≡ true →
        believed c past l m ≡ true → n ≡ m }
{}

/// A name is claimed once and released once in the slot area. Its release is of its claim's slot and stands on its
/// claim's completion queue.
pub fn a_name_is_used_once()
    ensures claim { (c : ConfigNumbers) (slots : Range) (past : Past) (k s : Swap) → disciplined c slots past ≡ true →
        IsPublishedClaim slots past k → IsPublishedClaim slots past s → k.name ≡ s.name → k ≡ s }
    ensures release { (c : ConfigNumbers) (slots : Range) (past : Past) (r w : Swap) → disciplined c slots past ≡ true →
        IsPublishedRelease slots past r → IsPublishedRelease slots past w → r.lba ≡ w.lba → r.name ≡ w.name → r ≡ w }
    ensures slot { (c : ConfigNumbers) (slots : Range) (past : Past) (k r : Swap) → disciplined c slots past ≡ true →
        IsPublishedClaim slots past k → IsPublishedRelease slots past r → r.name ≡ k.name → r.lba ≡ k.lba }
    ensures queue { (c : ConfigNumbers) (slots : Range) (past : Past) (k r : Swap) → disciplined c slots past ≡ true →
        IsPublishedClaim slots past k → IsPublishedRelease slots past r → r.name ≡ k.name →
        completion_queue c r.queue ≡ completion_queue c k.queue }
{}

/// A claim whose success was reaped is believed as long as no release of its name stands on its own completion queue,
/// whatever stands on others.
pub fn a_won_claim_is_believed()
    ensures believed { (c : ConfigNumbers) (slots : Range) (past : Past) (k : Swap) → disciplined c slots past ≡ true →
        has_block slots k.lba ≡ true → IsWon c past k →
        is_released_on c past (completion_queue c k.queue) k.lba k.name ≡ false → believed c past k.lba k.name ≡ true }
    ensures later { (c : ConfigNumbers) (later past : Past) (k : Swap) → IsLegal c (later ++ past) → IsWon c past k →
        IsWon c (later ++ past) k }
    ensures unreleased { (c : ConfigNumbers) (later past : Past) (q l : ℕ) (n : Name) → IsBeside c q later →
        is_released_on c (later ++ past) q l n ≡ is_released_on c past q l n }
    ensures stays { (c : ConfigNumbers) (slots : Range) (later past : Past) (k : Swap) → IsLegal c (later ++ past) →
        disciplined c slots (later ++ past) ≡ true → has_block slots k.lba ≡ true → IsWon c past k →
        is_released_on c past (completion_queue c k.queue) k.lba k.name ≡ false →
        IsBeside c (completion_queue c k.queue) later → believed c (later ++ past) k.lba k.name ≡ true }
{}

/// Under the discipline a release never finds another name than its own.
pub fn a_release_never_differs()
    ensures { (c : ConfigNumbers) (slots : Range) (past : Past) (r : Swap) → IsLegal c past →
        disciplined c slots past ≡ true → IsPublishedRelease slots past r → PairDiffers past r.queue r.number → ⊥ }
{}

/// Under the discipline a release is answered by success, for both its entries, where they name the one namespace, with
/// zeros where this profile wants them, and the CIDs of its submission queue were always apart.
pub fn a_release_succeeds()
    ensures first { (c : ConfigNumbers) (slots : Range) (past : Past) (r : Swap) (p : PostLine) → IsLegal c past →
        disciplined c slots past ≡ true → IsPublishedRelease slots past r → IsAlwaysApart c past r.queue →
        IsProperPair past r.queue r.number → reaped_post c past r.queue r.number ≡ Some p →
        is_success (cqe_status p.cqe) ≡ true }
    ensures second { (c : ConfigNumbers) (slots : Range) (past : Past) (r : Swap) (p : PostLine) → IsLegal c past →
        disciplined c slots past ≡ true → IsPublishedRelease slots past r → IsAlwaysApart c past r.queue →
        IsProperPair past r.queue r.number → reaped_post c past r.queue (suc r.number) ≡ Some p →
        is_success (cqe_status p.cqe) ≡ true }
{}

/// What a Publish of a pair is: a claim, or a release.
pub fn a_pair_is_a_claim_or_a_release()
    ensures claim { (past : Past) (q : ℕ) (a b : Submission) (n : Name) → IsClaim a b n →
        Contains (swaps (pair_on q a b ∷ past)) (claim_of past q a n) }
    ensures release { (past : Past) (q : ℕ) (a b : Submission) (n : Name) → IsRelease a b n →
        Contains (swaps (pair_on q a b ∷ past)) (release_of past q a n) }
    ensures stays { (later past : Past) (s : Swap) → Contains (swaps past) s → Contains (swaps (later ++ past)) s }
{}

/// The discipline is kept Publish by Publish: by a claim of a name that was never claimed, by a release of a believed
/// name on its claim's completion queue, and by any batch of which no Write and no Write Zeroes touches the slot area.
pub fn the_discipline_is_kept()
    ensures fold { (c : ConfigNumbers) (slots : Range) (past : Past) (p : PublishLine) →
        (disciplined c slots (Entry.Publish p ∷ past) ≡ true) ↔
        ((disciplined c slots past ≡ true) × (keeps_discipline c slots past p ≡ true)) }
    ensures claim { (c : ConfigNumbers) (slots : Range) (past : Past) (q : ℕ) (a b : Submission) (n : Name) →
        IsClaim a b n → has_block slots (lba_of a) ≡ true → is_claimed slots past n ≡ false →
        keeps_discipline c slots past (pair_line q a b) ≡ true }
    ensures release { (c : ConfigNumbers) (slots : Range) (past : Past) (q : ℕ) (a b : Submission) (n : Name) →
        IsRelease a b n → has_block slots (lba_of a) ≡ true → believed c past (lba_of a) n ≡ true →
        on_its_queue c past (release_of past q a n) ≡ true → keeps_discipline c slots past (pair_line q a b) ≡ true }
    ensures won { (c : ConfigNumbers) (slots : Range) (past : Past) (q : ℕ) (a b : Submission) (k : Swap) →
        disciplined c slots past ≡ true → has_block slots k.lba ≡ true → IsWon c past k →
        is_released_on c past (completion_queue c k.queue) k.lba k.name ≡ false →
        completion_queue c q ≡ completion_queue c k.queue → IsRelease a b k.name → lba_of a ≡ k.lba →
        keeps_discipline c slots past (pair_line q a b) ≡ true }
    ensures outside { (c : ConfigNumbers) (slots : Range) (past : Past) (p : PublishLine) →
        list_any (touches slots) p.batch ≡ false → keeps_discipline c slots past p ≡ true }
    ensures earlier { (c : ConfigNumbers) (slots : Range) (later past : Past) →
        disciplined c slots (later ++ past) ≡ true → disciplined c slots past ≡ true }
{}

/// Where each Publish of the other passes keeps the discipline, and each of a pass's own does, the whole history is
/// disciplined. So what others add behind what a pass saw leaves it disciplined.
pub fn each_pass_keeps_the_discipline()
    ensures whole { (c : ConfigNumbers) (slots : Range) (p : ℕ) (shared : SharedPast) →
        others_keep c slots p shared ≡ true → pass_keeps c slots p shared ≡ true →
        disciplined c slots (entries shared) ≡ true }
    ensures parts { (c : ConfigNumbers) (slots : Range) (picks : ℕ → Bool) (shared : SharedPast) →
        disciplined c slots (entries shared) ≡ true → passes_keep c slots picks shared ≡ true }
    ensures earlier { (c : ConfigNumbers) (slots : Range) (picks : ℕ → Bool) (later seen : SharedPast) →
        passes_keep c slots picks (later ++ seen) ≡ true → passes_keep c slots picks seen ≡ true }
    ensures later { (c : ConfigNumbers) (slots : Range) (p : ℕ) (later seen : SharedPast) →
        others_keep c slots p (later ++ seen) ≡ true → places p (later ++ seen) ≡ places p seen →
        disciplined c slots (entries seen) ≡ true → disciplined c slots (entries (later ++ seen)) ≡ true }
    ensures own { (c : ConfigNumbers) (slots : Range) (p m : ℕ) (e : Entry) (later seen : SharedPast) →
        others_keep c slots p ((p, e) ∷ (later ++ seen)) ≡ true →
        places p ((p, e) ∷ (later ++ seen)) ≡ m ∷ places p seen → disciplined c slots (entries seen) ≡ true →
        disciplined c slots (entries (later ++ seen)) ≡ true }
{}

/// A driver's own Publish releases no name but that of its release.
pub fn a_publish_releases_its_own_name()
    ensures claim { (c : ConfigNumbers) (past : Past) (q : ℕ) (a b : Submission) (m : Name) (r l : ℕ) (n : Name) →
        IsClaim a b m → is_released_on c (pair_on q a b ∷ past) r l n ≡ is_released_on c past r l n }
    ensures release { (c : ConfigNumbers) (past : Past) (q : ℕ) (a b : Submission) (m : Name) (r l : ℕ) (n : Name) →
        IsRelease a b m → ((lba_of a == l) && same_name m n) ≡ false →
        is_released_on c (pair_on q a b ∷ past) r l n ≡ is_released_on c past r l n }
    ensures outside { (c : ConfigNumbers) (slots : Range) (past : Past) (p : PublishLine) (q l : ℕ) (n : Name) →
        has_block slots l ≡ true → list_any (touches slots) p.batch ≡ false →
        is_released_on c (Entry.Publish p ∷ past) q l n ≡ is_released_on c past q l n }
{}

/// A host that numbers its claims upwards never claims a name twice, whatever hosts with other numbers do.
pub fn serials_rise()
    ensures fresh { (slots : Range) (past : Past) (last : ℕ) (n : Name) → all_drawn slots past n.host last ≡ true →
        last < n.serial → is_claimed slots past n ≡ false }
    ensures unreleased { (c : ConfigNumbers) (slots : Range) (past : Past) (q l : ℕ) (n : Name) →
        disciplined c slots past ≡ true → has_block slots l ≡ true → is_claimed slots past n ≡ false →
        is_released_on c past q l n ≡ false }
    ensures beside { (c : ConfigNumbers) (slots : Range) (later past : Past) (host last q : ℕ) → IsBeside c q later →
        claims_only_on c slots (later ++ past) host q ≡ true → all_drawn slots past host last ≡ true →
        all_drawn slots (later ++ past) host last ≡ true }
    ensures claim { (slots : Range) (past : Past) (q : ℕ) (a b : Submission) (n : Name) (last : ℕ) → IsClaim a b n →
        all_drawn slots past n.host last ≡ true → last ≤ n.serial →
        all_drawn slots (pair_on q a b ∷ past) n.host n.serial ≡ true }
    ensures release { (slots : Range) (past : Past) (q : ℕ) (a b : Submission) (n : Name) (host last : ℕ) →
        IsRelease a b n → all_drawn slots past host last ≡ true →
        all_drawn slots (pair_on q a b ∷ past) host last ≡ true }
    ensures outside { (slots : Range) (past : Past) (p : PublishLine) (host last : ℕ) →
        list_any (touches slots) p.batch ≡ false → all_drawn slots past host last ≡ true →
        all_drawn slots (Entry.Publish p ∷ past) host last ≡ true }
{}
