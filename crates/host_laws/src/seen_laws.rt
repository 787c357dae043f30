//! What a caller has learnt stays true of all that it sees later, and what a driver has to keep of its queues.

ghost use Rattle.std.specs.Prelude.{◌≡◌, ◌≢◌, ◌+◌, ◌≤◌, ◌∷◌, ◌++◌, ℕ, List, [], false, true, Some, None, length};
ghost use Rattle.std.specs.Prelude.{slice_get};
ghost use Rattle.std.specs.List.{Contains};
ghost use Rattle.nvme_model.specs.Completions.{reaped_count};
ghost use Rattle.nvme_model.specs.Config.{completion_queue};
ghost use Rattle.nvme_model.specs.History.{Past};
ghost use Rattle.nvme_model.specs.Passes.{SharedPast, entries, places};
ghost use Rattle.nvme_model.specs.Queues.{fetched_count, published_entries};
ghost use Rattle.nvme_model.specs.Tickets.{cids_in_use};
ghost use Rattle.nvme_model.specs.Verdict.{is_in};
ghost use Rattle.nvme_model.specs.Slots.{Swap, swaps};
ghost use Rattle.nvme_model.specs.Legal.{IsLegal};
ghost use Rattle.host_laws.specs.Batches.{pair_on, single_on};
ghost use Rattle.host_laws.specs.Beside.{IsBeside, IsSole};
ghost use Rattle.host_laws.specs.Book.{Book, IsAlwaysApart, HasDistinctCids, IsBook, cid_of, empty_book, with_one};
ghost use Rattle.host_laws.specs.Book.{with_pair};
ghost use Rattle.host_laws.specs.Book.{without_entry};
ghost use Rattle.host_laws.specs.Calls.{IsFused, IsProperPair, IsSingle, takes, reaped_post, PairSwaps, PairDiffers};
ghost use Rattle.host_laws.specs.Calls.{IsDone, CompareDiffers, FailsChecks, ReapAnswers};
ghost use Rattle.nvme_model.specs.declared.config.ConfigNumbers.{ConfigNumbers};
ghost use Rattle.nvme_model.specs.declared.operation.Op.{Op};
ghost use Rattle.nvme_model.specs.declared.submission.Submission.{Submission};
ghost use Rattle.nvme_model.specs.declared.entry.PublishLine.{PublishLine};
ghost use Rattle.nvme_model.specs.declared.entry.ReapLine.{ReapLine};
ghost use Rattle.nvme_model.specs.declared.entry.Entry.{Entry};

/// What a caller knows of its commands holds in every later history that begins with what it saw.
pub fn what_was_learnt_stays()
    ensures legal { (c : ConfigNumbers) (later past : Past) → IsLegal c (later ++ past) → IsLegal c past }
    ensures published { (later past : Past) (q j : ℕ) (s : Submission) →
        slice_get (published_entries past q) j ≡ Some s →
        slice_get (published_entries (later ++ past) q) j ≡ Some s }
    ensures single { (later past : Past) (q j : ℕ) (o : Op) → IsSingle past q j o → IsSingle (later ++ past) q j o }
    ensures fused { (later past : Past) (q j : ℕ) → IsFused past q j → IsFused (later ++ past) q j }
    ensures proper { (later past : Past) (q j : ℕ) → IsProperPair past q j → IsProperPair (later ++ past) q j }
    ensures takes { (c : ConfigNumbers) (later past : Past) (t q j : ℕ) → IsLegal c (later ++ past) →
        takes past t q j ≡ true → takes (later ++ past) t q j ≡ true }
    ensures pair_swaps { (c : ConfigNumbers) (later past : Past) (q j : ℕ) → IsLegal c (later ++ past) →
        PairSwaps past q j → PairSwaps (later ++ past) q j }
    ensures pair_differs { (c : ConfigNumbers) (later past : Past) (q j : ℕ) → IsLegal c (later ++ past) →
        PairDiffers past q j → PairDiffers (later ++ past) q j }
    ensures done { (c : ConfigNumbers) (later past : Past) (q j : ℕ) (o : Op) (bytes : List ℕ) →
        IsLegal c (later ++ past) → IsDone c past q j o bytes → IsDone c (later ++ past) q j o bytes }
    ensures compare_differs { (c : ConfigNumbers) (later past : Past) (q j : ℕ) → IsLegal c (later ++ past) →
        CompareDiffers c past q j → CompareDiffers c (later ++ past) q j }
    ensures failed { (c : ConfigNumbers) (later past : Past) (q j : ℕ) → IsLegal c (later ++ past) →
        FailsChecks past q j → FailsChecks (later ++ past) q j }
{}

/// Where one pass alone uses a completion queue and its submission queues, what others add leaves them as they were.
pub fn others_leave_a_queue_alone()
    ensures sole { (c : ConfigNumbers) (q p : ℕ) (later seen : SharedPast) → IsSole c q p (later ++ seen) →
        places p (later ++ seen) ≡ places p seen → IsBeside c q (entries later) }
    ensures own { (c : ConfigNumbers) (q p m : ℕ) (e : Entry) (later seen : SharedPast) →
        IsSole c q p ((p, e) ∷ (later ++ seen)) → places p ((p, e) ∷ (later ++ seen)) ≡ m ∷ places p seen →
        IsBeside c q (entries later) }
    ensures entries { (later seen : SharedPast) → entries (later ++ seen) ≡ entries later ++ entries seen }
    ensures published { (c : ConfigNumbers) (later past : Past) (n q : ℕ) → IsBeside c n later →
        completion_queue c q ≡ n → published_entries (later ++ past) q ≡ published_entries past q }
    ensures reaped { (c : ConfigNumbers) (later past : Past) (n : ℕ) → IsBeside c n later →
        reaped_count (later ++ past) n ≡ reaped_count past n }
    ensures reaped_post { (c : ConfigNumbers) (later past : Past) (n q j : ℕ) → IsBeside c n later →
        completion_queue c q ≡ n → reaped_post c (later ++ past) q j ≡ reaped_post c past q j }
    ensures swaps { (c : ConfigNumbers) (later past : Past) (n : ℕ) (s : Swap) → IsBeside c n later →
        completion_queue c s.queue ≡ n → Contains (swaps (later ++ past)) s → Contains (swaps past) s }
{}

/// A Publish gives its entries the next numbers of its submission queue. No entry is answered before it is published.
pub fn a_publish_takes_the_next_numbers()
    ensures numbers { (past : Past) (p : PublishLine) (i : ℕ) (s : Submission) → slice_get p.batch i ≡ Some s →
        slice_get (published_entries (Entry.Publish p ∷ past) p.queue)
        (length (published_entries past p.queue) + i) ≡ Some s }
    ensures others { (past : Past) (p : PublishLine) (q : ℕ) → q ≢ p.queue →
        published_entries (Entry.Publish p ∷ past) q ≡ published_entries past q }
    ensures unreaped { (c : ConfigNumbers) (past : Past) (q j : ℕ) → IsLegal c past →
        length (published_entries past q) ≤ j →
        reaped_post c past q j ≡ None }
{}

/// A driver's book of the entries that it waits for stays right: it begins empty, others leave it, a Publish adds its
/// entries under free CIDs, and a Reap finds its entry there and takes it out.
pub fn a_book_is_kept()
    ensures empty { (c : ConfigNumbers) (past : Past) (n : ℕ) →
        ((q : ℕ) → completion_queue c q ≡ n → published_entries past q ≡ []) → IsBook c past n empty_book }
    ensures beside { (c : ConfigNumbers) (later past : Past) (n : ℕ) (book : Book) → IsBeside c n later →
        IsBook c past n book → IsBook c (later ++ past) n book }
    ensures one { (c : ConfigNumbers) (past : Past) (n : ℕ) (book : Book) (q : ℕ) (s : Submission) → IsLegal c past →
        IsBook c past n book → book q (cid_of s) ≡ None → IsBook c (single_on q s ∷ past) n (with_one book past q s) }
    ensures pair { (c : ConfigNumbers) (past : Past) (n : ℕ) (book : Book) (q : ℕ) (s t : Submission) → IsLegal c past →
        IsBook c past n book → book q (cid_of s) ≡ None → book q (cid_of t) ≡ None → cid_of t ≢ cid_of s →
        IsBook c (pair_on q s t ∷ past) n (with_pair book past q s t) }
    ensures found { (c : ConfigNumbers) (past : Past) (r : ReapLine) (book : Book) (x : ReapAnswers c past r) →
        IsBook c past r.queue book → book x.queue (cid_of x.entry) ≡ Some x.number }
    ensures reaped { (c : ConfigNumbers) (past : Past) (r : ReapLine) (book : Book) (x : ReapAnswers c past r) →
        IsLegal c (Entry.Reap r ∷ past) → IsBook c past r.queue book →
        IsBook c (Entry.Reap r ∷ past) r.queue (without_entry book x.queue (cid_of x.entry)) }
{}

/// A driver that publishes under free CIDs never waits for two entries with one CID, whatever others add. Then no entry
/// that isn't fetched yet has a CID in use.
pub fn cids_stay_apart()
    ensures empty { (c : ConfigNumbers) (past : Past) (q : ℕ) → published_entries past q ≡ [] → IsAlwaysApart c past q }
    ensures book { (c : ConfigNumbers) (past : Past) (n : ℕ) (book : Book) (q : ℕ) → IsBook c past n book →
        completion_queue c q ≡ n → HasDistinctCids c past q }
    ensures more { (c : ConfigNumbers) (e : Entry) (past : Past) (q : ℕ) → IsAlwaysApart c past q →
        HasDistinctCids c (e ∷ past) q → IsAlwaysApart c (e ∷ past) q }
    ensures beside { (c : ConfigNumbers) (later past : Past) (n q : ℕ) → IsBeside c n later → completion_queue c q ≡ n →
        IsAlwaysApart c past q → IsAlwaysApart c (later ++ past) q }
    ensures free { (c : ConfigNumbers) (past : Past) (q j : ℕ) (s : Submission) → IsLegal c past
        → HasDistinctCids c past q →
        fetched_count past q ≤ j → slice_get (published_entries past q) j ≡ Some s →
        is_in (cid_of s) (cids_in_use past q) ≡ false }
{}
