//! What the log of a port that alone uses its completion queue tells of the history, and what an answer by it says.

ghost use Rattle.std.specs.Prelude.{◌≡◌, ◌++◌, length, true, ℕ};
ghost use Rattle.nvme_model.specs.Config.{completion_queue};
ghost use Rattle.nvme_model.specs.Legal.{IsLegal};
ghost use Rattle.nvme_model.specs.Passes.{SharedPast, entries, places};
ghost use Rattle.nvme_model.specs.declared.config.ConfigNumbers.{ConfigNumbers};
ghost use Rattle.nvme_model.specs.declared.operation.Op.{Op};
ghost use Rattle.host_laws.specs.Beside.{IsBeside, IsSole};
ghost use Rattle.driver_calls.specs.Events.{IsToldByLog, event_at, events};
ghost use Rattle.driver_calls.specs.Log.{is_tidy, sent};
ghost use Rattle.driver_calls.specs.Says.{CallSays, IsCallIn, call_outcome};
ghost use Rattle.nvme_model.specs.declared.entry.Entry.{Entry};
ghost use Rattle.std.specs.Prelude.{[], ◌∷◌};

/// The events of a pass: those of an entry that it made come first, and what others add leaves them.
pub fn events_follow_the_entries()
    ensures others { (c : ConfigNumbers) (n p : ℕ) (later seen : SharedPast) →
        places p (later ++ seen) ≡ places p seen → events c n p (later ++ seen) ≡ events c n p seen }
    ensures own { (c : ConfigNumbers) (n p m : ℕ) (e : Entry) (later seen : SharedPast) →
        places p ((p, e) ∷ (later ++ seen)) ≡ m ∷ places p seen →
        events c n p ((p, e) ∷ (later ++ seen)) ≡ event_at c n (entries (later ++ seen)) e ++ events c n p seen }
    ensures none { (c : ConfigNumbers) (n p : ℕ) (seen : SharedPast) → IsBeside c n (entries seen) →
        events c n p seen ≡ [] }
{}

/// Where one pass alone uses a completion queue and its submission queues, and publishes one entry or a pair under free
/// CIDs, its events tell what is published there and what was reaped.
pub fn a_log_tells_the_history()
    ensures { (c : ConfigNumbers) (n p : ℕ) (shared : SharedPast) → IsLegal c (entries shared) → IsSole c n p shared →
        is_tidy (events c n p shared) ≡ true → IsToldByLog c (entries shared) n (events c n p shared) }
{}

/// Then what a call is answered by these events is true of the history.
pub fn an_answer_says_its_effects()
    ensures { (c : ConfigNumbers) (n p : ℕ) (later start : SharedPast) (q j first second : ℕ) (o : Op) →
        IsLegal c (entries (later ++ start)) → IsSole c n p (later ++ start) →
        is_tidy (events c n p (later ++ start)) ≡ true → completion_queue c q ≡ n →
        j ≡ length (sent (events c n p start) q) → IsCallIn (events c n p (later ++ start)) q o first second j →
        CallSays c (entries start) (entries (later ++ start)) q j o
        (call_outcome (events c n p (later ++ start)) q o first second) }
{}
