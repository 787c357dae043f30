//! What holds of the entries of calls, each as the contract of a function that does nothing.

ghost use Rattle.std.specs.Prelude.{List, Some, [], length, map, take, true, ℕ, ◌&&◌, ◌++◌, ◌<◌, ◌==◌, ◌||◌, ◌∷◌, ◌≡◌};
ghost use Rattle.std.specs.Prelude.{◌≤◌};
ghost use Rattle.std.specs.List.{list_all, list_any};
ghost use Rattle.nvme_model.specs.Array.{overlap};
ghost use Rattle.nvme_model.specs.Operations.{command_count, has_write};
ghost use Rattle.nvme_model.specs.Slots.{is_pair_on_one, touches};
ghost use Rattle.nvme_model.specs.declared.array.Range.{Range};
ghost use Rattle.nvme_model.specs.declared.operation.Op.{Op};
ghost use Rattle.nvme_model.specs.declared.submission.Submission.{Submission};
ghost use Rattle.host_laws.specs.Book.{cid_of};
ghost use Rattle.host_laws.specs.Calls.{is_proper};
ghost use Rattle.driver_calls.specs.Says.{IsFusedIn, IsSingleIn};
ghost use Rattle.driver_calls.specs.Entries.{IsBatch, IsCommand, payloads_of};
ghost use Rattle.driver_calls.specs.declared.request.CallData.{CallData};

/// The entry of a command has its CID, names namespace 1 with zeros where this profile wants them, and touches slots
/// exactly where it is a Write or a Write Zeroes of one of their blocks.
pub fn an_entry_is_its_command()
    ensures cid { (s : Submission) (opcode fuse cid slba blocks : ℕ) (payload : List ℕ) →
        IsCommand s opcode fuse cid slba blocks payload → cid_of s ≡ cid }
    ensures proper { (s : Submission) (opcode fuse cid slba blocks : ℕ) (payload : List ℕ) →
        0 < opcode → fuse < 3 → blocks ≤ 65536 → IsCommand s opcode fuse cid slba blocks payload → is_proper s ≡ true }
    ensures touches { (slots : Range) (s : Submission) (opcode fuse cid slba blocks : ℕ) (payload : List ℕ) →
        1 ≤ blocks → blocks ≤ 65536 → IsCommand s opcode fuse cid slba blocks payload →
        touches slots s ≡
        (((opcode == 1) || (opcode == 8)) && overlap (record { slba = slba; blocks = blocks }) slots) }
{}

/// A call has one entry, or the two of a fused pair, with its data and its CIDs. Behind whatever other entries they
/// stand, they are a command by itself that does the operation, or a pair.
pub fn the_entries_of_a_call()
    ensures count { (o : Op) (slba blocks first second : ℕ) (contents : CallData) (batch : List Submission) →
        IsBatch o slba blocks first second contents batch → length batch ≡ command_count o }
    ensures payloads { (o : Op) (slba blocks first second : ℕ) (contents : CallData) (batch : List Submission) →
        IsBatch o slba blocks first second contents batch → map (λ s. s.payload) batch ≡ payloads_of contents }
    ensures cids { (o : Op) (slba blocks first second : ℕ) (contents : CallData) (batch : List Submission) →
        IsBatch o slba blocks first second contents batch →
        map cid_of batch ≡ take (command_count o) (first ∷ second ∷ []) }
    ensures single { (o : Op) (slba blocks first second : ℕ) (contents : CallData) (before batch : List Submission) →
        IsBatch o slba blocks first second contents batch → command_count o ≡ 1 →
        IsSingleIn (before ++ batch) (length before) o }
    ensures fused { (slba blocks first second : ℕ) (contents : CallData) (before batch : List Submission) →
        IsBatch Op.Pair slba blocks first second contents batch → IsFusedIn (before ++ batch) (length before) }
{}

/// All entries of a call are proper. One touches slots exactly where the call writes and has one of their blocks, and a
/// fused pair of one block is a pair on one block.
pub fn the_blocks_of_a_call()
    ensures proper { (o : Op) (slba blocks first second : ℕ) (contents : CallData) (batch : List Submission) →
        blocks ≤ 65536 → IsBatch o slba blocks first second contents batch → list_all is_proper batch ≡ true }
    ensures touches { (slots : Range) (o : Op) (slba blocks first second : ℕ) (contents : CallData)
        (batch : List Submission) → 1 ≤ blocks → blocks ≤ 65536 → IsBatch o slba blocks first second contents batch →
        list_any (touches slots) batch ≡
        (has_write (Some o) && overlap (record { slba = slba; blocks = blocks }) slots) }
    ensures on_one { (slba first second : ℕ) (contents : CallData) (s t : Submission) →
        IsBatch Op.Pair slba 1 first second contents (s ∷ t ∷ []) → is_pair_on_one s t ≡ true }
{}
