//! What holds of the bytes of entries, each as the contract of a function that does nothing.

ghost use Rattle.std.specs.Prelude.{◌≡◌, List, ℕ, length};
ghost use Rattle.nvme_model.specs.EntryBytes.{Sqe, cqe_fields, sqe_fields};
ghost use Rattle.entry_codec.specs.declared.cqe.Cqe.{Cqe};
ghost use Rattle.entry_codec.specs.Bytes.{IsBytes};
ghost use Rattle.entry_codec.specs.Cqe.{FitsCqe, completion_bytes, completion_fields};
ghost use Rattle.entry_codec.specs.Sqe.{FitsSqe, sqe_bytes};

/// The bytes of a submission queue entry have its fields, and any 64 bytes are those of their fields.
pub fn sqe_codec_is_inverse()
    ensures fields { (e : Sqe) → FitsSqe e → sqe_fields (sqe_bytes e) ≡ e }
    ensures bytes { (bytes : List ℕ) → length bytes ≡ 64 → IsBytes bytes → sqe_bytes (sqe_fields bytes) ≡ bytes }
{}

/// The bytes of a completion have its fields, and 16 bytes with the fields of a completion are its bytes.
pub fn cqe_codec_is_inverse()
    ensures fields { (c : Cqe) → FitsCqe c → cqe_fields (completion_bytes c) ≡ completion_fields c }
    ensures bytes { (c : Cqe) (bytes : List ℕ) →
        length bytes ≡ 16 → IsBytes bytes → cqe_fields bytes ≡ completion_fields c → bytes ≡ completion_bytes c }
{}
