//! The completion queue entry of a status.

ghost use Rattle.std.specs.Prelude.{◌≡◌};
ghost use Rattle.nvme_model.specs.EntryBytes.{cqe_bytes};
ghost use Rattle.nvme_model.specs.Bits.{bit};
ghost use Rattle.entry_codec.specs.Cqe.{completion_bytes};

use entry_codec::Cqe;
use nvme_model::status::Status;

/// The completion of command `cid` of submission queue `sqid`, whose next entry to fetch lies in slot `sqhd`
/// (Base 2.0, Completion Queue Entry).
pub fn cqe_of(status: Status, cid: u16, sqid: u16, sqhd: u16, phase: bool) -> Cqe
    ensures fields { result ≡ record { sqhd = sqhd; sqid = sqid; cid = cid; phase = phase; status = status } }
    ensures bytes { completion_bytes result ≡ cqe_bytes sqhd sqid cid (bit phase) status }
{
    Cqe {
        sqhd,
        sqid,
        cid,
        phase,
        status,
    }
}
