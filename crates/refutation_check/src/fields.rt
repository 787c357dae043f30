//! Fields of completions.

ghost use Rattle.std.specs.Prelude.{◌≡◌, ◌%◌, ◌/◌};
ghost use Rattle.nvme_model.specs.EntryBytes.{cqe_fields};
ghost use Rattle.nvme_model.specs.Statuses.{is_success, same_status};
ghost use Rattle.host_laws.specs.Calls.{cqe_status, is_clean};

use byteorder::{ByteOrder, LittleEndian};
use nvme_model::status::Status;

fn word_of(cqe: &[u8; 16]) -> u16
    ensures phase { (cqe_fields cqe.now).phase ≡ result % 2 }
    ensures sc { (cqe_fields cqe.now).sc ≡ (result / 2) % 256 }
    ensures sct { (cqe_fields cqe.now).sct ≡ (result / 512) % 8 }
    ensures crd { (cqe_fields cqe.now).crd ≡ (result / 4096) % 4 }
    ensures more { (cqe_fields cqe.now).more ≡ (result / 16384) % 2 }
    ensures dnr { (cqe_fields cqe.now).dnr ≡ result / 32768 }
{
    LittleEndian::read_u16(&cqe[14..16])
}

fn first_words(cqe: &[u8; 16]) -> (u32, u32)
    ensures first { result.0 ≡ (cqe_fields cqe.now).dw0 }
    ensures second { result.1 ≡ (cqe_fields cqe.now).dw1 }
{
    (
        LittleEndian::read_u32(&cqe[0..4]),
        LittleEndian::read_u32(&cqe[4..8]),
    )
}

/// Whether no field is set that this profile leaves zero.
pub(crate) fn is_clean(cqe: &[u8; 16]) -> bool
    ensures value { result ≡ is_clean cqe.now }
{
    let (dw0, dw1) = first_words(cqe);
    let word = word_of(cqe);
    dw0 == 0 && dw1 == 0 && (word / 4096) % 4 == 0 && (word / 16384) % 2 == 0 && word / 32768 == 0
}

/// The phase tag.
pub(crate) fn phase_of(cqe: &[u8; 16]) -> u16
    ensures value { result ≡ (cqe_fields cqe.now).phase }
{
    word_of(cqe) % 2
}

/// The status that a completion has.
pub fn status_of(cqe: &[u8; 16]) -> Status
    ensures value { result ≡ cqe_status cqe.now }
{
    let word = word_of(cqe);
    Status::new(((word / 512) % 8) as u8, ((word / 2) % 256) as u8)
}

/// Whether it is success.
pub fn is_success(status: Status) -> bool
    ensures value { result ≡ is_success status }
{
    status.sct() == 0 && status.sc() == 0
}

/// Whether these are one status.
pub(crate) fn same_status(a: Status, b: Status) -> bool
    ensures value { result ≡ same_status a b }
{
    a.sct() == b.sct() && a.sc() == b.sc()
}

/// The SQ Head Pointer.
pub(crate) fn head_of(cqe: &[u8; 16]) -> u16
    ensures value { result ≡ (cqe_fields cqe.now).sqhd }
{
    LittleEndian::read_u16(&cqe[8..10])
}
