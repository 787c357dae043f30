//! The names of statuses.

ghost use Rattle.std.specs.Prelude.{◌≡◌, IfOk, string_bytes};
ghost use Rattle.nvme_model.specs.Statuses.{same_status};
ghost use Rattle.history_words.specs.Names.{generic_name, status_name, status_told};

use crate::texts::joined;
use itoa::Buffer;
use nvme_model::status::Status;
use std::alloc::{AllocError as NoMemory, Global};

// Whether two statuses are the same.
fn is_same(status: Status, other: Status) -> bool
    ensures value { result ≡ same_status status other }
{
    status.sct() == other.sct() && status.sc() == other.sc()
}

// The name of a status that isn't Compare Failure.
fn generic_name(s: Status) -> &'static str
    ensures value { result.now ≡ generic_name s }
{
    if is_same(s, Status::SUCCESS) {
        "Successful Completion"
    } else if is_same(s, Status::INVALID_OPCODE) {
        "Invalid Command Opcode"
    } else if is_same(s, Status::INVALID_FIELD) {
        "Invalid Field in Command"
    } else if is_same(s, Status::CID_CONFLICT) {
        "Command ID Conflict"
    } else if is_same(s, Status::DATA_TRANSFER_ERROR) {
        "Data Transfer Error"
    } else if is_same(s, Status::FAILED_FUSED) {
        "Command Aborted due to Failed Fused Command"
    } else if is_same(s, Status::MISSING_FUSED) {
        "Command Aborted due to Missing Fused Command"
    } else if is_same(s, Status::INVALID_NAMESPACE) {
        "Invalid Namespace or Format"
    } else if is_same(s, Status::UNIT_EXCEEDED) {
        "Atomic Write Unit Exceeded"
    } else if is_same(s, Status::OUT_OF_RANGE) {
        "LBA Out of Range"
    } else {
        "another status"
    }
}

/// The name that the standard gives a status, where this controller knows it.
pub fn status_name(status: Status) -> &'static str
    ensures value { result.now ≡ status_name status }
{
    if is_same(status, Status::COMPARE_FAILURE) {
        "Compare Failure"
    } else {
        generic_name(status)
    }
}

// A status by its name and its numbers.
pub(crate) fn status_text(alloc: Global, status: Status) -> Result<String, NoMemory>
    ensures value { IfOk result (λ text. string_bytes text ≡ status_told status) }
{
    let mut kind = Buffer::new();
    let code = hex::encode_upper(alloc, &[status.sc()][..])?;
    joined(
        alloc,
        &[
            status_name(status),
            " (",
            kind.format(status.sct()),
            "/",
            code.as_str(),
            ")",
        ],
    )
}
