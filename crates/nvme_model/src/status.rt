//! The statuses of completions, and what a Fetch says of the entries that it took.

ghost use Rattle.std.specs.Prelude.{◌≡◌, ◌<◌};

use std::marker::Model;

/// A status: its Status Code Type, below 8, and its Status Code (NVM Express Base 2.0, Status Field).
#[derive(Clone, Copy, Debug, PartialEq, Eq)]
pub struct Status {
    sct: u8,
    sc: u8,
}

impl Model for Status {
    ghost use Rattle.std.specs.Prelude.{◌<◌};
    ghost use Rattle.nvme_model.specs.Codes.{StatusCode};

    ghost Value = { StatusCode };

    ghost view = { λ s. record { sct = s.sct; sc = s.sc } };

    ghost invariant = { λ s. s.sct < 8 };

    ghost inverse = { λ v. record { sct = v.sct; sc = v.sc } };
}

impl Status {
    ghost use Rattle.nvme_model.specs.Statuses.{status};

    /// Successful Completion (this and the others without a source: Base 2.0, Generic Command Status).
    pub const SUCCESS: Status = Status { sct: 0, sc: 0x00 };

    /// Invalid Command Opcode.
    pub const INVALID_OPCODE: Status = Status { sct: 0, sc: 0x01 };

    /// Invalid Field in Command.
    pub const INVALID_FIELD: Status = Status { sct: 0, sc: 0x02 };

    /// Command ID Conflict.
    pub const CID_CONFLICT: Status = Status { sct: 0, sc: 0x03 };

    /// Data Transfer Error.
    pub const DATA_TRANSFER_ERROR: Status = Status { sct: 0, sc: 0x04 };

    /// Command Aborted due to Failed Fused Command.
    pub const FAILED_FUSED: Status = Status { sct: 0, sc: 0x09 };

    /// Command Aborted due to Missing Fused Command.
    pub const MISSING_FUSED: Status = Status { sct: 0, sc: 0x0a };

    /// Invalid Namespace or Format.
    pub const INVALID_NAMESPACE: Status = Status { sct: 0, sc: 0x0b };

    /// Atomic Write Unit Exceeded.
    pub const UNIT_EXCEEDED: Status = Status { sct: 0, sc: 0x14 };

    /// LBA Out of Range (NVM 1.0, Generic Command Status Values).
    pub const OUT_OF_RANGE: Status = Status { sct: 0, sc: 0x80 };

    /// Compare Failure (NVM 1.0, Compare command).
    pub const COMPARE_FAILURE: Status = Status { sct: 2, sc: 0x85 };

    /// The status of this type and code.
    pub fn new(sct: u8, sc: u8) -> Status
        requires { sct < 8 }
        ensures { result ≡ status sct sc }
    {
        Status { sct, sc }
    }

    /// The Status Code Type.
    pub fn sct(&self) -> u8
        ensures value { result ≡ self.now.sct }
        ensures width { result < 8 }
    {
        self.sct
    }

    /// The Status Code.
    pub fn sc(&self) -> u8
        ensures { result ≡ self.now.sc }
    {
        self.sc
    }
}

/// How many entries a Fetch took, and their statuses where the checks failed.
#[derive(Clone, Copy, Debug, PartialEq, Eq)]
pub enum Verdict {
    /// One command, which passed.
    Single,
    /// One command, which failed so.
    SingleFailed(Status),
    /// A fused pair, which passed.
    Pair,
    /// A fused pair, whose first and second failed so.
    PairFailed(Status, Status),
}

impl Verdict {
    ghost use Rattle.nvme_model.specs.Verdict.{taken_entries};

    /// How many entries the Fetch took, 1 or 2.
    pub fn taken(&self) -> u8
        ensures { result ≡ taken_entries self.now }
    {
        match self {
            Verdict::Single | Verdict::SingleFailed(_) => 1,
            Verdict::Pair | Verdict::PairFailed(_, _) => 2,
        }
    }
}
