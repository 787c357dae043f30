//! What a call is answered by the statuses of its completions.

ghost use Rattle.std.specs.Prelude.{◌≡◌};
ghost use Rattle.nvme_model.specs.Statuses.{compare_failure as compare_failure_status, is_success as is_success_of};
ghost use Rattle.nvme_model.specs.Statuses.{same_status};
ghost use Rattle.driver_calls.specs.Answers.{command_answer, pair_answer_of};

use nvme_model::operation::Op;
use nvme_model::status::Status;
use nvme_model::submission::Payload;

/// What a call that was served is answered.
#[derive(Drop)]
pub enum Reply {
    /// What a Read read.
    Read(Payload),
    /// A Write, or a Write Zeroes, was made.
    Written,
    /// The data of a Compare was on the blocks.
    Equal,
    /// The data of a Compare, or of a Compare and Write, was not.
    Differs,
    /// The data of a Compare and Write was on the blocks, and they were written.
    Swapped,
}

fn is_success(status: Status) -> bool
    ensures value { result ≡ is_success_of status }
{
    status == Status::SUCCESS
}

fn is_compare_failure(status: Status) -> bool
    ensures value { result ≡ same_status status compare_failure_status }
{
    status == Status::COMPARE_FAILURE
}

/// What a command by itself is answered: its reply, where the status is success, or Compare Failure of a Compare.
///
/// # Errors
///
/// Any other status.
pub fn answer_to(op: Op, status: Status, payload: Payload) -> Result<Reply, Status>
    ensures value { result ≡ command_answer op status payload }
{
    if is_success(status) {
        return Ok(match op {
            Op::Read => Reply::Read(payload),
            Op::Compare => Reply::Equal,
            Op::Write | Op::WriteZeroes => Reply::Written,
            Op::Pair => Reply::Swapped,
        });
    }
    if is_compare_failure(status) && op == Op::Compare {
        return Ok(Reply::Differs);
    }
    Err(status)
}

/// What a fused pair is answered by the statuses of its first command and its second.
///
/// # Errors
///
/// The first of them that isn't success, unless it is Compare Failure of the first command.
pub fn pair_answer_to(first: Status, second: Status) -> Result<Reply, Status>
    ensures value { result ≡ pair_answer_of first second }
{
    if !is_success(first) {
        if is_compare_failure(first) {
            return Ok(Reply::Differs);
        }
        return Err(first);
    }
    if is_success(second) {
        Ok(Reply::Swapped)
    } else {
        Err(second)
    }
}
