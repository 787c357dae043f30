//! How a completion differs from the one that is due.

ghost use Rattle.std.specs.Prelude.{◌≡◌, ◌<◌, ◌≤◌, ◌+◌, length, option_copied, option_map};
ghost use Rattle.broken_rules.specs.Unlike.{bytes_apart, first_apart, two_at};
ghost use Rattle.broken_rules.specs.Unlike.{cqe_unlike as the_unlike};
ghost use Rattle.broken_rules.specs.Rows.{reap_broken as the_reap_broken};

use crate::broken::Broken;
use nvme_model::entry::ReapLine;
use nvme_model::refusal::Why;
use thiserror::Error;

/// How the 16 bytes of a completion differ from those that are due: the first of these that does, with what stands
/// there and what is due.
#[derive(Clone, Copy, Debug, Drop, Error, PartialEq, Eq)]
pub enum Unlike {
    /// The number of the submission queue.
    #[error("SQID {found}, due is {due}")]
    Sqid { found: u16, due: u16 },
    /// The CID of the command.
    #[error("CID {found}, due is {due}")]
    Cid { found: u16, due: u16 },
    /// The status: its Status Code, and 256 times its Status Code Type.
    #[error("status {}/{:02X}, due is {}/{:02X}", *.found / 256, *.found % 256, *.due / 256, *.due % 256)]
    Status { found: u16, due: u16 },
    /// The submission queue's head.
    #[error("SQHD {found}, due is {due}")]
    Sqhd { found: u16, due: u16 },
    /// The phase tag.
    #[error("phase tag {found}, due is {due}")]
    Phase { found: u8, due: u8 },
    /// A byte, by its place from 0.
    #[error("byte {place} {found:02X}, due is {due:02X}")]
    Byte { place: u8, found: u8, due: u8 },
}

// The number that the two bytes from this place on spell.
fn two_at(bytes: &[u8; 16], place: usize) -> u16
    requires within { place + 1 < 16 }
    ensures value { result ≡ two_at place bytes.now }
{
    u16::from(bytes[place]) + 256 * u16::from(bytes[place + 1])
}

// How many bytes both begin with.
pub(crate) fn first_apart(found: &[u8], due: &[u8]) -> usize
    ensures value { result ≡ first_apart found.now due.now }
    ensures most { (result ≤ length found.now) × (result ≤ length due.now) }
{
    let mut count = 0;
    while count < found.len() && count < due.len() {
        if found[count] != due[count] {
            return count;
        }
        count += 1;
    }
    count
}

// The first byte that differs.
fn byte_apart(found: &[u8; 16], due: &[u8; 16]) -> Option<Unlike>
    ensures value { result ≡ bytes_apart found.now due.now }
{
    if found.as_slice() == due.as_slice() {
        return None;
    }
    let place = first_apart(found.as_slice(), due.as_slice());
    Some(Unlike::Byte {
        place: place as u8,
        found: found[place],
        due: due[place],
    })
}

/// How a completion differs from the one that is due; None where it doesn't.
pub fn cqe_unlike(found: &[u8; 16], due: &[u8; 16]) -> Option<Unlike>
    ensures value { result ≡ the_unlike found.now due.now }
{
    let (one, other) = (two_at(found, 10), two_at(due, 10));
    if one != other {
        return Some(Unlike::Sqid {
            found: one,
            due: other,
        });
    }
    let (one, other) = (two_at(found, 12), two_at(due, 12));
    if one != other {
        return Some(Unlike::Cid {
            found: one,
            due: other,
        });
    }
    let (one, other) = (two_at(found, 14), two_at(due, 14));
    if one / 2 % 2048 != other / 2 % 2048 {
        return Some(Unlike::Status {
            found: one / 2 % 2048,
            due: other / 2 % 2048,
        });
    }
    let (head, wanted) = (two_at(found, 8), two_at(due, 8));
    if head != wanted {
        return Some(Unlike::Sqhd {
            found: head,
            due: wanted,
        });
    }
    if one % 2 != other % 2 {
        return Some(Unlike::Phase {
            found: (one % 2) as u8,
            due: (other % 2) as u8,
        });
    }
    byte_apart(found, due)
}

/// What is wrong with a Reap of the queue whose oldest completion is this.
pub fn reap_broken(line: &ReapLine, oldest: Option<&[u8; 16]>) -> Option<Broken>
    ensures value { result ≡ the_reap_broken line.now (option_copied oldest.entry) }
{
    match oldest {
        None => Some(Broken::Refused(Why::NoCompletion)),
        Some(due) => Some(Broken::Reaped(cqe_unlike(&line.cqe, due)?)),
    }
}
