//! What is wrong with a Post, by what is due.

ghost use Rattle.std.specs.Prelude.{◌≡◌};
ghost use Rattle.broken_rules.specs.Rows.{data_broken as the_data_broken, post_broken as the_post_broken};

use crate::broken::Broken;
use crate::unlike::{cqe_unlike, first_apart};
use nvme_model::entry::PostLine;

// What is wrong with the data of a Post.
fn data_broken(found: &[u8], due: &[u8]) -> Option<Broken>
    ensures value { result ≡ the_data_broken found.now due.now }
{
    if found == due {
        return None;
    }
    if found.len() != due.len() {
        return Some(Broken::Length {
            found: found.len() as u64,
            due: due.len() as u64,
        });
    }
    let place = first_apart(found, due);
    Some(Broken::Data {
        place: place as u64,
        found: found[place],
        due: due[place],
    })
}

/// What is wrong with a Post where this completion and this data are due.
pub fn post_broken(line: &PostLine, cqe: &[u8; 16], payload: &[u8]) -> Option<Broken>
    ensures value { result ≡ the_post_broken line.now cqe.now payload.now }
{
    if let Some(fault) = cqe_unlike(&line.cqe, cqe) {
        return Some(Broken::Completion(fault));
    }
    data_broken(line.payload.as_slice(), payload)
}
