//! Raw entries with fields that are wrong.

ghost use Rattle.std.specs.Prelude.{IfOk};
ghost use Rattle.random_script.specs.Kinds.{IsRaw};

use crate::commands::{drawn_alone, drawn_extent};
use crate::data::drawn_data;
use crate::numbers::RandomNumbers;
use nvme_model::submission::Payload;
use script_lines::{EntryForm, WrittenEntry, submission_of};
use std::alloc::{AllocError as NoMemory, Global};
use step_core::Core;

// Where the fields of an entry begin, and what is reserved in it.
const FIELDS: [u8; 14] = [0, 1, 2, 4, 8, 16, 24, 39, 40, 44, 48, 50, 52, 60];

// Another byte in a field, or anywhere.
fn spoil(bytes: &mut [u8; 64], random: &mut RandomNumbers) {
    let field = FIELDS[random.below(14) as usize] as usize;
    let anywhere = random.below(64) as usize;
    let place = if random.one_in(4) {
        anywhere
    } else {
        field.min(63)
    };
    bytes[place] = if random.one_in(2) {
        random.below(4) as u8
    } else {
        random.below(256) as u8
    };
}

/// The bytes of a command with one field wrong or more, and in one case in eight with data of any length.
pub(crate) fn drawn_hostile(
    alloc: Global,
    core: &Core,
    random: &mut RandomNumbers,
) -> Result<WrittenEntry, NoMemory>
    ensures raw { IfOk result (λ x. IsRaw x.form) }
{
    let extent = drawn_extent(core, random, 4);
    let right = drawn_alone(alloc, core, random, extent)?;
    let mut submission = submission_of(alloc, &right)?;
    for _ in 0..1 + random.below(3) {
        spoil(&mut submission.entry, random);
    }
    let mut data = submission.payload.into_vec();
    if random.one_in(8) {
        data = drawn_data(alloc, random, 3)?;
        data.truncate(random.below(1200) as usize);
    }
    Ok(WrittenEntry {
        form: EntryForm::Raw(submission.entry),
        payload: Payload::new(data),
    })
}
