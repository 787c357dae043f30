//! Blocks with what they hold.

ghost use Rattle.std.specs.Prelude.{◌≡◌, ◌++◌, ◌∷◌, [], OnOk};

use refutation::HeldBlock;
use std::alloc::{AllocError as NoMemory, Global};

/// Adds a block that holds these bytes.
///
/// # Errors
///
/// `NoMemory` alone.
pub(crate) fn add_held(
    alloc: Global,
    blocks: &mut Vec<HeldBlock>,
    number: u64,
    bytes: &[u8],
) -> Result<(), NoMemory>
    ensures ok { OnOk result (blocks.new.items ≡ blocks.old.items ++ (number, bytes.now) ∷ []) }
{
    let copy = bytes.to_vec(alloc)?;
    blocks.push(HeldBlock::new(number, copy))?;
    Ok(())
}
