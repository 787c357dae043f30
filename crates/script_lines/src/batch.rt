//! The entries of a `publish` line.

ghost use Rattle.std.specs.Prelude.{◌≡◌, IfOk, map};
ghost use Rattle.history.specs.Gives.{GivesRead};
ghost use Rattle.script_lines.specs.Batches.{script_batch_in, items_in, parts_in};

use crate::command::item_of;
use history::LineFault;
use nvme_model::submission::Submissions;
use std::alloc::{AllocError, Global};

// The words of each entry: what stands between the words `+`.
fn parts_of<'a, 'w>(alloc: Global, words: &'a [&'w [u8]]) -> Result<Vec<&'a [&'w [u8]]>, AllocError>
    ensures { IfOk result
        (λ parts. map (λ part. map (λ w. w.now) part.now) parts.items ≡ parts_in (map (λ w. w.now) words.now)) }
{
    words.split(|word| *word == b"+".as_slice()).collect(alloc)
}

// The entries that these words spell.
fn items_of(alloc: Global, parts: &[&[&[u8]]]) -> Result<Submissions, LineFault>
    ensures { GivesRead result (items_in (map (λ part. map (λ w. w.now) part.now) parts.now)) }
{
    let mut items = Vec::new(alloc);
    for part in parts {
        let item = item_of(alloc, part)?;
        items.push(item)?;
    }
    Ok(Submissions::new(items))
}

// The entries that words spell, at least one.
#[tactic(auto, unfolding(crate::specs::Batches::script_batch_in))]
pub(crate) fn batch_of(alloc: Global, words: &[&[u8]]) -> Result<Submissions, LineFault>
    ensures { GivesRead result (script_batch_in (map (λ w. w.now) words.now)) }
{
    let parts = parts_of(alloc, words)?;
    items_of(alloc, parts.as_slice())
}
