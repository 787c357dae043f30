//! Searches of which nobody counts the steps.

ghost use Rattle.std.specs.Prelude.{◌≡◌, ◌<◌};
ghost use Rattle.job_table.specs.Keyed.{key_of, keyed_beside};

use crate::index::JobIndex;
use crate::steps::ProbeCount;
use std::marker::Brand;
use std::sync::ledger::{Blank, Ledger};

/// The key of a ticket, where it is there.
pub fn find(index: &JobIndex, ticket: u64) -> Option<usize>
    ensures key { result ≡ key_of index.now.keyed ticket }
{
    find_from::<Brand>(index, ticket, Blank::new(1))
}

/// Takes a ticket out, where it is there, and gives its key.
pub fn remove(index: &mut JobIndex, ticket: u64) -> Option<usize>
    ensures key { result ≡ key_of index.old.keyed ticket }
    ensures rest { index.new ≡ record index.old { keyed = keyed_beside index.old.keyed ticket } }
{
    remove_from::<Brand>(index, ticket, Blank::new(1))
}

// The same, with the ledger of the steps, which takes no bytes.
fn find_from<L: Ledger>(index: &JobIndex, ticket: u64, blank: Blank) -> Option<usize>
    requires name { blank.name ≡ L.name }
    requires parts { blank.parts ≡ L.parts }
    requires some { 0 < blank.parts }
    ensures key { result ≡ key_of index.now.keyed ticket }
{
    let mut steps: ProbeCount<L> = ProbeCount::new(blank);
    index.find(ticket, &mut steps)
}

fn remove_from<L: Ledger>(index: &mut JobIndex, ticket: u64, blank: Blank) -> Option<usize>
    requires name { blank.name ≡ L.name }
    requires parts { blank.parts ≡ L.parts }
    requires some { 0 < blank.parts }
    ensures key { result ≡ key_of index.old.keyed ticket }
    ensures rest { index.new ≡ record index.old { keyed = keyed_beside index.old.keyed ticket } }
{
    let mut steps: ProbeCount<L> = ProbeCount::new(blank);
    index.remove(ticket, &mut steps)
}
