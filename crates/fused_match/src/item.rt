//! What a check sees of a submission.

ghost use Rattle.std.specs.Prelude.{◌≡◌};
ghost use Rattle.nvme_model.specs.Verdict.{item_of};

use entry_codec::{Sqe, decode_sqe};
use nvme_model::submission::Submission;
use std::marker::Model;

/// The fields of an entry, and how many bytes of data lie beside it.
#[derive(Clone, Copy, Debug, PartialEq, Eq)]
pub struct Item {
    sqe: Sqe,
    length: usize,
}

impl Model for Item {
    ghost use Rattle.nvme_model.specs.Verdict.{Item as CheckedItem};

    ghost Value = { CheckedItem };

    ghost view = { λ i. record { fields = i.sqe; length = i.length } };

    ghost inverse = { λ i. record { sqe = i.fields; length = i.length } };
}

impl Item {
    /// These fields, with so many bytes beside them.
    pub fn new(sqe: Sqe, length: usize) -> Item
        ensures fields { result.fields ≡ sqe }
        ensures length { result.length ≡ length }
    {
        Item { sqe, length }
    }

    /// What a check sees of this submission.
    pub fn of(submission: &Submission) -> Item
        ensures value { result ≡ item_of submission.now }
    {
        Item {
            sqe: decode_sqe(&submission.entry),
            length: submission.payload.as_slice().len(),
        }
    }

    /// The fields of the entry.
    pub fn sqe(&self) -> Sqe
        ensures value { result ≡ self.now.fields }
    {
        self.sqe
    }

    /// How many bytes of data lie beside it.
    pub fn length(&self) -> usize
        ensures value { result ≡ self.now.length }
    {
        self.length
    }
}
