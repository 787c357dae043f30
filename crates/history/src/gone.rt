//! The entries that a history has forgotten. They are for contracts alone, and have no bytes.

ghost use Rattle.nvme_model.specs.History.{Past};

use std::marker::{Model, Send, Sync};

/// The entries that were forgotten.
#[derive(Drop)]
pub(crate) struct Gone {
    pub ghost past: { Past },
}

impl Model for Gone {
    ghost use base.Fml.{ftrue};

    ghost also_owns = { λ _. ftrue };
}

// It owns nothing.
unsafe impl Send for Gone {}

unsafe impl Sync for Gone {}
