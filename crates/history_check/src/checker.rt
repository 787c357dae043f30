//! The checker.

ghost use Rattle.std.specs.Prelude.{◌≡◌, ◌∷◌, [], IfOk, OnErr, is_none, true};
ghost use Rattle.nvme_model.specs.History.{Past};
ghost use Rattle.nvme_model.specs.Legal.{legal};
ghost use Rattle.broken_rules.specs.Broken.{first_broken};
ghost use Rattle.history_check.specs.Kept.{IsCheckerState, Stands, checker_state_in};
ghost use Rattle.history_check.specs.Steps.{Took, needs_memory};
ghost use Rattle.history_check.specs.Whys.{why_needs_memory};

use crate::block::take_block;
use crate::fetch::take_fetch;
use crate::fields::Fields;
use crate::grant::take_grant;
use crate::post::take_post;
use crate::publish::take_publish;
use crate::reap::take_reap;
use crate::why::why_broken;
use broken_rules::Broken;
use history::{Config, Entry};
use std::alloc::{AllocError as NoMemory, Global};
use std::marker::Model;

/// Says of each entry that it takes whether the entries so far, the oldest first, are a legal history of its
/// configuration, whoever made them. It keeps what later entries are judged by, and no entry: how much that is, and how
/// long an entry takes, doesn't grow with the history. A ticket in flight is found by halves; a Fetch and a Post go
/// through the CIDs in use on their queue, and a ticket's last Post moves up those in flight behind it.
#[derive(Drop)]
pub struct Checker {
    alloc: Global,
    config: Config,
    legal: bool,
    fields: Fields,
}

impl Model for Checker {
    ghost use Rattle.nvme_model.specs.History.{Past};
    ghost use Rattle.history_check.specs.Kept.{Stands, CheckerRun, checker_state_in};

    ghost Value = { CheckerRun };

    ghost view = { λ x. record { config = x.config; is_legal = x.legal; kept = checker_state_in x.fields } };

    // There is a history that it stands for.
    ghost invariant = { λ x. (past : Past)
        × Stands x.config past (record { config = x.config; is_legal = x.legal; kept = checker_state_in x.fields }) };
}

// Takes an entry after a legal history, and says whether it may follow.
fn take_entry(
    alloc: Global,
    config: &Config,
    fields: &mut Fields,
    entry: &Entry,
) -> Result<bool, NoMemory>
    requires keeps { (past : Past) × IsCheckerState config.now past (checker_state_in fields.old) }
    ensures took { (past : Past) → IsCheckerState config.now past (checker_state_in fields.old) →
        IfOk result (λ b. Took config.now past entry.now b (checker_state_in fields.new)) }
    ensures err { OnErr result (checker_state_in fields.new ≡ checker_state_in fields.old) }
    ensures wants { OnErr result (needs_memory entry.now ≡ true) }
{
    match entry {
        Entry::Publish(line) => take_publish(alloc, fields, line),
        Entry::Fetch(line) => take_fetch(alloc, config, fields, line),
        Entry::Grant(line) => take_grant(alloc, fields, line),
        Entry::Block(line) => take_block(alloc, fields, line),
        Entry::Post(line) => Ok(take_post(alloc, config, fields, line)),
        Entry::Reap(line) => Ok(take_reap(fields, line)),
    }
}

impl Checker {
    /// A checker of this configuration that has taken no entry.
    ///
    /// # Errors
    ///
    /// `NoMemory` where a growth is refused.
    pub fn new(alloc: Global, config: &Config) -> Result<Checker, NoMemory>
        ensures ok { IfOk result (λ checker. Stands config.now [] checker) }
    {
        Ok(Checker {
            alloc,
            config: *config,
            legal: true,
            fields: Fields::new(alloc, config)?,
        })
    }

    /// Takes the next entry: true exactly where all that were taken so far, this one included, are legal.
    ///
    /// # Errors
    ///
    /// `NoMemory` where a growth is refused; the entry isn't taken, and nothing has changed. Never for a Post or a
    /// Reap, nor where the entries so far aren't legal.
    pub fn take(&mut self, entry: &Entry) -> Result<bool, NoMemory>
        ensures ok { (past : Past) → Stands self.old.config past self.old →
            IfOk result (λ b. (b ≡ legal self.old.config (entry.now ∷ past))
            × Stands self.old.config (entry.now ∷ past) self.new) }
        ensures err { OnErr result (self.new ≡ self.old) }
        ensures wants { OnErr result ((self.old.is_legal ≡ true) × (needs_memory entry.now ≡ true)) }
    {
        if !self.legal {
            return Ok(false);
        }
        let follows = take_entry(self.alloc, &self.config, &mut self.fields, entry)?;
        self.legal = follows;
        Ok(follows)
    }

    /// The first rule that an entry breaks behind those that were taken; None exactly where the entries with it are
    /// legal.
    ///
    /// # Errors
    ///
    /// `NoMemory` where a growth is refused. Only for a Block, behind legal entries.
    pub fn why(&self, entry: &Entry) -> Result<Option<Broken>, NoMemory>
        ensures first { (past : Past) →
            Stands self.now.config past self.now → IfOk result (λ b. b ≡ first_broken self.now.config past entry.now) }
        ensures none { (past : Past) → Stands self.now.config past self.now →
            IfOk result (λ b. is_none b ≡ legal self.now.config (entry.now ∷ past)) }
        ensures wants { OnErr result ((self.now.is_legal ≡ true) × (why_needs_memory entry.now ≡ true)) }
    {
        if !self.legal {
            return Ok(Some(Broken::Earlier));
        }
        why_broken(self.alloc, &self.config, &self.fields, entry)
    }
}
