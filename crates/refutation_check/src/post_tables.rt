//! Running tables of a trace: what is known of when its completions were posted.

ghost use Rattle.std.specs.Prelude.{◌≡◌, ◌&&◌, ◌+◌, ◌-◌, ◌==◌, ◌∷◌, [], List, OnOk, Some, if◌then◌else◌, length};
ghost use Rattle.std.specs.Prelude.{IfOk, reverse, ℕ};
ghost use Rattle.nvme_model.specs.EntryBytes.{cqe_fields};
ghost use Rattle.nvme_model.specs.declared.config.ConfigNumbers.{ConfigNumbers};
ghost use Rattle.trace.specs.declared.seen.Seen.{Seen};
ghost use Rattle.refutation.specs.EffectOrders.{before_post, most_fetched, through_entries, through_reaps};
ghost use Rattle.refutation.specs.LineRules.{least_fetched};
ghost use Rattle.refutation_check.specs.Answers.{KnowsAnswers, answers_in};
ghost use Rattle.refutation_check.specs.Posts.{KnowsPosts, posts_in};
ghost use Rattle.refutation_check.specs.ToldHeads.{told_head};

use crate::bytes::queue_of;
use crate::fields::head_of;
use crate::heads::least_behind;
use crate::tables::{EntryNumber, TraceAnswers, add_one, count_of};
use crate::told_heads::ToldHead;
use history::Config;
use std::alloc::{AllocError as NoMemory, Global};
use std::collections::HashMap;
use trace::{ReapedLine, Seen};

/// Running tables of a trace: what is known of when its completions were posted.
#[derive(Drop)]
pub(crate) struct PostTables {
    /// How many entries were fetched, at least, by submission queue.
    pub(crate) least: HashMap<u16, u64>,
    /// How many completions were reaped, by completion queue.
    pub(crate) reaped: HashMap<u16, u64>,
    /// How many lines there are up to the one that reaps each, by completion queue and number.
    pub(crate) reaps: HashMap<EntryNumber, usize>,
    /// How many lines surely stood before the newest of them was posted, by completion queue.
    pub(crate) before: HashMap<u16, usize>,
}

// How many entries were fetched, at most, when a completion was posted that is reaped behind these lines.
#[tactic(auto, using(crate::proofs::PostPlaces::most_by_parts))]
fn most_fetched(config: &Config, tables: &TraceAnswers, line: &ReapedLine) -> u64
    ensures value { (trace : List Seen) → KnowsAnswers trace (answers_in tables.now) →
        result ≡ most_fetched config.now trace line.now }
{
    let slots = u64::from(config.numbers().sq_size);
    let count = tables.count(queue_of(&line.cqe));
    let head = u64::from(head_of(&line.cqe)) % slots;
    count.saturating_sub((count % slots + (slots - head)) % slots)
}

// How many lines publish so many entries of a submission queue; all where they don't.
fn lines_of_entries(tables: &TraceAnswers, trace: &[Seen], queue: u16, count: u64) -> usize
    ensures value { KnowsAnswers (reverse trace.now) (answers_in tables.now) →
        result ≡ length (through_entries (reverse trace.now) queue count) }
{
    if count == 0 {
        return 0;
    }
    let all = trace.len();
    match tables.place(queue, count - 1) {
        Some(at) if at.line < all => at.line + 1,
        Some(_) => all,
        None => all,
    }
}

impl PostTables {
    /// The tables of no lines.
    pub(crate) fn new(alloc: Global) -> PostTables
        ensures knows { (c : ConfigNumbers) → KnowsPosts c [] (posts_in result) }
    {
        PostTables {
            least: HashMap::new(alloc),
            reaped: HashMap::new(alloc),
            reaps: HashMap::new(alloc),
            before: HashMap::new(alloc),
        }
    }

    // How many lines there are up to the one that reaps a completion of a completion queue.
    fn reap_end(&self, queue: u16, number: u64) -> Option<usize>
        ensures value { result ≡ (posts_in self.now).reaps queue number }
    {
        self.reaps.get(&EntryNumber { queue, number }).copied()
    }

    // How many lines surely stood before the newest completion of a completion queue was posted.
    fn lines_before(&self, queue: u16) -> usize
        ensures value { result ≡ (posts_in self.now).before queue }
    {
        self.before.get(&queue).copied().unwrap_or(0)
    }

    // How many completions surely were reaped before the next of a completion queue was posted.
    fn reaped_before(&self, config: &Config, queue: u16) -> u64
        ensures value { result ≡ (posts_in self.now).reaped queue + 2 - config.now.cq_size }
    {
        let room = u64::from(config.numbers().cq_size) - 2;
        count_of(&self.reaped, queue).saturating_sub(room)
    }

    // How many lines reap so many completions from a completion queue; all where they don't.
    fn lines_of_reaps(&self, trace: &[Seen], queue: u16, count: u64) -> usize
        ensures value { (c : ConfigNumbers) → KnowsPosts c (reverse trace.now) (posts_in self.now) →
            result ≡ length (through_reaps (reverse trace.now) queue count) }
    {
        if count == 0 {
            return 0;
        }
        match self.reap_end(queue, count - 1) {
            Some(lines) => lines,
            None => trace.len(),
        }
    }

    // How many lines surely stood before the completion of this line was posted, of whose submission queue so many
    // entries were fetched at least.
    fn before_post(
        &self,
        config: &Config,
        tables: &TraceAnswers,
        trace: &[Seen],
        line: &ReapedLine,
        least: u64,
    ) -> usize
        ensures value { KnowsAnswers (reverse trace.now) (answers_in tables.now) →
            KnowsPosts config.now (reverse trace.now) (posts_in self.now) →
            least ≡ least_fetched config.now (Seen.Reaped line.now ∷ reverse trace.now) (cqe_fields line.now.cqe).sqid →
            result ≡ length (before_post config.now (Seen.Reaped line.now ∷ reverse trace.now) line.now.queue) }
    {
        let entries = lines_of_entries(tables, trace, queue_of(&line.cqe), least);
        let reaped = self.reaped_before(config, line.queue);
        let reaps = self.lines_of_reaps(trace, line.queue, reaped);
        self.lines_before(line.queue).max(entries.max(reaps))
    }

    // What the completion of this line tells, of whose submission queue so many entries were fetched at least.
    fn told_head(
        &self,
        config: &Config,
        tables: &TraceAnswers,
        trace: &[Seen],
        line: &ReapedLine,
        least: u64,
    ) -> ToldHead
        ensures value { KnowsAnswers (reverse trace.now) (answers_in tables.now) →
            KnowsPosts config.now (reverse trace.now) (posts_in self.now) →
            least ≡ least_fetched config.now (Seen.Reaped line.now ∷ reverse trace.now) (cqe_fields line.now.cqe).sqid →
            result ≡ told_head config.now (reverse trace.now) line.now }
    {
        ToldHead {
            queue: queue_of(&line.cqe),
            most: most_fetched(config, tables, line),
            reaped_from: line.queue,
            through: trace.len() + 1,
            before: self.before_post(config, tables, trace, line, least),
        }
    }

    fn note_head(&mut self, head: &ToldHead, least: u64) -> Result<(), NoMemory>
        ensures least { OnOk result ((q : ℕ) → (posts_in self.new).least q ≡
            (if head.now.queue == q then least else (posts_in self.old).least q)) }
        ensures reaped { (n : ℕ) → (posts_in self.new).reaped n ≡ (posts_in self.old).reaped n }
        ensures reaps { (n i : ℕ) → (posts_in self.new).reaps n i ≡ (posts_in self.old).reaps n i }
        ensures before { OnOk result ((n : ℕ) → (posts_in self.new).before n ≡
            (if head.now.reaped_from == n then head.now.before else (posts_in self.old).before n)) }
    {
        self.least.insert(head.queue, least)?;
        self.before.insert(head.reaped_from, head.before)?;
        Ok(())
    }

    fn note_reap(&mut self, queue: u16, lines: usize) -> Result<(), NoMemory>
        ensures least { (q : ℕ) → (posts_in self.new).least q ≡ (posts_in self.old).least q }
        ensures reaped { OnOk result ((n : ℕ) → (posts_in self.new).reaped n ≡
            (posts_in self.old).reaped n + (if queue == n then 1 else 0)) }
        ensures reaps { OnOk result ((n i : ℕ) → (posts_in self.new).reaps n i ≡
            (if (queue == n) && ((posts_in self.old).reaped queue == i) then Some lines
            else (posts_in self.old).reaps n i)) }
        ensures before { (n : ℕ) → (posts_in self.new).before n ≡ (posts_in self.old).before n }
    {
        let number = count_of(&self.reaped, queue);
        self.reaps.insert(EntryNumber { queue, number }, lines)?;
        add_one(&mut self.reaped, queue)
    }

    /// Takes the next line, which reaps a completion, behind these: what it tells.
    ///
    /// # Errors
    ///
    /// `NoMemory` alone; the tables are then of no use.
    pub(crate) fn take(
        &mut self,
        config: &Config,
        tables: &TraceAnswers,
        trace: &[Seen],
        line: &ReapedLine,
    ) -> Result<ToldHead, NoMemory>
        ensures head { KnowsAnswers (reverse trace.now) (answers_in tables.now) →
            KnowsPosts config.now (reverse trace.now) (posts_in self.old) →
            IfOk result (λ h. h ≡ told_head config.now (reverse trace.now) line.now) }
        ensures knows { KnowsAnswers (reverse trace.now) (answers_in tables.now) →
            KnowsPosts config.now (reverse trace.now) (posts_in self.old) →
            OnOk result (KnowsPosts config.now (Seen.Reaped line.now ∷ reverse trace.now) (posts_in self.new)) }
    {
        let queue = queue_of(&line.cqe);
        let least = count_of(&self.least, queue);
        let Some(least) = least_behind(config, tables, trace, line, queue, least) else {
            return Err(NoMemory);
        };
        let head = self.told_head(config, tables, trace, line, least);
        self.note_head(&head, least)?;
        self.note_reap(line.queue, head.through)?;
        Ok(head)
    }
}
