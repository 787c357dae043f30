//! A ticket in flight: whether a Block fits it, and what it owes.

ghost use Rattle.std.specs.Prelude.{◌≡◌, ◌≤◌, ◌<◌, ◌+◌, ◌++◌, ◌^◌, ◌&&◌, ◌||◌, [], None, Some, IfOk, IfSome, OnErr};
ghost use Rattle.std.specs.Prelude.{OnOk, if◌then◌else◌, is_some, length, option_copied, option_map, option_to_list};
ghost use Rattle.std.specs.Prelude.{get_or, slice_get, true};
ghost use Rattle.nvme_model.specs.Bits.{bit};
ghost use Rattle.nvme_model.specs.EntryBytes.{cqe_bytes};
ghost use Rattle.nvme_model.specs.Tickets.{cids};
ghost use Rattle.nvme_model.specs.Open.{is_differs};
ghost use Rattle.nvme_model.specs.Operations.{op, units};
ghost use Rattle.history_check.specs.Effects.{does_read, word_of};
ghost use Rattle.history_check.specs.Taken.{blocked_flight, ends_by, flies_on, opened_flight, posted_flight};
ghost use Rattle.history_check.specs.Tables.{just_fetched};
ghost use Rattle.nvme_model.specs.Value.{writes};
ghost use Rattle.nvme_model.specs.declared.config.ConfigNumbers.{ConfigNumbers};
ghost use Rattle.history_check.specs.Contents.{contents_in, first_some, post_fits_at};
ghost use Rattle.history_check.specs.Judged.{block_fits_by, checked_data, checked_owed, checked_owed_running};
ghost use Rattle.history_check.specs.Judged.{owes_nothing};

use crate::commands::Commands;
use crate::unit::{CheckedUnit, Effect, answers_at, block_fits, effect_at, word_of};
use block_array::Volume;
use completions::{Owed, cqe_of};
use entry_codec::encode_cqe;
use nvme_model::array::Range;
use nvme_model::entry::{BlockLine, GrantLine, PostLine};
use nvme_model::operation::{Found, Op};
use nvme_model::status::{Status, Verdict};
use std::alloc::{AllocError as NoMemory, Global};
use std::marker::Model;

/// A ticket in flight.
#[derive(Drop)]
pub struct CheckedTicket {
    ticket: Commands,
    opened: u64,
    unit: Option<CheckedUnit>,
    differs: bool,
    posts: u8,
    placed: u64,
    no: bool,
    found: Vec<u8>,
}

impl Model for CheckedTicket {
    ghost use Rattle.history_check.specs.Tables.{CheckedTicket as Kept};

    ghost Value = { Kept };

    ghost view = { λ f. record {
      ticket = f.ticket;
      opened = f.opened;
      unit = f.unit;
      differs = f.differs;
      posts = f.posts;
      placed = f.placed;
      no = f.no;
      found = f.found.items;
    } };
}

/// What is left to do for a Block that was taken.
#[derive(Clone, Copy, Debug, PartialEq, Eq)]
pub struct TakenBlock {
    /// The blocks of its unit.
    pub range: Range,
    /// Its effect writes the ticket's data to all of them.
    pub writes: bool,
    /// The unit has ended.
    pub ended: bool,
}

impl CheckedTicket {
    /// A ticket that was just fetched. Takes no memory.
    pub fn new(alloc: Global, ticket: Commands) -> CheckedTicket
        ensures value { result ≡ just_fetched ticket }
    {
        CheckedTicket {
            ticket,
            opened: 0,
            unit: None,
            differs: false,
            posts: 0,
            placed: 0,
            no: false,
            found: Vec::new(alloc),
        }
    }

    /// What its Fetch took.
    pub fn ticket(&self) -> &Commands
        ensures value { result.now ≡ self.now.ticket }
    {
        &self.ticket
    }

    /// How many of its units were opened.
    pub fn opened(&self) -> u64
        ensures value { result ≡ self.now.opened }
    {
        self.opened
    }

    /// Whether a unit is open.
    pub fn has_open(&self) -> bool
        ensures value { result ≡ is_some self.now.unit }
    {
        self.unit.is_some()
    }

    /// The open unit.
    pub(crate) fn unit(&self) -> Option<&CheckedUnit>
        ensures value { option_copied result ≡ self.now.unit }
    {
        self.unit.as_ref()
    }

    /// How many completions of it were posted, and how many of its units have their effect.
    pub(crate) fn counts(&self) -> (u8, u64)
        ensures value { result ≡ (self.now.posts, self.now.placed) }
    {
        (self.posts, self.placed)
    }

    /// Whether a `differs` ended it.
    pub fn differs(&self) -> bool
        ensures value { result ≡ self.now.differs }
    {
        self.differs
    }

    /// The CID that its next completion is for; 0 where each has one.
    pub fn next_cid(&self) -> u16
        ensures value { result ≡ get_or (cids self.now.ticket) self.now.posts 0 }
    {
        self.ticket.cid_at(self.posts)
    }

    /// Opens the unit of this line. Takes no memory.
    pub fn open(&mut self, alloc: Global, line: &GrantLine)
        requires few { self.old.opened < 2 ^ 32 }
        ensures value { self.new ≡ opened_flight self.old line.now }
    {
        self.opened += 1;
        self.unit = Some(CheckedUnit::new(alloc, line));
    }

    /// Whether it is in flight after one more completion.
    pub fn flies_on(&self) -> bool
        ensures value { result ≡ flies_on self.now }
    {
        u16::from(self.posts) + 1 < u16::from(self.ticket.len())
    }

    /// Notes one more completion.
    pub fn post(&mut self)
        requires few { self.old.posts < 2 ^ 7 }
        ensures value { self.new ≡ posted_flight self.old }
    {
        self.posts += 1;
    }

    /// Whether a Block fits the open unit, where the blocks are these.
    pub fn block_fits(
        &self,
        alloc: Global,
        volume: &Volume,
        block: &BlockLine,
    ) -> Result<bool, NoMemory>
        requires within { IfSome self.now.unit (λ u. u.line.range.slba + u.line.range.blocks ≤ length volume.now) }
        ensures value { IfOk result (λ b. b ≡ block_fits_by (contents_in volume.now) self.now block.now self.now.unit) }
    {
        let Some(unit) = &self.unit else {
            return Ok(false);
        };
        if block.effect {
            let right = answers_at(alloc, volume, &self.ticket, unit.range())?;
            let right = Some(right.as_slice());
            return Ok(block_fits(&self.ticket, self.placed, unit, right, block));
        }
        let right = unit.right();
        Ok(block_fits(&self.ticket, self.placed, unit, right, block))
    }

    /// Takes a Block of the open unit, where the blocks are these before it.
    ///
    /// # Errors
    ///
    /// `NoMemory` where a growth is refused; nothing has changed.
    pub fn take_block(
        &mut self,
        alloc: Global,
        volume: &Volume,
        block: &BlockLine,
    ) -> Result<TakenBlock, NoMemory>
        requires open { is_some self.old.unit ≡ true }
        requires within { IfSome self.old.unit (λ u. u.line.range.slba + u.line.range.blocks ≤ length volume.now) }
        requires few { (self.old.placed < 2 ^ 32) × IfSome self.old.unit (λ u. u.made < 2 ^ 32) }
        requires one { does_read (op self.old.ticket) ≡ true → word_of block.now.found ≡ [] }
        ensures ok { OnOk result
            (IfSome self.old.unit (λ u. self.new ≡ blocked_flight (contents_in volume.now) self.old block.now u)) }
        ensures range { IfOk result (λ d. IfSome self.old.unit (λ u. d.range ≡ u.line.range)) }
        ensures writes { IfOk result (λ d. IfSome self.old.unit
            (λ u. d.writes ≡ (block.now.effect && writes (contents_in volume.now) self.old.ticket u.line.range))) }
        ensures ended { IfOk result (λ d. IfSome self.old.unit (λ u. d.ended ≡ ends_by self.old block.now u)) }
        ensures err { OnErr result (self.new ≡ self.old) }
    {
        let unit = self.unit.as_ref().unwrap();
        let ended = unit.ends(&self.ticket, block.found);
        let range = unit.range();
        let word = word_of(block.found);
        if !block.effect {
            self.grow(word, &[])?;
            self.finish_block(block.found, None, false, ended);
            let writes = false;
            return Ok(TakenBlock {
                range,
                writes,
                ended,
            });
        }
        let effect = effect_at(alloc, volume, &self.ticket, range)?;
        let Effect {
            right,
            no,
            read,
            writes,
        } = effect;
        self.grow(word, read.as_slice())?;
        self.finish_block(block.found, Some(right), no, ended);
        Ok(TakenBlock {
            range,
            writes,
            ended,
        })
    }

    // One more answer of the open unit, or more that was read.
    fn grow(&mut self, word: Option<bool>, read: &[u8]) -> Result<(), NoMemory>
        requires open { is_some self.old.unit ≡ true }
        requires one { is_some word ≡ true → read.now ≡ [] }
        ensures ok { OnOk result (IfSome self.old.unit (λ u. self.new ≡ record self.old
            { unit = Some (record u { said = u.said ++ option_to_list word }); found = self.old.found ++ read.now })) }
        ensures err { OnErr result (self.new ≡ self.old) }
    {
        let Some(word) = word else {
            self.found.extend_from_slice(read)?;
            return Ok(());
        };
        self.unit.as_mut().unwrap().say(word)?;
        Ok(())
    }

    // What else a Block changes: the effect's answers, if it is one, whether that says no, and whether the unit ends.
    fn finish_block(&mut self, found: Found, right: Option<Vec<bool>>, no: bool, ends: bool)
        requires few { (self.old.placed < 2 ^ 32) × IfSome self.old.unit (λ u. u.made < 2 ^ 32) }
        ensures value { IfSome self.old.unit (λ u. self.new ≡ record self.old {
          unit = if ends then None
              else Some (record u { made = u.made + 1; right = first_some (option_map (λ v. v.items) right) u.right });
          differs = is_differs found || self.old.differs;
          placed = self.old.placed + (if is_some right then 1 else 0);
          no = no || self.old.no;
        }) }
    {
        if right.is_some() {
            self.placed += 1;
        }
        self.differs = found == Found::Differs || self.differs;
        self.no = no || self.no;
        if ends {
            self.unit = None;
            return;
        }
        if let Some(unit) = &mut self.unit {
            unit.count(right);
        }
    }

    // What it owes after its checks passed, where it has so many units.
    fn owed_running(&self, count: u64, op: Option<Op>) -> Owed
        ensures value { (c : ConfigNumbers) →
            count ≡ length (units c self.now.ticket) → result ≡ checked_owed_running c self.now op }
    {
        let success = Status::SUCCESS;
        let failure = Status::COMPARE_FAILURE;
        let Some(op) = op else {
            return Owed::one(success);
        };
        let has_run = count <= self.opened && self.unit.is_none();
        let is_done = has_run && count <= self.placed;
        if op == Op::Pair {
            if self.no && has_run {
                return Owed::two(failure, Status::FAILED_FUSED);
            }
            if is_done {
                return Owed::two(success, success);
            }
            return Owed::none();
        }
        if self.no {
            return Owed::one(failure);
        }
        if is_done {
            return Owed::one(success);
        }
        Owed::none()
    }

    // What it owes in all, where it has so many units.
    pub(crate) fn owed(&self, count: u64) -> Owed
        ensures value { (c : ConfigNumbers) → count ≡ length (units c self.now.ticket)
            → result ≡ checked_owed c self.now }
    {
        match self.ticket.verdict() {
            Verdict::SingleFailed(status) => Owed::one(status),
            Verdict::PairFailed(first, second) => Owed::two(first, second),
            Verdict::Single | Verdict::Pair => self.owed_running(count, self.ticket.op()),
        }
    }

    // The bytes of its next completion with this status, by the head and the phase of its queues' rings.
    pub(crate) fn completion(&self, status: Status, head: u16, phase: bool) -> [u8; 16]
        ensures value { result ≡ cqe_bytes head self.now.ticket.queue (get_or (cids self.now.ticket) self.now.posts 0)
            (bit phase) status }
    {
        encode_cqe(&cqe_of(status, self.next_cid(), self.ticket.queue(), head, phase))
    }

    /// Whether a Post says what is owed next, where the ticket has so many units.
    pub fn post_fits(&self, count: u64, head: u16, phase: bool, line: &PostLine) -> bool
        ensures value { (c : ConfigNumbers) → count ≡ length (units c self.now.ticket) → result ≡
            post_fits_at head (bit phase) self.now line.now (slice_get (checked_owed c self.now) self.now.posts) }
    {
        let Some(status) = self.owed(count).get(usize::from(self.posts)) else {
            return false;
        };
        let wanted = self.completion(status, head, phase);
        line.cqe.as_slice() == wanted.as_slice() && line.payload.as_slice() == self.data(status)
    }

    /// Whether nothing is owed yet, where it has so many units.
    pub fn owes_nothing(&self, count: u64) -> bool
        ensures value { (c : ConfigNumbers) →
            count ≡ length (units c self.now.ticket) → result ≡ owes_nothing c self.now }
    {
        let passed = match self.ticket.verdict() {
            Verdict::Single | Verdict::Pair => true,
            Verdict::SingleFailed(_) | Verdict::PairFailed(_, _) => false,
        };
        let has_run = count <= self.opened && self.unit.is_none();
        passed && self.ticket.op().is_some() && !(has_run || self.differs)
    }

    // The data beside its completion with this status.
    pub(crate) fn data(&self, status: Status) -> &[u8]
        ensures value { result.now ≡ checked_data self.now status }
    {
        if status == Status::SUCCESS && self.ticket.op() == Some(Op::Read) {
            return self.found.as_slice();
        }
        &[]
    }
}
