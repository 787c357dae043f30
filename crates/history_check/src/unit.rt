//! The open unit of a ticket, and its Blocks.

ghost use Rattle.std.specs.Prelude.{◌≡◌, ◌≤◌, ◌<◌, ◌+◌, ◌++◌, ◌%◌, ◌^◌, ◌==◌, [], ◌∷◌, ◌||◌, None, IfOk, OnErr, OnOk};
ghost use Rattle.std.specs.Prelude.{length, nat_le, option_copied, option_map, option_to_list};
ghost use Rattle.std.specs.List.{list_all};
ghost use Rattle.nvme_model.specs.Open.{is_differs, steps_needed};
ghost use Rattle.nvme_model.specs.Value.{writes};
ghost use Rattle.history_check.specs.Effects.{answers_at, read_at, word_of};
ghost use Rattle.history_check.specs.Judged.{agrees, are_right};
ghost use Rattle.history_check.specs.Taken.{no_by};
ghost use Rattle.history_check.specs.Contents.{contents_in, first_some, fits_unit};
ghost use Rattle.history_check.specs.Explained.{due_in};

use crate::commands::{Commands, has_compare, has_write};
use block_array::Volume;
use broken_rules::{BlockDue, Words, may_find};
use nvme_model::array::Range;
use nvme_model::entry::{BlockLine, GrantLine};
use nvme_model::operation::{Found, Op};
use std::alloc::{AllocError as NoMemory, Global};
use std::marker::Model;

/// The open unit of a ticket.
#[derive(Drop)]
pub(crate) struct CheckedUnit {
    line: GrantLine,
    made: u64,
    said: Vec<bool>,
    right: Option<Vec<bool>>,
}

impl Model for CheckedUnit {
    ghost use Rattle.std.specs.Prelude.{option_map};
    ghost use Rattle.history_check.specs.Tables.{CheckedUnit as Kept};

    ghost Value = { Kept };

    ghost view = { λ u. record {
      line = u.line;
      made = u.made;
      said = u.said.items;
      right = option_map (λ v. v.items) u.right;
    } };
}

impl CheckedUnit {
    /// A unit that has just been opened by this line. Takes no memory.
    pub(crate) fn new(alloc: Global, line: &GrantLine) -> CheckedUnit
        ensures value { result ≡ record { line = line.now; made = 0; said = []; right = None } }
    {
        CheckedUnit {
            line: *line,
            made: 0,
            said: Vec::new(alloc),
            right: None,
        }
    }

    /// Its blocks.
    pub(crate) fn range(&self) -> Range
        ensures value { result ≡ self.now.line.range }
    {
        self.line.range.get()
    }

    /// Whether it ends with a Block that says this.
    pub(crate) fn ends(&self, ticket: &Commands, found: Found) -> bool
        requires few { self.now.made < 2 ^ 32 }
        ensures value { result ≡
            (nat_le (steps_needed ticket.now self.now.line.range.blocks) (self.now.made + 1) || is_differs found) }
    {
        let blocks = u64::from(self.line.range.get().blocks);
        let needed = if ticket.op() == Some(Op::Pair) {
            2 * blocks
        } else {
            blocks
        };
        needed <= self.made + 1 || found == Found::Differs
    }

    /// One more answer.
    ///
    /// # Errors
    ///
    /// `NoMemory` where a growth is refused; nothing has changed.
    pub(crate) fn say(&mut self, word: bool) -> Result<(), NoMemory>
        ensures ok { OnOk result (self.new ≡ record self.old { said = self.old.said ++ word ∷ [] }) }
        ensures err { OnErr result (self.new ≡ self.old) }
    {
        if self.said.push(word).is_err() {
            return Err(NoMemory);
        }
        Ok(())
    }

    /// One more Block, and the answers that are right where it is the effect.
    pub(crate) fn count(&mut self, right: Option<Vec<bool>>)
        requires few { self.old.made < 2 ^ 32 }
        ensures value { self.new ≡ record self.old
            { made = self.old.made + 1; right = first_some (option_map (λ v. v.items) right) self.old.right } }
    {
        if let Some(answers) = right {
            self.right = Some(answers);
        }
        self.made += 1;
    }

    /// The answers that are right, once it has its effect.
    pub(crate) fn right(&self) -> Option<&[bool]>
        ensures value { option_copied result ≡ self.now.right }
    {
        match &self.right {
            Some(answers) => Some(answers.as_slice()),
            None => None,
        }
    }
}

/// The answers that are right at these contents.
pub(crate) fn answers_at(
    alloc: Global,
    volume: &Volume,
    ticket: &Commands,
    range: Range,
) -> Result<Vec<bool>, NoMemory>
    requires within { range.slba + range.blocks ≤ length volume.now }
    ensures value { IfOk result (λ bits. bits.items ≡ answers_at (contents_in volume.now) ticket.now range) }
{
    if !has_compare(ticket.op()) {
        return Ok(Vec::new(alloc));
    }
    // A read tells the proof that the blocks are few enough for their numbers.
    let _count = volume.len();
    let mut answers = Vec::with_capacity(alloc, range.blocks as usize)?;
    for place in 0..range.blocks {
        let lba = range.slba + u64::from(place);
        let equal = volume.block(lba).as_slice() == ticket.compare_data(lba);
        answers.push_reserved(equal);
    }
    Ok(answers)
}

/// Whether each block is the Compare's data, by these answers.
pub(crate) fn all_true(answers: &[bool]) -> bool
    ensures value { result ≡ list_all (λ b. b) answers.now }
{
    let mut rest = answers;
    while let Some((answer, others)) = rest.split_first() {
        if !*answer {
            return false;
        }
        rest = others;
    }
    true
}

/// What a unit reads at these contents.
pub(crate) fn read_at(
    alloc: Global,
    volume: &Volume,
    ticket: &Commands,
    range: Range,
) -> Result<Vec<u8>, NoMemory>
    requires within { range.slba + range.blocks ≤ length volume.now }
    ensures value { IfOk result (λ bytes. bytes.items ≡ read_at (contents_in volume.now) ticket.now range) }
{
    let mut bytes = Vec::new(alloc);
    if ticket.op() != Some(Op::Read) {
        return Ok(bytes);
    }
    // A read tells the proof that the blocks are few enough for their numbers.
    let _count = volume.len();
    for place in 0..range.blocks {
        let lba = range.slba + u64::from(place);
        bytes.extend_from_slice(volume.block(lba).as_slice())?;
    }
    Ok(bytes)
}

/// What an effect comes to.
#[derive(Drop)]
pub(crate) struct Effect {
    /// The answers that are right.
    pub right: Vec<bool>,
    /// Whether it says no.
    pub no: bool,
    /// What it reads.
    pub read: Vec<u8>,
    /// Whether it writes.
    pub writes: bool,
}

/// What the effect of a unit comes to at these contents.
#[tactic(auto, using(crate::proofs::Answering::no_is, crate::proofs::Answering::writes_is))]
pub(crate) fn effect_at(
    alloc: Global,
    volume: &Volume,
    ticket: &Commands,
    range: Range,
) -> Result<Effect, NoMemory>
    requires within { range.slba + range.blocks ≤ length volume.now }
    ensures right { IfOk result (λ e. e.right.items ≡ answers_at (contents_in volume.now) ticket.now range) }
    ensures no { IfOk result (λ e. e.no ≡ no_by (contents_in volume.now) ticket.now range) }
    ensures read { IfOk result (λ e. e.read.items ≡ read_at (contents_in volume.now) ticket.now range) }
    ensures writes { IfOk result (λ e. e.writes ≡ writes (contents_in volume.now) ticket.now range) }
{
    let right = answers_at(alloc, volume, ticket, range)?;
    let no = !all_true(right.as_slice());
    let read = read_at(alloc, volume, ticket, range)?;
    let writes = has_write(ticket.op()) && !no;
    Ok(Effect {
        right,
        no,
        read,
        writes,
    })
}

/// Whether the answers are the first of those that are right.
pub(crate) fn agrees(said: &[bool], right: &[bool]) -> bool
    ensures value { result ≡ agrees said.now right.now }
{
    let mut rest = said;
    let mut left = right;
    while let Some((word, words)) = rest.split_first() {
        let Some((answer, answers)) = left.split_first() else {
            return false;
        };
        if *word != *answer {
            return false;
        }
        rest = words;
        left = answers;
    }
    true
}

// The same with one more answer, if there is one.
fn agrees_with(said: &[bool], word: Option<bool>, right: &[bool]) -> bool
    ensures value { result ≡ agrees (said.now ++ option_to_list word) right.now }
{
    let before = agrees(said, right);
    match word {
        None => before,
        Some(word) => match right.get(said.len()) {
            Some(answer) => before && word == *answer,
            None => false,
        },
    }
}

/// What a comparing entry answers.
pub(crate) fn word_of(found: Found) -> Option<bool>
    ensures value { option_to_list result ≡ word_of found }
{
    match found {
        Found::Equal => Some(true),
        Found::Differs => Some(false),
        Found::Read | Found::Written => None,
    }
}

// The block that a unit's Block entry names as its `made`th, from 0.
fn is_due(range: Range, made: u64, lba: u64) -> bool
    ensures value { result ≡ (lba == range.slba + made % range.blocks) }
{
    let step = if range.blocks == 0 {
        made
    } else {
        made % u64::from(range.blocks)
    };
    lba >= range.slba && lba - range.slba == step
}

// Whether the answers are right, where those that are right are known.
fn are_right(said: &[bool], word: Option<bool>, right: Option<&[bool]>) -> bool
    ensures value { result ≡ are_right (option_copied right.entry) (said.now ++ option_to_list word) }
{
    match right {
        None => true,
        Some(right) => agrees_with(said, word, right),
    }
}

/// Whether a Block fits the open unit of a ticket with so many effects, where these answers are right.
pub(crate) fn block_fits(
    ticket: &Commands,
    placed: u64,
    unit: &CheckedUnit,
    right: Option<&[bool]>,
    block: &BlockLine,
) -> bool
    ensures value { result ≡ fits_unit ticket.now placed unit.now (option_copied right.entry) block.now }
{
    block.unit == unit.line.unit
        && is_due(unit.line.range.get(), unit.made, block.lba)
        && may_find(
            ticket.op(),
            unit.line.range.get().blocks,
            unit.made,
            block.found,
        )
        && (!block.effect || block.unit == placed)
        && are_right(unit.said.as_slice(), word_of(block.found), right)
}

/// What is due of the next Block of the open unit of a ticket with so many effects, where these answers are right.
pub(crate) fn block_due(
    ticket: &Commands,
    placed: u64,
    unit: &CheckedUnit,
    right: Option<&[bool]>,
    block: &BlockLine,
) -> BlockDue
    requires some { 1 ≤ unit.now.line.range.blocks }
    requires within { unit.now.line.range.slba + unit.now.line.range.blocks < 2 ^ 64 }
    ensures value { result ≡ due_in ticket.now placed unit.now (option_copied right.entry) block.now }
{
    let range = unit.line.range.get();
    let said = unit.said.as_slice();
    BlockDue {
        unit: unit.line.unit,
        lba: range.slba + unit.made % u64::from(range.blocks),
        word: Words::due(ticket.op(), range.blocks, unit.made),
        marked: block.unit < placed,
        may_mark: block.unit == placed,
        earlier: are_right(said, None, right),
        answers: are_right(said, word_of(block.found), right),
    }
}
