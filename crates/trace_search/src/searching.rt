//! Looks for a history that explains a trace, by trying what can be done next and taking back what leads nowhere.

use crate::around::{Around, look_around};
use crate::choosing::add_choices;
use crate::forced::forced;
use crate::guessing::put_best_last;
use std::alloc::{AllocError as NoMemory, Global};
use std::collections::HashMap;
use trace_walk::{BlockSet, Choice, TraceTables, Walk};

/// What a search found.
#[derive(Drop)]
pub enum Outcome {
    /// The steps of a history.
    History(Walk),
    /// None, in all that there is to try; so many first lines of the trace were explained on the way.
    NotFound(usize),
    /// The steps were used up.
    GaveUp,
}

// A place to which the search comes back.
#[derive(Clone, Copy)]
struct Branch {
    // how many steps were made, and where its choices begin
    moves: usize,
    choices: usize,
    // the blocks that these choices change, those that say which there are, and those that what failed behind it has to
    // do with
    changed: BlockSet,
    blocks: BlockSet,
    blamed: BlockSet,
    // what it is, and what these blocks are
    whole: u64,
    part: u64,
}

/// How a search ended: it found a history, tried all that there is, or used up its steps.
#[derive(Clone, Copy, PartialEq, Eq)]
pub(crate) enum End {
    Found,
    Tried,
    StepsUsed,
}

#[derive(Drop)]
pub(crate) struct Seeker {
    walk: Walk,
    branches: Vec<Branch>,
    choices: Vec<Choice>,
    // places of which it is known that they fail, and the blocks that this has to do with
    failed: HashMap<u64, BlockSet>,
    near: Vec<usize>,
    // the most lines that were taken, and how many steps are left
    furthest: usize,
    left: u64,
}

impl Seeker {
    pub(crate) fn new(alloc: Global, tables: &TraceTables) -> Result<Seeker, NoMemory> {
        Ok(Seeker {
            walk: Walk::new(alloc, tables)?,
            branches: Vec::new(alloc),
            choices: Vec::new(alloc),
            failed: HashMap::new(alloc),
            near: Vec::new(alloc),
            furthest: 0,
            left: 0,
        })
    }

    // Notes that all choices of a place failed, and what that has to do with.
    fn note_failed(&mut self, branch: &Branch, blamed: BlockSet) -> Result<(), NoMemory> {
        let _ = self.failed.insert(branch.whole, blamed)?;
        if blamed.is_within(branch.blocks) {
            let _ = self.failed.insert(branch.part, blamed)?;
        }
        Ok(())
    }

    // Goes back to the newest place with a choice left that has to do with these blocks, and takes that; or there is
    // none.
    fn go_back(&mut self, tables: &TraceTables, blocks: BlockSet) -> Result<bool, NoMemory> {
        let mut blamed = blocks;
        for _ in 0..=self.branches.len() {
            let Some(mut branch) = self.branches.pop() else {
                return Ok(false);
            };
            if branch.changed != BlockSet::ALL && !branch.changed.meets(blamed) {
                self.choices.truncate(branch.choices);
                continue;
            }
            branch.blamed = branch.blamed.with(blamed);
            if self.choices.len() > branch.choices {
                if let Some(choice) = self.choices.pop() {
                    self.branches.push(branch)?;
                    self.walk.undo_to(tables, branch.moves)?;
                    self.walk.make(tables, choice)?;
                    return Ok(true);
                }
            }
            blamed = branch.blamed.with(branch.blocks);
            self.note_failed(&branch, blamed)?;
        }
        Ok(false)
    }

    // What a place fails for that is one of these, where it is known that it does.
    fn blamed_at(&self, part: u64, whole: u64) -> Option<BlockSet> {
        match self.failed.get(&part) {
            Some(blamed) => Some(*blamed),
            None => self.failed.get(&whole).copied(),
        }
    }

    // The blocks that these choices change, of those that have to do with them.
    fn changed_by(&self, choices: usize, blocks: BlockSet) -> BlockSet {
        if blocks == BlockSet::ALL {
            return blocks;
        }
        let mut changed = BlockSet::NONE;
        for place in choices..self.choices.len() {
            match self.choices.get(place) {
                Some(Choice::Unit(number) | Choice::Compared(number, _)) => {
                    if let Some(ticket) = self.walk.ticket(*number) {
                        changed = changed.with(ticket.blocks());
                    }
                }
                Some(_) | None => return BlockSet::ALL,
            }
        }
        changed
    }

    // Goes on from a place with these choices, and comes back to it; or says what they fail for, where that is known.
    fn open(
        &mut self,
        tables: &TraceTables,
        choices: usize,
        blocks: BlockSet,
    ) -> Result<Option<BlockSet>, NoMemory> {
        let whole = self.walk.state();
        let part = if blocks == BlockSet::ALL {
            whole
        } else {
            self.walk.state_on(tables, blocks)
        };
        let known = self.blamed_at(part, whole);
        if known.is_some() {
            return Ok(known);
        }
        let moves = self.walk.moves().len();
        let changed = self.changed_by(choices, blocks);
        self.branches.push(Branch {
            moves,
            choices,
            changed,
            blocks,
            blamed: BlockSet::NONE,
            whole,
            part,
        })?;
        Ok(None)
    }

    // Takes the best of what can be done, and keeps the others for later.
    fn branch(&mut self, tables: &TraceTables) -> Result<bool, NoMemory> {
        let choices = self.choices.len();
        let near = std::mem::replace(&mut self.near, Vec::new(self.walk.alloc));
        let around = look_around(&self.walk, tables, near)?;
        add_choices(&self.walk, tables, &around, &mut self.choices)?;
        put_best_last(&self.walk, tables, &around, choices, &mut self.choices);
        let Around {
            target: _,
            tickets,
            units_alone: _,
            blocks,
        } = around;
        self.near = tickets;
        if self.choices.len() <= choices {
            return self.go_back(tables, blocks);
        }
        if let Some(blamed) = self.open(tables, choices, blocks)? {
            self.choices.truncate(choices);
            return self.go_back(tables, blamed);
        }
        if let Some(choice) = self.choices.pop() {
            self.walk.make(tables, choice)?;
        }
        Ok(true)
    }

    /// Searches, so many steps at most.
    pub(crate) fn run(&mut self, tables: &TraceTables, steps: u64) -> Result<End, NoMemory> {
        for used in 0..steps {
            self.left = steps.saturating_sub(used);
            self.furthest = self.furthest.max(self.walk.at);
            if self.walk.at >= tables.lines.len() {
                return Ok(End::Found);
            }
            let goes_on = match forced(&self.walk, tables) {
                Some(choice) => {
                    self.walk.make(tables, choice)?;
                    true
                }
                None => self.branch(tables)?,
            };
            if !goes_on {
                return Ok(End::Tried);
            }
        }
        Ok(End::StepsUsed)
    }
}

// Has the entries be refused that this history takes to be so.
fn note_refused(walk: &Walk, tables: &mut TraceTables) {
    for ticket in walk.tickets.as_slice() {
        if ticket.refused {
            tables.refuse(ticket.queue, ticket.first);
        }
    }
}

// What was found by a search that ended so.
fn found_by(seeker: Seeker, tables: &mut TraceTables, end: End) -> Outcome {
    match end {
        End::StepsUsed => Outcome::GaveUp,
        End::Tried => Outcome::NotFound(seeker.furthest),
        End::Found => {
            if tables.unfit.is_some() {
                return Outcome::NotFound(seeker.furthest);
            }
            note_refused(&seeker.walk, tables);
            Outcome::History(seeker.walk)
        }
    }
}

/// Looks for a history that explains the trace that these tables are of, in so many steps at most. Where contents are
/// unknown it first takes it that no block held what only later Writes write, and then leaves that open. The entries
/// that a found history takes to be refused are refused in the tables behind it. It says nothing that could be relied
/// on.
///
/// # Errors
///
/// `NoMemory` where a growth is refused.
pub fn search_all(
    alloc: Global,
    tables: &mut TraceTables,
    steps: u64,
) -> Result<Outcome, NoMemory> {
    let mut seeker = Seeker::new(alloc, tables)?;
    let end = seeker.run(tables, steps)?;
    if end != End::Tried || !tables.options.contents_unknown {
        return Ok(found_by(seeker, tables, end));
    }
    tables.leave_open();
    let mut other = Seeker::new(alloc, tables)?;
    let end = other.run(tables, seeker.left)?;
    other.furthest = other.furthest.max(seeker.furthest);
    Ok(found_by(other, tables, end))
}

/// How a search for a history that explains the trace ends that these tables are of.
///
/// # Errors
///
/// `NoMemory` where a growth is refused.
pub(crate) fn ending(alloc: Global, tables: &mut TraceTables, steps: u64) -> Result<End, NoMemory> {
    match search_all(alloc, tables, steps)? {
        Outcome::History(_) => Ok(End::Found),
        Outcome::NotFound(_) => Ok(End::Tried),
        Outcome::GaveUp => Ok(End::StepsUsed),
    }
}
