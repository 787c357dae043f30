//! What is tried, one after the other.

use crate::blocks::most_blocks;
use crate::edits::Edit;
use crate::numbers::{Search, digits_of};
use crate::text_line::TextLine;
use crate::tickets::{count_fetches, ticket_at};
use crate::words::{may_be_data, smaller_data};
use line_text::{read_u64, split_words};
use std::alloc::{AllocError as NoMemory, Global};

// A word of a line, and how far it was made smaller.
#[derive(Clone, Copy, Drop)]
enum WordStage {
    /// Nothing was tried.
    New,
    /// A number, wherever the line has it.
    Everywhere(Search),
    /// A number in this place alone.
    Here(Search),
    /// Data, by the number of the try.
    Data(usize),
}

#[derive(Clone, Copy, Drop)]
enum Stage {
    /// So many lines from a place on are left out.
    Parts {
        size: usize,
        at: usize,
    },
    /// The ticket with this number is left out, with its `publish` line or without.
    Tickets {
        number: u64,
        with_publish: bool,
    },
    /// The entries of a line have fewer blocks.
    Blocks {
        line: usize,
        search: Option<Search>,
    },
    /// A word of a line is made smaller.
    Words {
        line: usize,
        word: usize,
        stage: WordStage,
    },
    Done,
}

/// What is tried, by what was tried before: parts of the lines by halves, tickets, blocks, numbers and data, and all
/// that again as long as something worked, in eight rounds at most.
#[derive(Clone, Copy, Drop)]
pub(crate) struct Plan {
    stage: Stage,
    // whether the stage waits for an answer
    tried: bool,
    // whether something worked in this round
    changed: bool,
    rounds: u32,
}

// What comes next.
#[derive(Drop)]
enum Next {
    Try(Edit),
    Stage(Stage),
}

// Parts of half of so many lines.
fn halves(count: usize) -> Stage {
    Stage::Parts {
        size: (count / 2).max(1),
        at: 0,
    }
}

fn next_part(lines: &[TextLine], size: usize, at: usize) -> Next {
    if at < lines.len() {
        return Next::Try(Edit::Without {
            from: at,
            to: at.saturating_add(size),
        });
    }
    if size > 1 {
        return Next::Stage(Stage::Parts {
            size: size / 2,
            at: 0,
        });
    }
    Next::Stage(Stage::Tickets {
        number: count_fetches(lines),
        with_publish: true,
    })
}

fn next_ticket(lines: &[TextLine], number: u64, with_publish: bool) -> Next {
    if number == 0 {
        return Next::Stage(Stage::Blocks {
            line: 0,
            search: None,
        });
    }
    match ticket_at(lines, number, with_publish) {
        Some(ticket) => Next::Try(Edit::Ticket(ticket)),
        None => Next::Stage(after_ticket(number, with_publish, false)),
    }
}

fn after_ticket(number: u64, with_publish: bool, worked: bool) -> Stage {
    if !worked && with_publish {
        return Stage::Tickets {
            number,
            with_publish: false,
        };
    }
    Stage::Tickets {
        number: number.saturating_sub(1),
        with_publish: true,
    }
}

fn next_blocks(
    alloc: Global,
    lines: &[TextLine],
    line: usize,
    search: Option<Search>,
) -> Result<Next, NoMemory> {
    if line >= lines.len() {
        return Ok(Next::Stage(first_word(0)));
    }
    let Some(search) = search else {
        let most = most_blocks(alloc, lines[line].as_slice())?;
        return Ok(Next::Stage(Stage::Blocks {
            line,
            search: Some(Search::below(most)),
        }));
    };
    match search.next() {
        Some(nlb) => Ok(Next::Try(Edit::Blocks { line, nlb })),
        None => Ok(Next::Stage(Stage::Blocks {
            line: line.saturating_add(1),
            search: None,
        })),
    }
}

// The first word of a line behind its kind.
fn first_word(line: usize) -> Stage {
    Stage::Words {
        line,
        word: 1,
        stage: WordStage::New,
    }
}

// The word behind one.
fn word_behind(line: usize, word: usize) -> Stage {
    Stage::Words {
        line,
        word: word.saturating_add(1),
        stage: WordStage::New,
    }
}

// How to begin with a word.
fn begun(text: &[u8]) -> Option<WordStage> {
    if let Some(number) = read_u64(text) {
        return Some(WordStage::Everywhere(Search::below(number)));
    }
    if may_be_data(text) {
        return Some(WordStage::Data(0));
    }
    None
}

// What to try with this text at a place of a line.
fn next_of_word(
    alloc: Global,
    text: &[u8],
    line: usize,
    word: usize,
    stage: WordStage,
) -> Result<Next, NoMemory> {
    let behind = word_behind(line, word);
    match stage {
        WordStage::New => Ok(Next::Stage(match begun(text) {
            Some(stage) => Stage::Words { line, word, stage },
            None => behind,
        })),
        WordStage::Everywhere(search) => match search.next() {
            Some(number) => Ok(Next::Try(Edit::Words {
                line,
                old: Vec::from_slice(alloc, text)?,
                new: digits_of(alloc, number)?,
            })),
            None => Ok(Next::Stage(Stage::Words {
                line,
                word,
                stage: WordStage::Here(Search::below(read_u64(text).unwrap_or(0))),
            })),
        },
        WordStage::Here(search) => match search.next() {
            Some(number) => Ok(Next::Try(Edit::Word {
                line,
                word,
                new: digits_of(alloc, number)?,
            })),
            None => Ok(Next::Stage(behind)),
        },
        WordStage::Data(number) => match smaller_data(alloc, text, number)? {
            Some(new) => Ok(Next::Try(Edit::Word { line, word, new })),
            None => Ok(Next::Stage(behind)),
        },
    }
}

fn next_word(
    alloc: Global,
    lines: &[TextLine],
    line: usize,
    word: usize,
    stage: WordStage,
) -> Result<Next, NoMemory> {
    if line >= lines.len() {
        return Ok(Next::Stage(Stage::Done));
    }
    let words = split_words(alloc, lines[line].as_slice(), b' ')?;
    if word >= words.len() {
        return Ok(Next::Stage(first_word(line.saturating_add(1))));
    }
    next_of_word(alloc, words[word], line, word, stage)
}

// The stage of a word after a try.
fn learned(stage: WordStage, worked: bool) -> WordStage {
    match stage {
        WordStage::New => WordStage::New,
        WordStage::Everywhere(search) => {
            let mut search = search;
            search.learn(worked);
            WordStage::Everywhere(search)
        }
        WordStage::Here(search) => {
            let mut search = search;
            search.learn(worked);
            WordStage::Here(search)
        }
        WordStage::Data(number) => WordStage::Data(number.saturating_add(1)),
    }
}

// The stage after a try.
fn after(stage: Stage, worked: bool) -> Stage {
    match stage {
        Stage::Parts { size, at } => Stage::Parts {
            size,
            at: if worked { at } else { at.saturating_add(size) },
        },
        Stage::Tickets {
            number,
            with_publish,
        } => after_ticket(number, with_publish, worked),
        Stage::Blocks { line, search } => Stage::Blocks {
            line,
            search: match search {
                None => None,
                Some(search) => {
                    let mut search = search;
                    search.learn(worked);
                    Some(search)
                }
            },
        },
        Stage::Words { line, word, stage } => Stage::Words {
            line,
            word,
            stage: learned(stage, worked),
        },
        Stage::Done => Stage::Done,
    }
}

impl Plan {
    /// Before anything was tried on so many lines.
    pub(crate) fn new(count: usize) -> Plan {
        Plan {
            stage: halves(count),
            tried: false,
            changed: false,
            rounds: 0,
        }
    }

    // What comes next in this stage.
    fn stage_next(&self, alloc: Global, lines: &[TextLine]) -> Result<Next, NoMemory> {
        match self.stage {
            Stage::Parts { size, at } => Ok(next_part(lines, size, at)),
            Stage::Tickets {
                number,
                with_publish,
            } => Ok(next_ticket(lines, number, with_publish)),
            Stage::Blocks { line, search } => next_blocks(alloc, lines, line, search),
            Stage::Words { line, word, stage } => next_word(alloc, lines, line, word, stage),
            Stage::Done => Ok(Next::Stage(Stage::Done)),
        }
    }

    // Whether a round is done and no other follows; else another one may have begun.
    fn ends(&mut self, count: usize) -> bool {
        if !matches!(self.stage, Stage::Done) {
            return false;
        }
        if !self.changed || self.rounds >= 8 {
            return true;
        }
        self.stage = halves(count);
        self.changed = false;
        self.rounds += 1;
        false
    }

    /// The next thing to try on these lines; whether the one before worked, if there was one. None where nothing is
    /// left.
    pub(crate) fn next(
        &mut self,
        alloc: Global,
        lines: &[TextLine],
        worked: bool,
    ) -> Result<Option<Edit>, NoMemory> {
        if self.tried {
            self.stage = after(self.stage, worked);
            self.changed = self.changed || worked;
            self.tried = false;
        }
        for _ in 0..u64::MAX {
            if self.ends(lines.len()) {
                return Ok(None);
            }
            match self.stage_next(alloc, lines)? {
                Next::Try(edit) => {
                    self.tried = true;
                    return Ok(Some(edit));
                }
                Next::Stage(stage) => self.stage = stage,
            }
        }
        Ok(None)
    }
}
