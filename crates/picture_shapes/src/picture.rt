//! The picture of a history, made entry by entry.

ghost use Rattle.std.specs.Prelude.{◌≡◌, OnOk, option_map};
ghost use Rattle.picture_shapes.specs.Picture.{no_picture, picture_after, picture_ended, with_head};

use crate::bars::Bars;
use crate::head::{Head, head_of};
use crate::lanes::{Lanes, LanesShown};
use crate::picture_words::PictureWords;
use crate::ticket_boxes::TicketBoxes;
use history::{Config, Entry};
use std::alloc::{AllocError as NoMemory, Global};
use std::marker::Model;

/// The first bad step of a history: its place, and which rule it breaks, in words.
#[derive(Debug, Drop)]
pub struct BadColumn {
    pub place: u64,
    pub words: PictureWords,
}

/// Of what a picture is.
#[derive(Clone, Copy, Debug, PartialEq, Eq)]
pub enum Subject {
    /// A history.
    History,
    /// A history that explains what hosts saw, of which each Publish and each Reap is what they saw.
    Witness,
}

/// What a picture shows besides entries and tickets: of what it is, and which lanes of blocks and of slots.
#[derive(Clone, Copy, Debug, PartialEq, Eq)]
pub struct Aspect {
    pub subject: Subject,
    pub lanes: LanesShown,
}

/// What is drawn of the entries from one place to another: a column each, with what was open before and what is open
/// behind. Its size grows with what is drawn, and not with the entries before it.
#[derive(Drop)]
pub struct Picture {
    alloc: Global,
    from: u64,
    to: u64,
    subject: Subject,
    last: u64,
    heads: Vec<Head>,
    bars: Bars,
    tickets: TicketBoxes,
    lanes: Lanes,
    bad: Option<BadColumn>,
}

impl Model for Picture {
    ghost use Rattle.picture_shapes.specs.Picture.{PictureState};

    ghost Value = { PictureState };

    ghost view = { λ p. record {
      from = p.from;
      to = p.to;
      subject = p.subject;
      last = p.last;
      heads = p.heads.items;
      bars = p.bars;
      tickets = p.tickets;
      lanes = p.lanes;
      bad = p.bad;
    } };
}

impl Picture {
    /// A picture of the entries at these places, from 1, with none taken yet.
    pub fn new(alloc: Global, from: u64, to: u64, aspect: Aspect) -> Picture
        ensures none { result ≡ no_picture from to aspect }
    {
        Picture {
            alloc,
            from,
            to,
            subject: aspect.subject,
            last: 0,
            heads: Vec::new(alloc),
            bars: Bars::new(alloc),
            tickets: TicketBoxes::new(alloc),
            lanes: Lanes::new(alloc, aspect.lanes),
            bad: None,
        }
    }

    // Adds the head of a column, from `from` on.
    fn add_head(&mut self, place: u64, entry: &Entry) -> Result<(), NoMemory>
        ensures value { OnOk result (self.new ≡ with_head place entry.now self.old) }
    {
        if place < self.from {
            return Ok(());
        }
        let head = head_of(self.alloc, place, entry)?;
        if self.heads.push(head).is_err() {
            return Err(NoMemory);
        }
        Ok(())
    }

    /// Takes the entry at this place, which may follow.
    ///
    /// # Errors
    ///
    /// `NoMemory` where a growth is refused.
    pub fn take(&mut self, config: &Config, place: u64, entry: &Entry) -> Result<(), NoMemory>
        ensures value { OnOk result (self.new ≡ picture_after config.now place entry.now self.old) }
    {
        if self.to < place {
            return Ok(());
        }
        self.bars.take(config, self.from, place, entry)?;
        self.tickets.take(self.from, place, entry)?;
        self.lanes.take(config, self.from, place, entry)?;
        self.add_head(place, entry)?;
        self.last = place;
        Ok(())
    }

    /// Takes the entry at this place, which is the first that may not follow, with the rule that it breaks in words.
    /// Nothing is drawn of it but its head and the words.
    ///
    /// # Errors
    ///
    /// `NoMemory` where a growth is refused.
    pub fn take_bad(
        &mut self,
        place: u64,
        entry: &Entry,
        words: PictureWords,
    ) -> Result<(), NoMemory>
        ensures value { OnOk result (self.new ≡ picture_ended words place entry.now self.old) }
    {
        if self.to < place {
            return Ok(());
        }
        self.add_head(place, entry)?;
        self.last = place;
        if self.from <= place {
            self.bad = Some(BadColumn { place, words });
        }
        Ok(())
    }

    pub fn from(&self) -> u64
        ensures { result ≡ self.now.from }
    {
        self.from
    }

    /// Of what it is a picture.
    pub fn subject(&self) -> Subject
        ensures { result ≡ self.now.subject }
    {
        self.subject
    }

    /// The place of the last entry that was taken, up to `to`.
    pub fn last(&self) -> u64
        ensures { result ≡ self.now.last }
    {
        self.last
    }

    pub fn heads(&self) -> &[Head]
        ensures { result.now ≡ self.now.heads }
    {
        self.heads.as_slice()
    }

    pub fn bars(&self) -> &Bars
        ensures { result.now ≡ self.now.bars }
    {
        &self.bars
    }

    pub fn tickets(&self) -> &TicketBoxes
        ensures { result.now ≡ self.now.tickets }
    {
        &self.tickets
    }

    /// The lanes of blocks and of slots.
    pub fn lanes(&self) -> &Lanes
        ensures { result.now ≡ self.now.lanes }
    {
        &self.lanes
    }

    pub fn bad(&self) -> Option<&BadColumn>
        ensures { option_map (λ bad. bad.now) result ≡ self.now.bad }
    {
        self.bad.as_ref()
    }
}
