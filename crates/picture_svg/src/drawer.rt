//! The entries of a file, one a line, judged and drawn as they come.

ghost use Rattle.std.specs.Prelude.{◌≡◌, [], IfOk, List, OnOk, ℕ};
ghost use Rattle.picture_svg.specs.Drawn.{HasDrawn, drawn_next, steps_to};
ghost use Rattle.picture_svg.specs.declared.drawer.DrawOptions.{DrawOptions};

use crate::web_page::explained_by;
use casdisk_texts::{EntryMeaning, FirstBad, Judge};
use history::{Config, Entry};
use picture_shapes::{Aspect, Picture, PictureWords};
use std::alloc::{AllocError as NoMemory, Global};
use std::string::ToString;

/// The most steps that are drawn.
pub(crate) const MOST_STEPS: u64 = 10_000;

/// What is drawn of a history: its steps from one place to another, from 1, and what is shown besides.
#[derive(Clone, Copy, Debug, PartialEq, Eq)]
pub struct DrawOptions {
    pub from: u64,
    pub to: u64,
    pub aspect: Aspect,
}

// Judges and draws entries, and keeps none of them.
#[derive(Drop)]
pub(crate) struct Drawer {
    alloc: Global,
    pub(crate) config: Config,
    pub(crate) options: DrawOptions,
    pub(crate) judge: Judge<true>,
    pub(crate) picture: Picture,
}

// How many steps are drawn up to this place.
pub(crate) fn steps_to(options: &DrawOptions, place: u64) -> u64
    ensures value { result ≡ steps_to options.now.from options.now.to place }
{
    place
        .min(options.to)
        .saturating_sub(options.from.saturating_sub(1))
}

// Says which rule the first bad step breaks.
fn bad_words(alloc: Global, bad: FirstBad) -> Result<PictureWords, NoMemory> {
    let words = explained_by(bad).to_string(alloc)?;
    Ok(PictureWords::new(words))
}

// Draws the entry at this place, where no bad one precedes it, and there aren't too many to draw.
fn draw(
    alloc: Global,
    config: &Config,
    options: &DrawOptions,
    place: u64,
    bad: FirstBad,
    entry: &Entry,
    picture: &mut Picture,
) -> Result<(), NoMemory>
    ensures drawn { OnOk result ((words : List ℕ) × (picture.new
        ≡ drawn_next config.now options.now.from options.now.to words bad.place place entry.now picture.old)) }
{
    if steps_to(options, place) > MOST_STEPS {
        return Ok(());
    }
    if bad.place.is_none() {
        return picture.take(config, place, entry);
    }
    let words = bad_words(alloc, bad)?;
    picture.take_bad(place, entry, words)
}

impl Drawer {
    // One that has drawn no entry.
    pub(crate) fn new(
        alloc: Global,
        config: &Config,
        options: &DrawOptions,
    ) -> Result<Drawer, NoMemory>
        ensures begun { IfOk result (λ x. HasDrawn config.now x.options [] x.config x.judge.checker x.judge.count
            x.judge.bad x.picture) }
        ensures options { IfOk result (λ x. x.options ≡ options.now) }
    {
        Ok(Drawer {
            alloc,
            config: *config,
            options: *options,
            judge: Judge::new(alloc, config)?,
            picture: Picture::new(alloc, options.from, options.to, options.aspect),
        })
    }
}

impl EntryMeaning for Drawer {
    ghost stands = { λ m c past. HasDrawn c m.options past m.config m.judge.checker m.judge.count m.judge.bad
        m.picture };

    ghost Kept = { DrawOptions };

    ghost kept = { λ m. m.options };

    fn take_entry(&mut self, entry: Entry) -> Result<(), NoMemory> {
        let ended = self.judge.bad.place.is_some();
        self.judge.judge(&entry)?;
        if ended {
            return Ok(());
        }
        let count = self.judge.count;
        let bad = self.judge.bad;
        draw(
            self.alloc,
            &self.config,
            &self.options,
            count,
            bad,
            &entry,
            &mut self.picture,
        )?;
        Ok(())
    }
}
