//! Lines of a history from a place on.

ghost use Rattle.std.specs.Prelude.{◌++◌, ◌+◌, ◌<◌, ◌∷◌, ◌≡◌, ◌≤◌, [], IfOk, MatchOption, None, Ok, OnOk, drop, false};
ghost use Rattle.std.specs.Prelude.{length, true};
ghost use Rattle.history.specs.ConfigLine.{config_line};
ghost use Rattle.history.specs.Lines.{entry_line};
ghost use Rattle.history.specs.Texts.{history_lines};
ghost use Rattle.c_handles.specs.Pieces.{AddsLine, IsForgotten, IsPiece, lines_told};

use history::{Config, Entry, write_config_line, write_line};
use std::alloc::{AllocError as NoMemory, Global};
use step_core::Core;

/// The text of some lines, each with its line feed.
#[derive(Drop)]
pub struct Piece {
    /// The lines; behind those that fit stands the one that doesn't, where there is one.
    pub text: Vec<u8>,
    /// How many bytes the lines have that fit.
    pub fit: usize,
    /// The place of the first line that isn't among those.
    pub next: usize,
}

// Adds the configuration's line, with its line feed.
fn add_config(config: &Config, text: &mut Vec<u8>) -> Result<(), NoMemory>
    ensures { OnOk result (text.new.items ≡ text.old.items ++ (config_line config.now ++ 10 ∷ [])) }
{
    if write_config_line(&config.numbers(), text).is_err() {
        return Err(NoMemory);
    }
    text.push(b'\n')?;
    Ok(())
}

// Adds the line of an entry, with its line feed.
fn add_entry(entry: &Entry, text: &mut Vec<u8>) -> Result<(), NoMemory>
    ensures { OnOk result (text.new.items ≡ text.old.items ++ (entry_line entry.now ++ 10 ∷ [])) }
{
    if write_line(entry, text).is_err() {
        return Err(NoMemory);
    }
    text.push(b'\n')?;
    Ok(())
}

// Adds the line at a place, with its line feed.
fn add_line(
    config: &Config,
    entries: &[Entry],
    place: usize,
    text: &mut Vec<u8>,
) -> Result<(), NoMemory>
    requires { place ≤ length entries.now }
    ensures { OnOk result (AddsLine (history_lines config.now entries.now) place text.old.items text.new.items) }
{
    match place.checked_sub(1) {
        None => add_config(config, text),
        Some(behind) => add_entry(&entries[behind], text),
    }
}

/// The lines of a history from a place on that fit into so many bytes. Place 0 is the configuration's, and place k the
/// k-th entry's. It takes as long as these lines and the one behind them have bytes, however long the history is.
///
/// # Errors
///
/// `NoMemory` where the text couldn't be made.
pub fn piece_of(
    alloc: Global,
    config: &Config,
    entries: &[Entry],
    from: usize,
    room: usize,
) -> Result<Piece, NoMemory>
    ensures { IfOk result (IsPiece (drop from (history_lines config.now entries.now)) from room) }
{
    // A line is spelled before it is known whether it fits, and where memory is refused nothing may
    // stand in the caller's room: so the lines are made beside it.
    let mut text = Vec::new(alloc);
    let Some(count) = entries.len().checked_add(1) else {
        return Err(NoMemory);
    };
    for place in from..count {
        let fit = text.len();
        add_line(config, entries, place, &mut text)?;
        if text.len() > room {
            return Ok(Piece {
                text,
                fit,
                next: place,
            });
        }
    }
    let fit = text.len();
    Ok(Piece {
        text,
        fit,
        next: from + count.saturating_sub(from),
    })
}

// A piece of the same lines, which stand so many places later.
fn moved_on(piece: Piece, by: usize) -> Result<Piece, NoMemory>
    ensures { IfOk result (λ p. p ≡ record piece { next = piece.next + by }) }
{
    let Piece { text, fit, next } = piece;
    match next.checked_add(by) {
        Some(next) => Ok(Piece { text, fit, next }),
        None => Err(NoMemory),
    }
}

// The lines of a controller's history from a place on, which isn't forgotten, that fit into so many bytes.
fn piece_from(alloc: Global, core: &Core, from: usize, room: usize) -> Result<Piece, NoMemory>
    requires { 0 < from → core.now.forgotten < from }
    ensures { IfOk result (IsPiece (lines_told core.now from) from room) }
{
    let config = core.config();
    let history = core.history();
    let forgotten = history.forgotten();
    if forgotten == 0 {
        let piece = piece_of(alloc, &config, history.as_slice(), from, room)?;
        return Ok(piece);
    }
    if from == 0 {
        let first = piece_of(alloc, &config, &[], 0, room)?;
        return Ok(first);
    }
    let kept = piece_of(alloc, &config, history.as_slice(), from - forgotten, room)?;
    let moved = moved_on(kept, forgotten)?;
    Ok(moved)
}

// Whether the entry at a place of a controller's history was forgotten.
fn is_forgotten(core: &Core, place: usize) -> bool
    ensures forgotten { result ≡ true → IsForgotten core.now place }
    ensures kept { result ≡ false → 0 < place → core.now.forgotten < place }
{
    place > 0 && place <= core.history().forgotten()
}

/// The lines of a controller's history from a place on that fit into so many bytes; None where the entry at that place
/// was forgotten. Where the first entry was, place 0 has the configuration's line alone.
///
/// # Errors
///
/// As `piece_of`.
pub fn piece_told(
    alloc: Global,
    core: &Core,
    from: usize,
    room: usize,
) -> Result<Option<Piece>, NoMemory>
    ensures told { IfOk result (λ o. MatchOption o (IsForgotten core.now from)
        (IsPiece (lines_told core.now from) from room)) }
    ensures gone { IsForgotten core.now from → result ≡ Ok None }
{
    if is_forgotten(core, from) {
        return Ok(None);
    }
    match piece_from(alloc, core, from, room) {
        Ok(piece) => Ok(Some(piece)),
        Err(NoMemory) => Err(NoMemory),
    }
}
