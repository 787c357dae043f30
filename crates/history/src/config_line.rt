//! The configuration line of a script or a history.

ghost use Rattle.std.specs.Prelude.{◌≡◌, ◌∷◌, Some, IfOk, OnOk, OnErr, codes, map};
ghost use Rattle.std.specs.Io.KnownBytes.{Appends};
ghost use Rattle.std.specs.List.{join_with_byte};
ghost use Rattle.line_text.specs.Known.{AppendsFront};
ghost use Rattle.line_text.specs.Number.{number_in};
ghost use Rattle.nvme_model.specs.declared.config.ConfigNumbers.{ConfigNumbers};
ghost use Rattle.history.specs.ConfigLine.{HasConfigLine, atomic_from, config_in, config_line, config_words};
ghost use Rattle.history.specs.ConfigLine.{config_words_in, nine_in, nine_words, nine_words_in, ten_words};
ghost use Rattle.history.specs.ConfigLine.{ten_words_in, with_queues};
ghost use Rattle.history.specs.Gives.{GivesRead};

use crate::line_fault::LineFault;
use crate::lines_there::config_fits;
use line_text::{Word, read_u16, read_u32, send_behind, send_words, split_words};
use nvme_model::config::{AtomicParameters, ConfigNumbers};
use std::alloc::Global;
use std::io::{Result as IoResult, Write};

// The numbers of the cut that four words spell.
fn atomic_of(awun: &[u8], acwu: &[u8], nabsn: &[u8], nabo: &[u8]) -> Option<AtomicParameters>
    ensures { result ≡
        atomic_from (number_in 16 awun.now) (number_in 16 acwu.now) (number_in 16 nabsn.now) (number_in 16 nabo.now) }
{
    let awun = read_u16(awun)?;
    let acwu = read_u16(acwu)?;
    let nabsn = read_u16(nabsn)?;
    let nabo = read_u16(nabo)?;
    Some(AtomicParameters {
        awun,
        acwu,
        nabsn,
        nabo,
    })
}

// The configuration that nine words spell, with as many completion queues as submission queues.
fn nine_of(
    blocks: &[u8],
    awun: &[u8],
    acwu: &[u8],
    nabsn: &[u8],
    nabo: &[u8],
    pairs: &[u8],
    sq: &[u8],
    cq: &[u8],
    jobs: &[u8],
) -> Option<ConfigNumbers>
    ensures { result ≡ nine_in blocks.now awun.now acwu.now nabsn.now nabo.now pairs.now sq.now cq.now jobs.now }
{
    let blocks = read_u32(blocks)?;
    let atomic = atomic_of(awun, acwu, nabsn, nabo)?;
    let pairs = read_u16(pairs)?;
    let sq_size = read_u16(sq)?;
    let cq_size = read_u16(cq)?;
    let jobs = read_u16(jobs)?;
    Some(ConfigNumbers {
        blocks,
        atomic,
        pairs,
        sq_size,
        cq_size,
        jobs,
        cqs: pairs,
    })
}

// The configuration with this number of completion queues, which has to be another than that of submission queues.
fn with_queues(config: Option<ConfigNumbers>, cqs: &[u8]) -> Option<ConfigNumbers>
    ensures { result ≡ with_queues config (number_in 16 cqs.now) }
{
    let config = config?;
    let cqs = read_u16(cqs)?;
    if cqs == config.pairs {
        return None;
    }
    Some(ConfigNumbers { cqs, ..config })
}

#[tactic(auto, unfolding(crate::specs::ConfigLine::nine_words_in))]
fn nine_words_of(words: &[&[u8]]) -> Option<ConfigNumbers>
    ensures { result ≡ nine_words_in (map (λ w. w.now) words.now) }
{
    let [blocks, awun, acwu, nabsn, nabo, pairs, sq, cq, jobs] = words else {
        return None;
    };
    nine_of(blocks, awun, acwu, nabsn, nabo, pairs, sq, cq, jobs)
}

#[tactic(auto, unfolding(crate::specs::ConfigLine::ten_words_in))]
fn ten_words_of(words: &[&[u8]]) -> Option<ConfigNumbers>
    ensures { result ≡ ten_words_in (map (λ w. w.now) words.now) }
{
    let [blocks, awun, acwu, nabsn, nabo, pairs, sq, cq, jobs, cqs] = words else {
        return None;
    };
    let config = nine_of(blocks, awun, acwu, nabsn, nabo, pairs, sq, cq, jobs);
    with_queues(config, cqs)
}

#[tactic(auto, unfolding(crate::specs::ConfigLine::config_words_in))]
fn config_of(words: &[&[u8]]) -> Option<ConfigNumbers>
    ensures { result ≡ config_words_in (map (λ w. w.now) words.now) }
{
    let (kind, others) = words.split_first()?;
    if *kind == b"config".as_slice() {
        return nine_words_of(others);
    }
    if *kind == b"config2".as_slice() {
        return ten_words_of(others);
    }
    None
}

#[tactic(auto, unfolding(crate::specs::ConfigLine::config_in))]
fn read_config(alloc: Global, line: &[u8]) -> Result<ConfigNumbers, LineFault>
    ensures { GivesRead result (config_in line.now) }
{
    let words = split_words(alloc, line, b' ')?;
    match config_of(words.as_slice()) {
        Some(config) => Ok(config),
        None => Err(LineFault::Malformed),
    }
}

/// Reads the configuration line, without its line feed: the numbers, accepted or not.
///
/// # Errors
///
/// `Malformed` for whatever isn't such a line, so also for a `config2` whose completion queues are as many as its
/// submission queues; `NoMemory` where a growth was refused.
pub fn read_config_line(alloc: Global, line: &[u8]) -> Result<ConfigNumbers, LineFault>
    ensures value { GivesRead result (config_in line.now) }

    // What is read has this line.
    ensures found { IfOk result (λ c. line.now ≡ config_line c) }

    // What has this line is read, unless memory runs out: so nothing else is malformed.
    ensures only { (c : ConfigNumbers) → HasConfigLine c → line.now ≡ config_line c → GivesRead result (Some c) }
{
    read_config(alloc, line)
}

/// Writes the configuration line, without its line feed; it takes no memory.
///
/// After an `Err` the writer has some beginning of it.
pub fn write_config_line<W: Write>(numbers: &ConfigNumbers, writer: &mut W) -> IoResult<()>
    ensures whole { OnOk result
        (Appends (W.contents writer.old) (W.contents writer.new) (config_line numbers.now)) }
    ensures front { OnErr result
        (AppendsFront (W.contents writer.old) (W.contents writer.new) (config_line numbers.now)) }
    ensures line { HasConfigLine numbers.now }
{
    config_fits(numbers);
    let c = numbers;
    if c.cqs == c.pairs {
        write_nine(writer, b"config", c)
    } else {
        write_ten(writer, c)
    }
}

// Writes this word and the nine numbers.
fn write_nine<'a, W: Write>(writer: &mut W, kind: &'a [u8], numbers: &ConfigNumbers) -> IoResult<()>
    ensures whole { OnOk result
        (Appends (W.contents writer.old) (W.contents writer.new)
        (join_with_byte 32 (kind.now ∷ nine_words numbers.now))) }
    ensures front { OnErr result
        (AppendsFront (W.contents writer.old) (W.contents writer.new)
        (join_with_byte 32 (kind.now ∷ nine_words numbers.now))) }
{
    let c = numbers;
    send_words(
        writer,
        &[
            Word::Text(kind),
            Word::Number(u64::from(c.blocks)),
            Word::Number(u64::from(c.atomic.awun)),
            Word::Number(u64::from(c.atomic.acwu)),
            Word::Number(u64::from(c.atomic.nabsn)),
            Word::Number(u64::from(c.atomic.nabo)),
            Word::Number(u64::from(c.pairs)),
            Word::Number(u64::from(c.sq_size)),
            Word::Number(u64::from(c.cq_size)),
            Word::Number(u64::from(c.jobs)),
        ],
    )
}

// Writes the line of ten numbers.
fn write_ten<W: Write>(writer: &mut W, numbers: &ConfigNumbers) -> IoResult<()>
    ensures whole { OnOk result
        (Appends (W.contents writer.old) (W.contents writer.new)
        (join_with_byte 32 (codes "config2" ∷ ten_words numbers.now))) }
    ensures front { OnErr result
        (AppendsFront (W.contents writer.old) (W.contents writer.new)
        (join_with_byte 32 (codes "config2" ∷ ten_words numbers.now))) }
{
    write_nine(writer, b"config2", numbers)?;
    send_behind(writer, &[Word::Number(u64::from(numbers.cqs))])
}
