//! The text of a trace, read whole.

ghost use Rattle.std.specs.Prelude.{◌≡◌, ◌++◌, ◌∷◌, [], IfErr, IfOk, IfSome, OnOk, is_some};
ghost use Rattle.std.specs.Io.KnownBytes.{IsAtEnd};
ghost use Rattle.nvme_model.specs.History.{Past};
ghost use Rattle.nvme_model.specs.declared.config.ConfigNumbers.{ConfigNumbers};
ghost use Rattle.trace.specs.Aside.{history_numbers};
ghost use Rattle.casdisk_texts.specs.Traces.{HasCollected, HasTrace, IsTraceUnread, TakesOption, line_kept};
ghost use Rattle.casdisk_texts.specs.Traces.{config_after as the_config_after, wider_config};

use crate::fault::RunFault;
use crate::first_line::read_first;
use crate::meaning::{LineMeaning, Taken, WriteFault};
use crate::running::run_lines;
use history::{Config, LineFault};
use line_text::Lines;
use std::alloc::{AllocError as NoMemory, Global};
use std::io::{Read, Write};
use trace::{Seen, TraceOption, TraceOptions, parse_option, parse_seen};

/// A configuration, how the trace is to be read, and what was seen, the oldest first.
#[derive(Drop)]
pub struct Trace {
    pub config: Config,
    pub options: TraceOptions,
    /// The configuration of a history of it: the same, or one with a queue pair more, where contents are unknown.
    pub history: Config,
    pub things: Vec<Seen>,
}

// The configuration with one queue pair more, where there is room for it.
#[tactic(auto, using(witness_check::proofs::Queues::few_pairs))]
fn unknown_config(config: &Config) -> Option<Config>
    ensures value { result ≡ wider_config config.now }
{
    let mut numbers = config.numbers();
    let pairs = numbers.pairs + 1;
    if numbers.cqs == numbers.pairs {
        numbers.cqs = pairs;
    }
    numbers.pairs = pairs;
    match Config::from_numbers(&numbers) {
        Ok(wide) => Some(wide),
        Err(_) => None,
    }
}

// The configuration of a history, after one option more; None where there is no room for it.
fn config_after(wide: Option<Config>, config: Config, option: &TraceOption) -> Option<Config>
    ensures value { result ≡ the_config_after wide config option.now }
{
    match option {
        TraceOption::ContentsUnknown => wide,
        TraceOption::StatusesAny => Some(config),
        TraceOption::Ignore(_) => Some(config),
    }
}

// Keeps what lines say.
#[derive(Drop)]
pub(crate) struct Collector {
    alloc: Global,
    // with one queue pair more, where there is room for it
    wide: Option<Config>,
    // of a history
    history: Config,
    options: TraceOptions,
    // of the last line of the head; 4 behind something seen
    rank: u8,
    things: Vec<Seen>,
}

impl Collector {
    fn keep(&mut self, thing: Seen) -> Result<(), NoMemory>
        ensures kept { OnOk result ((self.new.things.items ≡ self.old.things.items ++ thing ∷ [])
            × (self.new.rank ≡ 4) × (self.new.options ≡ self.old.options) × (self.new.history ≡ self.old.history)
            × (self.new.wide ≡ self.old.wide)) }
    {
        self.things.push(thing)?;
        self.rank = 4;
        Ok(())
    }

    // Keeps an option, where it may stand there.
    fn keep_option(&mut self, option: &TraceOption) -> Taken
        ensures taken { (c : ConfigNumbers) (past : Past) → HasCollected c self.old.wide self.old.history
            self.old.options self.old.rank self.old.things.items past →
            TakesOption result (is_some self.old.wide) past option.now
            (HasCollected c self.new.wide self.new.history self.new.options self.new.rank self.new.things.items) }
        ensures same { self.new.wide ≡ self.old.wide }
    {
        let rank = option.rank();
        if self.rank >= rank {
            return Taken::Bad;
        }
        let Some(history) = config_after(self.wide, self.history, option) else {
            return Taken::Bad;
        };
        self.history = history;
        self.options = option.added_to(self.options);
        self.rank = rank;
        Taken::Done
    }
}

impl LineMeaning for Collector {
    ghost stands = { λ m c past. HasCollected c m.wide m.history m.options m.rank m.things.items past };

    ghost meaning = { λ m. line_kept (is_some m.wide) };

    fn take_line<W: Write>(&mut self, line: &[u8], _writer: &mut W) -> Result<Taken, WriteFault> {
        if let Some(option) = parse_option(line) {
            return Ok(self.keep_option(&option));
        }
        let thing = match parse_seen(self.alloc, line) {
            Ok(thing) => thing,
            Err(LineFault::Malformed) => return Ok(Taken::Bad),
            Err(LineFault::NoMemory) => return Err(WriteFault::NoMemory),
        };
        match self.keep(thing) {
            Ok(()) => Ok(Taken::Done),
            Err(_) => Err(WriteFault::NoMemory),
        }
    }
}

/// Reads a configuration line, the lines of options behind it, and the lines of a trace to the reader's end.
///
/// # Errors
///
/// `BadLine` with the number of the first line that is none, `BadConfig` where the configuration is refused, `Input`
/// where reading failed and no line before is bad, and `NoMemory`.
pub fn read_trace<R: Read>(alloc: Global, reader: &mut R) -> Result<Trace, RunFault>
    ensures whole { IfOk result (λ trace. IsAtEnd (R.remaining reader.new) × IfSome (R.remaining reader.old)
        (HasTrace (λ o c things. (o ≡ trace.options) × (c ≡ trace.config) × (things ≡ trace.things.items)
        × (trace.history ≡ history_numbers o c)))) }
    ensures unread { IfErr result
        (λ fault. IsTraceUnread fault (R.remaining reader.old) (R.remaining reader.new)) }
{
    let Ok(mut lines) = Lines::new(alloc) else {
        return Err(RunFault::NoMemory);
    };
    let mut line = Vec::new(alloc);
    let config = read_first(alloc, &mut lines, &mut line, reader)?;
    let mut collector = Collector {
        alloc,
        wide: unknown_config(&config),
        history: config,
        options: TraceOptions::none(),
        rank: 0,
        things: Vec::new(alloc),
    };
    let mut unprinted: Vec<u8> = Vec::new(alloc);
    match run_lines(
        &mut collector,
        &mut lines,
        &mut line,
        reader,
        &mut unprinted,
    ) {
        Ok(()) => Ok(Trace {
            config,
            options: collector.options,
            history: collector.history,
            things: collector.things,
        }),
        Err(fault) => Err(fault.in_memory()),
    }
}
