//! The command `race`.

ghost use Rattle.std.specs.Prelude.{◌≡◌, IfErr, IfOk, IfSome, Some, codes, ℕ};
ghost use Rattle.clap.specs.Words.{app_of, found_of, rows_of};
ghost use Rattle.command_line.specs.Asking.{AsksBy, IsRaceInRange, IsRefusedBy, SaysNumbers};
ghost use Rattle.command_line.specs.CommandLine.{race_app, with_race_rules, with_turn_rules};

use crate::options::Argument::{Flag, Needed, Number, NumberOr, Text};
use crate::options::{
    JSON, QUIET, WHY, flag_asked, number_asked, number_may_be, text_asked, text_of, with,
};
use crate::request::{Asked, UsageFault};
use clap::{ArgMatches, Command};
use race_numbers::{Race, RaceUsage};
use std::alloc::{AllocError, Global};

const ROUNDS: &str = "Rounds of each host, 1 to 1000";

const QUEUES: &str = "Submission queues of each host, 1 to 16";

const TRACE: &str = "Print what hosts see, the lines of a trace, in place of the history's";

const CRASH: &str = "So many hosts die, and the others take their slots over";

const SEED: &str = "Race on one thread, by turns that this seed draws";

const SEEDS: &str = "Race once by each seed from A to B, and say of each that it is legal";

const BIAS: &str = "How often who acts, as 'host=3,worker=1,fetcher=1'";

const ABOUT_RACES: &str = "\
Each host claims any slot by a fused Compare and Write, and releases it, round by round, on a thread
of its own; workers on other threads serve the controller. What is printed is a history, which
'casdisk check' reads, and which differs from run to run: see docs/RACE.md.

With a seed all of them are on one thread, and a draw says who acts next, by weights of 1 to 100,
and who finds the controller busy. The same numbers, seed and weights print the same history
everywhere, byte for byte.

With --crash some hosts stop for ever in the middle of what they do, drawn by the seed, 1 where none
is named. Once the others have made their rounds, they take the dead hosts' slots over and give them
back. A dead host publishes nothing from then on.

All hosts have at most 16 submission queues.

Exit status: 0 where all is done, 1 where there is no history, or it isn't legal or breaks the
rules of its slots, 2 after a bad command line, 3 after a failed output, 4 without memory or
threads.";

// The command with the numbers of a race.
fn with_numbers<'a>(alloc: Global, command: Command<'a>) -> Result<Command<'a>, AllocError>
    ensures { IfOk result (λ c. app_of c ≡ with_race_rules (app_of command.entry)) }
{
    let command = with(alloc, command, "hosts", Needed("H"), "Hosts, 1 to 16")?;
    let command = with(alloc, command, "workers", Needed("W"), "Workers, 1 to 16")?;
    let command = with(alloc, command, "slots", Needed("S"), "Slots, 1 to 64")?;
    let command = with(alloc, command, "rounds", NumberOr("R", "10"), ROUNDS)?;
    with(alloc, command, "queues", NumberOr("Z", "1"), QUEUES)
}

// The command with what the turns of a race are drawn from.
fn with_turns<'a>(alloc: Global, command: Command<'a>) -> Result<Command<'a>, AllocError>
    ensures { IfOk result (λ c. app_of c ≡ with_turn_rules (app_of command.entry)) }
{
    let command = with(alloc, command, "crash", Number("N"), CRASH)?;
    let command = with(alloc, command, "seed", Number("N"), SEED)?;
    let command = with(alloc, command, "seeds", Text("A..B"), SEEDS)?;
    with(alloc, command, "bias", Text("WEIGHTS"), BIAS)
}

pub(crate) fn race_command<'a>(alloc: Global) -> Result<Command<'a>, AllocError>
    ensures { IfOk result (λ c. app_of c ≡ race_app) }
{
    let command = Command::new(alloc, "race")
        .about("Lets hosts race for slots on threads and prints the controller's history")
        .after_help(ABOUT_RACES);
    let command = with_numbers(alloc, command)?;
    let command = with_turns(alloc, command)?;
    let command = with(alloc, command, "trace", Flag, TRACE)?;
    let command = with(alloc, command, "quiet", Flag, QUIET)?;
    let command = with(alloc, command, "json", Flag, JSON)?;
    with(alloc, command, "why", Flag, WHY)
}

// The numbers of a race, where its options say all of them.
fn numbers_asked(matches: &ArgMatches<'_>) -> Option<(u64, u64, u64, u64, u64)>
    ensures says { IfSome result (λ n. SaysNumbers (rows_of (found_of matches.now)) n.0 n.1 n.2 n.3 n.4) }
    ensures only { (h w s r q : ℕ) → SaysNumbers (rows_of (found_of matches.now)) h w s r q
        → result ≡ Some (h, w, s, r, q) }
{
    let hosts = number_asked(matches, "hosts")?;
    let workers = number_asked(matches, "workers")?;
    let slots = number_asked(matches, "slots")?;
    let rounds = number_asked(matches, "rounds")?;
    let queues = number_asked(matches, "queues")?;
    Some((hosts, workers, slots, rounds, queues))
}

// Why these are the numbers of no race; of too many queues a second line says how many.
fn no_race(alloc: Global, usage: RaceUsage, hosts: u64, queues: u64) -> UsageFault {
    let text = if usage == RaceUsage::TooManyQueues {
        format!(in alloc;
            "{usage}\n{hosts} hosts with {queues} queues each: at most 16 queues in all"
        )
    } else {
        format!(in alloc; "{usage}")
    };
    match text {
        Ok(text) => UsageFault::Text(text),
        Err(_) => UsageFault::NoMemory,
    }
}

pub(crate) fn race_asked<'a>(
    alloc: Global,
    matches: &ArgMatches<'a>,
) -> Result<Asked<'a>, UsageFault>
    ensures asks { IfOk result (AsksBy (codes "race") (rows_of (found_of matches.now))) }
    ensures race { IfOk result IsRaceInRange }
    ensures refuses { IfErr result (IsRefusedBy (codes "race") (rows_of (found_of matches.now))) }
{
    let Some((hosts, workers, slots, rounds, queues)) = numbers_asked(matches) else {
        return Err(text_of(alloc, "error: a number is missing"));
    };
    match Race::new(hosts, workers, slots, rounds, queues) {
        Ok(race) => Ok(Asked::Race {
            race,
            crash: number_may_be(matches, "crash"),
            seed: number_may_be(matches, "seed"),
            seeds: text_asked(matches, "seeds"),
            bias: text_asked(matches, "bias"),
            trace: flag_asked(matches, "trace"),
            quiet: flag_asked(matches, "quiet"),
            json: flag_asked(matches, "json"),
            why: flag_asked(matches, "why"),
        }),
        Err(usage) => Err(no_race(alloc, usage, hosts, queues)),
    }
}
