//! What the handle of a disk owns.

ghost use Rattle.std.specs.Arc.{arc_value};
ghost use Rattle.std.specs.Option.{ForSome};
ghost use Rattle.std.specs.Prelude.{[], ◌+◌, ◌≡◌, ◌≤◌, All, IfOk, length, vec_len};
ghost use Rattle.work_queue.specs.Engines.{IsFreshPass, IsPassOfEngine, IsWorkOf, fetch_declined, opening_of};
ghost use Rattle.c_handles.specs.Answers.{declined_number, end_number};

use crate::ended::{EndedHost, none_ended};
use crate::host_numbers::HostNumbers;
use crate::numbers::{NOTHING_READY, UNFINISHED};
use history::Config;
use meet_lock::{Declined, Pass, Unmade};
use nvme_model::array::Range;
use nvme_model::refusal::Why;
use std::alloc::{AllocError as NoMemory, Global};
use std::sync::Arc;
use step_core::{Core, FetchCall, Refused};
use work_queue::{Engine, Work};

/// A controller, who serves it, its slots, and the passes of the hosts that aren't made yet.
#[derive(Drop)]
pub struct Disk {
    pub(crate) config: Config,
    // The blocks of its slots, of which there may be none: no host writes there but by claims, releases and takeovers.
    pub(crate) slots: Range,
    pub(crate) engine: Arc<Engine>,
    pub(crate) server: Pass<Core>,
    pub(crate) passes: Vec<Pass<Core>>,
    // Of the hosts that were made.
    pub(crate) numbers: HostNumbers,
    // Those that ended, by completion queue, too.
    pub(crate) ended: Vec<Option<EndedHost>>,
    // What was fetched and isn't finished.
    pub(crate) work: Option<Work>,
    ghost configured: { server.seat.me.0.config ≡ config },
    ghost serves: { IsPassOfEngine (arc_value engine) server },
    ghost spares: { All (IsFreshPass (arc_value engine) config) passes.items },
    ghost inside: { slots.slba + slots.blocks ≤ 65536 },
    ghost queues: { length numbers ≡ config.cqs },
    ghost endings: { vec_len ended ≡ config.cqs },
    ghost working: { ForSome work (IsWorkOf (arc_value engine)) },
}

// The number of what a step of a shared controller is answered.
fn declined_in(declined: &Declined) -> u32
    ensures { result ≡ declined_number declined.now }
{
    match declined {
        Declined::Busy(_) => u32::from(Why::Busy.number()),
        Declined::Refused(Refused::Publish(why, _)) => u32::from(why.number()),
        Declined::Refused(Refused::Step(why)) => u32::from(why.number()),
    }
}

// The number of why a Fetch isn't made.
fn unfetched(unmade: &Unmade<FetchCall, Why>) -> u32
    ensures { result ≡ declined_number (fetch_declined unmade.now) }
{
    match unmade {
        Unmade::Busy(_) => u32::from(Why::Busy.number()),
        Unmade::Refused(why) => u32::from(why.number()),
    }
}

// What is told where tasks were made until one wasn't.
fn ended(told: u32) -> u32
    ensures { result ≡ end_number told }
{
    if told == 0 {
        UNFINISHED
    } else if told == NOTHING_READY {
        0
    } else {
        told
    }
}

// An engine of a controller with no history, a pass that serves, and passes for so many hosts.
fn engine_of(
    alloc: Global,
    config: Config,
    hosts: u16,
) -> Result<(Arc<Engine>, Pass<Core>, Vec<Pass<Core>>), NoMemory>
    ensures server { IfOk result (λ o. IsFreshPass (arc_value o.0) config o.1) }
    ensures passes { IfOk result (λ o. All (IsFreshPass (arc_value o.0) config) o.2.items) }
    ensures count { IfOk result (λ o. vec_len o.2 ≡ hosts) }
    ensures opening { IfOk result (λ o. opening_of (arc_value o.0) ≡ []) }
{
    let (engine, mut passes) = Engine::of_config(alloc, config, usize::from(hosts) + 1)?;
    let server = passes.pop().unwrap();
    let Ok(engine) = Arc::new(alloc, engine) else {
        return Err(NoMemory);
    };
    Ok((engine, server, passes))
}

impl Disk {
    ghost use Rattle.c_handles.specs.Disks.{FetchTells, Finishes, ForgetTells, IsNewDisk, ServesDisk, TaskTells};
    ghost use Rattle.c_handles.specs.Disks.{disk_slots};
    ghost use Rattle.c_handles.specs.Making.{passes_left};

    /// A controller of this configuration with no history, passes for so many hosts, and these slots.
    pub fn of(alloc: Global, config: Config, hosts: u16, slots: Range) -> Result<Disk, NoMemory>
        requires slots { slots.slba + slots.blocks ≤ 65536 }
        ensures { IfOk result (IsNewDisk config hosts slots) }
    {
        let numbers = HostNumbers::none(alloc, config.numbers().cqs)?;
        let ended = none_ended(alloc, config.numbers().cqs)?;
        let (engine, server, passes) = engine_of(alloc, config, hosts)?;
        Ok(Disk {
            config,
            slots,
            engine,
            server,
            passes,
            numbers,
            ended,
            work: None,
        })
    }

    /// The blocks of its slots.
    pub fn slots(&self) -> Range
        ensures value { result ≡ disk_slots self.now }
        ensures inside { result.slba + result.blocks ≤ 65536 }
    {
        self.slots
    }

    /// How many hosts can be made of it yet.
    pub fn hosts_left(&self) -> usize
        ensures { result ≡ passes_left self.now }
    {
        self.passes.len()
    }

    /// Fetches the next command, or pair, of a submission queue, and keeps its Work.
    pub fn fetch(&mut self, queue: u16) -> u32
        ensures { FetchTells self.old self.new queue result }
    {
        if self.work.is_some() {
            return UNFINISHED;
        }
        match self.engine.fetch(&mut self.server, queue) {
            Ok(work) => {
                self.work = Some(work);
                0
            }
            Err(unmade) => unfetched(&unmade),
        }
    }

    /// Makes the next task of the Work that is kept.
    pub fn task(&mut self) -> u32
        ensures { TaskTells self.old self.new result }
    {
        let Some(mut work) = self.work.take() else {
            return NOTHING_READY;
        };
        let Some(task) = work.next_task() else {
            return NOTHING_READY;
        };
        match self.engine.attempt_work(&mut self.server, &mut work, task) {
            Ok(_) => {
                self.work = Some(work);
                0
            }
            Err(declined) => {
                self.work = Some(work);
                declined_in(&declined)
            }
        }
    }

    // Makes tasks of the Work that is kept, until one isn't made.
    fn finish(&mut self) -> u32
        ensures { Finishes self.old self.new result }
    {
        for _ in 0..u64::MAX {
            let told = self.task();
            if told != 0 {
                return ended(told);
            }
        }
        let told = self.task();
        ended(told)
    }

    /// The controller forgets the entries of its history before this place, from 0.
    pub fn forget(&mut self, place: usize) -> u32
        ensures { ForgetTells self.old place self.new result }
    {
        match self.engine.forget(&mut self.server, place) {
            Ok(()) => 0,
            Err(_) => u32::from(Why::Busy.number()),
        }
    }

    /// Fetches, where no Work is kept, and finishes the Work.
    pub fn serve(&mut self, queue: u16) -> u32
        ensures { ServesDisk self.old self.new queue result }
    {
        let told = self.fetch(queue);
        if told != 0 && told != UNFINISHED {
            return told;
        }
        self.finish()
    }
}
