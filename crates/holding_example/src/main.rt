//! Two hosts and two slots, for programs that prove who holds what: at one moment of the history host 1 holds slot 0
//! and host 2 slot 1. Nothing is asked of who calls it.
#![tactic(auto)]

ghost use Rattle.std.specs.Prelude.{IfSome};
ghost use Rattle.holding_example.specs.Holding.{BothHold};

use history::Config;
use nvme_model::array::Range;
use slot_disk::{SlotDisk, SlotTold};
use std::process::ExitCode;

// Serves a host's call and polls it to its end: a pair has two completions. What it tells.
fn answer(disk: &mut SlotDisk, host: u16) -> Option<SlotTold> {
    disk.serve(host);
    match disk.poll(host)? {
        SlotTold::Pending => disk.poll(host),
        told => Some(told),
    }
}

// Both hosts ask for slot 0 before either is served, and host 2 then for slot 1. Where the answer is a disk, its
// history has a moment at which each holds its own slot.
fn contest<R: AllocGlobal>(rt: &R) -> Option<SlotDisk>
    ensures { IfSome result BothHold }
{
    let config = Config::new(8, 1, 1, 0, 0, 2, 4, 4, 8).ok()?;
    let mut disk = SlotDisk::new(rt.alloc(), config, Range { slba: 0, blocks: 2 }).ok()?;
    disk.claim(1, 0).ok()?;
    disk.claim(2, 0).ok()?;
    answer(&mut disk, 1)?;
    answer(&mut disk, 2)?;
    disk.claim(2, 1).ok()?;
    answer(&mut disk, 2)?;
    let Ok(()) = disk.meet() else {
        return None;
    };
    if disk.has(1, 0) && disk.has(2, 1) {
        Some(disk)
    } else {
        None
    }
}

fn main(rt: HostRuntime) -> ExitCode {
    match contest(&rt) {
        Some(_) => match println!(rt; "host 1 holds slot 0, host 2 holds slot 1") {
            Ok(()) => ExitCode::SUCCESS,
            Err(_) => ExitCode::FAILURE,
        },
        None => ExitCode::FAILURE,
    }
}
