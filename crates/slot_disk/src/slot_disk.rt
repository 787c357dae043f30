//! A disk with hosts that keep locks.

ghost use Rattle.std.specs.Prelude.{◌+◌, ◌≡◌, ◌<◌, ◌≤◌, Err, IfOk, MatchOption, OnOk, length};
ghost use Rattle.slot_disk.specs.Asks.{AreSlots, IsAsked, IsPolled, any_fault, claim_fault, claiming, release_fault};
ghost use Rattle.slot_disk.specs.Asks.{releasing, told_of};
ghost use Rattle.slot_disk.specs.Moments.{IsMoment};
ghost use Rattle.slot_disk.specs.Views.{IsNoHost, has, new_disk};
ghost use Rattle.slot_disk.specs.declared.unasked.Unmade.TheVariants as unmade;

use crate::host_calls::{claim, claim_any, poll, release};
use crate::meeting::meet_all;
use crate::opening::open;
use crate::serving::serves;
use crate::setting::{DiskHost, Setting};
use crate::unasked::{Unasked, Unmade};
use history::Config;
use meet_lock::{Busy, Pass};
use nvme_model::array::Range;
use slot_host::{NotBegun, SlotTold};
use std::alloc::Global;
use std::marker::Model;
use step_core::Core;

/// A controller with a volume of zeros, of whose blocks some are slots, and a host of each completion queue, from 1 on,
/// which publishes to the submission queue of its number. Its hosts write in no slot but by claims and releases.
#[derive(Drop)]
pub struct SlotDisk {
    setting: Setting,
    // Fetches, grants, makes blocks and posts, and nothing else.
    server: Pass<Core>,
    // Host 1 first.
    hosts: Vec<DiskHost>,
}

impl Model for SlotDisk {
    ghost use Rattle.slot_disk.specs.Views.{DiskView};

    ghost Value = { DiskView };

    ghost use Rattle.slot_disk.specs.Inside.{IsSlotDisk, disk_view};

    ghost view = { disk_view };

    ghost invariant = { IsSlotDisk };
}

// The place of a host among so many; None where there is no such host.
fn place_of(host: u16, count: usize) -> Option<usize>
    ensures { MatchOption result (IsNoHost host count) (λ k. (k + 1 ≡ host) × (k < count)) }
{
    let place = usize::from(host.checked_sub(1)?);
    if place < count { Some(place) } else { None }
}

// What a disk tells of it.
fn told(begun: Result<(), NotBegun>) -> Result<(), Unasked>
    ensures { result ≡ told_of begun }
{
    match begun {
        Ok(()) => Ok(()),
        Err(why) => Err(Unasked::NotBegun(why)),
    }
}

impl SlotDisk {
    /// A disk of this configuration with these slots. No host has one.
    ///
    /// # Errors
    ///
    /// `BadSlots` where there is no slot, or one beyond the volume; else `NoMemory` where a growth is refused.
    pub fn new(alloc: Global, config: Config, slots: Range) -> Result<SlotDisk, Unmade>
        ensures made { IfOk result (λ d. d ≡ new_disk config slots) }
        ensures good { OnOk result (AreSlots config slots) }
        ensures bad { result ≡ Err unmade.BadSlots → ¬ AreSlots config slots }
        ensures memory { result ≡ Err unmade.NoMemory → AreSlots config slots }
    {
        let blocks = u64::from(config.numbers().blocks);
        let count = u64::from(slots.blocks);
        if count == 0 || count > blocks || slots.slba > blocks - count {
            return Err(Unmade::BadSlots);
        }
        match open(alloc, config, slots) {
            Some((setting, server, hosts)) => Ok(SlotDisk {
                setting,
                server,
                hosts,
            }),
            None => Err(Unmade::NoMemory),
        }
    }

    /// Host `host` begins to claim a slot.
    ///
    /// # Errors
    ///
    /// `NoHost`; else `NotBegun` with the first that holds: `InCall`, `NoSlot`, `Held`, or a fault of the driver.
    pub fn claim(&mut self, host: u16, slot: u32) -> Result<(), Unasked>
        ensures { IsAsked (claim_fault slot) claiming self.old self.new host result }
    {
        let Some(place) = place_of(host, self.hosts.len()) else {
            return Err(Unasked::NoHost);
        };
        told(claim(&self.setting, &mut self.hosts[place], place + 1, slot))
    }

    /// It begins to claim the first slot that nobody has: slot 0, and by a poll each further one, once it is answered
    /// that the one before is somebody's.
    ///
    /// # Errors
    ///
    /// `NoHost`; else `NotBegun` with `InCall` or a fault of the driver.
    pub fn claim_any(&mut self, host: u16) -> Result<(), Unasked>
        ensures { IsAsked any_fault claiming self.old self.new host result }
    {
        let Some(place) = place_of(host, self.hosts.len()) else {
            return Err(Unasked::NoHost);
        };
        told(claim_any(&self.setting, &mut self.hosts[place], place + 1))
    }

    /// It begins to release a slot that it has; from then on it hasn't it any more.
    ///
    /// # Errors
    ///
    /// `NoHost`; else `NotBegun` with the first that holds: `InCall`, `NoSlot`, `NotHeld`, or a fault of the driver.
    pub fn release(&mut self, host: u16, slot: u32) -> Result<(), Unasked>
        ensures { IsAsked (release_fault slot) (releasing slot) self.old self.new host result }
    {
        let Some(place) = place_of(host, self.hosts.len()) else {
            return Err(Unasked::NoHost);
        };
        told(release(&self.setting, &mut self.hosts[place], place + 1, slot))
    }

    /// What has come of the host's call; None where it has none, or where there is no such host. Reaps at most one
    /// completion, and a pair has two.
    pub fn poll(&mut self, host: u16) -> Option<SlotTold>
        ensures { IsPolled self.old self.new host result }
    {
        let place = place_of(host, self.hosts.len())?;
        poll(&self.setting, &mut self.hosts[place], place + 1)
    }

    /// Serves all that was published to a submission queue; whether nothing was declined but the last Fetch.
    pub fn serve(&mut self, queue: u16) -> bool
        ensures { self.new ≡ self.old }
    {
        serves(&self.setting, &mut self.server, queue)
    }

    /// Whether this host has this slot: it was told so by a poll, and has begun no release of it.
    pub fn has(&self, host: u16, slot: u32) -> bool
        ensures { result ≡ has self.now host slot }
    {
        match place_of(host, self.hosts.len()) {
            Some(place) => self.hosts[place].has(slot),
            None => false,
        }
    }

    /// All hosts see one history: at one moment of it each holds the slots that it has.
    ///
    /// # Errors
    ///
    /// `Busy` where another caller had the controller; a disk has no other.
    pub fn meet(&mut self) -> Result<(), Busy>
        ensures same { self.new ≡ self.old }
        ensures moment { OnOk result (IsMoment self.new) }
    {
        meet_all(&self.setting, &mut self.hosts, &mut self.server)
    }
}
