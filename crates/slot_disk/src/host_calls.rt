//! The calls of one host of a disk.

ghost use Rattle.std.specs.Arc.{arc_value};
ghost use Rattle.slot_disk.specs.Asks.{IsAskedOf, IsPolledOf, any_fault, claim_fault, claiming, release_fault};
ghost use Rattle.slot_disk.specs.Asks.{releasing};
ghost use Rattle.slot_disk.specs.Hosts.{IsDiskHost, host_view};

use crate::setting::{DiskHost, Setting};
use many_host_laws::driver_laws::a_host_goes_on;
use slot_host::{NotBegun, SlotTold};
use std::snapshot::Snapshot;

/// The host of this number begins to claim a slot.
pub(crate) fn claim(
    _setting: &Setting,
    host: &mut DiskHost,
    _number: usize,
    slot: u32,
) -> Result<(), NotBegun>
    requires { IsDiskHost (arc_value _setting.now.engine) _setting.now.config _setting.now.slots _number host.old }
    ensures host { IsDiskHost (arc_value _setting.now.engine) _setting.now.config _setting.now.slots _number host.new }
    ensures asked { IsAskedOf (claim_fault slot) claiming (host_view host.old) (host_view host.new) result }
{
    let old = Snapshot::of(host.driver());
    let told = host.claim(slot);
    a_host_goes_on(&old, host.driver());
    told
}

/// It begins to claim the first slot that nobody has.
pub(crate) fn claim_any(
    _setting: &Setting,
    host: &mut DiskHost,
    _number: usize,
) -> Result<(), NotBegun>
    requires { IsDiskHost (arc_value _setting.now.engine) _setting.now.config _setting.now.slots _number host.old }
    ensures host { IsDiskHost (arc_value _setting.now.engine) _setting.now.config _setting.now.slots _number host.new }
    ensures asked { IsAskedOf any_fault claiming (host_view host.old) (host_view host.new) result }
{
    let old = Snapshot::of(host.driver());
    let told = host.claim_any();
    a_host_goes_on(&old, host.driver());
    told
}

/// It begins to release a slot.
pub(crate) fn release(
    _setting: &Setting,
    host: &mut DiskHost,
    _number: usize,
    slot: u32,
) -> Result<(), NotBegun>
    requires { IsDiskHost (arc_value _setting.now.engine) _setting.now.config _setting.now.slots _number host.old }
    ensures host { IsDiskHost (arc_value _setting.now.engine) _setting.now.config _setting.now.slots _number host.new }
    ensures asked { IsAskedOf (release_fault slot) (releasing slot) (host_view host.old) (host_view host.new) result }
{
    let old = Snapshot::of(host.driver());
    let told = host.release(slot);
    a_host_goes_on(&old, host.driver());
    told
}

/// What has come of its call.
pub(crate) fn poll(_setting: &Setting, host: &mut DiskHost, _number: usize) -> Option<SlotTold>
    requires { IsDiskHost (arc_value _setting.now.engine) _setting.now.config _setting.now.slots _number host.old }
    ensures host { IsDiskHost (arc_value _setting.now.engine) _setting.now.config _setting.now.slots _number host.new }
    ensures polled { IsPolledOf (host_view host.old) (host_view host.new) result }
{
    let old = Snapshot::of(host.driver());
    let told = host.poll();
    a_host_goes_on(&old, host.driver());
    told
}
