//! The hosts of a disk see one history.

ghost use Rattle.std.specs.Arc.{arc_value};
ghost use Rattle.std.specs.Prelude.{◌≡◌, ◌≤◌, OnOk, length};
ghost use Rattle.slot_disk.specs.Hosts.{AreHosts, HasMet, HaveMet, IsDiskHost, IsServer, host_view, views};
ghost use Rattle.slot_disk.specs.Moments.{IsMoment};
ghost use Rattle.slot_disk.specs.Views.{disk_of};

use crate::setting::{DiskHost, Setting};
use host_laws::slot_laws::believers_hold;
use many_host_laws::driver_laws::a_host_goes_on;
use many_host_laws::history_laws::{
    drivers_that_keep_the_rules_keep_the_discipline, each_pass_drives_or_serves,
};
use meet_lock::{Busy, Pass};
use shared_system::{a_server_goes_on, what_a_server_has_seen};
use slot_log_laws::history_laws::the_believed_hold_their_slots;
use std::snapshot::Snapshot;
use step_core::Core;

// The host of this number and the server see one history.
fn meets(
    _setting: &Setting,
    host: &mut DiskHost,
    _number: usize,
    server: &mut Pass<Core>,
) -> Result<(), Busy>
    requires host { IsDiskHost (arc_value _setting.now.engine) _setting.now.config _setting.now.slots _number host.old }
    requires server { IsServer (arc_value _setting.now.engine) _setting.now.config server.old }
    ensures host { IsDiskHost (arc_value _setting.now.engine) _setting.now.config _setting.now.slots _number host.new }
    ensures server { IsServer (arc_value _setting.now.engine) _setting.now.config server.new }
    ensures view { host_view host.new ≡ host_view host.old }
    ensures met { OnOk result (HasMet host.old host.new server.old server.new) }
{
    let old = Snapshot::of(host.driver());
    let met = host.meet_pass(server);
    a_host_goes_on(&old, host.driver());
    a_server_goes_on();
    met
}

// Each host meets the server, one after the other.
fn meet_once(
    setting: &Setting,
    hosts: &mut Vec<DiskHost>,
    server: &mut Pass<Core>,
) -> Result<(), Busy>
    requires hosts { AreHosts (arc_value setting.now.engine) setting.now.config setting.now.slots hosts.old.items }
    requires server { IsServer (arc_value setting.now.engine) setting.now.config server.old }
    ensures hosts { AreHosts (arc_value setting.now.engine) setting.now.config setting.now.slots hosts.new.items }
    ensures server { IsServer (arc_value setting.now.engine) setting.now.config server.new }
    ensures views { views hosts.new.items ≡ views hosts.old.items }
    ensures met { OnOk result (HaveMet (length hosts.old.items) hosts.old.items hosts.new.items server.old server.new) }
{
    for k in 0..hosts.len() {
        meets(setting, &mut hosts[k], k + 1, server)?;
    }
    Ok(())
}

/// All see one history: in the first round the server sees what each host made, in the second each host sees that. So
/// of what the server had seen between the two all hosts know that it is theirs.
pub(crate) fn meet_all(
    setting: &Setting,
    hosts: &mut Vec<DiskHost>,
    server: &mut Pass<Core>,
) -> Result<(), Busy>
    requires hosts { AreHosts (arc_value setting.now.engine) setting.now.config setting.now.slots hosts.old.items }
    requires count { (length hosts.old.items ≡ setting.now.config.cqs) × (1 ≤ setting.now.config.cqs) }
    requires server { IsServer (arc_value setting.now.engine) setting.now.config server.old }
    ensures hosts { AreHosts (arc_value setting.now.engine) setting.now.config setting.now.slots hosts.new.items }
    ensures server { IsServer (arc_value setting.now.engine) setting.now.config server.new }
    ensures views { views hosts.new.items ≡ views hosts.old.items }
    ensures moment { OnOk result (IsMoment (disk_of setting.now.config setting.now.slots (views hosts.new.items))) }
{
    meet_once(setting, hosts, server)?;
    meet_once(setting, hosts, server)?;
    what_a_server_has_seen();
    each_pass_drives_or_serves();
    drivers_that_keep_the_rules_keep_the_discipline();
    the_believed_hold_their_slots();
    believers_hold();
    Ok(())
}
