//! Making the hosts of a disk.

ghost use Rattle.std.specs.Arc.{arc_value};
ghost use Rattle.std.specs.Prelude.{◌+◌, ◌-◌, ◌∷◌, ◌≡◌, ◌≤◌, IfSome, replicate, vec_len};
ghost use Rattle.slot_disk.specs.Hosts.{AreHosts, AreHostsAbove, ArePasses, IsDiskHost, IsNewDriver, IsPassFor};
ghost use Rattle.slot_disk.specs.Hosts.{IsServer, host_view, views};
ghost use Rattle.slot_disk.specs.Views.{idle_host};

use crate::setting::{DiskHost, Setting};
use driver_cas::{Driver, SharedPort};
use history::Config;
use many_host_laws::driver_laws::a_new_driver_is_a_host;
use meet_lock::Pass;
use nvme_model::array::Range;
use slot_host::SlotHost;
use std::alloc::Global;
use std::sync::Arc;
use step_core::Core;
use work_queue::Engine;

// A driver of this host with its pass; None where memory is refused.
#[tactic(auto, using(crate::proofs::OwnQueues::owns_low))]
fn driver_of(
    alloc: Global,
    setting: &Setting,
    pass: Pass<Core>,
    host: u16,
) -> Option<Driver<SharedPort<'static>>>
    requires pass { IsPassFor (arc_value setting.now.engine) setting.now.config host pass }
    requires there { (1 ≤ host) × (host ≤ setting.now.config.cqs) }
    ensures { IfSome result (IsNewDriver (arc_value setting.now.engine) setting.now.config setting.now.slots host) }
{
    let engine = Arc::try_clone(&setting.engine).ok()?;
    let queues = [host].to_vec(alloc).ok()?;
    let acwu = setting.config.numbers().atomic.acwu;
    let port = SharedPort::own(engine, pass, host);
    match Driver::new(alloc, port, u32::from(host), acwu, setting.slots, queues) {
        Ok(driver) => {
            a_new_driver_is_a_host(&driver);
            Some(driver)
        }
        Err(_) => None,
    }
}

// This host, which has no slot; None where memory is refused.
fn host_of(alloc: Global, setting: &Setting, pass: Pass<Core>, host: u16) -> Option<DiskHost>
    requires pass { IsPassFor (arc_value setting.now.engine) setting.now.config host pass }
    requires there { (1 ≤ host) × (host ≤ setting.now.config.cqs) }
    ensures host { IfSome result (IsDiskHost (arc_value setting.now.engine) setting.now.config setting.now.slots host) }
    ensures view { IfSome result (λ h. host_view h ≡ idle_host setting.now.slots.blocks) }
{
    let driver = driver_of(alloc, setting, pass, host)?;
    match SlotHost::new(alloc, driver) {
        Ok(host) => Some(host),
        Err(_) => None,
    }
}

// One host more, of this number, before those above it.
fn put_host(
    _setting: &Setting,
    hosts: &mut Vec<DiskHost>,
    host: DiskHost,
    _number: u16,
) -> Option<()>
    requires hosts { AreHostsAbove (arc_value _setting.now.engine) _setting.now.config _setting.now.slots _number
        hosts.old.items }
    requires some { 1 ≤ _number }
    requires host { IsDiskHost (arc_value _setting.now.engine) _setting.now.config _setting.now.slots _number host }
    ensures hosts { IfSome result (λ _. AreHostsAbove (arc_value _setting.now.engine) _setting.now.config
        _setting.now.slots (_number - 1) hosts.new.items) }
    ensures views { IfSome result (λ _. views hosts.new.items ≡ host_view host.entry ∷ views hosts.old.items) }
{
    let Ok(()) = hosts.insert(0, host) else {
        return None;
    };
    Some(())
}

// The host of this number, with the last of the passes, before those above it; None where memory is refused.
#[tactic(auto, using(crate::proofs::Passes::pass_last, crate::proofs::Passes::passes_rest))]
fn add_host(
    alloc: Global,
    setting: &Setting,
    passes: &mut Vec<Pass<Core>>,
    hosts: &mut Vec<DiskHost>,
    number: u16,
) -> Option<()>
    requires passes { ArePasses (arc_value setting.now.engine) setting.now.config passes.old.items }
    requires count { vec_len passes.old ≡ number }
    requires there { (1 ≤ number) × (number ≤ setting.now.config.cqs) }
    requires hosts { AreHostsAbove (arc_value setting.now.engine) setting.now.config setting.now.slots number
        hosts.old.items }
    ensures passes { ArePasses (arc_value setting.now.engine) setting.now.config passes.new.items }
    ensures rest { vec_len passes.new + 1 ≡ number }
    ensures hosts { IfSome result (λ _. AreHostsAbove (arc_value setting.now.engine) setting.now.config
        setting.now.slots (number - 1) hosts.new.items) }
    ensures views { IfSome result
        (λ _. views hosts.new.items ≡ idle_host setting.now.slots.blocks ∷ views hosts.old.items) }
{
    let pass = passes.pop()?;
    let host = host_of(alloc, setting, pass, number)?;
    put_host(setting, hosts, host, number)
}

// A host with each of the passes, in order; None where memory is refused.
fn hosts_of(alloc: Global, setting: &Setting, passes: Vec<Pass<Core>>) -> Option<Vec<DiskHost>>
    requires passes { ArePasses (arc_value setting.now.engine) setting.now.config passes.items }
    requires count { vec_len passes ≡ setting.now.config.cqs }
    ensures hosts { IfSome result
        (λ h. AreHosts (arc_value setting.now.engine) setting.now.config setting.now.slots h.items) }
    ensures views { IfSome result
        (λ h. views h.items ≡ replicate setting.now.config.cqs (idle_host setting.now.slots.blocks)) }
{
    let mut passes = passes;
    let count = setting.config.numbers().cqs;
    let mut hosts = Vec::with_capacity(alloc, usize::from(count)).ok()?;
    for k in 0..count {
        add_host(alloc, setting, &mut passes, &mut hosts, count - k)?;
    }
    Some(hosts)
}

// The controller, a pass that serves, and passes for the hosts; None where memory is refused.
fn engine_of(alloc: Global, config: Config) -> Option<(Arc<Engine>, Pass<Core>, Vec<Pass<Core>>)>
    ensures server { IfSome result (λ o. IsServer (arc_value o.0) config o.1) }
    ensures passes { IfSome result (λ o. ArePasses (arc_value o.0) config o.2.items × (vec_len o.2 ≡ config.cqs)) }
{
    let hosts = usize::from(config.numbers().cqs);
    let Ok((engine, mut passes)) = Engine::of_config(alloc, config, hosts + 1) else {
        return None;
    };
    let Some(server) = passes.pop() else {
        return None;
    };
    match Arc::new(alloc, engine) {
        Ok(engine) => Some((engine, server, passes)),
        Err(_) => None,
    }
}

/// A disk's setting, who serves it, and its hosts; None where memory is refused.
pub(crate) fn open(
    alloc: Global,
    config: Config,
    slots: Range,
) -> Option<(Setting, Pass<Core>, Vec<DiskHost>)>
    requires slots { (1 ≤ slots.blocks) × (slots.slba + slots.blocks ≤ 65536) }
    ensures setting { IfSome result (λ o. (o.0.config ≡ config) × (o.0.slots ≡ slots)) }
    ensures server { IfSome result (λ o. IsServer (arc_value o.0.engine) config o.1) }
    ensures hosts { IfSome result (λ o. AreHosts (arc_value o.0.engine) config slots o.2.items) }
    ensures views { IfSome result (λ o. views o.2.items ≡ replicate config.cqs (idle_host slots.blocks)) }
{
    let (engine, server, passes) = engine_of(alloc, config)?;
    let setting = Setting {
        config,
        slots,
        engine,
    };
    let hosts = hosts_of(alloc, &setting, passes)?;
    Some((setting, server, hosts))
}
