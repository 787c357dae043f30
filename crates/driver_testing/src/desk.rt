//! One host and one server, on one queue of a small controller.

ghost use Rattle.std.specs.Prelude.{◌≡◌, ◌<◌, ◌≤◌, IfSome, true, vec_len};
ghost use Rattle.driver_cas.specs.Drivers.{IsCallOf};
ghost use Rattle.history.specs.Config.{config_numbers};
ghost use Rattle.driver_testing.specs.Hosts.{IsTestHost, uses};
ghost use Rattle.shared_system.specs.Plain.{AreNumbered, ArePlainCallers, IsPlainCallerOf};

use crate::ask::{AnswerWords, answers, hears};
use crate::host::{TestHost, host_of};
use crate::serve::serves;
use driver_cas::{Call, SharedPort};
use history::Config;
use nvme_model::array::Range;
use shared_system::{PlainCaller, PlainCallers, PlainSystem, plain_system_of, take_caller};
use std::alloc::Global;
use std::sync::Wait;

/// A controller of 8 blocks and two queue pairs with one completion queue each, of `cq` places, with passes for so
/// many; None where memory is refused.
pub fn small_system(alloc: Global, cq: u16, count: usize) -> Option<(PlainSystem, PlainCallers)>
    requires { 0 < count }
    ensures own { IfSome result (λ b. ArePlainCallers b.0 b.1) }
    ensures config { IfSome result (λ b. b.0.config ≡ config_numbers 8 1 1 0 0 2 4 cq 8 2) }
    ensures count { IfSome result (λ b. vec_len b.1.passes ≡ count) }
    ensures numbered { IfSome result (λ b. AreNumbered count b.1) }
{
    let config = Config::new(8, 1, 1, 0, 0, 2, 4, cq, 8).ok()?;
    plain_system_of(alloc, config, 4, count).ok()
}

/// A server, and the host with number 1 on submission queue 1, with so many slots from block 0 on; None where memory
/// is refused or no pass is left.
pub fn desk_of<'a>(
    alloc: Global,
    system: &'a PlainSystem,
    spares: &mut PlainCallers,
    slots: u32,
) -> Option<(PlainCaller, TestHost<'a>)>
    requires own { ArePlainCallers system.now spares.old }
    requires queue { (uses system.now.config 1 1 ≡ true) × (1 ≤ system.now.config.cqs) }
    requires slots { slots ≤ 65536 }
    ensures server { IfSome result (λ d. IsPlainCallerOf system.entry.now d.0) }
    ensures host { IfSome result (λ d. IsTestHost system.entry.now d.1) }
{
    let server = take_caller(system, spares)?;
    let caller = take_caller(system, spares)?;
    let queues = [1].to_vec(alloc).ok()?;
    let area = Range {
        slba: 0,
        blocks: slots,
    };
    let host = host_of(alloc, system, caller, 1, area, 1, queues)?;
    Some((server, host))
}

/// What a call is told once all commands of submission queue 1 are served.
pub fn served<'a, R: Wait>(
    rt: &R,
    system: &PlainSystem,
    server: &mut PlainCaller,
    host: &mut TestHost<'a>,
    call: Call<SharedPort<'a>>,
) -> AnswerWords
    requires own { IsPlainCallerOf system.now server.old × IsTestHost system.now host.old }
    requires call { IsCallOf host.old.driver call }
    ensures { IsPlainCallerOf system.now server.new × IsTestHost system.now host.new }
{
    serves(rt, system, server, 1);
    hears(rt, system, host);
    answers(host, call, 2)
}
