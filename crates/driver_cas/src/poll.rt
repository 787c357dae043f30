//! Polling a call.

ghost use Rattle.std.specs.Prelude.{◌≡◌, ◌≢◌, ◌⊎◌, IfErr, IfNone, IfSome, None, Some, is_some};
ghost use Rattle.driver_cas.specs.Drivers.{AsksPort, SharesNoCid, IsBack, IsCallBack, IsCallOf, IsFreed, IsOneMore};
ghost use Rattle.driver_cas.specs.Drivers.{IsSameDriver};
ghost use Rattle.driver_cas.specs.Drivers.{answer_to, before, fault_told, later_by, later_told, made, number_of};
ghost use Rattle.driver_cas.specs.Drivers.{poll_answer};
ghost use Rattle.driver_cas.specs.Tables.{SameFreeCids, AreCidsReleased};
ghost use Rattle.driver_cas.specs.declared.call.Call.{Call};
ghost use Rattle.driver_cas.specs.declared.fault.Fault.{Fault};
ghost use Rattle.driver_cas.specs.declared.fault.PortFault.{PortFault};

use crate::call::{Call, Poll};
use crate::driver::Driver;
use crate::fault::{Fault, PortFault};
use crate::port::Port;
use crate::table::{reap_one, take_answer};
use driver_calls::Reply;
use nvme_model::operation::Op;
use nvme_model::status::Status;

// The answer to a call whose completions were all reaped.
fn ended<P>(answer: Result<Reply, Status>) -> Poll<P>
    ensures { poll_answer result ≡ Some answer }
{
    match answer {
        Ok(reply) => Poll::Done(reply),
        Err(status) => Poll::Failed(Fault::Status(status)),
    }
}

// Why nothing was reaped.
fn later_fault(fault: PortFault) -> Fault
    requires { fault ≢ PortFault.RingFull }
    ensures told { result ≡ fault_told fault }
    ensures cause { (result ≡ Fault.Busy) ⊎ (result ≡ Fault.NoMemory) }
{
    match fault {
        PortFault::Busy => Fault::Busy,
        PortFault::NoMemory => Fault::NoMemory,
        PortFault::RingFull => Fault::RingFull,
    }
}

impl<P: Port> Driver<P> {
    // The answer to a call whose completions were all reaped; its CIDs are free then.
    fn take(&mut self, call: &Call<P>) -> Option<Result<Reply, Status>>
        requires { IsCallOf self.old call.now }
        ensures same { IsSameDriver self.old self.new }
        ensures port { self.new.port ≡ self.old.port }
        ensures answer { result ≡ answer_to self.old call.now }
        ensures none { IfNone result (self.new.cids ≡ self.old.cids) }
        ensures some { IfSome result
            (λ _. AreCidsReleased self.old.cids self.new.cids call.now.op call.now.queue call.now.first
            call.now.second) }
        ensures others { (other : Call P) → IsCallOf self.old other → SharesNoCid call.now other
            → IsCallOf self.new other }
    {
        take_answer(&mut self.cids, call.op, call.queue, call.first, call.second)
    }

    // Whether all completions of the call were reaped.
    fn is_answered(&self, call: &Call<P>) -> bool
        requires { IsCallOf self.now call.now }
        ensures value { result ≡ is_some (answer_to self.now call.now) }
    {
        let first = self.cids.status(call.queue, call.first).is_some();
        let second = self.cids.status(call.queue, call.second).is_some();
        if call.op == Op::Pair {
            first && second
        } else {
            first
        }
    }

    // Reaps one completion, if there is one, and notes it; none where the call has all of its own.
    fn reap(&mut self, call: &Call<P>) -> Result<(), PortFault>
        requires { IsCallOf self.old call.now }
        ensures same { IsSameDriver self.old self.new }
        ensures later { P.follows self.old.port self.new.port }
        ensures made { IsOneMore (made self.old) (made self.new) }
        ensures in_use { SameFreeCids self.old.cids self.new.cids }
        ensures calls { (one : Call P) → IsCallOf self.old one → IsCallOf self.new one }
        ensures asks { AsksPort self.old self.new call.now (later_by result) }
        ensures fault { IfErr result (λ f. (made self.new ≡ made self.old) × (f ≢ PortFault.RingFull)) }
        ensures waits { IfErr result (λ f. answer_to self.new call.now ≡ None) }
    {
        if self.is_answered(call) {
            return Ok(());
        }
        reap_one(&mut self.port, &mut self.cids, &mut self.dropped)
    }

    /// The answer to a call whose completions were reaped, or else the call. Reaps at most one completion, of this call
    /// or of another; one that no call is owed is dropped, and counted. Takes no memory but what
    /// the port's Reap takes.
    pub fn poll(&mut self, call: Call<P>) -> Poll<P>
        requires { IsCallOf self.old call }
        ensures same { IsSameDriver self.old self.new }
        ensures later { P.follows self.old.port self.new.port }
        ensures one { IsOneMore (made self.old) (made self.new) }
        ensures answer { poll_answer result ≡ answer_to self.new call }
        ensures back { IsBack call result }
        ensures asks { AsksPort self.old self.new call (later_told result) }
        ensures stays { IsCallBack self.new result }
        ensures others { (other : Call P) → IsCallOf self.old other → SharesNoCid call other → IsCallOf self.new other }
        ensures freed { IsFreed self.old.cids self.new.cids call result }
        ensures says { P.says (before self.new) call.start.value self.new.port call.queue
            (number_of self.new call) call.op
            (poll_answer result) }
    {
        if let Err(fault) = self.reap(&call) {
            return Poll::Later(later_fault(fault), call);
        }
        match self.take(&call) {
            Some(answer) => ended(answer),
            None => Poll::Pending(call),
        }
    }
}
