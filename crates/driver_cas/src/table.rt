//! What a driver's table of CIDs becomes by completions and by answers.

ghost use Rattle.std.specs.Prelude.{◌≡◌, ◌≢◌, ℕ, Err, IfErr, IfNone, IfOk, IfSome, List, Ok, Option, ◌∷◌};
ghost use Rattle.std.specs.Prelude.{if◌then◌else◌};
ghost use Rattle.driver_cas.specs.Cids.{held, queues_of};
ghost use Rattle.driver_cas.specs.Dropped.{CountsDropped, is_owed, one_more_dropped};
ghost use Rattle.driver_calls.specs.declared.event.PortEvent.{PortEvent};
ghost use Rattle.driver_cas.specs.Made.{after_reap};
ghost use Rattle.driver_cas.specs.Tables.{SameFreeCids, AreCidsReleased, Matches, Reaps, table_outcome};
ghost use Rattle.driver_cas.specs.declared.port.Reaped.{Reaped};

use crate::cid_table::CidTable;
use crate::fault::PortFault;
use crate::port::{Port, Reaped};
use driver_calls::{Reply, answer_to, pair_answer_to};
use entry_codec::decode_cqe;
use nvme_model::operation::Op;
use nvme_model::status::Status;

/// Notes a reaped completion; whether a command waited for it. One that is no completion, or that none waits for, is
/// dropped.
pub(crate) fn settle(cids: &mut CidTable, reaped: Reaped) -> bool
    ensures owed { (log : List PortEvent) → Matches cids.old log → result ≡ is_owed log reaped.cqe }
    ensures queues { queues_of cids.new ≡ queues_of cids.old }
    ensures goes_on { SameFreeCids cids.old cids.new }
    ensures matches { (log : List PortEvent) → Matches cids.old log →
        Matches cids.new (PortEvent.Got reaped.cqe reaped.payload ∷ log) }
{
    let Ok(cqe) = decode_cqe(&reaped.cqe) else {
        return false;
    };
    cids.answer(cqe.sqid, cqe.cid, cqe.status, reaped.payload)
}

// Counts a completion, unless a command waited for it.
fn count_unless(owed: bool, dropped: &mut u64)
    ensures { dropped.new ≡ (if owed then dropped.old else one_more_dropped dropped.old) }
{
    if !owed {
        *dropped = dropped.saturating_add(1);
    }
}

/// Reaps one completion, if there is one, and notes it, or counts it as dropped.
pub(crate) fn reap_one<P: Port>(
    port: &mut P,
    cids: &mut CidTable,
    dropped: &mut u64,
) -> Result<(), PortFault>
    ensures later { P.follows port.old port.new }
    ensures queues { queues_of cids.new ≡ queues_of cids.old }
    ensures goes_on { SameFreeCids cids.old cids.new }
    ensures reaped { Reaps (P.log port.old) (P.log port.new) cids.old cids.new }
    ensures dropped { CountsDropped (P.log port.old) (P.log port.new) cids.old dropped.old dropped.new }
    ensures got { IfOk result (λ _. (o : Option Reaped) × P.reaps port.old port.new (Ok o)
        × (P.log port.new ≡ after_reap o (P.log port.old))) }
    ensures declined { IfErr result (λ f. P.reaps port.old port.new (Err f)) }
    ensures fault { IfErr result (λ f. (P.log port.new ≡ P.log port.old) × (f ≢ PortFault.RingFull)) }
{
    if let Some(reaped) = port.reap()? {
        count_unless(settle(cids, reaped), dropped);
    }
    Ok(())
}

/// The answer to a call whose completions were all reaped, and its CIDs are free.
pub(crate) fn take_answer(
    cids: &mut CidTable,
    op: Op,
    queue: u16,
    first: u16,
    second: u16,
) -> Option<Result<Reply, Status>>
    ensures queues { queues_of cids.new ≡ queues_of cids.old }
    ensures value { result ≡ table_outcome op (held cids.old queue first) (held cids.old queue second) }
    ensures none { IfNone result (cids.new ≡ cids.old) }
    ensures some { IfSome result (λ _. AreCidsReleased cids.old cids.new op queue first second) }
{
    if op == Op::Pair {
        let status = cids.status(queue, first)?;
        let other = cids.status(queue, second)?;
        cids.release(queue, first);
        cids.release(queue, second);
        return Some(pair_answer_to(status, other));
    }
    let status = cids.status(queue, first)?;
    let payload = cids.release(queue, first)?;
    Some(answer_to(op, status, payload))
}
