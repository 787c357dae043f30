//! What holds of a driver, each as the contract of a function that does nothing.

ghost use Rattle.std.specs.Prelude.{◌+◌, ◌≡◌, IfOk, Result, length, ℕ};
ghost use Rattle.driver_cas.specs.Drivers.{HasSettings, SharesNoCid, IsCallOf, IsSameDriver, made};
ghost use Rattle.driver_cas.specs.Ports.{steps_of};
ghost use Rattle.driver_cas.specs.Requests.{IsStart};
ghost use Rattle.driver_cas.specs.SlotStarts.{IsClaimStart, IsReleaseStart};
ghost use Rattle.driver_cas.specs.Starts.{IsUntouched};
ghost use Rattle.driver_cas.specs.declared.call.Call.{Call};
ghost use Rattle.driver_cas.specs.declared.fault.Fault.{Fault};
ghost use Rattle.driver_calls.specs.declared.request.CallData.{CallData};
ghost use Rattle.driver_calls.specs.declared.request.Request.{Request};

use crate::driver::Driver;
use crate::port::Port;
use crate::shared_port::SharedPort;
use std::snapshot::Snapshot;

/// Each step that its port's pass made since a driver was made is one in the driver's log.
pub fn a_driver_makes_no_other_steps(driver: &Driver<SharedPort<'_>>)
    ensures { steps_of driver.now.port ≡ steps_of driver.now.began.value + length (made driver.now) }
{
    let _ = driver;
}

/// A driver that published nothing since, and reaped nothing, keeps its calls: so after a fault of a start call, and
/// after a meeting.
pub fn an_untouched_driver_keeps_its_calls<P: Port>(old: &Snapshot<Driver<P>>, new: &Driver<P>)
    ensures { IsUntouched old.now.value new.now →
        (k : Call P) → IsCallOf old.now.value k → IsCallOf new.now k }
{
    let _ = old;
    let _ = new;
}

/// A start call keeps the driver's other calls, whatever it answers, and a call that it began is the driver's and apart
/// from them: one that is read or written, a claim and a release.
pub fn a_start_keeps_the_other_calls<P: Port>(old: &Snapshot<Driver<P>>, new: &Driver<P>)
    ensures call { IsSameDriver old.now.value new.now → P.follows old.now.value.port new.now.port →
        (asked : Result Request Fault) (contents : CallData) (r : Result (Call P) Fault) →
        IsStart old.now.value new.now asked contents r →
        IfOk r (IsCallOf new.now) × ((k : Call P) → IsCallOf old.now.value k →
        IsCallOf new.now k × IfOk r (λ begun. SharesNoCid begun k)) }
    ensures claim { HasSettings old.now.value new.now → P.follows old.now.value.port new.now.port →
        (lba : ℕ) (r : Result (Call P × ℕ) Fault) → IsClaimStart old.now.value new.now lba r →
        IfOk r (λ begun. IsCallOf new.now begun.0) × ((k : Call P) → IsCallOf old.now.value k →
        IsCallOf new.now k × IfOk r (λ begun. SharesNoCid begun.0 k)) }
    ensures release { IsSameDriver old.now.value new.now → P.follows old.now.value.port new.now.port →
        (lba serial : ℕ) (r : Result (Call P) Fault) → IsReleaseStart old.now.value new.now lba serial r →
        IfOk r (IsCallOf new.now) × ((k : Call P) → IsCallOf old.now.value k →
        IsCallOf new.now k × IfOk r (λ begun. SharesNoCid begun k)) }
{
    let _ = old;
    let _ = new;
}

/// A driver that did nothing up to one moment, and nothing from then on, did nothing.
pub fn an_untouched_driver_stays_so<P: Port>(
    old: &Snapshot<Driver<P>>,
    mid: &Snapshot<Driver<P>>,
    new: &Driver<P>,
)
    ensures { IsUntouched old.now.value mid.now.value → IsUntouched mid.now.value new.now →
        IsUntouched old.now.value new.now }
{
    let _ = old;
    let _ = mid;
    let _ = new;
}

/// A port is itself at a later time, and what is later than a later one is later: of the ports of such a driver.
pub fn a_later_port_is_later<P: Port>(driver: &Driver<P>)
    ensures stays { (a : P) → P.follows a a }
    ensures goes_on { (a b c : P) → P.follows a b → P.follows b c → P.follows a c }
{
    let _ = driver;
}
