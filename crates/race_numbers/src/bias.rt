//! How much more often one caller of a race by turns acts than another.

ghost use Rattle.std.specs.Prelude.{◌≡◌, ◌≤◌, IfErr, IfOk, OnOk, false, true};

use crate::race::RaceUsage;

/// The weights by which a race by turns draws who acts next: each host has the first one, each worker the second, and
/// the fetcher the third.
#[derive(Clone, Copy)]
pub struct Bias {
    /// 1 to 100.
    pub host: u16,
    /// 1 to 100.
    pub worker: u16,
    /// 1 to 100.
    pub fetcher: u16,
    ghost host_fits: { (1 ≤ host) × (host ≤ 100) },
    ghost worker_fits: { (1 ≤ worker) × (worker ≤ 100) },
    ghost fetcher_fits: { (1 ≤ fetcher) × (fetcher ≤ 100) },
}

impl Bias {
    ghost use Rattle.race_numbers.specs.Biases.{are_weights, weights_of};
    ghost use Rattle.race_numbers.specs.declared.race.RaceUsage.{RaceUsage};

    /// These weights.
    ///
    /// # Errors
    ///
    /// `RaceUsage::Bias` where one is out of its range.
    pub fn new(host: u64, worker: u64, fetcher: u64) -> Result<Bias, RaceUsage>
        ensures value { IfOk result (λ b. weights_of b ≡ (host, worker, fetcher)) }
        ensures accepted { OnOk result (are_weights host worker fetcher ≡ true) }
        ensures fault { IfErr result (λ f. (f ≡ RaceUsage.Bias) × (are_weights host worker fetcher ≡ false)) }
    {
        if host < 1 || host > 100 || worker < 1 || worker > 100 || fetcher < 1 || fetcher > 100 {
            return Err(RaceUsage::Bias);
        }
        Ok(Bias {
            host: host as u16,
            worker: worker as u16,
            fetcher: fetcher as u16,
        })
    }
}
