//! The numbers of the cut, without a fault.

ghost use Rattle.std.specs.Prelude.{◌≡◌, ◌≢◌, ◌↔◌, ◌+◌, ◌-◌, ◌<◌, ◌≤◌, ◌^◌, IfErr, IfOk, IsTrue, None, OnOk, Some, not};
ghost use Rattle.nvme_model.specs.Cells.{cell, in_one_cell, pair_fits};
ghost use Rattle.nvme_model.specs.Config.{unit_fault};
ghost use Rattle.nvme_model.specs.Cut.{IsCut, cut};
ghost use Rattle.nvme_model.specs.declared.config.AtomicParameters.{AtomicParameters};
ghost use Rattle.atomic_units.specs.Numbers.{atomic_parameters};

use crate::cells::in_one_cell;
use crate::unit_iter::UnitIter;
use nvme_model::config::{AtomicParameters, ConfigFault};
use std::marker::Model;

/// How commands are cut into units: numbers of a cut that have no fault.
#[derive(Clone, Copy, Debug, PartialEq, Eq)]
pub struct Units {
    parameters: AtomicParameters,
}

impl Model for Units {
    ghost Value = { AtomicParameters };

    ghost view = { λ u. u.parameters };

    ghost invariant = { λ u. unit_fault u.parameters ≡ None };

    ghost inverse = { λ u. record { parameters = u } };
}

impl Units {
    /// The numbers of a cut; `awun`, `acwu` and `nabsn` are 0's based, and a `nabsn` of 0 is for no boundary.
    ///
    /// # Errors
    ///
    /// The first of `AwunTooLarge`, `AcwuTooLarge`, `BoundaryBelowUnit` and `OffsetPastBoundary` that holds.
    pub fn new(awun: u16, acwu: u16, nabsn: u16, nabo: u16) -> Result<Units, ConfigFault>
        ensures value { IfOk result (λ units. units ≡ atomic_parameters awun acwu nabsn nabo) }
        ensures accepted { OnOk result (unit_fault (atomic_parameters awun acwu nabsn nabo) ≡ None) }
        ensures fault { IfErr result (λ fault. unit_fault (atomic_parameters awun acwu nabsn nabo) ≡ Some fault) }
    {
        if awun > 255 {
            return Err(ConfigFault::AwunTooLarge);
        }
        if acwu > 255 {
            return Err(ConfigFault::AcwuTooLarge);
        }
        if nabsn != 0 && (nabsn < awun || nabsn < acwu) {
            return Err(ConfigFault::BoundaryBelowUnit);
        }
        if nabsn < nabo {
            return Err(ConfigFault::OffsetPastBoundary);
        }
        Ok(Units {
            parameters: AtomicParameters {
                awun,
                acwu,
                nabsn,
                nabo,
            },
        })
    }

    /// The most blocks of a unit, 0's based.
    pub fn awun(&self) -> u16
        ensures value { result ≡ self.now.awun }
        ensures accepted { unit_fault self.now ≡ None }
    {
        self.parameters.awun
    }

    /// The most blocks of a fused pair, 0's based.
    pub fn acwu(&self) -> u16
        ensures value { result ≡ self.now.acwu }
        ensures accepted { unit_fault self.now ≡ None }
    {
        self.parameters.acwu
    }

    /// The blocks from a boundary to the next, 0's based; 0 for no boundary.
    pub fn nabsn(&self) -> u16
        ensures value { result ≡ self.now.nabsn }
        ensures accepted { unit_fault self.now ≡ None }
    {
        self.parameters.nabsn
    }

    /// The block of the first boundary.
    pub fn nabo(&self) -> u16
        ensures value { result ≡ self.now.nabo }
        ensures accepted { unit_fault self.now ≡ None }
    {
        self.parameters.nabo
    }

    /// The units of the `blocks` blocks from `slba` on, in order.
    #[tactic(auto, using(crate::proofs::Steps::is_cut))]
    pub fn cut(&self, slba: u64, blocks: u32) -> UnitIter
        requires some { 1 ≤ blocks }
        requires within { slba + blocks ≤ 65536 }
        ensures units { result ≡ cut self.now slba blocks }
        ensures law { IsCut self.now slba blocks result }
    {
        UnitIter::new(self.parameters, slba, blocks)
    }

    /// Whether a boundary lies between these blocks.
    #[tactic(auto, using(crate::proofs::Ends::ends_cross))]
    pub fn crosses(&self, slba: u64, blocks: u32) -> bool
        requires some { 1 ≤ blocks }
        requires within { slba + blocks < 2 ^ 64 }
        ensures crosses { result ≡ not (in_one_cell self.now slba blocks) }
        ensures ends { IsTrue result ↔ (cell self.now (slba + blocks - 1) ≢ cell self.now slba) }
    {
        !in_one_cell(&self.parameters, slba, blocks)
    }

    /// Whether these blocks fit a fused pair: at most ACWU + 1, with no boundary between them.
    pub fn pair_fits(&self, slba: u64, blocks: u32) -> bool
        requires some { 1 ≤ blocks }
        requires within { slba + blocks < 2 ^ 64 }
        ensures fits { result ≡ pair_fits self.now slba blocks }
    {
        blocks <= u32::from(self.parameters.acwu) + 1 && in_one_cell(&self.parameters, slba, blocks)
    }
}
