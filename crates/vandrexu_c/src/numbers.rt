//! The numbers that calls answer, beside those of `c_handles`, of refusals and of faults.

pub(crate) const TOO_SMALL: u32 = 103;

pub(crate) const BAD_LINE: u32 = 107;

pub(crate) const NOT_LEGAL: u32 = 108;

pub(crate) const NO_CALL: u32 = 117;

pub(crate) const NO_SLOT: u32 = 118;

pub(crate) const NOT_HELD: u32 = 119;

pub(crate) const HELD_BY_HOST: u32 = 120;

pub(crate) const BAD_NAME: u32 = 122;

pub(crate) const BAD_AREA: u32 = 123;

pub(crate) const OTHER_ENTRY: u32 = 131;
