//! Numbers that calls with a handle answer, beside those of refusals, of faults of configurations and of calls.

pub const NO_QUEUE: u32 = 1;

pub const NO_MEMORY: u32 = 11;

pub const BUSY: u32 = 12;

pub const NO_HANDLE: u32 = 101;

pub const IN_USE: u32 = 102;

pub const NO_BLOCK: u32 = 104;

pub const NOTHING_READY: u32 = 105;

pub const UNFINISHED: u32 = 113;

pub const NO_HOST: u32 = 114;

pub const BAD_NUMBER: u32 = 115;

pub const IN_CALL: u32 = 116;

pub const USED_NUMBER: u32 = 124;

pub const USED_QUEUE: u32 = 125;

pub const FORGOTTEN: u32 = 129;

pub const OTHER_HOST: u32 = 130;
