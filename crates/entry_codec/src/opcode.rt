//! The opcodes of the commands that are served (Base 2.0, Opcodes for I/O Commands; NVM 1.0, Opcodes for NVM Commands).

pub const FLUSH: u8 = 0x00;

pub const WRITE: u8 = 0x01;

pub const READ: u8 = 0x02;

pub const COMPARE: u8 = 0x05;

pub const WRITE_ZEROES: u8 = 0x08;
