//! A trace with its tables.

use crate::order::Effect;
use crate::tables::TraceAnswers;
use crate::told_heads::ToldHead;
use history::Config;
use trace::{Seen, TraceOptions};

/// A trace, the oldest line first, with its tables.
#[derive(Clone, Copy)]
pub struct Known<'a> {
    pub options: &'a TraceOptions,
    pub config: &'a Config,
    pub trace: &'a [Seen],
    pub tables: &'a TraceAnswers,
    /// What its completions tell by SQHD, the oldest first.
    pub heads: &'a [ToldHead],
}

/// A slice of a trace: its effects, and the blocks that are looked at.
#[derive(Clone, Copy)]
pub struct Chosen<'a> {
    pub known: Known<'a>,
    pub names: &'a [Effect],
    pub blocks: &'a [u64],
}
