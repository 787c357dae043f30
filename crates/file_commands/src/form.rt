//! What a word of a line has to be.

use std::fmt;

/// What a word of a line has to be.
#[derive(Clone, Copy, Debug, PartialEq, Eq)]
pub enum Form {
    /// The word that a configuration line begins with.
    Configuration,
    /// The word that says what kind of line it is.
    Kind,
    /// A decimal number below 2^16.
    Number16,
    /// A decimal number below 2^32.
    Number32,
    /// A decimal number below 2^64.
    Number64,
    /// The 64 bytes of a submission queue entry.
    Entry,
    /// The 16 bytes of a completion queue entry.
    Completion,
    /// The data beside an entry.
    Data,
    /// A command's name, or `raw`.
    Name,
    /// FUSE.
    Fuse,
    /// The word between two entries of a batch, or the end of the line.
    More,
    /// How many commands were fetched.
    Count,
    /// How one command was judged.
    Verdict,
    /// How a pair was judged: that it passed, or the status of its first.
    PairVerdict,
    /// A status.
    Status,
    /// How a unit is held.
    Mode,
    /// What a block was found to be.
    Found,
    /// Whether a unit takes effect.
    Mark,
    /// What a line of a trace's head is about.
    Topic,
    /// That contents are unknown.
    Unknown,
    /// That any status will do.
    Any,
    /// The first field of a completion that is ignored.
    Field,
    /// One more such field, or the end of the line.
    MoreFields,
    /// The one word of a refutation's first line.
    Refutation,
    /// The word that a refutation's second line begins with.
    Lines,
    /// The word that a further line of a refutation begins with.
    Part,
    /// The number of a refusal that a run prints.
    Refusal,
    /// A block as it lies in the volume.
    Medium,
    /// The data beside a completion, or the end of the line.
    MoreData,
}

impl fmt::Display for Form {
    fn fmt<W: fmt::Write>(&self, f: &mut fmt::Formatter<W>) -> fmt::Result {
        f.write_str(match self {
            Form::Configuration => "config or config2",
            Form::Kind => "a kind of line",
            Form::Number16 => "a number below 65536",
            Form::Number32 => "a number below 4294967296",
            Form::Number64 => "a number below 18446744073709551616",
            Form::Entry => "an entry, as 128 digits",
            Form::Completion => "a completion, as 32 digits",
            Form::Data => "data, or -",
            Form::Name => "flush, write, read, compare, zeroes or raw",
            Form::Fuse => "FUSE, 0 to 3",
            Form::More => "+ and one more entry, or the end of the line",
            Form::Count => "1 or 2",
            Form::Verdict | Form::PairVerdict => "ok or a status",
            Form::Status => "a status",
            Form::Mode => "r or w",
            Form::Found => "read, equal, differs or written",
            Form::Mark => "* or -",
            Form::Topic => "contents, statuses or ignore",
            Form::Unknown => "unknown",
            Form::Any => "any",
            Form::Field => "DNR, MORE, CRD, DW0, DW1 or SQHD",
            Form::MoreFields =>
                "one more of DNR, MORE, CRD, DW0, DW1 and SQHD, in this order, or the end of the line",
            Form::Refutation => "refutation",
            Form::Lines => "lines",
            Form::Part => "block or command",
            Form::Refusal => "a number from 1 to 10",
            Form::Medium => "a block, as 2 or 1024 digits, or none",
            Form::MoreData => "data, or the end of the line",
        })
    }
}
