//! What is said of the text of a trace.

ghost use Rattle.std.specs.Prelude.{◌≡◌};
ghost use Rattle.file_commands.specs.Observing.{answer_status};

/// What is said of the text of a trace.
#[derive(Clone, Copy, Debug, Drop, PartialEq, Eq)]
pub enum TraceAnswer {
    /// A history explains it.
    Explained,
    /// No legal history explains it.
    Refuted,
    /// No history was found, in all that there is to try, and no refutation.
    NotFound,
    /// The steps were used up.
    GaveUp,
}

impl TraceAnswer {
    /// The status with which the program then ends.
    pub fn status(&self) -> u8
        ensures value { result ≡ answer_status self.now }
    {
        match self {
            TraceAnswer::Explained => 0,
            TraceAnswer::Refuted => 1,
            TraceAnswer::NotFound => 6,
            TraceAnswer::GaveUp => 5,
        }
    }
}
