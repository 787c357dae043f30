//! How the lines of a trace were logged.

/// How the lines of a trace were logged.
#[derive(Clone, Copy, Debug, PartialEq, Eq)]
pub enum Logged {
    /// In the order in which they came.
    AsSeen,
    /// A Publish before it came, and a Reap after it came.
    WithDelays,
}
