//! A line of a script.

use nvme_model::step::Step;

/// What a line of a script asks for.
#[derive(Drop)]
pub enum ScriptLine {
    /// This step.
    Step(Step),
    /// Each step that can be done, until none can.
    Settle,
    /// To show this block of the volume, by its number.
    Medium(u64),
    /// Nothing.
    Comment,
}
