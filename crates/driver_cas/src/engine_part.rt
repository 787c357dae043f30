//! What gives a port its engine.

ghost use Rattle.std.specs.Prelude.{◌≡◌};
ghost use Rattle.driver_cas.specs.Parts.{engine_in};

use std::sync::Arc;
use work_queue::Engine;

/// What gives a port its engine: the engine lives as long as it.
#[derive(Drop)]
pub(crate) enum EnginePart<'a> {
    /// A borrow.
    Lent(&'a Engine),
    /// A part of what owns it.
    Own(Arc<Engine>),
}

impl<'a> EnginePart<'a> {
    /// The engine.
    pub(crate) fn engine(&self) -> &Engine
        ensures { result.now ≡ engine_in self.now }
    {
        match self {
            EnginePart::Lent(engine) => engine,
            EnginePart::Own(engine) => engine,
        }
    }
}
