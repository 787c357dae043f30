//! A look at a machine, which changes nothing.

/// What a caller looks up of a machine.
pub trait Glance<M>: Drop {
    /// What it is told.
    type Told;

    /// What is told of a machine.
    ghost tells: { Self → M → Self.Told → Type 0 };

    /// Looks.
    fn look(self, machine: &M) -> Self::Told
        ensures tells { tells self machine.now result };
}
