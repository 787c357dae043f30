//! What a script is about.

ghost use Rattle.std.specs.Prelude.{◌≡◌, IfSome};
ghost use Rattle.random_script.specs.Kinds.{script_kind_name};

/// What a script is about.
#[derive(Clone, Copy, Debug, Drop, PartialEq, Eq)]
pub enum ScriptKind {
    /// Commands by themselves.
    Single,
    /// Fused pairs.
    Pairs,
    /// Commands of many blocks, in units.
    Units,
    /// Commands of one block, on rings that fill and wrap.
    Queues,
    /// Raw entries with fields that are wrong.
    Hostile,
    /// Claims and releases of slots.
    Slots,
    /// Entries of all these kinds.
    Mixed,
}

impl ScriptKind {
    /// The kind of this name.
    pub fn named(name: &str) -> Option<ScriptKind>
        ensures value { IfSome result (λ kind. name.now ≡ script_kind_name kind) }
        ensures only { (kind : _) → name.now ≡ script_kind_name kind → result ≡ Some kind }
    {
        match name {
            "single" => Some(ScriptKind::Single),
            "pairs" => Some(ScriptKind::Pairs),
            "units" => Some(ScriptKind::Units),
            "queues" => Some(ScriptKind::Queues),
            "hostile" => Some(ScriptKind::Hostile),
            "slots" => Some(ScriptKind::Slots),
            "mixed" => Some(ScriptKind::Mixed),
            _ => None,
        }
    }

    /// Its name: `single`, `pairs`, `units`, `queues`, `hostile`, `slots` or `mixed`.
    pub fn name(self) -> &'static str
        ensures value { result.now ≡ script_kind_name self }
    {
        match self {
            ScriptKind::Single => "single",
            ScriptKind::Pairs => "pairs",
            ScriptKind::Units => "units",
            ScriptKind::Queues => "queues",
            ScriptKind::Hostile => "hostile",
            ScriptKind::Slots => "slots",
            ScriptKind::Mixed => "mixed",
        }
    }
}
