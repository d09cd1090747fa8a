//! How legs end.

/// How a leg ends.
#[derive(Clone, Copy, Debug, PartialEq, Eq)]
pub enum Ending {
    /// With the input.
    AtEnd,
    /// With a savepoint at a cut.
    AtCut,
    /// With either: a stop may be asked for at any time.
    Asked,
}

impl Ending {
    ghost use Rattle.std.specs.Prelude.{◌≡◌};
    ghost use Rattle.dataflow_model.specs.Ending as ending;

    /// Whether a leg that ends so may have the barrier of a stop.
    pub fn may_stop(self) -> bool
        ensures { result ≡ ending.may_stop self }
    {
        match self {
            Ending::AtEnd => false,
            Ending::AtCut | Ending::Asked => true,
        }
    }
}
