//! Laws of the layout, each the contract of a function that does nothing.

ghost use Rattle.std.specs.Prelude.{◌≡◌, ℕ, List, [], ◌++◌};
ghost use Rattle.savepoint_codec.specs.declared.savepoint.Contents.{Contents};
ghost use Rattle.savepoint_codec.specs.Layout.{IsSavepoint, unindexed_bytes};

/// No savepoint's bytes are a proper prefix of another's.
pub fn no_prefix()
    ensures { (a b : Contents) (more : List ℕ) → IsSavepoint a → IsSavepoint b → unindexed_bytes a ++ more ≡ unindexed_bytes b → more ≡ [] }
{}

/// Savepoints with the same bytes hold the same.
pub fn one_content()
    ensures { (a b : Contents) → IsSavepoint a → IsSavepoint b → unindexed_bytes a ≡ unindexed_bytes b → a ≡ b }
{}
