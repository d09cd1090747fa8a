//! Laws of the layouts, each the contract of a function that does nothing.

ghost use Rattle.std.specs.Prelude.{◌≡◌, ℕ, List, [], ◌++◌};
ghost use Rattle.savepoint_codec.specs.declared.savepoint.Contents.{Contents};
ghost use Rattle.savepoint_codec.specs.Layout.{IsSavepoint};
ghost use Rattle.savepoint_index.specs.Layout.{Spells};

/// No savepoint's bytes are a proper prefix of another's, in whichever layout each is spelled.
pub fn no_prefix()
    ensures { (a b : Contents) (short long more : List ℕ) → IsSavepoint a → IsSavepoint b → Spells short a → Spells long b → short ++ more ≡ long → more ≡ [] }
{}

/// Savepoints with the same bytes hold the same.
pub fn one_content()
    ensures { (a b : Contents) (bytes : List ℕ) → IsSavepoint a → IsSavepoint b → Spells bytes a → Spells bytes b → a ≡ b }
{}
