//! The lists and objects that are open at a place of a text.

use std::alloc::{AllocError, Global};
use std::collections::BTreeSet;

/// A list, or an object with the names of its members so far.
#[derive(Drop)]
pub(crate) enum Open<'t> {
    List,
    Object(BTreeSet<&'t str>),
}

impl<'t> Open<'t> {
    ghost use Rattle.std.specs.Prelude.{◌≡◌, IfOk};
    ghost use Rattle.text_warnings.specs.Names.{has_name};

    pub(crate) fn new_object(alloc: Global) -> Open<'t> {
        Open::Object(BTreeSet::new(alloc))
    }

    /// Keeps the name of one more member, and says whether another has it already.
    pub(crate) fn has_already(&mut self, name: &'t str) -> Result<bool, AllocError>
        ensures { IfOk result (λ again. again ≡ has_name self.old name.now) }
    {
        match self {
            Open::List => Ok(false),
            Open::Object(names) => Ok(!names.insert(name)?),
        }
    }
}
