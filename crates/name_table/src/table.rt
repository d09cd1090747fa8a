//! A table of names.

use indexmap::IndexSet;
use std::alloc::{AllocError, Global};
use std::hash::RandomState;
use std::marker::Model;

/// Names, each once, in the order in which they came. The first has the number 1, and each further one the next number.
pub struct NameTable {
    alloc: Global,
    names: IndexSet<String, RandomState>,
}

// By hand, since a proof goes over a derived drop field by field.
impl Drop for NameTable {
    fn drop(self) {
        let NameTable { alloc: _, names: _ } = self;
    }
}

impl Model for NameTable {
    ghost use Rattle.std.specs.Prelude.{ℕ, List};
    ghost use Rattle.name_table.specs.Names.{texts};

    ghost Value = { List (List ℕ) };

    ghost view = { λ t. texts t.names };
}

impl NameTable {
    ghost use Rattle.std.specs.Prelude.{◌≡◌, ◌+◌, ◌-◌, ◌^◌, ◌<◌, [], ◌∷◌, ◌++◌, length, map, position, is_some, bytes_eq, string_bytes, false, IfOk, IfSome, OnOk, OnErr};
    ghost use Rattle.std.specs.List.{list_any};
    ghost use Rattle.name_table.specs.Names.{number_said, with_name};

    /// A table without names. Its hashes start from this, so that no names can be made whose hashes are all alike.
    pub fn new(alloc: Global, state: RandomState) -> NameTable
        ensures { result ≡ [] }
    {
        NameTable {
            alloc,
            names: IndexSet::with_hasher(alloc, state),
        }
    }

    /// The names, in the order of their numbers.
    pub fn names(&self) -> &[String]
        ensures { map string_bytes result.now ≡ self.now }
    {
        self.names.as_slice()
    }

    /// The place of a name that is there, counted from 0.
    fn place_of(&self, name: &str) -> Option<usize>
        ensures place { result ≡ position (bytes_eq name.now) self.now }
        ensures found { is_some result ≡ list_any (bytes_eq name.now) self.now }
        ensures small { IfSome result (λ place. place < 2 ^ 63 - 1) }
    {
        let _count = self.names.len();
        self.names.get_index_of(name)
    }

    /// Adds a name that is not there, and answers its number.
    fn add(&mut self, name: &str) -> Result<usize, AllocError>
        requires { list_any (bytes_eq name.now) self.old ≡ false }
        ensures number { IfOk result (λ n. n ≡ number_said self.old name.now) }
        ensures names { OnOk result (self.new ≡ self.old ++ name.now ∷ []) }
        ensures err { OnErr result (self.new ≡ self.old) }
        ensures small { IfOk result (λ n. n < 2 ^ 63) }
    {
        let name = String::from_str(self.alloc, name)?;
        self.names.insert(name)?;
        Ok(self.names.len())
    }

    /// The number of a name, which is added where it is not there.
    ///
    /// # Errors
    ///
    /// Only where memory runs out, and then no name is added.
    pub fn number_of(&mut self, name: &str) -> Result<usize, AllocError>
        ensures number { IfOk result (λ n. n ≡ number_said self.old name.now) }
        ensures names { OnOk result (self.new ≡ with_name self.old name.now) }
        ensures err { OnErr result (self.new ≡ self.old) }
        ensures small { IfOk result (λ n. n < 2 ^ 63) }
    {
        match self.place_of(name) {
            Some(place) => Ok(place + 1),
            None => self.add(name),
        }
    }
}
