ghost use Rattle.std.specs.Prelude.{◌≡◌, length, IfOk};

use std::alloc::{AllocError, Global};
use std::marker::Model;

/// A list of values, which contracts see as the list.
#[derive(Debug, Drop)]
pub struct Items<T> {
    values: Vec<T>,
}

impl<T> Model for Items<T> {
    ghost use Rattle.std.specs.Prelude.{List};

    ghost Value = { List T };

    ghost view = { λ list. list.values.items };
}

impl<T> Items<T> {
    /// The list of a vector's elements.
    pub fn from_vec(values: Vec<T>) -> Items<T>
        ensures { result ≡ values.items }
    {
        Items { values }
    }

    /// The elements as a vector.
    pub fn into_vec(self) -> Vec<T>
        ensures { result.items ≡ self }
    {
        let Items { values } = self;
        values
    }

    /// The elements in order.
    pub fn as_slice(&self) -> &[T]
        ensures { result.now ≡ self.now }
    {
        &self.values
    }

    /// How many elements there are.
    pub fn len(&self) -> usize
        ensures { result ≡ length self.now }
    {
        self.values.len()
    }
}

impl<T: Copy> Items<T> {
    /// The same list again.
    ///
    /// # Errors
    ///
    /// Only where memory runs out.
    pub fn copy(&self, alloc: Global) -> Result<Items<T>, AllocError>
        ensures { IfOk result (λ list. list ≡ self.now) }
    {
        let mut values = Vec::new(alloc);
        values.extend_from_slice(&self.values)?;
        Ok(Items { values })
    }
}
