//! The numbers of a row.

ghost use Rattle.std.specs.Prelude.{◌≡◌, ◌∷◌, [], ◌++◌, ◌≤◌, true, length, is_some, slice_get, IfSome, IfOk, IsOk, OnOk, OnErr};
ghost use Rattle.plan_model.specs.declared.limits.TheConstants.{MOST_AGGREGATES};
ghost use Rattle.plan_model.specs.Numbers.{are_narrow};

use crate::limits::MOST_AGGREGATES;
use arrayvec::ArrayVec;
use std::alloc::{AllocError, Global};
use std::marker::Model;

/// The numbers of a row's aggregates. At most 8 numbers of 64 bits stand in the value itself, and take no
/// memory beside it; any others stand in a list.
#[derive(Debug)]
pub struct Numbers {
    held: Held,
}

// By hand, since a proof goes over a derived drop field by field.
impl Drop for Numbers {
    fn drop(self) {
        let Numbers { held: _ } = self;
    }
}

#[derive(Debug, Drop)]
enum Held {
    Narrow(ArrayVec<i64, MOST_AGGREGATES>),
    Wide(Vec<i128>),
}

impl Model for Numbers {
    ghost use Rattle.std.specs.Prelude.{List, ℤ};

    ghost Value = { List ℤ };

    ghost use Rattle.plan_model.specs.NumbersView.{numbers_in, IsHeld};

    ghost view = { λ numbers. numbers_in numbers.held };

    ghost invariant = { λ numbers. IsHeld numbers.held };
}

impl Numbers {
    /// No numbers.
    pub fn new() -> Numbers
        ensures { result ≡ [] }
    {
        Numbers {
            held: Held::Narrow(ArrayVec::new()),
        }
    }

    /// Puts a number behind the others.
    ///
    /// # Errors
    ///
    /// Only where memory runs out for a ninth number, or for one of more than 64 bits, or for those behind
    /// it. The numbers are then as they were.
    #[inline(always)]
    pub fn push(&mut self, alloc: Global, number: i128) -> Result<(), AllocError>
        ensures pushed { OnOk result (self.new ≡ self.old ++ number ∷ []) }
        ensures narrow { are_narrow (self.old ++ number ∷ []) ≡ true → IsOk result }
        ensures err { OnErr result (self.new ≡ self.old) }
    {
        match &mut self.held {
            Held::Narrow(numbers) => match i64::try_from(number) {
                Ok(number) if !numbers.is_full() => numbers.push(number),
                _ => self.held = Held::Wide(widened(alloc, numbers.as_slice(), number)?),
            },
            Held::Wide(numbers) => numbers.push(number)?,
        }
        Ok(())
    }

    /// How many numbers there are.
    pub fn len(&self) -> usize
        ensures { result ≡ length self.now }
    {
        match &self.held {
            Held::Narrow(numbers) => numbers.len(),
            Held::Wide(numbers) => numbers.len(),
        }
    }

    /// The number at a place, counted from 0, if there is one.
    pub fn get(&self, index: usize) -> Option<i128>
        ensures { result ≡ slice_get self.now index }
    {
        match &self.held {
            Held::Narrow(numbers) => numbers.as_slice().get(index).map(|number| *number as i128),
            Held::Wide(numbers) => numbers.as_slice().get(index).copied(),
        }
    }

    /// The numbers, if there are at most 8, each of 64 bits.
    pub fn narrow(&self) -> Option<&[i64]>
        ensures when { is_some result ≡ are_narrow self.now }
        ensures same { IfSome result (λ numbers. numbers.now ≡ self.now) }
        ensures few { IfSome result (λ numbers. length numbers.now ≤ MOST_AGGREGATES) }
    {
        match &self.held {
            Held::Narrow(numbers) => Some(numbers.as_slice()),
            Held::Wide(_) => None,
        }
    }
}

/// The numbers, and one more behind them, in a list.
fn widened(alloc: Global, numbers: &[i64], number: i128) -> Result<Vec<i128>, AllocError>
    ensures { IfOk result (λ wide. wide.items ≡ numbers.now ++ number ∷ []) }
{
    let mut wide = Vec::with_capacity(alloc, numbers.len() + 1)?;
    for narrow in numbers {
        wide.push(*narrow as i128)?;
    }
    wide.push(number)?;
    Ok(wide)
}
