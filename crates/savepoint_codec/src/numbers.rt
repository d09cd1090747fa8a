//! Numbers of 128 bits, kept in 64 while each of them fits.

ghost use Rattle.std.specs.Prelude.{◌≡◌, ◌+◌, ◌≤◌, ◌++◌, [], true, length, take, drop, IfOk, OnOk, OnErr};
ghost use Rattle.savepoint_codec.specs.Numbers.{numbers_of, list_of, are_narrow};

use std::alloc::{AllocError, Global};

/// Numbers in order, as they are kept.
#[derive(Clone, Copy, Debug)]
pub enum Numbers<'a> {
    Narrow(&'a [i64]),
    Wide(&'a [i128]),
}

impl Numbers<'_> {
    /// How many numbers there are.
    pub fn len(self) -> usize
        ensures { result ≡ length (numbers_of self.entry) }
    {
        match self {
            Numbers::Narrow(numbers) => numbers.len(),
            Numbers::Wide(numbers) => numbers.len(),
        }
    }

    /// Puts the numbers into places, one for each.
    pub fn copy_to(self, room: &mut [i128])
        requires { length room.old ≡ length (numbers_of self) }
        ensures { room.new ≡ numbers_of self.entry }
    {
        match self {
            Numbers::Narrow(numbers) => copy_narrow(numbers, room),
            Numbers::Wide(numbers) => room.copy_from_slice(numbers),
        }
    }
}

fn copy_narrow(numbers: &[i64], room: &mut [i128])
    requires { length room.old ≡ length numbers.now }
    ensures { room.new ≡ numbers.now }
{
    for (i, number) in numbers.iter().enumerate() {
        room[i] = *number as i128;
    }
}

/// Numbers in order, each in 64 bits while all of them fit.
#[derive(Debug, Drop)]
pub(crate) enum NumberList {
    Narrow(Vec<i64>),
    Wide(Vec<i128>),
}

impl NumberList {
    /// No numbers.
    pub(crate) fn new(alloc: Global) -> NumberList
        ensures { list_of result ≡ [] }
    {
        NumberList::Narrow(Vec::new(alloc))
    }

    /// Makes room for so many numbers more.
    ///
    /// # Errors
    ///
    /// Only where memory runs out.
    pub(crate) fn reserve(&mut self, additional: usize) -> Result<(), AllocError>
        ensures { list_of self.new ≡ list_of self.old }
    {
        match self {
            NumberList::Narrow(numbers) => numbers.reserve_exact(additional),
            NumberList::Wide(numbers) => numbers.reserve_exact(additional),
        }
    }

    /// More numbers, behind those that are there.
    ///
    /// # Errors
    ///
    /// Only where memory runs out; then the numbers are as they were.
    pub(crate) fn extend(&mut self, alloc: Global, more: Numbers<'_>) -> Result<(), AllocError>
        ensures ok { OnOk result (list_of self.new ≡ list_of self.old ++ numbers_of more.entry) }
        ensures err { OnErr result (list_of self.new ≡ list_of self.old) }
    {
        match self {
            NumberList::Narrow(numbers) => match more {
                Numbers::Narrow(more) => numbers.extend_from_slice(more),
                Numbers::Wide(more) if are_narrow(more) => push_narrowed(numbers, more),
                Numbers::Wide(more) => {
                    *self = NumberList::Wide(widened(alloc, numbers, more)?);
                    Ok(())
                }
            },
            NumberList::Wide(numbers) => match more {
                Numbers::Narrow(more) => push_widened(numbers, more),
                Numbers::Wide(more) => numbers.extend_from_slice(more),
            },
        }
    }

    /// All of them.
    pub(crate) fn all(&self) -> Numbers<'_>
        ensures { numbers_of result ≡ list_of self.now }
    {
        match self {
            NumberList::Narrow(numbers) => Numbers::Narrow(numbers.as_slice()),
            NumberList::Wide(numbers) => Numbers::Wide(numbers.as_slice()),
        }
    }

    /// So many numbers from a place on.
    pub(crate) fn part(&self, from: usize, width: usize) -> Numbers<'_>
        requires { from + width ≤ length (list_of self.now) }
        ensures { numbers_of result ≡ take width (drop from (list_of self.now)) }
    {
        match self {
            NumberList::Narrow(numbers) => Numbers::Narrow(&numbers[from..from + width]),
            NumberList::Wide(numbers) => Numbers::Wide(&numbers[from..from + width]),
        }
    }
}

/// Whether each number fits in 64 bits.
fn are_narrow(numbers: &[i128]) -> bool
    ensures { result ≡ are_narrow numbers.now }
{
    numbers.iter().all(|number| i64::try_from(*number).is_ok())
}

/// More numbers, each made narrow, behind those that are there.
fn push_narrowed(numbers: &mut Vec<i64>, more: &[i128]) -> Result<(), AllocError>
    requires { are_narrow more.now ≡ true }
    ensures ok { OnOk result (numbers.new.items ≡ numbers.old.items ++ more.now) }
    ensures err { OnErr result (numbers.new.items ≡ numbers.old.items) }
{
    numbers.reserve(more.len())?;
    for number in more {
        numbers.push_reserved(*number as i64);
    }
    Ok(())
}

/// More numbers, each made wide, behind those that are there.
fn push_widened(numbers: &mut Vec<i128>, more: &[i64]) -> Result<(), AllocError>
    ensures ok { OnOk result (numbers.new.items ≡ numbers.old.items ++ more.now) }
    ensures err { OnErr result (numbers.new.items ≡ numbers.old.items) }
{
    numbers.reserve(more.len())?;
    for number in more {
        numbers.push_reserved(*number as i128);
    }
    Ok(())
}

/// Numbers made wide, and more behind them. There is room for as many as there was.
fn widened(alloc: Global, numbers: &Vec<i64>, more: &[i128]) -> Result<Vec<i128>, AllocError>
    ensures { IfOk result (λ wide. wide.items ≡ numbers.now.items ++ more.now) }
{
    let mut wide = Vec::with_capacity(alloc, numbers.capacity())?;
    push_widened(&mut wide, numbers.as_slice())?;
    wide.extend_from_slice(more)?;
    Ok(wide)
}
