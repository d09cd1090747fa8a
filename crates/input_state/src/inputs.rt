ghost use Rattle.std.specs.Prelude.{◌≡◌, ◌<◌, length, replicate, slice_set, IfOk};
ghost use Rattle.plain_data.specs.Times.{lowest};
ghost use Rattle.input_state.specs.Inputs as inputs;
ghost use Rattle.input_state.specs.Inputs.{inputs_from};

use crate::walks::{alignment_of, least_of, least_with, let_go};
use std::alloc::{AllocError, Global};
use std::marker::Model;

/// Whether messages are taken from an input.
#[derive(Clone, Copy, Debug, PartialEq, Eq)]
pub enum Shut {
    /// Messages are taken from it.
    Free,
    /// Its barrier came, and nothing is taken until the other inputs have theirs.
    Held,
    /// Its end came.
    Ended,
}

/// What follows once an input was shut.
#[derive(Clone, Copy, Debug, PartialEq, Eq)]
pub enum Aligned {
    /// Another input is still free.
    Waiting,
    /// Every input has the barrier or has ended, and at least one has the barrier.
    Barrier,
    /// Every input has ended.
    AllEnded,
}

/// The inputs of a task, or the partitions of a source's task, by their places from 0: the watermark of
/// each, kept at its highest, and whether it is shut.
///
/// The least of the watermarks is a running number: an input above it is moved without a look at the
/// others. Flink's `StatusWatermarkValve` gives a task its watermark by the same rule.
#[derive(Drop)]
pub struct Inputs {
    marks: Vec<i64>,
    shut: Vec<Shut>,
    least: i64,
}

impl Model for Inputs {
    ghost use Rattle.std.specs.Prelude.{◌≡◌, length};
    ghost use Rattle.input_state.specs.Inputs.{InputsData, IsInputs, inputs_from};

    ghost Value = { InputsData };

    ghost view = { λ i. inputs_from i.marks.items i.shut.items };

    ghost invariant = { λ i. IsInputs (inputs_from i.marks.items i.shut.items) i.least };
}

impl Inputs {
    /// So many inputs, each at the least i64, none of them shut.
    ///
    /// # Errors
    ///
    /// Only where memory runs out.
    pub fn new(alloc: Global, n: usize) -> Result<Inputs, AllocError>
        ensures { IfOk result (λ made. made ≡ inputs_from (replicate n lowest) (replicate n Shut.Free)) }
    {
        let marks = vec![in alloc; i64::MIN; n]?;
        Ok(Inputs::of(marks, vec![in alloc; Shut::Free; n]?))
    }

    /// Inputs at these watermarks, none of them shut.
    ///
    /// # Errors
    ///
    /// Only where memory runs out.
    pub fn at(alloc: Global, marks: &[i64]) -> Result<Inputs, AllocError>
        ensures { IfOk result (λ made. made ≡ inputs_from marks.now (replicate (length marks.now) Shut.Free)) }
    {
        let shut = vec![in alloc; Shut::Free; marks.len()]?;
        Ok(Inputs::of(Vec::from_slice(alloc, marks)?, shut))
    }

    fn of(marks: Vec<i64>, shut: Vec<Shut>) -> Inputs
        requires { length shut.items ≡ length marks.items }
        ensures { result ≡ inputs_from marks.items shut.items }
    {
        let least = least_of(&marks);
        Inputs { marks, shut, least }
    }

    /// How many inputs there are.
    pub fn len(&self) -> usize
        ensures marks { result ≡ length self.now.marks }
        ensures shut { result ≡ length self.now.shut }
    {
        self.marks.len()
    }

    /// The watermark of each input.
    pub fn marks(&self) -> &[i64]
        ensures { result.now ≡ self.now.marks }
    {
        self.marks.as_slice()
    }

    /// The least of the watermarks; without inputs the greatest i64.
    pub fn least(&self) -> i64
        ensures { result ≡ inputs.least self.now.marks }
    {
        self.least
    }

    /// The least of the watermarks, where it is above the least i64.
    pub fn least_known(&self) -> Option<i64>
        ensures { result ≡ inputs.risen lowest (inputs.least self.now.marks) }
    {
        rise_between(i64::MIN, self.least)
    }

    /// What [`Inputs::watermark`] would give.
    pub fn rise(&self, i: usize, t: i64) -> Option<i64>
        requires { i < length self.now.marks }
        ensures { result ≡ inputs.rise self.now.marks i t }
    {
        rise_between(self.least, self.least_after(i, t))
    }

    /// Moves the watermark of an input up to `t`, where it is lower. Gives the new least of all, only
    /// where it rose.
    pub fn watermark(&mut self, i: usize, t: i64) -> Option<i64>
        requires { i < length self.old.marks }
        ensures moved { self.new ≡ inputs_from (inputs.raised self.old.marks i t) self.old.shut }
        ensures risen { result ≡ inputs.rise self.old.marks i t }
    {
        let least = self.least_after(i, t);
        let risen = rise_between(self.least, least);
        self.marks[i] = self.marks[i].max(t);
        self.least = least;
        risen
    }

    /// The least of the watermarks, were that of input i moved up to t.
    #[tactic(auto, using(crate::proofs::Least::least_above, crate::proofs::Least::raised_same))]
    fn least_after(&self, i: usize, t: i64) -> i64
        requires { i < length self.now.marks }
        ensures { result ≡ inputs.least (inputs.raised self.now.marks i t) }
    {
        if self.marks[i] > self.least || t <= self.marks[i] {
            return self.least;
        }
        least_with(&self.marks, i, t)
    }

    /// Notes that the barrier of an input came.
    pub fn barrier(&mut self, i: usize) -> Aligned
        requires { i < length self.old.shut }
        ensures held { self.new ≡ inputs_from self.old.marks (slice_set self.old.shut i Shut.Held) }
        ensures aligned { result ≡ inputs.alignment self.new.shut }
    {
        self.shut[i] = Shut::Held;
        alignment_of(&self.shut)
    }

    /// Makes an input free again.
    pub fn reopen(&mut self, i: usize)
        requires { i < length self.old.shut }
        ensures { self.new ≡ inputs_from self.old.marks (slice_set self.old.shut i Shut.Free) }
    {
        self.shut[i] = Shut::Free;
    }

    /// Notes that an input has ended.
    pub fn end(&mut self, i: usize) -> Aligned
        requires { i < length self.old.shut }
        ensures ended { self.new ≡ inputs_from self.old.marks (slice_set self.old.shut i Shut.Ended) }
        ensures aligned { result ≡ inputs.alignment self.new.shut }
    {
        self.shut[i] = Shut::Ended;
        alignment_of(&self.shut)
    }

    /// How an input stands; one that is not there counts as ended.
    pub fn shut(&self, i: usize) -> Shut
        ensures { result ≡ inputs.shut_at self.now.shut i }
    {
        self.shut.get(i).copied().unwrap_or(Shut::Ended)
    }

    /// Whether an input is neither held nor ended.
    pub fn is_free(&self, i: usize) -> bool
        ensures { result ≡ inputs.is_free (inputs.shut_at self.now.shut i) }
    {
        matches!(self.shut(i), Shut::Free)
    }

    /// Whether a barrier holds an input.
    pub fn is_held(&self, i: usize) -> bool
        ensures { result ≡ inputs.is_held (inputs.shut_at self.now.shut i) }
    {
        matches!(self.shut(i), Shut::Held)
    }

    /// Lets the inputs go that a barrier holds.
    pub fn release(&mut self)
        ensures { self.new ≡ inputs_from self.old.marks (inputs.released self.old.shut) }
    {
        let_go(&mut self.shut);
    }
}

/// The new least, if it rose.
fn rise_between(old: i64, new: i64) -> Option<i64>
    ensures { result ≡ inputs.risen old new }
{
    if old < new { Some(new) } else { None }
}
