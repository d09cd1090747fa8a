//! What is known only by a walk over all inputs: the least watermark, and how they stand together.

ghost use Rattle.std.specs.Prelude.{◌≡◌, ◌<◌, length, slice_set};
ghost use Rattle.input_state.specs.Inputs as inputs;

use crate::inputs::{Aligned, Shut};

/// The least of the watermarks, or the greatest i64.
pub fn least_of(marks: &[i64]) -> i64
    ensures { result ≡ inputs.least marks.now }
{
    let mut low = i64::MAX;
    let mut k = marks.len();
    while k > 0 {
        k -= 1;
        if marks[k] <= low {
            low = marks[k];
        }
    }
    low
}

/// The least of the watermarks, were input i at t.
#[tactic(auto, using(crate::proofs::Least::least_set))]
pub fn least_with(marks: &[i64], i: usize, t: i64) -> i64
    requires { i < length marks.now }
    ensures { result ≡ inputs.least (slice_set marks.now i t) }
{
    let before = least_of(&marks[..i]);
    let after = least_of(&marks[i + 1..]);
    before.min(t.min(after))
}

/// What follows from how the inputs stand.
pub fn alignment_of(shut: &[Shut]) -> Aligned
    ensures { result ≡ inputs.alignment shut.now }
{
    let mut all = true;
    let mut any = false;
    let mut k = shut.len();
    while k > 0 {
        k -= 1;
        match shut[k] {
            Shut::Free => all = false,
            Shut::Held => any = true,
            Shut::Ended => {}
        }
    }
    match (all, any) {
        (false, _) => Aligned::Waiting,
        (true, true) => Aligned::Barrier,
        (true, false) => Aligned::AllEnded,
    }
}

/// Makes every input free that was held.
pub fn let_go(shut: &mut [Shut])
    ensures { shut.new ≡ inputs.released shut.old }
{
    for s in shut.iter_mut() {
        *s = match *s {
            Shut::Free | Shut::Held => Shut::Free,
            Shut::Ended => Shut::Ended,
        };
    }
}
