//! Kernels over columns: whole chunks in vector registers by `std::simd`, and a plain loop for the rest.
//!
//! Each kernel is proved to answer what the plain definition on lists answers, at every length. None
//! of them allocates.
#![tactic(auto)]

ghost use Rattle.std.specs.Prelude.{◌≡◌};
ghost use Rattle.lane_kernels.specs.Compare.{holds};

mod compare;
mod count;
mod equal;
mod extremes;
mod fits;
mod mix;

pub use compare::and_compare;
pub use count::count_true;
pub use equal::equal_into;
pub use extremes::{greatest, least};
pub use mix::mix_into;

/// A comparison of two signed numbers.
#[derive(Clone, Copy, Debug, PartialEq, Eq)]
pub enum Cmp {
    Eq,
    Ne,
    Lt,
    Le,
    Gt,
    Ge,
}

impl Cmp {
    /// Whether `a` compares so with `b`, as `a < b` for `Lt`.
    pub fn holds(self, a: i128, b: i128) -> bool
        ensures { result ≡ holds self a b }
    {
        match self {
            Cmp::Eq => a == b,
            Cmp::Ne => a != b,
            Cmp::Lt => a < b,
            Cmp::Le => a <= b,
            Cmp::Gt => a > b,
            Cmp::Ge => a >= b,
        }
    }
}
