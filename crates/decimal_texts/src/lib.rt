//! Decimals that may have an exponent, as floats are printed, and products of two, scaled to whole numbers. No number
//! passes through a float, and nothing is rounded.
#![tactic(auto)]

mod digits;
mod exponent;
mod factor;
mod point;
mod products;
mod scaling;
mod scientific;

pub use digits::raised_digits;
pub use point::{DecimalPoint, swap_points};
pub use products::{exact_product, product};
pub use scaling::exact;
