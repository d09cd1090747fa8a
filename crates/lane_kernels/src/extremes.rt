// The least and the greatest number of a column.
ghost use Rattle.std.specs.Prelude.{FitsSigned, ◌≡◌};
ghost use Rattle.std.specs.Int.{int_max, int_min, w64};
ghost use Rattle.std.specs.Simd.Lanes.{Each1, zip2};
ghost use Rattle.lane_kernels.specs.Compare.{folded, greatest_of, least_of};
ghost use Rattle.lane_kernels.specs.Extremes.{pick};

use crate::fits::know_fits;
use std::simd::prelude::*;

/// Which number of a column is asked for.
#[derive(Clone, Copy)]
enum Extreme {
    Least,
    Greatest,
}

#[inline(always)]
fn picked(extreme: Extreme, a: i64, b: i64) -> i64
    ensures { result ≡ pick extreme a b }
{
    match extreme {
        Extreme::Least => a.min(b),
        Extreme::Greatest => a.max(b),
    }
}

#[inline(always)]
fn lesser(a: &[i64; 16], b: &[i64; 16]) -> [i64; 16]
    requires a_fits { Each1 (FitsSigned w64) a.now }
    requires b_fits { Each1 (FitsSigned w64) b.now }
    ensures { result ≡ zip2 int_min a.now b.now }
{
    i64x16::from_array(*a)
        .simd_min(i64x16::from_array(*b))
        .to_array()
}

#[inline(always)]
fn greater(a: &[i64; 16], b: &[i64; 16]) -> [i64; 16]
    requires a_fits { Each1 (FitsSigned w64) a.now }
    requires b_fits { Each1 (FitsSigned w64) b.now }
    ensures { result ≡ zip2 int_max a.now b.now }
{
    i64x16::from_array(*a)
        .simd_max(i64x16::from_array(*b))
        .to_array()
}

#[inline(always)]
fn picked_lanes(extreme: Extreme, a: &[i64; 16], b: &[i64; 16]) -> [i64; 16]
    requires a_fits { Each1 (FitsSigned w64) a.now }
    requires b_fits { Each1 (FitsSigned w64) b.now }
    ensures { result ≡ zip2 (pick extreme) a.now b.now }
{
    match extreme {
        Extreme::Least => lesser(a, b),
        Extreme::Greatest => greater(a, b),
    }
}

// Inlined, so that each caller has a loop of its own with no test in it.
#[inline(always)]
fn extreme_of(extreme: Extreme, col: &[i64]) -> Option<i64>
    ensures { result ≡ folded (pick extreme) col.now }
{
    if col.is_empty() {
        return None;
    }
    know_fits(col);
    let first = col[0];
    let mut lanes = [first; 16];
    let (whole, _) = col.as_chunks::<16>();
    let mut at = 0usize;
    for chunk in whole {
        lanes = picked_lanes(extreme, &lanes, chunk);
        at += 16;
    }
    let mut found = first;
    for j in 0..16usize {
        found = picked(extreme, found, lanes[j]);
    }
    for i in at..col.len() {
        found = picked(extreme, found, col[i]);
    }
    Some(found)
}

/// The least number of a column, or `None` for an empty one.
pub fn least(col: &[i64]) -> Option<i64>
    ensures { result ≡ least_of col.now }
{
    extreme_of(Extreme::Least, col)
}

/// The greatest number of a column, or `None` for an empty one.
pub fn greatest(col: &[i64]) -> Option<i64>
    ensures { result ≡ greatest_of col.now }
{
    extreme_of(Extreme::Greatest, col)
}
