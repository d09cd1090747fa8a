// The comparison of a column with a constant, into a mask.
ghost use Rattle.std.specs.Prelude.{FitsSigned, ◌≡◌, ℕ, ◌+◌, ◌<◌, ◌≤◌, ◌&&◌, if◌then◌else◌, false, length, map, not, pos, slice_index_or};
ghost use Rattle.std.specs.Int.{w64};
ghost use Rattle.std.specs.Ordering.{int_eq};
ghost use Rattle.std.specs.Simd.Lanes.{Each1};
ghost use Rattle.lane_kernels.specs.Compare.{holds, narrowed};

use crate::Cmp;
use crate::fits::know_fits;
use std::simd::prelude::*;

// One where the lane holds, and else zero.
#[inline(always)]
fn compare_lanes(lanes: &[i64; 16], cmp: Cmp, c: i64) -> [i64; 16]
    requires { Each1 (FitsSigned w64) lanes.now }
    ensures { result ≡ map (λ x. if holds cmp x c then pos 1 else pos 0) lanes.now }
{
    let v = i64x16::from_array(*lanes);
    let w = i64x16::splat(c);
    let hits = match cmp {
        Cmp::Eq => v.simd_eq(w),
        Cmp::Ne => v.simd_ne(w),
        Cmp::Lt => v.simd_lt(w),
        Cmp::Le => v.simd_le(w),
        Cmp::Gt => v.simd_gt(w),
        Cmp::Ge => v.simd_ge(w),
    };
    hits.select(i64x16::splat(1), i64x16::splat(0)).to_array()
}

// Narrows sixteen places of the mask, where the lane is zero.
#[inline(always)]
fn and_lanes(mask: &mut [bool], at: usize, hits: &[i64; 16])
    requires { at + 16 ≤ length mask.old }
    ensures before { (k : ℕ) → k < at → slice_index_or mask.new k false ≡ slice_index_or mask.old k false }
    ensures here { (k : ℕ) → k < 16 → slice_index_or mask.new (at + k) false ≡ (slice_index_or mask.old (at + k) false && not (int_eq (slice_index_or hits.now k (pos 0)) (pos 0))) }
    ensures after { (k : ℕ) → at + 16 ≤ k → slice_index_or mask.new k false ≡ slice_index_or mask.old k false }
{
    for j in 0..16usize {
        mask[at + j] = mask[at + j] & (hits[j] != 0);
    }
}

/// Narrows a mask by a comparison: each place becomes itself and `col cmp c` at that place.
///
/// The column and the mask have one length.
pub fn and_compare(col: &[i64], cmp: Cmp, c: i64, mask: &mut [bool])
    requires { length col.now ≡ length mask.old }
    ensures { mask.new ≡ narrowed cmp c col.now mask.old }
{
    know_fits(col);
    let (whole, _) = col.as_chunks::<16>();
    let mut at = 0usize;
    for lanes in whole {
        let hits = compare_lanes(lanes, cmp, c);
        and_lanes(mask, at, &hits);
        at += 16;
    }
    for i in at..col.len() {
        mask[i] = mask[i] & cmp.holds(col[i] as i128, c as i128);
    }
}
