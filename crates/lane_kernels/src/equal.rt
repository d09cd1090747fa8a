// Which places of a column of targets have one target.
ghost use Rattle.std.specs.Prelude.{◌≡◌, ℕ, ◌+◌, ◌<◌, ◌==◌, ◌≤◌, if◌then◌else◌, false, length, map, not, slice_index_or};

use std::simd::prelude::*;

// One where the lane equals t, and else zero.
#[inline(always)]
fn equal_lanes(lanes: &[u32; 16], t: u32) -> [u32; 16]
    ensures { result ≡ map (λ x. if x == t then 1 else 0) lanes.now }
{
    u32x16::from_array(*lanes)
        .simd_eq(u32x16::splat(t))
        .select(u32x16::splat(1), u32x16::splat(0))
        .to_array()
}

#[inline(always)]
fn set_lanes(mask: &mut [bool], at: usize, hits: &[u32; 16])
    requires { at + 16 ≤ length mask.old }
    ensures before { (k : ℕ) → k < at → slice_index_or mask.new k false ≡ slice_index_or mask.old k false }
    ensures here { (k : ℕ) → k < 16 → slice_index_or mask.new (at + k) false ≡ not (slice_index_or hits.now k 0 == 0) }
{
    for j in 0..16usize {
        mask[at + j] = hits[j] != 0;
    }
}

/// Selects a target: each place of the mask becomes whether the target there is `t`.
///
/// The targets and the mask have one length.
pub fn equal_into(targets: &[u32], t: u32, mask: &mut [bool])
    requires { length targets.now ≡ length mask.old }
    ensures { mask.new ≡ map (λ x. x == t) targets.now }
{
    let (whole, _) = targets.as_chunks::<16>();
    let mut at = 0usize;
    for lanes in whole {
        let hits = equal_lanes(lanes, t);
        set_lanes(mask, at, &hits);
        at += 16;
    }
    for i in at..targets.len() {
        mask[i] = targets[i] == t;
    }
}
