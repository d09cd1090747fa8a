// How many places of a mask are true.
ghost use Rattle.std.specs.Prelude.{◌≡◌, count_by};

use std::simd::prelude::*;

// How many of the 32 are true.
fn count_lanes(lanes: &[bool; 32]) -> u32
    ensures { result ≡ count_by (λ b. b) lanes.now }
{
    let mut bytes = [0u8; 32];
    for j in 0..32usize {
        bytes[j] = lanes[j] as u8;
    }
    u8x32::from_array(bytes)
        .simd_ne(u8x32::splat(0))
        .to_bitmask()
        .count_ones()
}

/// How many places of a mask are true.
pub fn count_true(mask: &[bool]) -> usize
    ensures { result ≡ count_by (λ b. b) mask.now }
{
    let (whole, _) = mask.as_chunks::<32>();
    let mut total = 0usize;
    let mut at = 0usize;
    for lanes in whole {
        total += count_lanes(lanes) as usize;
        at += 32;
    }
    for i in at..mask.len() {
        total += mask[i] as usize;
    }
    total
}
