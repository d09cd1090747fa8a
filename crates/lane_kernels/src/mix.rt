// The mix of hash codes.
ghost use Rattle.std.specs.Prelude.{◌≡◌, length, map};
ghost use Rattle.lane_kernels.specs.Mix.{distance, finished, murmur_hash, scrambled};

use std::simd::prelude::*;

#[inline(always)]
fn scramble_lanes(code: u32x8) -> u32x8
    requires { length code ≡ 8 }
    ensures { result ≡ map scrambled code }
{
    let k = code * u32x8::splat(0xcc9e_2d51);
    let k = (k << 15) | (k >> 17);
    let k = k * u32x8::splat(0x1b87_3593);
    let h = (k << 13) | (k >> 19);
    h * u32x8::splat(5) + u32x8::splat(0xe654_6b64)
}

#[inline(always)]
fn finish_lanes(h: u32x8) -> u32x8
    requires { length h ≡ 8 }
    ensures { result ≡ map finished h }
{
    let h = h ^ u32x8::splat(4);
    let h = (h ^ (h >> 16)) * u32x8::splat(0x85eb_ca6b);
    let h = (h ^ (h >> 13)) * u32x8::splat(0xc2b2_ae35);
    h ^ (h >> 16)
}

#[inline(always)]
fn distance_lanes(h: u32x8) -> u32x8
    requires { length h ≡ 8 }
    ensures { result ≡ map distance h }
{
    let least = u32x8::splat(0x8000_0000);
    let back = h
        .simd_eq(least)
        .select(u32x8::splat(0), u32x8::splat(0) - h);
    h.simd_lt(least).select(h, back)
}

fn mix_lanes(codes: &[u32; 8]) -> [u32; 8]
    ensures { result ≡ map murmur_hash codes.now }
{
    distance_lanes(finish_lanes(scramble_lanes(u32x8::from_array(*codes)))).to_array()
}

fn mix_one(code: u32) -> u32
    ensures { result ≡ murmur_hash code }
{
    let k = code.wrapping_mul(0xcc9e_2d51).rotate_left(15);
    let k = k.wrapping_mul(0x1b87_3593).rotate_left(13);
    let h = k.wrapping_mul(5).wrapping_add(0xe654_6b64) ^ 4;
    let h = (h ^ (h >> 16)).wrapping_mul(0x85eb_ca6b);
    let h = (h ^ (h >> 13)).wrapping_mul(0xc2b2_ae35);
    let h = h ^ (h >> 16);
    if h < 0x8000_0000 {
        h
    } else if h == 0x8000_0000 {
        0
    } else {
        0u32.wrapping_sub(h)
    }
}

/// The mix of each hash code: `murmurHash` of Flink's `MathUtils`, which is the murmur3 hash of one
/// four-byte block, and of its signed value the distance from zero, or 0 for the least `i32`.
///
/// The codes and the places for their mixes have one length.
pub fn mix_into(codes: &[u32], out: &mut [u32])
    requires { length codes.now ≡ length out.old }
    ensures { out.new ≡ map murmur_hash codes.now }
{
    let (whole, _) = codes.as_chunks::<8>();
    let mut at = 0usize;
    for lanes in whole {
        let mixes = mix_lanes(lanes);
        u32x8::from_array(mixes).copy_to_slice(&mut out[at..]);
        at += 8;
    }
    for i in at..codes.len() {
        out[i] = mix_one(codes[i]);
    }
}
