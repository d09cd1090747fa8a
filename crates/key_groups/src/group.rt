ghost use Rattle.std.specs.Prelude.{◌%◌, ◌^◌, ◌<◌, ◌≡◌, ◌≤◌, length, map};
ghost use Rattle.key_groups.specs.Groups.{hash_code, key_group};

use crate::limits::MaxParallelism;
use lane_kernels::mix_into;

// How many keys are hashed at a time, by way of a buffer on the stack.
const CHUNK: usize = 256;

// `Long.hashCode` of Java: the lower half of the bits, combined with the upper half.
fn hash_code(key: i64) -> u32
    ensures { result ≡ hash_code key }
{
    let bits = key.cast_unsigned();
    ((bits ^ (bits >> 32)) & 0xffff_ffff) as u32
}

/// The group of a key: Flink's `KeyGroupRangeAssignment.assignToKeyGroup` of a `Long` key.
pub fn group_of(key: i64, max: MaxParallelism) -> u32
    ensures group { result ≡ key_group max key }
    ensures below { result < max }
{
    let mut mix = [0u32];
    mix_into(&[hash_code(key)], &mut mix);
    mix[0] % max.get()
}

fn hash_codes_into(keys: &[i64], codes: &mut [u32])
    requires { length keys.now ≡ length codes.old }
    ensures { codes.new ≡ map hash_code keys.now }
{
    for i in 0..keys.len() {
        codes[i] = hash_code(keys[i]);
    }
}

// Most jobs have a power of two of key groups, and then the low bits of a hash are what a division leaves, and cost
// less.
fn low_bits(hashes: &mut [u32], bits: u32)
    requires { bits ≤ 15 }
    ensures { hashes.new ≡ map (λ hash. hash % 2 ^ bits) hashes.old }
{
    let mask = (1 << bits) - 1;
    for hash in hashes.iter_mut() {
        *hash &= mask;
    }
}

fn divided(hashes: &mut [u32], groups: u32)
    requires { 0 < groups }
    ensures { hashes.new ≡ map (λ hash. hash % groups) hashes.old }
{
    for hash in hashes.iter_mut() {
        *hash %= groups;
    }
}

fn remainders(hashes: &mut [u32], max: MaxParallelism)
    ensures { hashes.new ≡ map (λ hash. hash % max) hashes.old }
{
    match max.whole_bits() {
        Some(bits) => low_bits(hashes, bits),
        None => divided(hashes, max.get()),
    }
}

fn chunk_groups(keys: &[i64], max: MaxParallelism, out: &mut [u32])
    requires few { length keys.now ≤ 256 }
    requires alike { length keys.now ≡ length out.old }
    ensures { out.new ≡ map (key_group max) keys.now }
{
    let mut buffer = [0u32; CHUNK];
    let codes = &mut buffer[..keys.len()];
    hash_codes_into(keys, codes);
    mix_into(codes, out);
    remainders(out, max);
}

/// The group of each key of a column, as [`group_of`] gives it.
///
/// The keys and the places for their groups have one length.
pub fn groups_into(keys: &[i64], max: MaxParallelism, out: &mut [u32])
    requires { length keys.now ≡ length out.old }
    ensures { out.new ≡ map (key_group max) keys.now }
{
    let mut at = 0;
    while at < keys.len() {
        let end = keys.len().min(at + CHUNK);
        chunk_groups(&keys[at..end], max, &mut out[at..end]);
        at = end;
    }
}
