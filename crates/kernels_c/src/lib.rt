//! The kernels for callers in C and in plain Rust, which `bench/kernels` times. A slice is passed as a
//! pointer and a length.
#![tactic(auto)]

ghost use Rattle.std.specs.Prelude.{◌==◌, ◌≡◌, count_by, length, map, pos, unwrap_or};
ghost use Rattle.kernels_c.specs.Codes.{cmp_of};
ghost use Rattle.lane_kernels.specs.Compare.{greatest_of, least_of, narrowed};
ghost use Rattle.lane_kernels.specs.Mix.{murmur_hash};

use lane_kernels::Cmp;

// The comparison with this number; from 5 on the last.
fn comparison(code: u32) -> Cmp
    ensures { result ≡ cmp_of code }
{
    match code {
        0 => Cmp::Eq,
        1 => Cmp::Ne,
        2 => Cmp::Lt,
        3 => Cmp::Le,
        4 => Cmp::Gt,
        _ => Cmp::Ge,
    }
}

/// [`lane_kernels::and_compare`], with the comparison as its number from 0.
#[unsafe(no_mangle)]
pub extern "C" fn kernels_and_compare(col: &[i64], code: u32, c: i64, mask: &mut [bool])
    requires { length col.now ≡ length mask.old }
    ensures { mask.new ≡ narrowed (cmp_of code) c col.now mask.old }
{
    lane_kernels::and_compare(col, comparison(code), c, mask)
}

/// [`lane_kernels::count_true`].
#[unsafe(no_mangle)]
pub extern "C" fn kernels_count_true(mask: &[bool]) -> usize
    ensures { result ≡ count_by (λ b. b) mask.now }
{
    lane_kernels::count_true(mask)
}

/// [`lane_kernels::least`], or 0 for an empty column.
#[unsafe(no_mangle)]
pub extern "C" fn kernels_least(col: &[i64]) -> i64
    ensures { result ≡ unwrap_or (least_of col.now) (pos 0) }
{
    lane_kernels::least(col).unwrap_or(0)
}

/// [`lane_kernels::greatest`], or 0 for an empty column.
#[unsafe(no_mangle)]
pub extern "C" fn kernels_greatest(col: &[i64]) -> i64
    ensures { result ≡ unwrap_or (greatest_of col.now) (pos 0) }
{
    lane_kernels::greatest(col).unwrap_or(0)
}

/// [`lane_kernels::mix_into`].
#[unsafe(no_mangle)]
pub extern "C" fn kernels_mix_into(codes: &[u32], out: &mut [u32])
    requires { length codes.now ≡ length out.old }
    ensures { out.new ≡ map murmur_hash codes.now }
{
    lane_kernels::mix_into(codes, out)
}

/// [`lane_kernels::equal_into`].
#[unsafe(no_mangle)]
pub extern "C" fn kernels_equal_into(targets: &[u32], t: u32, mask: &mut [bool])
    requires { length targets.now ≡ length mask.old }
    ensures { mask.new ≡ map (λ x. x == t) targets.now }
{
    lane_kernels::equal_into(targets, t, mask)
}
