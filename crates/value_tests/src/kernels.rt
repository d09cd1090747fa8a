use lane_kernels::{Cmp, and_compare, count_true, equal_into, greatest, least, mix_into};
use std::alloc::{AllocError, Global};
use std::test::Fail;

const LONGEST: i64 = 130;

// Small numbers of both signs, and here and there an end of their type.
fn numbers(alloc: Global) -> Result<Vec<i64>, AllocError> {
    let mut numbers = Vec::new(alloc);
    for i in 0..LONGEST {
        numbers.push(match i % 9 {
            4 => i64::MIN,
            7 => i64::MAX,
            _ => i.wrapping_mul(37) % 11 - 5,
        })?;
    }
    Ok(numbers)
}

// Hash codes of all sizes.
fn codes(alloc: Global) -> Result<Vec<u32>, AllocError> {
    let mut codes = Vec::new(alloc);
    let mut code = 0u32;
    for _ in 0..LONGEST {
        codes.push(code)?;
        code = code.wrapping_mul(0x9e37_79b1).wrapping_add(0x7f4a_7c15);
    }
    Ok(codes)
}

fn masks(alloc: Global) -> Result<Vec<bool>, AllocError> {
    let mut mask = Vec::new(alloc);
    for i in 0..LONGEST {
        mask.push(i % 3 != 1)?;
    }
    Ok(mask)
}

fn compares(cmp: Cmp, a: i64, b: i64) -> bool {
    match cmp {
        Cmp::Eq => a == b,
        Cmp::Ne => a != b,
        Cmp::Lt => a < b,
        Cmp::Le => a <= b,
        Cmp::Gt => a > b,
        Cmp::Ge => a >= b,
    }
}

const EVERY_CMP: [Cmp; 6] = [Cmp::Eq, Cmp::Ne, Cmp::Lt, Cmp::Le, Cmp::Gt, Cmp::Ge];

#[test]
fn compares_at_each_length(rt: HostRuntime) -> Result<(), Fail> {
    let column = numbers(rt.alloc())?;
    let places = masks(rt.alloc())?;
    assert_eq!(rt; column.len(), places.len());
    for length in 0..column.len() + 1 {
        let col = &column[..length];
        for cmp in EVERY_CMP {
            for c in [i64::MIN, -1, 0, 3, i64::MAX] {
                let mut mask = places[..length].to_vec(rt.alloc())?;
                and_compare(col, cmp, c, &mut mask);
                for i in 0..length {
                    let wanted = places[i] && compares(cmp, col[i], c);
                    assert_eq!(rt; mask[i], wanted, "{cmp:?} {c} at {i} of {length}");
                }
            }
        }
    }
    Ok(())
}

#[test]
fn compares_wide_numbers(rt: HostRuntime) {
    for cmp in EVERY_CMP {
        for (a, b) in [(i64::MIN, i64::MAX), (i64::MAX, i64::MIN), (7, 7)] {
            assert_eq!(rt;
                cmp.holds(a as i128, b as i128),
                compares(cmp, a, b),
                "{cmp:?}"
            );
        }
    }
    assert!(rt; Cmp::Gt.holds(i128::MAX, i64::MAX as i128));
}

#[test]
fn counts_at_each_length(rt: HostRuntime) -> Result<(), Fail> {
    let places = masks(rt.alloc())?;
    let mut wanted = 0usize;
    for length in 0..places.len() {
        assert_eq!(rt; count_true(&places[..length]), wanted, "of {length}");
        wanted = wanted.wrapping_add(places[length] as usize);
    }
    assert_eq!(rt; count_true(&places), wanted);
    Ok(())
}

#[test]
fn finds_the_extremes_at_each_length(rt: HostRuntime) -> Result<(), Fail> {
    let column = numbers(rt.alloc())?;
    let mut low = None;
    let mut high = None;
    for length in 0..column.len() {
        assert_eq!(rt; least(&column[..length]), low, "of {length}");
        assert_eq!(rt; greatest(&column[..length]), high, "of {length}");
        let next = column[length];
        low = Some(low.map_or(next, |x: i64| if next < x { next } else { x }));
        high = Some(high.map_or(next, |x: i64| if next > x { next } else { x }));
    }
    assert_eq!(rt; least(&column), low);
    assert_eq!(rt; greatest(&column), high);
    Ok(())
}

// Flink's `MathUtils.murmurHash` as it is published, one code at a time.
fn published_mix(code: u32) -> u32 {
    let scrambled = code
        .wrapping_mul(0xcc9e_2d51)
        .rotate_left(15)
        .wrapping_mul(0x1b87_3593);
    let mut hash = scrambled
        .rotate_left(13)
        .wrapping_mul(5)
        .wrapping_add(0xe654_6b64);
    hash ^= 4;
    hash ^= hash >> 16;
    hash = hash.wrapping_mul(0x85eb_ca6b);
    hash ^= hash >> 13;
    hash = hash.wrapping_mul(0xc2b2_ae35);
    hash ^= hash >> 16;
    match hash {
        0..0x8000_0000 => hash,
        0x8000_0000 => 0,
        _ => hash.wrapping_neg(),
    }
}

#[test]
fn mixes_at_each_length(rt: HostRuntime) -> Result<(), Fail> {
    let codes = codes(rt.alloc())?;
    for length in 0..codes.len() + 1 {
        let mut mixes = vec![in rt.alloc(); 0u32; length]?;
        mix_into(&codes[..length], &mut mixes);
        for i in 0..length {
            assert_eq!(rt; mixes[i], published_mix(codes[i]), "at {i} of {length}");
        }
    }
    Ok(())
}

#[test]
fn mixes_the_known_codes(rt: HostRuntime) {
    let mut mixes = [0u32; 4];
    mix_into(&[0, 1, 0xffff_ffff, 0x8765_4321], &mut mixes);
    assert_eq!(rt;
        mixes,
        [593_689_054, 68_075_478, 1_982_413_648, 178_564_757]
    );
}

#[test]
fn selects_at_each_length(rt: HostRuntime) -> Result<(), Fail> {
    let codes = codes(rt.alloc())?;
    let mut targets = Vec::new(rt.alloc());
    for code in &codes {
        targets.push(code % 3)?;
    }
    for length in 0..targets.len() + 1 {
        let mut mask = vec![in rt.alloc(); false; length]?;
        equal_into(&targets[..length], 1, &mut mask);
        for i in 0..length {
            assert_eq!(rt; mask[i], targets[i] == 1, "at {i} of {length}");
        }
    }
    Ok(())
}
