ghost use Rattle.std.specs.Prelude.{◌++◌};
ghost use Rattle.std.specs.Hash as fed;
ghost use Rattle.std.specs.Ordering.{int_eq, on, eq_of_both};
ghost use Rattle.std.specs.Cmp.Rules.{comparing, hashing};
ghost use Rattle.std.proofs.Common.{rules};

use indexmap::IndexMap;
use plan_model::Pane;
use std::cell::Cell;
use std::hash::{BuildHasher, BuildHasherDefault, FoldHasher, Hash, Hasher};
use std::io;
use std::random::RandomSource;
use std::test::Fail;
use window_state::HashKeys;

// A pane that counts how often it is compared.
#[derive(Clone, Copy)]
struct Counted<'a> {
    pane: Pane,
    comparisons: &'a Cell<u64>,
}

impl PartialEq for Counted<'_> {
    ghost eq = { eq_of_both (on (λ x. x.pane.start) int_eq) (on (λ x. x.pane.key) int_eq) };

    ghost laws = { Prim.search (comparing, rules) };

    fn eq(&self, other: &Self) -> bool {
        self.comparisons.set(self.comparisons.get().wrapping_add(1));
        self.pane.start == other.pane.start && self.pane.key == other.pane.key
    }
}

impl Eq for Counted<'_> {
    ghost laws = { Prim.search (comparing, rules) };
}

impl Hash for Counted<'_> {
    ghost hash_input = { λ x. fed.i64 x.pane.start ++ fed.i64 x.pane.key };

    ghost respects_eq = { Prim.search (hashing, rules) };

    fn hash<H: Hasher>(&self, state: &mut H) {
        state.write_i64(self.pane.start);
        state.write_i64(self.pane.key);
    }
}

/// Three numbers in turn, those of the digits of pi, in place of random ones.
#[derive(Drop)]
struct Digits {
    drawn: Cell<usize>,
}

const DIGITS: [u128; 3] = [
    0x243f_6a88_85a3_08d3_1319_8a2e_0370_7344,
    0xa409_3822_299f_31d0_082e_fa98_ec4e_6c89,
    0x4528_21e6_38d0_1377_be54_66cf_34e9_0c6c,
];

impl RandomSource for Digits {
    fn fill_bytes(&self, buf: &mut [u8]) -> io::Result<()> {
        let place = self.drawn.get();
        self.drawn.set(place.wrapping_add(1));
        let number = DIGITS.get(place).copied().unwrap_or(0);
        for (byte, digit) in buf.iter_mut().zip(number.to_le_bytes()) {
            *byte = digit;
        }
        Ok(())
    }
}

fn keys() -> io::Result<HashKeys> {
    HashKeys::random(&Digits {
        drawn: Cell::new(0),
    })
}

// These panes have one hash by the kit's own hasher, whose numbers are public.
fn hostile(public: &BuildHasherDefault<FoldHasher>, start: i64) -> Pane {
    Pane {
        start,
        key: (public.hash_one(start) ^ 12345).cast_signed(),
    }
}

// How many comparisons so many of them cost where they are put into a map.
fn comparisons<S: BuildHasher + Drop>(
    rt: &HostRuntime,
    hasher: S,
    panes: u16,
) -> Result<u64, Fail> {
    let public = BuildHasherDefault::new();
    let comparisons = Cell::new(0);
    let mut map = IndexMap::with_hasher(rt.alloc(), hasher);
    for start in 0..panes {
        let pane = hostile(&public, start as i64);
        let counted = Counted {
            pane,
            comparisons: &comparisons,
        };
        map.insert(counted, start)?;
    }
    Ok(comparisons.get())
}

#[test]
fn hostile_panes_are_seldom_compared(rt: HostRuntime) -> Result<(), Fail> {
    let public = BuildHasherDefault::<FoldHasher>::new();
    assert_eq!(rt; comparisons(&rt, public, 1000)?, 1000 * 999 / 2);
    assert!(rt; comparisons(&rt, keys()?, 1000)? < 200);
    assert!(rt; comparisons(&rt, keys()?, 20000)? < 4000);
    Ok(())
}

#[test]
fn hashes_are_those_of_the_formula(rt: HostRuntime) -> Result<(), Fail> {
    let keys = keys()?;
    // Computed by Python's whole numbers.
    for (start, key, hash) in [
        (0, 0, 0x4528_21e6_38d0_1377),
        (60000, 501, 0xc6e6_2913_1ce9_5da8),
        (-1, 7, 0xe43b_8a65_e513_a2e0),
        (
            -4611686018427387904,
            9223372036854775807,
            0xd441_b9ac_662d_047a,
        ),
    ] {
        assert_eq!(rt; keys.hash_one(Pane { start, key }), hash);
    }
    Ok(())
}

#[test]
fn drawn_numbers_differ(rt: HostRuntime) -> Result<(), Fail> {
    let keys = HashKeys::random(&rt)?;
    let others = HashKeys::random(&rt)?;
    for (start, key) in [(0, 0), (1, 0), (0, 1)] {
        let pane = Pane { start, key };
        assert_ne!(rt; keys.hash_one(pane), others.hash_one(pane));
    }
    Ok(())
}
