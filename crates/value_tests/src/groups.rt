use key_groups::{
    GroupRange, MaxParallelism, Parallelism, group_of, groups_into, owner_of, owners_into, range_of,
};
use std::test::Fail;

const KEYS: [i64; 5] = [0, -1, 1, 4_294_967_295, 2_271_560_481];

fn max_of(number: u32) -> Option<u32> {
    MaxParallelism::new(number).map(|max| max.get())
}

fn parallelism_of(max: u32, number: u32) -> Option<u32> {
    match MaxParallelism::new(max) {
        Some(max) => Parallelism::new(number, max).map(|par| par.get()),
        None => None,
    }
}

#[test]
fn limits_are_checked(rt: HostRuntime) {
    for (number, wanted) in [(0, None), (32768, Some(32768)), (32769, None)] {
        assert_eq!(rt; max_of(number), wanted, "{number}");
    }
}

#[test]
fn parallelisms_are_at_most_the_groups(rt: HostRuntime) {
    for (max, number, wanted) in [
        (32768, 0, None),
        (32768, 64, Some(64)),
        (32768, 65, None),
        (2, 2, Some(2)),
        (2, 3, None),
    ] {
        assert_eq!(rt; parallelism_of(max, number), wanted, "{number} of {max}");
    }
}

#[test]
fn keys_have_the_known_groups(rt: HostRuntime) -> Result<(), Fail> {
    let max = MaxParallelism::new(128).ok_or("128")?;
    let mut groups = [0u32; 5];
    groups_into(&KEYS, max, &mut groups);
    assert_eq!(rt; groups, [94, 94, 86, 80, 21]);
    assert_eq!(rt; group_of(0, max), 94);
    assert_eq!(rt; group_of(1, MaxParallelism::new(100).ok_or("100")?), 78);
    assert_eq!(rt;
        group_of(0, MaxParallelism::new(32768).ok_or("32768")?),
        31198
    );
    Ok(())
}

#[test]
fn ranges_and_owners_are_the_known_ones(rt: HostRuntime) -> Result<(), Fail> {
    let max = MaxParallelism::new(128).ok_or("128")?;
    let three = Parallelism::new(3, max).ok_or("3")?;
    assert!(rt; three.get() == 3 && max.get() == 128);
    for (i, first, last) in [(0, 0, 42), (1, 43, 85), (2, 86, 127)] {
        assert!(rt; i < 3);
        assert_eq!(rt; range_of(max, three, i), GroupRange { first, last });
    }
    let two = Parallelism::new(2, max).ok_or("2")?;
    assert!(rt; two.get() == 2);
    assert_eq!(rt; owner_of(max, two, 94), 1);
    key_groups::laws::owners_and_ranges();
    Ok(())
}

fn owners_of<const N: usize>(max: u32, par: u32, groups: [u32; N]) -> Result<[u32; N], Fail> {
    let max = MaxParallelism::new(max).ok_or("max")?;
    let par = Parallelism::new(par, max).ok_or("par")?;
    let mut owners = groups;
    if par.get() > max.get() || owners.iter().any(|group| *group >= max.get()) {
        return Err(Fail::from("a group is too large"));
    }
    owners_into(max, par, &mut owners);
    Ok(owners)
}

#[test]
fn owners_of_many_groups_are_those_of_each(rt: HostRuntime) -> Result<(), Fail> {
    assert_eq!(rt;
        owners_of(128, 3, [0, 42, 43, 85, 86, 127])?,
        [0, 0, 1, 1, 2, 2]
    );
    assert_eq!(rt;
        owners_of(100, 3, [0, 33, 34, 66, 67, 99])?,
        [0, 0, 1, 1, 2, 2]
    );
    assert_eq!(rt; owners_of(32768, 64, [0, 511, 512, 32767])?, [0, 0, 1, 63]);
    assert_eq!(rt; owners_of(32767, 64, [0, 511, 512, 32766])?, [0, 0, 1, 63]);
    assert_eq!(rt; owners_of(1, 1, [0])?, [0]);
    assert_eq!(rt; owners_of(64, 64, [])?, []);
    Ok(())
}
