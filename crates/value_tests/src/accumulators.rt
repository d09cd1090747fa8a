use aggregates::{Acc, Kind};

const MOST: i128 = 1 << 63;

/// Kinds of aggregates, records and numbers: no kinds, nine, one number of two, no records and too many, and numbers
/// out of range.
const OUT_OF_RANGE: &[(&[Kind], u64, &[i128])] = &[
    (&[], 1, &[]),
    (&[Kind::Sum; 9], 1, &[0; 9]),
    (&[Kind::Sum; 2], 1, &[0]),
    (&[Kind::Sum], 0, &[0]),
    (&[Kind::Sum], (1 << 40) + 1, &[0]),
    (&[Kind::Count], 2, &[3]),
    (&[Kind::Sum], 2, &[2 * MOST + 1]),
    (&[Kind::Sum], 2, &[-2 * MOST - 1]),
    (&[Kind::Least], 2, &[MOST]),
    (&[Kind::Least], 2, &[-MOST - 1]),
    (&[Kind::Greatest], 2, &[MOST]),
    (&[Kind::Greatest], 2, &[-MOST - 1]),
];

#[test]
fn parts_out_of_range_make_none(rt: HostRuntime) {
    for (kinds, count, numbers) in OUT_OF_RANGE {
        assert!(rt;
            Acc::from_parts(kinds, *count, numbers).is_none(),
            "{kinds:?} of {count}: {numbers:?}"
        );
    }
}
