use field_values::FieldFault;
use instant_texts::{FineUnit, instant};

const FINE_TIME: &str = "2026-03-01T12:00:00.123456789+01:00";

const COARSE_TIME: &str = "1969-12-31 23:59:59.5Z";

/// Texts, and the number of units that they say: as many digits behind the point as the unit has, and no number beyond
/// 64 bits.
const TIMES: [(&str, FineUnit, Result<i64, FieldFault>); 9] = [
    (
        FINE_TIME,
        FineUnit::Nanoseconds,
        Ok(1_772_362_800_123_456_789),
    ),
    (FINE_TIME, FineUnit::Microseconds, Err(FieldFault::TooFine)),
    (COARSE_TIME, FineUnit::Microseconds, Ok(-500_000)),
    (COARSE_TIME, FineUnit::Nanoseconds, Ok(-500_000_000)),
    (
        "2262-04-11T23:47:16.854775807Z",
        FineUnit::Nanoseconds,
        Ok(i64::MAX),
    ),
    (
        "2262-04-11T23:47:16.854775808Z",
        FineUnit::Nanoseconds,
        Err(FieldFault::TooLarge),
    ),
    (
        "1677-09-21T00:12:43.145224192Z",
        FineUnit::Nanoseconds,
        Ok(i64::MIN),
    ),
    (
        "2026-02-29T00:00:00Z",
        FineUnit::Nanoseconds,
        Err(FieldFault::NoSuchTime),
    ),
    (
        "2026-02-28T00:00:00",
        FineUnit::Nanoseconds,
        Err(FieldFault::NoTime),
    ),
];

#[test]
fn counts_units_of_times(rt: HostRuntime) {
    for (text, unit, wanted) in TIMES {
        assert_eq!(rt; instant(text.as_bytes(), unit), wanted, "{text}");
    }
}
