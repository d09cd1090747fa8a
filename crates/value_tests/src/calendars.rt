use calendar_numbers::{CalendarPart, ZoneFault, Zones, calendar_number, read_zone};

const FOLDER: &str = "/usr/share/zoneinfo";

/// The number in a zone that is known.
fn number(zones: &Zones, name: &str, part: CalendarPart, milliseconds: i64) -> Option<i64> {
    match zones.find(name) {
        Some(zone) => calendar_number(part, &zone, milliseconds),
        None => None,
    }
}

#[test]
fn counts_by_the_clocks_of_utc(rt: HostRuntime) {
    let zones = Zones::new(rt.alloc());
    assert_eq!(rt; number(&zones, "UTC", CalendarPart::Day, -1), Some(-1));
    assert_eq!(rt; number(&zones, "UTC", CalendarPart::Month, -1), Some(-1));
    assert_eq!(rt;
        number(&zones, "UTC", CalendarPart::Year, 1_792_882_800_000),
        Some(56)
    );
    assert_eq!(rt; number(&zones, "UTC", CalendarPart::Hour, -1), Some(23));
    assert_eq!(rt; number(&zones, "UTC", CalendarPart::Weekday, 0), Some(4));
    assert_eq!(rt;
        number(&zones, "UTC", CalendarPart::Day, 253_402_207_200_999),
        Some(2_932_895)
    );
    assert_eq!(rt;
        number(&zones, "UTC", CalendarPart::Day, 253_402_207_201_000),
        None
    );
    assert_eq!(rt; number(&zones, "Etc/UTC", CalendarPart::Day, 0), None);
}

#[test]
fn takes_no_name_that_leads_elsewhere(rt: HostRuntime) {
    let mut zones = Zones::new(rt.alloc());
    assert_eq!(rt;
        read_zone(&rt, FOLDER, "../zoneinfo/UTC", &mut zones),
        Err(ZoneFault::Unknown)
    );
    assert_eq!(rt;
        read_zone(&rt, FOLDER, "Europe//Berlin", &mut zones),
        Err(ZoneFault::Unknown)
    );
    assert_eq!(rt;
        read_zone(&rt, FOLDER, "Europe", &mut zones),
        Err(ZoneFault::Unknown)
    );
    assert_eq!(rt; read_zone(&rt, FOLDER, "UTC", &mut zones), Ok(()));
}
