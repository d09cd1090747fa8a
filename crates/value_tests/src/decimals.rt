use decimal_texts::{DecimalPoint, exact, exact_product, product, swap_points};
use field_values::{FieldFault, Places};

fn said(text: &str, places: u32) -> Result<i64, FieldFault> {
    match Places::new(places) {
        Some(places) => exact(text.as_bytes(), places),
        None => Err(FieldFault::MorePlaces),
    }
}

fn times(text: &str, places: u32) -> Result<i64, FieldFault> {
    match Places::new(places) {
        Some(places) => exact_product(text.as_bytes(), places),
        None => Err(FieldFault::MorePlaces),
    }
}

const MORE_PLACES: Result<i64, FieldFault> = Err(FieldFault::MorePlaces);

const TOO_LARGE: Result<i64, FieldFault> = Err(FieldFault::TooLarge);

const NO_NUMBER: Result<i64, FieldFault> = Err(FieldFault::NoNumber);

/// Texts, digits behind the point, and the whole number that is said so.
const EXPONENTS: [(&str, u32, Result<i64, FieldFault>); 11] = [
    ("1e-05", 5, Ok(1)),
    ("2.5E3", 0, Ok(2500)),
    ("-1.0E-5", 5, Ok(-1)),
    ("9.223372036854775807e+18", 0, Ok(i64::MAX)),
    ("120.00e-1", 0, Ok(12)),
    ("0e-9999", 0, Ok(0)),
    ("1e-06", 5, MORE_PLACES),
    ("1e19", 0, TOO_LARGE),
    ("1e", 0, NO_NUMBER),
    ("1e00001", 0, NO_NUMBER),
    ("1.", 0, NO_NUMBER),
];

const PRODUCTS: [(&str, u32, Result<i64, FieldFault>); 11] = [
    ("12.50*-3.1", 3, Ok(-38750)),
    ("-1.50*-2.0", 1, Ok(30)),
    ("1e9999*1e-9999", 0, Ok(1)),
    ("-4294967296*2147483648", 0, Ok(i64::MIN)),
    ("0*1e-9999", 0, Ok(0)),
    ("2.5E3", 0, Ok(2500)),
    ("0.1*0.1", 1, MORE_PLACES),
    ("4294967296*2147483648", 0, TOO_LARGE),
    ("18446744073709551616*0", 0, TOO_LARGE),
    ("1*2*3", 0, NO_NUMBER),
    ("*1", 0, NO_NUMBER),
];

#[test]
fn says_exactly(rt: HostRuntime) {
    for (text, places, wanted) in EXPONENTS {
        assert_eq!(rt; said(text, places), wanted, "{text}");
    }
}

#[test]
fn multiplies_exactly(rt: HostRuntime) {
    for (text, places, wanted) in PRODUCTS {
        assert_eq!(rt; times(text, places), wanted, "{text}");
    }
}

#[test]
fn multiplies_two_texts(rt: HostRuntime) {
    assert_eq!(rt; product(b"0.5", b"2", Places::WHOLE), Ok(1));
}

#[test]
fn reads_commas_as_points(rt: HostRuntime) {
    let mut text = Vec::new(rt.alloc());
    assert!(rt; swap_points(&mut text, b"-1,5e3").is_ok());
    assert_eq!(rt; text.as_slice(), b"-1.5e3".as_slice());
    assert!(rt; swap_points(&mut text, b"1.234,5").is_ok());
    assert_eq!(rt; text.as_slice(), b"1,234.5".as_slice());
}

#[test]
fn a_word_says_which_point(rt: HostRuntime) {
    assert_eq!(rt; DecimalPoint::said_by(","), Some(DecimalPoint::Comma));
    assert_eq!(rt; DecimalPoint::said_by("."), Some(DecimalPoint::Point));
    assert_eq!(rt; DecimalPoint::said_by(",,"), None);
    assert_eq!(rt; DecimalPoint::Comma.byte(), b',');
}
