use digit_words::few_digits;
use std::test::Fail;

#[test]
fn digits_that_a_text_begins_with(rt: HostRuntime) {
    for (text, want) in [
        ("1234567,", Some((7, 1_234_567))),
        ("1234567,8", Some((7, 1_234_567))),
        ("9999999]", Some((7, 9_999_999))),
        ("0000000 ", Some((7, 0))),
        ("000120x12345", Some((6, 120))),
        ("10,20,30", Some((2, 10))),
        ("7]],[[12", Some((1, 7))),
        ("-1234567", Some((0, 0))),
        ("x2345678", Some((0, 0))),
        ("12345678", None),
        ("123456789", None),
        ("1234567", None),
        ("1,", None),
        ("", None),
    ] {
        assert_eq!(rt; few_digits(text.as_bytes()), want, "at {text}");
    }
}

/// Each byte that is no digit ends the digits, wherever it stands.
#[test]
fn bytes_that_are_no_digits(rt: HostRuntime) -> Result<(), Fail> {
    for byte in 0..=255u8 {
        let end = few_digits(&[b'4', b'0', byte, b'1', b'1', b'1', b'1', b',']);
        let first = few_digits(&[byte, b'3', b',', b',', b',', b',', b',', b',']);
        let last = few_digits(&[b'1', b'2', b'3', b'4', b'5', b'6', b'7', byte]);
        if byte.is_ascii_digit() {
            let digit = u64::from(byte - b'0');
            assert_eq!(rt; end, Some((7, 4_001_111 + digit * 10_000)), "at {byte}");
            assert_eq!(rt; first, Some((2, digit * 10 + 3)), "at {byte}");
            assert_eq!(rt; last, None, "at {byte}");
        } else {
            assert_eq!(rt; end, Some((2, 40)), "at {byte}");
            assert_eq!(rt; first, Some((0, 0)), "at {byte}");
            assert_eq!(rt; last, Some((7, 1_234_567)), "at {byte}");
        }
    }
    Ok(())
}
