use json_parts::OtherForm;
use json_tokens::{Miss, Scanner, scan_rows};
use std::test::Fail;

fn whole_of(text: &str) -> Result<i64, OtherForm> {
    let mut reader = Scanner::new(text.as_bytes());
    let number = reader.next_whole()?;
    reader.end()?;
    Ok(number)
}

#[test]
fn whole_numbers(rt: HostRuntime) {
    for (text, want) in [
        ("0", Ok(0)),
        (" -7 ", Ok(-7)),
        ("9223372036854775807", Ok(i64::MAX)),
        ("-9223372036854775808", Ok(i64::MIN)),
        ("9223372036854775808", Err(OtherForm)),
        ("-9223372036854775809", Err(OtherForm)),
        ("99999999999999999999", Err(OtherForm)),
        ("-0", Err(OtherForm)),
        ("3.0", Err(OtherForm)),
        ("3e0", Err(OtherForm)),
        ("01", Err(OtherForm)),
        ("-", Err(OtherForm)),
        ("1x", Err(OtherForm)),
        ("null", Err(OtherForm)),
        ("", Err(OtherForm)),
        ("1 2", Err(OtherForm)),
    ] {
        assert_eq!(rt; whole_of(text), want, "at {text}");
    }
}

/// The numbers of rows of `width` numbers, of which there are to be no more than `most`.
fn cells_of(
    rt: &impl AllocGlobal,
    text: &str,
    width: usize,
    most: usize,
    depth: usize,
) -> Result<Vec<i64>, Miss> {
    let mut reader = Scanner::new(text.as_bytes());
    let mut cells = Vec::new(rt.alloc());
    scan_rows(&mut reader, &mut cells, width, most, depth)?;
    reader.end()?;
    Ok(cells)
}

/// The numbers of rows of two, of which there are to be no more than four.
fn rows_of(rt: &impl AllocGlobal, text: &str, depth: usize) -> Result<Vec<i64>, Miss> {
    cells_of(rt, text, 2, 4, depth)
}

#[test]
fn one_number_more_than_there_are_to_be(rt: HostRuntime) -> Result<(), Fail> {
    let cells = cells_of(&rt, "[[1],[2],[3]]", 1, 3, 2)?;
    assert_eq!(rt; cells.as_slice(), [1, 2, 3].as_slice());
    for (text, width, most) in [
        ("[[1],[2],[3],[4]]", 1, 3),
        ("[[1,2,3],[4,5,6]]", 3, 5),
        ("[[1]]", 1, 0),
        ("[[1]]", 0, 3),
        ("[[]]", 0, 3),
    ] {
        let refused = cells_of(&rt, text, width, most, 2).err();
        assert_eq!(rt; refused, Some(Miss::Other), "at {text}");
    }
    Ok(())
}

#[test]
fn rows(rt: HostRuntime) -> Result<(), Fail> {
    let cells = rows_of(&rt, "[[1,2] ,\n[ -3, 4 ]]", 2)?;
    assert_eq!(rt; cells.as_slice(), [1, 2, -3, 4].as_slice());
    assert_eq!(rt; rows_of(&rt, "[]", 1)?.len(), 0);
    for (text, depth) in [
        ("[[1,2],[-3,4]]", 1),
        ("[]", 0),
        ("[[1,2],[3]]", 2),
        ("[[1,2],[3,4,5]]", 2),
        ("[[1,2][3,4]]", 2),
        ("[[1,2],]", 2),
        ("[[1,2.5]]", 2),
        ("[1,2]", 2),
        ("[[1,2],", 2),
        ("[[1,2],[3,4],[5,6]]", 2),
        ("{}", 2),
    ] {
        assert_eq!(rt;
            rows_of(&rt, text, depth).err(),
            Some(Miss::Other),
            "at {text}"
        );
    }
    Ok(())
}

/// A number of fewer than eight digits is read at once where eight bytes are there, and any other in another way.
#[test]
fn digits_within_eight_bytes_and_beyond(rt: HostRuntime) -> Result<(), Fail> {
    for (text, want) in [
        ("[[7],[12]]", [7, 12]),
        ("[[0],[1234567]]", [0, 1_234_567]),
        ("[[1234567],[0]]", [1_234_567, 0]),
        ("[[12345678],[9]]", [12_345_678, 9]),
        ("[[123456789],[-1234567]]", [123_456_789, -1_234_567]),
        ("[[9223372036854775807],[1000000]]", [i64::MAX, 1_000_000]),
        ("[ [ 12 ] , [\t34\n] ] ", [12, 34]),
        ("[[1 ],[2\r]]", [1, 2]),
    ] {
        let cells = cells_of(&rt, text, 1, 2, 2)?;
        assert_eq!(rt; cells.as_slice(), want.as_slice(), "at {text}");
    }
    for text in [
        "[[01],[1234567]]",
        "[[0123456],[1]]",
        "[[00000000],[1]]",
        "[[],[1234567]]",
        "[[1x],[1234567]]",
        "[[1.0],[1234567]]",
        "[[1e5],[1234567]]",
        "[[1:2],[1234567]]",
        "[[1;2],[1234567]]",
        "[[1/],[1234567]]",
        "[[12345678x],[1]]",
        "[[1[2]],[1234567]]",
        "[[1,],[1234567]]",
        "[[,1],[1234567]]",
        "[[1}],[1234567]]",
    ] {
        let refused = cells_of(&rt, text, 1, 2, 2).err();
        assert_eq!(rt; refused, Some(Miss::Other), "at {text}");
    }
    Ok(())
}

/// A number of a row with a comma behind it, or the bracket behind the last, also with white space before them.
#[test]
fn marks_behind_numbers(rt: HostRuntime) -> Result<(), Fail> {
    for (text, want) in [
        ("[[7,12]]        ", [7, 12]),
        ("[[ 7, 12]]        ", [7, 12]),
        ("[[ 1234567, 12345678]]        ", [1_234_567, 12_345_678]),
        ("[[-1234567, -1234567]]        ", [-1_234_567, -1_234_567]),
        ("[[  0 , \t-12345678 ]]        ", [0, -12_345_678]),
        (
            "[[1700000000000, 1700000000001]]        ",
            [1_700_000_000_000, 1_700_000_000_001],
        ),
    ] {
        let cells = cells_of(&rt, text, 2, 2, 2)?;
        assert_eq!(rt; cells.as_slice(), want.as_slice(), "at {text}");
    }
    for text in [
        "[[1]]        ",
        "[[1,2,3]]        ",
        "[[1],2]        ",
        "[[1;2]]        ",
        "[[1,2;]]        ",
        "[[01,2]]        ",
        "[[1, 02]]        ",
        "[[1, -0]]        ",
        "[[1, ]]        ",
        "[[, 1]]        ",
        "[[1 2]]        ",
    ] {
        let refused = cells_of(&rt, text, 2, 3, 2).err();
        assert_eq!(rt; refused, Some(Miss::Other), "at {text}");
    }
    Ok(())
}

fn walk(text: &str) -> Result<usize, OtherForm> {
    let mut reader = Scanner::new(text.as_bytes());
    reader.open_object()?;
    let length = reader.next_name()?.len();
    reader.open_list()?;
    if !reader.take_end_array() {
        return Err(OtherForm);
    }
    reader.close_object()?;
    reader.end()?;
    Ok(length)
}

#[test]
fn tokens_around_values(rt: HostRuntime) {
    assert_eq!(rt; walk(r#"{"name":[]}"#), Ok(4));
    for text in [
        r#"["name",[]]"#,
        "{}",
        r#"{"name":{}}"#,
        r#"{"name":[],"other":[]}"#,
        r#"{"name":[]}1"#,
        r#"{"n\u0061me":[]}"#,
    ] {
        assert_eq!(rt; walk(text), Err(OtherForm), "at {text}");
    }
}

#[test]
fn keys(rt: HostRuntime) -> Result<(), Fail> {
    let mut reader = Scanner::new(b"{\"a\":1}x".as_slice());
    reader.open_object()?;
    assert_eq!(rt; reader.next_key()?, Some(b"a".as_slice()));
    assert_eq!(rt; reader.next_whole()?, 1);
    assert_eq!(rt; reader.next_key()?, None);
    assert_eq!(rt; reader.next_key().err(), Some(OtherForm));
    Ok(())
}
