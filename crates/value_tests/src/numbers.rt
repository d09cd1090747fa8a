use plan_model::{Numbers, Row};
use std::alloc::{AllocError, Global};
use std::mem;
use std::test::Fail;

const MOST: i128 = 1 << 63;

fn numbers_of(alloc: Global, list: &[i128]) -> Result<Numbers, AllocError> {
    let mut numbers = Numbers::new();
    for number in list {
        numbers.push(alloc, *number)?;
    }
    Ok(numbers)
}

fn are(numbers: &Numbers, list: &[i128]) -> bool {
    numbers.len() == list.len()
        && list
            .iter()
            .enumerate()
            .all(|(i, number)| numbers.get(i) == Some(*number))
        && numbers.get(list.len()).is_none()
}

#[test]
fn eight_numbers_of_64_bits_stand_in_the_row(rt: HostRuntime) -> Result<(), Fail> {
    let list = [-MOST, -1, 0, 1, 2, 3, 4, MOST - 1];
    let numbers = numbers_of(rt.alloc(), &list)?;
    assert!(rt; are(&numbers, &list));
    let words = [i64::MIN, -1, 0, 1, 2, 3, 4, i64::MAX];
    assert!(rt; numbers.narrow() == Some(words.as_slice()));
    assert!(rt; Numbers::new().narrow() == Some([].as_slice()));
    assert!(rt; mem::size_of::<Row>() <= 104);
    Ok(())
}

#[test]
fn other_numbers_stand_in_a_list(rt: HostRuntime) -> Result<(), Fail> {
    let lists = [[MOST, 1], [-MOST - 1, 1], [1, MOST], [-1, -MOST - 1]];
    for list in lists {
        let numbers = numbers_of(rt.alloc(), &list)?;
        assert!(rt; are(&numbers, &list), "{list:?}");
        assert!(rt; numbers.narrow().is_none(), "{list:?}");
    }
    let nine = [1, 2, 3, 4, 5, 6, 7, 8, 9];
    let numbers = numbers_of(rt.alloc(), &nine)?;
    assert!(rt; are(&numbers, &nine));
    assert!(rt; numbers.narrow().is_none());
    Ok(())
}
