//! Lists of items in order.
use geo_base::{Memory, Sequence};
use std::test::Fail;

#[test]
fn items_stand_in_order(rt: HostRuntime) -> Result<(), Fail> {
    let mut numbers = Sequence::new(rt.alloc());
    let stand = stand_in_order(&mut numbers);
    drop(numbers);
    assert!(rt; stand?);
    Ok(())
}

/// Whether two numbers that come into an empty list stand as they came, and another one then in the place of the second.
fn stand_in_order(numbers: &mut Sequence<u64>) -> Result<bool, Memory> {
    numbers.push(3)?;
    numbers.push(1)?;
    let came = numbers.as_slice() == [3, 1].as_slice() && numbers.len() == 2;
    numbers.set(1, 4);
    Ok(came && numbers.as_slice() == [3, 4].as_slice())
}
