// The waiting list at each measure.
use crate::list::Waiting;
use crate::types::{Slot, WaitingRefusal};
use measure::delay::Delay;
use measure::hops_width::{HopsWidth, HopsWidthCost};
use std::test::Fail;

#[test]
fn delays(rt: HostRuntime) -> Result<(), Fail> {
    let mut memory = [Slot {
        place: 0,
        cost: 0u32,
    }; 1];
    let mut waiting: Waiting<'_, Delay> = Waiting::new(&mut memory);
    assert_eq!(rt; waiting.put(7, 30), Ok(()));
    assert_eq!(rt; waiting.put(7, 10), Err(WaitingRefusal::AlreadyWaiting));
    assert_eq!(rt; waiting.put(5, 20), Err(WaitingRefusal::Full));
    assert_eq!(rt; waiting.lower(7, 30), Err(WaitingRefusal::NotLower));
    assert_eq!(rt; waiting.lower(7, 20), Ok(()));
    assert_eq!(rt; waiting.take().ok_or("none")?.cost, 20);
    Ok(())
}

#[test]
fn hops_and_widths(rt: HostRuntime) -> Result<(), Fail> {
    let wide = HopsWidthCost { hops: 2, width: 9 };
    let narrow = HopsWidthCost { hops: 2, width: 5 };
    let mut memory = [Slot {
        place: 0,
        cost: wide,
    }; 2];
    let mut waiting: Waiting<'_, HopsWidth> = Waiting::new(&mut memory);
    assert_eq!(rt; waiting.put(3, narrow), Ok(()));
    assert_eq!(rt; waiting.put(4, wide), Ok(()));
    assert_eq!(rt; waiting.take().ok_or("none")?.place, 4);
    Ok(())
}
