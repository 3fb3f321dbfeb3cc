//! Room for the clocks of boxes that come later.

use pd_clock::Time;
use pd_timers::Timers;
use std::test::Fail;

#[test]
fn boxes_get_room_later(rt: HostRuntime) -> Result<(), Fail> {
    let mut timers = Timers::new(rt.alloc(), 1)?;
    timers.reach(3)?;
    timers.reach(2)?;
    timers.set(2, Time::of_units(4));
    let next = timers.next_before(Time::of_units(9));
    assert_eq!(rt; next.map(|(_, owner)| owner), Some(2));
    Ok(())
}
