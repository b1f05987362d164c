//! Tests of the bells by which the ends of a lane wake each other.

use band_rings::lane::lane;
use std::test::Fail;
use std::time::Duration;

/// Each end listens before the other wakes it, so neither sleeps for the hour that it may.
#[test]
fn a_call_ends_the_next_sleep(rt: HostRuntime) -> Result<(), Fail> {
    let (sender, receiver) = lane(rt.alloc(), 1)?;
    let hour = Duration::from_secs(3600);
    sender.bell().listen();
    receiver.wake_sender();
    sender.bell().sleep(&rt, hour);
    receiver.bell().listen();
    sender.wake_receiver();
    receiver.bell().sleep(&rt, hour);
    Ok(())
}

#[test]
fn a_sleep_ends_by_itself(rt: HostRuntime) -> Result<(), Fail> {
    let (sender, receiver) = lane(rt.alloc(), 1)?;
    let moment = Duration::from_millis(1);
    receiver.wake_sender();
    sender.bell().sleep(&rt, moment);
    sender.wake_receiver();
    receiver.bell().sleep(&rt, moment);
    Ok(())
}
