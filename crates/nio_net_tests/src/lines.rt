//! Lines between two threads.
use nio_line::{LineIn, LineOut, open};
use std::sync::Wait;
use std::test::Fail;
use std::thread::join_mut;

/// How many messages are sent; a line has room for fewer.
const COUNT: u32 = 100;

fn send_all<R: Wait>(rt: &R, entry: &mut LineIn<u32>) {
    for number in 0..COUNT {
        entry.send(rt, number);
    }
}

/// Whether the numbers come in order.
fn receive_all<R: Wait>(rt: &R, exit: &mut LineOut<u32>) -> bool {
    let mut in_order = true;
    for number in 0..COUNT {
        let received = exit.receive(rt);
        in_order = in_order && received == number;
    }
    in_order
}

#[test]
fn messages_come_in_order(rt: HostRuntime) -> Result<(), Fail> {
    let (mut entry, mut exit) = open::<u32>(rt.alloc(), 3)?;
    assert!(rt; exit.try_receive(&rt).is_none());
    let mut in_order = false;
    join_mut(
        &rt,
        &mut || send_all(&rt, &mut entry),
        &mut || {
            in_order = receive_all(&rt, &mut exit);
        },
    );
    assert!(rt; in_order && exit.try_receive(&rt).is_none());
    Ok(())
}

#[test]
fn an_end_takes_in_the_other(rt: HostRuntime) -> Result<(), Fail> {
    let (mut entry, mut exit) = open::<u32>(rt.alloc(), 2)?;
    entry.send(&rt, 7);
    entry.send(&rt, 8);
    let first = exit.try_receive(&rt);
    exit.settle(entry);
    let second = exit.try_receive(&rt);
    let third = exit.try_receive(&rt);
    assert_eq!(rt; (first, second, third), (Some(7), Some(8), None));
    Ok(())
}
