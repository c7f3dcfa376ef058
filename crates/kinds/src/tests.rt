use crate::pool::Pool;
use crate::queue::Queue;
use crate::stack::Stack;
use bank::bank::Bank;
use bank::draw::draw_from;
use std::process::Abort;
use std::test::Fail;

/// Puts 5, 9 and 7 into lane 2 of a bank whose lanes are empty.
fn put_three<B: Bank>(rt: &impl Abort, bank: &mut B) {
    assert!(rt; bank.put(2, 5) && bank.put(2, 9) && bank.put(2, 7));
}

/// What four draws from lane 2 give.
fn four_draws<B: Bank>(bank: &mut B) -> [Option<u16>; 4] {
    let first = draw_from(bank, 2);
    let second = draw_from(bank, 2);
    let third = draw_from(bank, 2);
    [first, second, third, draw_from(bank, 2)]
}

#[test]
fn a_queue_gives_the_oldest_first(rt: HostRuntime) {
    let mut queue = Queue::fresh();
    put_three(&rt, &mut queue);
    assert!(rt; queue.may(2, 5) && !queue.may(2, 9) && !queue.may(2, 7));
    assert!(rt; !queue.out(2, 9));
    assert_eq!(rt; four_draws(&mut queue), [Some(5), Some(9), Some(7), None]);
}

#[test]
fn a_stack_gives_the_newest_first(rt: HostRuntime) {
    let mut stack = Stack::fresh();
    put_three(&rt, &mut stack);
    assert!(rt; !stack.may(2, 5) && !stack.may(2, 9) && stack.may(2, 7));
    assert!(rt; !stack.out(2, 9));
    assert_eq!(rt; four_draws(&mut stack), [Some(7), Some(9), Some(5), None]);
}

#[test]
fn a_pool_gives_any(rt: HostRuntime) {
    let mut pool = Pool::fresh();
    put_three(&rt, &mut pool);
    assert!(rt; pool.may(2, 5) && pool.may(2, 9) && pool.may(2, 7) && !pool.may(2, 8));
    assert!(rt; pool.out(2, 9) && !pool.out(2, 9));
    assert_eq!(rt; four_draws(&mut pool), [Some(5), Some(7), None, None]);
}

#[test]
fn a_lane_takes_sixty_four_orders_once_each(rt: HostRuntime) {
    let mut queue = Queue::fresh();
    assert!(rt; queue.lanes() == 8 && queue.depth() == 64);
    for order in 0..64 {
        assert!(rt; queue.put(7, order));
    }
    assert!(rt; !queue.put(7, 64) && queue.put(6, 64) && !queue.put(6, 64));
    assert!(rt; queue.put(0, 4095) && !queue.put(0, 4096) && !queue.put(8, 1));
    queue.clear();
    assert_eq!(rt;
        (queue.offer(7), queue.offer(6), queue.offer(8)),
        (None, None, None)
    );
}

#[test]
fn narrowing_leaves_empty_lanes(rt: HostRuntime) -> Result<(), Fail> {
    let mut stack = Stack::fresh();
    put_three(&rt, &mut stack);
    assert!(rt; stack.narrow(0).is_err() && stack.narrow(9).is_err());
    assert!(rt; stack.lanes() == 8 && stack.offer(2) == Some(7));
    stack.narrow(3)?;
    assert!(rt; stack.lanes() == 3 && stack.offer(2) == None && !stack.put(3, 1));
    put_three(&rt, &mut stack);
    stack.narrow(8)?;
    assert!(rt; stack.lanes() == 8 && stack.offer(2) == None && stack.put(7, 1));
    Ok(())
}
