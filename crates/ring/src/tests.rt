use crate::*;

#[test]
fn wraps_twice(rt: HostRuntime) {
    let mut slots = [0; 3];
    let mut ring: Ring<u64, 8> = Ring::new(&mut slots);
    assert_eq!(rt; ring.push(1), Ok(()));
    assert_eq!(rt; ring.push(2), Ok(()));
    for newest in 3..10u64 {
        let oldest = newest - 2;
        assert_eq!(rt; ring.push(newest), Ok(()));
        assert_eq!(rt; ring.push(99), Err(99));
        assert_eq!(rt; ring.get(0), Some(oldest));
        assert_eq!(rt; ring.get(1), Some(oldest + 1));
        assert_eq!(rt; ring.get(2), Some(newest));
        assert_eq!(rt; ring.get(3), None);
        assert_eq!(rt; ring.pop(), Some(oldest));
        assert_eq!(rt; ring.len(), 2);
    }
}

#[test]
fn has_no_slots(rt: HostRuntime) {
    let mut slots: [u8; 0] = [];
    let mut ring: Ring<u8, 8> = Ring::new(&mut slots);
    assert_eq!(rt; ring.capacity(), 0);
    assert_eq!(rt; ring.push(7), Err(7));
    assert_eq!(rt; ring.pop(), None);
    assert_eq!(rt; ring.get(0), None);
    assert_eq!(rt; ring.len(), 0);
}

#[test]
fn leaves_slots_past_the_most_alone(rt: HostRuntime) {
    let mut slots = [5u8; 4];
    let mut ring: Ring<u8, 2> = Ring::new(&mut slots);
    assert_eq!(rt; ring.capacity(), 2);
    assert_eq!(rt; ring.push(1), Ok(()));
    for element in [2, 3, 4] {
        assert_eq!(rt; ring.push(element), Ok(()));
        assert_eq!(rt; ring.push(9), Err(9));
        assert_eq!(rt; ring.pop(), Some(element - 1));
    }
    assert_eq!(rt; slots, [3, 4, 5, 5]);
}

#[test]
fn queue_wraps_twice(rt: HostRuntime) {
    let mut queue: Queue<u64, 3> = Queue::new(0);
    assert_eq!(rt; queue.push(1), Ok(()));
    assert_eq!(rt; queue.push(2), Ok(()));
    for newest in 3..10u64 {
        let oldest = newest - 2;
        assert_eq!(rt; queue.push(newest), Ok(()));
        assert_eq!(rt; queue.get(0), Some(oldest));
        assert_eq!(rt; queue.get(2), Some(newest));
        assert_eq!(rt; queue.get(3), None);
        assert_eq!(rt; queue.pop(), Some(oldest));
        assert_eq!(rt; queue.len(), 2);
    }
}

#[test]
fn queue_full(rt: HostRuntime) {
    let mut queue: Queue<u8, 2> = Queue::new(7);
    assert_eq!(rt; queue.pop(), None);
    assert_eq!(rt; queue.push(1), Ok(()));
    assert_eq!(rt; queue.push(2), Ok(()));
    assert_eq!(rt; queue.push(3), Err(3));
    assert_eq!(rt; queue.len(), 2);
    assert_eq!(rt; queue.pop(), Some(1));
    assert_eq!(rt; queue.push(3), Ok(()));
    assert_eq!(rt; queue.pop(), Some(2));
    assert_eq!(rt; queue.pop(), Some(3));
    assert_eq!(rt; queue.pop(), None);
}
