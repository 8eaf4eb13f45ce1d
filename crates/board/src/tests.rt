use crate::*;
use std::process::Abort;

fn packet(number: u32) -> Packet {
    Packet {
        number,
        length: 20,
        tag: 7,
    }
}

/// Offers packets with the numbers below `depth`, and one more, which is refused.
fn fill<B: Board>(rt: &impl Abort, board: &mut B, bearer: usize, depth: u32) {
    for number in 0..depth {
        assert!(rt; board.offer(bearer, packet(number)));
    }
    assert!(rt; !board.offer(bearer, packet(depth)));
    assert_eq!(rt; board.waiting(bearer), depth as usize);
}

/// Takes out what `fill` put in, in the same order.
fn empty<B: Board>(rt: &impl Abort, board: &mut B, bearer: usize, depth: u32) {
    for number in 0..depth {
        assert_eq!(rt; board.take(bearer), Some(packet(number)));
    }
    assert_eq!(rt; board.take(bearer), None);
    assert_eq!(rt; board.waiting(bearer), 0);
}

/// A bearer that is not shown.
fn not_there<B: Board>(rt: &impl Abort, board: &mut B, bearer: usize) {
    board.arm(bearer);
    assert!(rt; !board.offer(bearer, packet(1)));
    assert!(rt; !board.signal(bearer));
    assert_eq!(rt; board.take(bearer), None);
    board.disarm(bearer);
    assert_eq!(rt; board.depth(bearer), 0);
    assert_eq!(rt; board.cost(bearer), 0);
    assert_eq!(rt; board.waiting(bearer), 0);
}

/// The signal after arming with a packet waiting, after another packet, and after each of two takes.
fn signals<B: Board>(board: &mut B, bearer: usize) -> [bool; 4] {
    board.offer(bearer, packet(1));
    board.arm(bearer);
    let armed = board.signal(bearer);
    board.offer(bearer, packet(2));
    let offered = board.signal(bearer);
    board.take(bearer);
    let one_left = board.signal(bearer);
    board.take(bearer);
    [armed, offered, one_left, board.signal(bearer)]
}

#[test]
fn class_costs(rt: HostRuntime) {
    let cases: [(u16, u32); 8] = [
        (1, 420),
        (32, 420),
        (33, 510),
        (64, 510),
        (65, 590),
        (352, 1270),
        (353, 1360),
        (384, 1360),
    ];
    for (length, cost) in cases {
        assert_eq!(rt; class_cost(length), cost);
    }
}

#[test]
fn ring_bearer_of_no_slots_and_of_one(rt: HostRuntime) {
    let mut one = [packet(9)];
    let mut none: [Packet; 0] = [];
    let mut board = Pair(RingBearer::new(&mut none), RingBearer::new(&mut one));
    fill(&rt, &mut board, 0, 0);
    fill(&rt, &mut board, 1, 1);
    empty(&rt, &mut board, 0, 0);
    empty(&rt, &mut board, 1, 1);
}

#[test]
fn ring_bearer_wraps_twice(rt: HostRuntime) {
    let mut slots = [packet(9); 3];
    let mut board = RingBearer::new(&mut slots);
    assert!(rt; board.offer(0, packet(1)));
    assert!(rt; board.offer(0, packet(2)));
    for number in 3..10u32 {
        assert!(rt; board.offer(0, packet(number)));
        assert!(rt; !board.offer(0, packet(99)));
        assert_eq!(rt; board.take(0), Some(packet(number - 2)));
        assert_eq!(rt; board.waiting(0), 2);
    }
}

#[test]
fn ring_bearer_leaves_slots_past_256_alone(rt: HostRuntime) {
    let mut slots = [packet(999); 258];
    let mut board = RingBearer::new(&mut slots);
    assert_eq!(rt; board.depth(0), 256);
    fill(&rt, &mut board, 0, 256);
    empty(&rt, &mut board, 0, 256);
    assert_eq!(rt; slots[255], packet(255));
    assert_eq!(rt; slots[256], packet(999));
    assert_eq!(rt; slots[257], packet(999));
}

#[test]
fn mailbox_depths(rt: HostRuntime) {
    let cases: [(usize, u32); 6] = [(0, 0), (1, 1), (4, 4), (16, 16), (17, 16), (usize::MAX, 16)];
    for (asked, depth) in cases {
        let mut board = MailboxBearer::new(asked);
        assert_eq!(rt; board.depth(0), depth as usize);
        fill(&rt, &mut board, 0, depth);
        empty(&rt, &mut board, 0, depth);
    }
}

/// A freed slot is used again before the packets behind it are gone, so slots are freed in another order than their own.
#[test]
fn mailbox_keeps_the_order_of_arrival(rt: HostRuntime) {
    let mut board = MailboxBearer::new(4);
    assert!(rt; board.offer(0, packet(1)));
    assert!(rt; board.offer(0, packet(2)));
    assert!(rt; board.offer(0, packet(3)));
    for number in 4..16u32 {
        assert_eq!(rt; board.take(0), Some(packet(number - 3)));
        assert!(rt; board.offer(0, packet(number)));
        assert_eq!(rt; board.waiting(0), 3);
    }
}

#[test]
fn level_and_edge(rt: HostRuntime) {
    let mut slots = [packet(9); 2];
    assert_eq!(rt;
        signals(&mut RingBearer::new(&mut slots), 0),
        [true, true, true, false]
    );
    assert_eq!(rt;
        signals(&mut MailboxBearer::new(2), 0),
        [false, true, true, false]
    );
}

/// Bearers of depths 1 to 8.
fn eight() -> Pair<Four, Four> {
    Pair(four(1), four(5))
}

type Four = Pair<Pair<MailboxBearer, MailboxBearer>, Pair<MailboxBearer, MailboxBearer>>;

fn four(first: usize) -> Four {
    let [a, b, c, d] = [0, 1, 2, 3].map(|more| MailboxBearer::new(first.saturating_add(more)));
    Pair(Pair(a, b), Pair(c, d))
}

#[test]
fn pair_of_eight_and_one(rt: HostRuntime) {
    let mut board = Pair(eight(), MailboxBearer::new(9));
    assert_eq!(rt; board.size(), 8);
    assert_eq!(rt; board.depth(0), 1);
    fill(&rt, &mut board, 7, 8);
    not_there(&rt, &mut board, 8);
    empty(&rt, &mut board, 7, 8);
}

#[test]
fn pair_of_one_and_eight(rt: HostRuntime) {
    let mut board = Pair(MailboxBearer::new(9), eight());
    assert_eq!(rt; board.size(), 8);
    assert_eq!(rt; board.depth(0), 9);
    fill(&rt, &mut board, 7, 7);
    not_there(&rt, &mut board, 8);
    empty(&rt, &mut board, 7, 7);
}

#[test]
fn nested_pair_bearer_by_bearer(rt: HostRuntime) {
    let (mut first, mut third) = ([packet(9); 2], [packet(9); 3]);
    let mut board = Pair(
        RingBearer::new(&mut first),
        Pair(MailboxBearer::new(4), RingBearer::new(&mut third)),
    );
    assert_eq!(rt; board.size(), 3);
    let cases: [(usize, u32, u32); 3] = [(0, 2, 200), (1, 4, 120), (2, 3, 200)];
    for (bearer, depth, cost) in cases {
        assert_eq!(rt; board.depth(bearer), depth as usize);
        assert_eq!(rt; board.cost(bearer), cost);
        assert!(rt; board.offer(bearer, packet(depth)));
        let looped = loopback(&mut board, bearer, packet(cost));
        assert_eq!(rt; looped.came, Some(packet(depth)));
        assert!(rt; looped.raised);
        assert_eq!(rt; board.waiting(bearer), 1);
        assert!(rt; !board.signal(bearer));
    }
    assert_eq!(rt; board.take(0), Some(packet(200)));
    assert_eq!(rt; board.take(1), Some(packet(120)));
    assert_eq!(rt; board.take(2), Some(packet(200)));
    let absent = Looped {
        raised: false,
        came: None,
    };
    assert_eq!(rt; loopback(&mut board, 3, packet(1)), absent);
}

#[test]
fn bearers_far_out_of_range(rt: HostRuntime) {
    let mut slots = [packet(9); 2];
    let mut board = Pair(MailboxBearer::new(1), RingBearer::new(&mut slots));
    for bearer in [2, 7, 8, 255, 4_294_967_296, usize::MAX] {
        not_there(&rt, &mut board, bearer);
    }
    assert_eq!(rt; board.waiting(0), 0);
    assert_eq!(rt; board.waiting(1), 0);
}
