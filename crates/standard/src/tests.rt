use crate::{BEARERS, Slots, board, policy};
use board::Board;
use policy::Policy;

#[test]
fn as_the_rules_say(rt: HostRuntime) {
    let mut slots = Slots::EMPTY;
    let board = board(&mut slots);
    assert_eq!(rt; board.size(), BEARERS);
    let bearers: [(usize, u32); BEARERS] = [(8, 200), (4, 120), (16, 200)];
    for (bearer, (depth, cost)) in bearers.iter().enumerate() {
        assert_eq!(rt; board.depth(bearer), *depth);
        assert_eq!(rt; board.cost(bearer), *cost);
    }
    assert_eq!(rt; policy().quota(0, 9), 4);
}
