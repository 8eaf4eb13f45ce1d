ghost use Rattle.std.specs.Prelude.{◌≡◌, true};

use crate::*;

/// Whether the quota lies in the bounds that every policy keeps. It is proved from the trait alone that it does.
fn in_bounds<P: Policy>(policy: &P, bearer: usize, waiting: usize) -> bool
    ensures value { result ≡ true }
{
    let quota = policy.quota(bearer, waiting);
    (1..=P::GREATEST).contains(&quota)
}

#[test]
fn fixed(rt: HostRuntime) {
    let cases: [(u32, u32); 6] = [(0, 1), (1, 1), (7, 7), (16, 16), (17, 16), (u32::MAX, 16)];
    for (figure, expected) in cases {
        let policy = Fixed::new(figure);
        assert_eq!(rt; policy.quota(0, usize::MAX), expected);
        assert_eq!(rt; policy.quota(usize::MAX, 0), expected);
        assert!(rt; in_bounds(&policy, 3, 20));
    }
}

#[test]
fn backlog(rt: HostRuntime) {
    let cases: [(usize, u32); 8] = [
        (0, 1),
        (1, 1),
        (2, 2),
        (3, 2),
        (13, 7),
        (14, 8),
        (15, 8),
        (usize::MAX, 8),
    ];
    for (waiting, expected) in cases {
        assert_eq!(rt; Backlog.quota(0, waiting), expected);
        assert_eq!(rt; Backlog.quota(usize::MAX, waiting), expected);
        assert!(rt; in_bounds(&Backlog, 3, waiting));
    }
}

#[test]
fn greatest(rt: HostRuntime) {
    assert_eq!(rt; Fixed::GREATEST, 16);
    assert_eq!(rt; Backlog::GREATEST, 8);
}
