use crate::*;
use board::{Board, MailboxBearer, Packet, Pair};
use machine::{Answer, Arrival, Call, Progress, RawSettings, Refusal};
use policy::{Fixed, Policy};
use standard::{SETTINGS, Slots, board, policy};
use std::process::Abort;

const CONFIGURED: Reply = Reply::Accepted(Answer::Configured);

const FINISHED: Reply = Reply::Accepted(Answer::Finished);

fn arrive(bearer: usize, length: usize) -> Call {
    Call::Arrive {
        bearer,
        length,
        tag: 7,
    }
}

fn arrived(number: u32, accepted: bool) -> Reply {
    Reply::Accepted(Answer::Arrived(Arrival { number, accepted }))
}

fn stepped(progress: Progress) -> Reply {
    Reply::Accepted(Answer::Stepped(progress))
}

fn begun(bearer: usize) -> Reply {
    stepped(Progress::Begun { bearer, quota: 4 })
}

fn queued(number: u32) -> Reply {
    stepped(Progress::Taken {
        number,
        queued: true,
    })
}

fn fetched(number: u32, length: u16) -> Reply {
    Reply::Accepted(Answer::Fetched(Packet {
        number,
        length,
        tag: 7,
    }))
}

/// Makes the calls on a new standard receiver, and compares each reply, then the numbers that are held, which a sweep discards.
fn replies(rt: &(impl Abort + AllocGlobal), lines: &[(Call, Reply)], held: &[u32]) {
    let mut slots = Slots::EMPTY;
    let calls: Vec<Call> = lines
        .iter()
        .map(|line| line.0)
        .collect(rt.alloc())
        .expect(rt, "memory");
    let Ok(conducted) = conduct(rt.alloc(), board(&mut slots), policy(), &calls) else {
        panic!(rt; "no memory");
    };
    assert_eq!(rt; conducted.replies.len(), lines.len());
    for (reply, line) in conducted.replies.iter().zip(lines) {
        assert_eq!(rt; *reply, line.1);
    }
    assert_eq!(rt; conducted.receipts.len(), held.len());
    for (receipt, number) in conducted.receipts.iter().zip(held) {
        assert_eq!(rt; receipt.number(), *number);
    }
    let swept = conducted.sweep().unwrap();
    assert_eq!(rt; swept.replies.len(), lines.len());
    assert_eq!(rt; swept.receiver.tell().counts.discarded as usize, held.len());
}

#[test]
fn grant_on_an_emptied_bearer(rt: HostRuntime) {
    let lines = [
        (Call::Configure(SETTINGS), CONFIGURED),
        (arrive(1, 20), arrived(0, true)),
        (Call::Step, begun(1)),
        (Call::Step, queued(0)),
        (Call::Step, stepped(Progress::Empty)),
        (arrive(1, 20), arrived(1, true)),
        (Call::Step, stepped(Progress::Rescheduled)),
        // 680 cycles are used.
        (
            Call::Work(64_000),
            Reply::Refused(Refusal::PastPeriod(63_320)),
        ),
    ];
    replies(&rt, &lines, &[]);
}

#[test]
fn hold(rt: HostRuntime) {
    let settings = RawSettings {
        size: 2,
        high: 2,
        low: 0,
        hold: 1,
        ..SETTINGS
    };
    let lines = [
        (Call::Configure(settings), CONFIGURED),
        (arrive(0, 20), arrived(0, true)),
        (arrive(0, 20), arrived(1, true)),
        (Call::Step, begun(0)),
        (Call::Step, queued(0)),
        (Call::Step, queued(1)),
        (Call::Step, stepped(Progress::Completed)),
        (Call::Step, Reply::Refused(Refusal::OnHold)),
        (Call::Fetch, fetched(0, 20)),
        (Call::Step, Reply::Refused(Refusal::OnHold)),
        (Call::Fetch, fetched(1, 20)),
        (Call::Step, Reply::Refused(Refusal::NoneListed)),
    ];
    replies(&rt, &lines, &[0, 1]);
}

#[test]
fn limit(rt: HostRuntime) {
    let settings = RawSettings {
        limit: 200,
        ..SETTINGS
    };
    let lines = [
        (Call::Configure(settings), CONFIGURED),
        (arrive(0, 1), arrived(0, true)),
        (Call::Step, begun(0)),
        (Call::Step, queued(0)),
        (Call::Step, stepped(Progress::Empty)),
        (Call::Step, stepped(Progress::Completed)),
        (Call::Step, Reply::Refused(Refusal::LimitUsed)),
        (Call::Work(63_240), Reply::Accepted(Answer::Worked)),
        // Bearer 0 is armed again, so the next packet is heard.
        (arrive(0, 1), arrived(1, true)),
        (Call::Step, begun(0)),
    ];
    replies(&rt, &lines, &[]);
}

#[test]
fn receipts(rt: HostRuntime) {
    let lines = [
        (Call::Finish(0), Reply::NoReceipt),
        (Call::Step, Reply::Refused(Refusal::NotConfigured)),
        (Call::Configure(SETTINGS), CONFIGURED),
        (arrive(0, 20), arrived(0, true)),
        (arrive(0, 33), arrived(1, true)),
        (arrive(0, 64), arrived(2, true)),
        (Call::Fetch, Reply::Refused(Refusal::NoneQueued)),
        (Call::Step, begun(0)),
        (Call::Step, queued(0)),
        (Call::Step, queued(1)),
        (Call::Step, queued(2)),
        (Call::Finish(0), Reply::NoReceipt),
        (Call::Fetch, fetched(0, 20)),
        (Call::Fetch, fetched(1, 33)),
        (Call::Fetch, fetched(2, 64)),
        (Call::Finish(1), FINISHED),
        (Call::Finish(1), Reply::NoReceipt),
        (Call::Discard(1), Reply::NoReceipt),
        (Call::Finish(3), Reply::NoReceipt),
    ];
    replies(&rt, &lines, &[0, 2]);
}

#[test]
fn no_calls(rt: HostRuntime) {
    replies(&rt, &[], &[]);
}

/// With no memory, board and policy come back.
#[test]
fn memory(rt: HostRuntime) {
    let board = Pair(MailboxBearer::new(4), MailboxBearer::new(9));
    let calls = [Call::Step; 3];
    match conduct(rt.alloc(), board, Fixed::new(5), &calls) {
        Ok(conducted) => {
            assert_eq!(rt; conducted.replies.len(), 3);
            let _swept = conducted.sweep().unwrap();
        }
        Err(NoMemory { board, policy }) => {
            assert_eq!(rt; board.depth(1), 9);
            assert_eq!(rt; policy.quota(0, 0), 5);
        }
    }
}
