use crate::*;
use board::{MailboxBearer, Packet};
use machine::{Arrival, Progress, Refusal};
use policy::{Backlog, Fixed};
use standard::{SETTINGS, StandardBoard};
use std::mem::size_of;
use std::process::Abort;

/// A configured receiver over one mailbox of 4.
fn over_one_mailbox(rt: &impl Abort) -> Receiver<MailboxBearer, Backlog> {
    let mut receiver = Receiver::new(MailboxBearer::new(4), Backlog);
    assert_eq!(rt; receiver.configure(SETTINGS), Ok(()));
    receiver
}

/// All that a receiver has beside its board and its policy fits 2 KiB.
#[test]
fn size(rt: HostRuntime) {
    let whole = size_of::<Receiver<StandardBoard, Fixed>>();
    let lent = size_of::<StandardBoard>() + size_of::<Fixed>();
    assert!(rt;
        whole <= lent + 2_048,
        "{whole} with {lent} of board and policy"
    );
}

/// A packet's way through a receiver, to the receipt of its fetch.
fn fetched(rt: &impl Abort, receiver: &mut Receiver<MailboxBearer, Backlog>) -> Receipt {
    let arrival = Arrival {
        number: 0,
        accepted: true,
    };
    assert_eq!(rt; receiver.arrive(0, 20, 7), Ok(arrival));
    // Where one packet waits, the backlog policy gives a quota of 1.
    let begun = Progress::Begun {
        bearer: 0,
        quota: 1,
    };
    assert_eq!(rt; receiver.step(), Ok(begun));
    let taken = Progress::Taken {
        number: 0,
        queued: true,
    };
    assert_eq!(rt; receiver.step(), Ok(taken));
    match receiver.fetch() {
        Ok((packet, receipt)) => {
            let sent = Packet {
                number: 0,
                length: 20,
                tag: 7,
            };
            assert_eq!(rt; packet, sent);
            assert_eq!(rt; receipt.number(), 0);
            receipt
        }
        Err(_) => panic!(rt; "no packet is queued"),
    }
}

#[test]
fn one_packet(rt: HostRuntime) {
    let mut receiver = over_one_mailbox(&rt);
    let receipt = fetched(&rt, &mut receiver);
    match receiver.finish(receipt) {
        Ok(()) => assert_eq!(rt; receiver.tell().counts.delivered, 1),
        Err(_unspent) => panic!(rt; "the number is not out"),
    }
}

/// A receipt of another receiver comes back, and is spent where it belongs.
#[test]
fn receipt_of_another(rt: HostRuntime) {
    let mut receiver = over_one_mailbox(&rt);
    let mut other = over_one_mailbox(&rt);
    let receipt = fetched(&rt, &mut receiver);
    match other.finish(receipt) {
        Ok(()) => panic!(rt; "the number is out on a receiver that fetched nothing"),
        Err(Unspent { refusal, receipt }) => {
            assert_eq!(rt; refusal, Refusal::NotOut);
            assert_eq!(rt; receipt.number(), 0);
            match receiver.discard(receipt) {
                Ok(()) => assert_eq!(rt; receiver.tell().counts.discarded, 1),
                Err(_unspent) => panic!(rt; "the number is not out"),
            }
        }
    }
    assert_eq!(rt; other.tell().counts.delivered, 0);
}
