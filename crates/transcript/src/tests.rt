//! The expected values are those of docs/RULES.md.
use crate::*;
use setup::{BearerKind, BearerSetup, PolicySetup};
use std::alloc::{AllocError, Global};
use std::test::Fail;

/// What is printed of a text: its answers, or why there are none.
fn printed(alloc: Global, text: &[u8]) -> Result<String, AllocError> {
    match run(alloc, text) {
        Ok(answers) => Ok(answers),
        Err(failure) => reason(alloc, failure),
    }
}

#[test]
fn a_line_for_each_call(rt: HostRuntime) -> Result<(), Fail> {
    // Worked example F, and receipts; the receipt of packet 1 is held in the end.
    let text =
        b"step\nconfigure 64000 32000 32 24 8 2\narrive 1 20 7\narrive 1 33 7\narrive 1 20 7\narrive 1 20 7\n\
        arrive 1 20 7\nstep\nstep\nstep\n# The first receipt is spent.\nfetch\nfinish 0\nfinish 0\nfetch\ntell";
    let expected =
        "refused 20 place 0: the receiver is not configured\nconfigured\narrived 0 accepted\narrived 1 accepted\n\
        arrived 2 accepted\narrived 3 accepted\narrived 4 dropped bearer-full\nbegun 1 quota 4\ntaken 0 queued\n\
        taken 1 queued\nfetched 0 length 20 tag 7\nfinished\nno receipt\nfetched 1 length 33 tag 7\n\
        told numbered 5 delivered 1 bearer-full 1 queue-full 0 discarded 0 closed 0\n";
    let answers = printed(rt.alloc(), text)?;
    assert!(rt; answers.as_str() == expected);
    Ok(())
}

#[test]
fn no_answers(rt: HostRuntime) -> Result<(), Fail> {
    let alloc = rt.alloc();
    let cases: [(&[u8], &str); 5] = [
        (b"", ""),
        (
            b"tell\n\nwork\nbegin",
            "unread 3: the count of numbers is not 1",
        ),
        (b"tell\nstep now", "unread 2: the count of numbers is not 0"),
        (
            b"policy fixed 4\ntell\nbearer ring 8",
            "unread 3: a call stands before this line",
        ),
        (
            b"policy fixed 4\npolicy backlog\ntell",
            "unread 2: the policy is said already",
        ),
    ];
    for (text, expected) in cases {
        let text = printed(alloc, text)?;
        assert!(rt; text.as_str() == expected);
    }
    let text = reason(alloc, Failure::NoMemory)?;
    assert!(rt; text.as_str() == "out of memory");
    Ok(())
}

const CONFIGURE: &str = "configure 64000 32000 32 24 8 2\n";

/// What a text says of the board and the policy is what the receiver is put up over; the rest is standard.
#[test]
fn own_board_and_policy(rt: HostRuntime) -> Result<(), Fail> {
    let alloc = rt.alloc();
    let cases = [
        (
            "policy backlog\n",
            "arrive 2 20 7\nstep\narrive 3 20 7",
            "arrived 0 accepted\nbegun 2 quota 1\nrefused 4 place 3: the board does not show this bearer\n",
        ),
        (
            "bearer mailbox 1\n",
            "arrive 0 20 7\narrive 0 20 7\narrive 1 20 7\nstep",
            "arrived 0 accepted\narrived 1 dropped bearer-full\n\
            refused 4 place 1: the board does not show this bearer\nbegun 0 quota 4\n",
        ),
        // A figure that would be 0 in 32 bits is cut to the greatest all the same.
        (
            "bearer ring 0\npolicy fixed 4294967296\nbearer ring 1\n",
            "arrive 0 20 7\narrive 1 20 7\nstep",
            "arrived 0 dropped bearer-full\narrived 1 accepted\nbegun 1 quota 16\n",
        ),
        (
            "bearer ring 1\nbearer ring 1\nbearer ring 1\nbearer ring 1\n\
            bearer ring 1\nbearer ring 1\nbearer ring 1\nbearer ring 1\n",
            "arrive 7 20 7\narrive 8 20 7",
            "arrived 0 accepted\nrefused 4 place 8: the board does not show this bearer\n",
        ),
    ];
    for (says, calls, expected) in cases {
        let text = format!(in alloc; "{says}{CONFIGURE}{calls}")?;
        let expected = format!(in alloc; "configured\n{expected}")?;
        let answers = printed(alloc, text.as_bytes())?;
        assert!(rt; answers.as_str() == expected.as_str());
    }
    Ok(())
}

/// By kinds: an occupied bearer keeps a receiver from being configured, and without a bearer there is none.
#[test]
fn by_kinds(rt: HostRuntime) -> Result<(), Fail> {
    let bearer = |is_occupied| BearerSetup {
        kind: BearerKind::Mailbox,
        depth: 1,
        is_occupied,
    };
    let bearers = [bearer(false), bearer(true)];
    let run = |bearers: &[BearerSetup]| run_on(
        rt.alloc(),
        bearers,
        PolicySetup::Backlog,
        CONFIGURE.as_bytes(),
    );
    let answers = run(&bearers).unwrap()?;
    assert!(rt; answers.as_str() == "refused 22 place 1: a packet waits in this bearer\n");
    assert!(rt; run(&[]).is_none());
    Ok(())
}

/// A text of 1,048,576 bytes is read, and a longer one is not.
#[test]
fn longest(rt: HostRuntime) -> Result<(), Fail> {
    let mut text = vec![in rt.alloc(); b' '; 1_048_576]?;
    let answers = printed(rt.alloc(), &text)?;
    assert!(rt; answers.is_empty());
    text.push(b' ')?;
    let answers = printed(rt.alloc(), &text)?;
    assert!(rt; answers.as_str() == "the text is above 1048576 bytes");
    Ok(())
}
