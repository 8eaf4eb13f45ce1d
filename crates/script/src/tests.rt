//! The expected values are those of docs/RULES.md.
use crate::*;
use board::Packet;
use machine::{
    Answer, Arrival, Call, Counts, Period, Progress, RawSettings, Refusal, Report, Setting,
};
use setup::{BearerKind, BearerSetup, PolicySetup};
use std::alloc::{AllocError, Global};
use std::test::Fail;

/// The one line of a text of calls that cannot be read, and what is wrong with it.
fn fault(alloc: Global, text: &[u8]) -> Option<(usize, Fault)> {
    match read(alloc, text) {
        Err(ReadError::Unread(Unread { line, fault })) => Some((line, fault)),
        _ => None,
    }
}

/// The same of a script.
fn script_fault(alloc: Global, text: &[u8]) -> Option<(usize, Fault)> {
    match read_script(alloc, text) {
        Err(ReadError::Unread(Unread { line, fault })) => Some((line, fault)),
        _ => None,
    }
}

fn bearer(kind: BearerKind, depth: usize) -> BearerSetup {
    BearerSetup {
        kind,
        depth,
        is_occupied: false,
    }
}

#[test]
fn each_call(rt: HostRuntime) -> Result<(), Fail> {
    let text =
        b"configure 64000 32000 32 24 8 2\narrive 0 20 7\nstep\nwork 500\nfetch\nfinish 3\ndiscard 4\ntell\n";
    let calls = read(rt.alloc(), text)?;
    let expected = [
        Call::Configure(RawSettings {
            period: 64_000,
            limit: 32_000,
            size: 32,
            high: 24,
            low: 8,
            hold: 2,
        }),
        Call::Arrive {
            bearer: 0,
            length: 20,
            tag: 7,
        },
        Call::Step,
        Call::Work(500),
        Call::Fetch,
        Call::Finish(3),
        Call::Discard(4),
        Call::Tell,
    ];
    assert!(rt; calls.as_slice() == expected.as_slice());
    Ok(())
}

#[test]
fn blanks_and_comments(rt: HostRuntime) -> Result<(), Fail> {
    let text = b"\r\n\n # none\n\t work \t 007# \xFF step\r\n#\r\nstep #\n  step";
    let calls = read(rt.alloc(), text)?;
    assert!(rt; calls.as_slice() == [Call::Work(7), Call::Step, Call::Step].as_slice());
    assert!(rt; read(rt.alloc(), b"")?.is_empty());
    Ok(())
}

#[test]
fn faults(rt: HostRuntime) {
    let alloc = rt.alloc();
    let cases: [(&[u8], usize, Fault); 14] = [
        (b"begin", 1, Fault::UnknownCall),
        (b"step\n# step\n\nStep\nbegin", 4, Fault::UnknownCall),
        (b"step\rtell", 1, Fault::UnknownCall),
        (b"\xFF", 1, Fault::UnknownCall),
        (b"work", 1, Fault::WrongCount { wanted: 1 }),
        (b"tell\nwork 1 x", 2, Fault::WrongCount { wanted: 1 }),
        (b"configure 1 2 3 4 5", 1, Fault::WrongCount { wanted: 6 }),
        (b"arrive 0 20", 1, Fault::WrongCount { wanted: 3 }),
        (b"fetch 0", 1, Fault::WrongCount { wanted: 0 }),
        (b"finish +1", 1, Fault::NotANumber),
        (b"discard 1\ndiscard 1x", 2, Fault::NotANumber),
        (b"arrive 99999999999999999999 x 1", 1, Fault::TooLarge),
        (b"bearer ring 8", 1, Fault::OutOfPlace),
        (b"policy\nbegin", 1, Fault::OutOfPlace),
    ];
    for (text, line, wrong) in cases {
        assert_eq!(rt; fault(alloc, text), Some((line, wrong)));
    }
}

#[test]
fn board_and_policy(rt: HostRuntime) -> Result<(), Fail> {
    let alloc = rt.alloc();
    let text =
        b"# Two bearers.\nbearer ring 8\r\n\tpolicy  fixed 0 # cut\n\nbearer mailbox 18446744073709551615\nstep\ntell";
    let script = read_script(alloc, text)?;
    let bearers = [
        bearer(BearerKind::Ring, 8),
        bearer(BearerKind::Mailbox, 18_446_744_073_709_551_615),
    ];
    assert!(rt; script.bearers.as_slice() == bearers.as_slice());
    assert!(rt; script.policy == Some(PolicySetup::Fixed { figure: 0 }));
    assert!(rt; script.calls.as_slice() == [Call::Step, Call::Tell].as_slice());

    let script = read_script(alloc, b"policy backlog")?;
    assert!(rt; script.policy == Some(PolicySetup::Backlog));
    assert!(rt; script.bearers.is_empty());

    let script = read_script(alloc, b"step\n")?;
    assert!(rt; script.policy == None);
    assert!(rt; script.calls.as_slice() == [Call::Step].as_slice());
    Ok(())
}

#[test]
fn script_faults(rt: HostRuntime) {
    let alloc = rt.alloc();
    let cases: [(&[u8], usize, Fault); 16] = [
        (b"bearer ring 8\nBearer ring 8", 2, Fault::UnknownCall),
        (b"tell\n\nbearer ring 8", 3, Fault::OutOfPlace),
        (b"policy backlog\nstep\npolicy", 3, Fault::OutOfPlace),
        (b"bearer", 1, Fault::UnknownBearerKind),
        (b"bearer fixed", 1, Fault::UnknownBearerKind),
        (b"policy", 1, Fault::UnknownPolicyKind),
        (b"policy ring 8", 1, Fault::UnknownPolicyKind),
        (b"bearer ring", 1, Fault::WrongCount { wanted: 1 }),
        (b"bearer mailbox 4 x", 1, Fault::WrongCount { wanted: 1 }),
        (b"policy fixed", 1, Fault::WrongCount { wanted: 1 }),
        (b"policy backlog x", 1, Fault::WrongCount { wanted: 0 }),
        (b"bearer ring -1", 1, Fault::NotANumber),
        (b"policy fixed 18446744073709551616", 1, Fault::TooLarge),
        (b"policy backlog\npolicy backlog", 2, Fault::SecondPolicy),
        (b"policy backlog\npolicy fixed x", 2, Fault::NotANumber),
        (b"work 1\nwork", 2, Fault::WrongCount { wanted: 1 }),
    ];
    for (text, line, wrong) in cases {
        assert_eq!(rt; script_fault(alloc, text), Some((line, wrong)));
    }
}

#[test]
fn most_bearers(rt: HostRuntime) -> Result<(), Fail> {
    let alloc = rt.alloc();
    let mut text = Vec::new(alloc);
    for _ in 0..8 {
        text.extend_from_slice(b"bearer ring 1\n")?;
    }
    assert_eq!(rt; read_script(alloc, &text)?.bearers.len(), 8);
    text.extend_from_slice(b"bearer ring 1")?;
    assert_eq!(rt; script_fault(alloc, &text), Some((9, Fault::NinthBearer)));
    text.push(b'x')?;
    assert_eq!(rt; script_fault(alloc, &text), Some((9, Fault::NotANumber)));
    Ok(())
}

#[test]
fn largest_numbers(rt: HostRuntime) -> Result<(), Fail> {
    let alloc = rt.alloc();
    let text =
        b"work 18446744073709551615\narrive 18446744073709551615 18446744073709551615 4294967295\nfinish 4294967295";
    let calls = read(alloc, text)?;
    let expected = [
        Call::Work(18_446_744_073_709_551_615),
        Call::Arrive {
            bearer: 18_446_744_073_709_551_615,
            length: 18_446_744_073_709_551_615,
            tag: 4_294_967_295,
        },
        Call::Finish(4_294_967_295),
    ];
    assert!(rt; calls.as_slice() == expected.as_slice());
    let cases: [&[u8]; 5] = [
        b"work 18446744073709551616",
        b"arrive 18446744073709551616 0 0",
        b"arrive 0 0 4294967296",
        b"finish 4294967296",
        b"discard 4294967296",
    ];
    for text in cases {
        assert_eq!(rt; fault(alloc, text), Some((1, Fault::TooLarge)));
    }
    Ok(())
}

#[test]
fn answers(rt: HostRuntime) -> Result<(), Fail> {
    let alloc = rt.alloc();
    let counts = Counts {
        numbered: 5,
        delivered: 1,
        bearer_full: 2,
        queue_full: 3,
        discarded: 4,
    };
    let period = Period {
        offered: 62_300,
        network: 1_700,
    };
    let report = Report {
        counts,
        closed: 0,
        last: None,
    };
    let later = Report {
        counts,
        closed: 1,
        last: Some(period),
    };
    let packet = Packet {
        number: 0,
        length: 20,
        tag: 7,
    };
    let cases = [
        (Answer::Configured, "configured"),
        (arrived(0, true), "arrived 0 accepted"),
        (arrived(4, false), "arrived 4 dropped bearer-full"),
        (
            Answer::Stepped(Progress::Begun {
                bearer: 1,
                quota: 4,
            }),
            "begun 1 quota 4",
        ),
        (Answer::Stepped(Progress::Empty), "empty"),
        (taken(0, true), "taken 0 queued"),
        (taken(9, false), "taken 9 dropped queue-full"),
        (Answer::Stepped(Progress::Rescheduled), "rescheduled"),
        (Answer::Stepped(Progress::Completed), "completed"),
        (Answer::Worked, "worked"),
        (Answer::Fetched(packet), "fetched 0 length 20 tag 7"),
        (Answer::Finished, "finished"),
        (Answer::Discarded, "discarded"),
        (
            Answer::Told(report),
            "told numbered 5 delivered 1 bearer-full 2 queue-full 3 discarded 4 closed 0",
        ),
        (
            Answer::Told(later),
            "told numbered 5 delivered 1 bearer-full 2 queue-full 3 discarded 4 closed 1 offered 62300 network 1700",
        ),
    ];
    for (given, expected) in cases {
        let text = answer(alloc, given)?;
        assert!(rt; text.as_str() == expected);
    }
    Ok(())
}

fn arrived(number: u32, accepted: bool) -> Answer {
    Answer::Arrived(Arrival { number, accepted })
}

fn taken(number: u32, queued: bool) -> Answer {
    Answer::Stepped(Progress::Taken { number, queued })
}

#[test]
fn refusals(rt: HostRuntime) -> Result<(), Fail> {
    let alloc = rt.alloc();
    let text = refusal(alloc, Refusal::NotShown(7))?;
    assert!(rt; text.as_str() == "refused 4 place 7: the board does not show this bearer");
    let text = refusal(alloc, Refusal::from(Setting::Low))?;
    assert!(rt; text.as_str() == "refused 1 place 5: the setting is outside its range");
    let text = refusal(alloc, Refusal::NotOut)?;
    assert!(rt; text.as_str() == "refused 30 place 0: the receipt's number is not out");
    Ok(())
}

#[test]
fn unread_lines(rt: HostRuntime) -> Result<(), Fail> {
    let alloc = rt.alloc();
    let cases = [
        (Fault::UnknownCall, "unread 3: no call has this name"),
        (
            Fault::OutOfPlace,
            "unread 3: a call stands before this line",
        ),
        (
            Fault::UnknownBearerKind,
            "unread 3: no kind of bearer has this name",
        ),
        (
            Fault::UnknownPolicyKind,
            "unread 3: no kind of policy has this name",
        ),
        (
            Fault::WrongCount { wanted: 6 },
            "unread 3: the count of numbers is not 6",
        ),
        (Fault::NotANumber, "unread 3: a number is not digits alone"),
        (Fault::TooLarge, "unread 3: a number is too large"),
        (
            Fault::NinthBearer,
            "unread 3: a board shows no more than eight bearers",
        ),
        (Fault::SecondPolicy, "unread 3: the policy is said already"),
    ];
    for (fault, expected) in cases {
        let text = unread(alloc, Unread { line: 3, fault })?;
        assert!(rt; text.as_str() == expected);
    }
    Ok(())
}
