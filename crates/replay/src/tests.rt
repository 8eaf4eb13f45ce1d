//! The expected values are worked out from docs/RULES.md.
use crate::*;
use capture::ByteOrder;
use std::alloc::{AllocError, Global};
use std::test::Fail;

/// A packet of a capture: its bearer, its length and its microseconds.
type Line = (u8, u16, u32);

/// Three packets on three bearers, the last of them served in the second period.
const THREE: [Line; 3] = [(0, 20, 0), (1, 100, 10), (2, 384, 1_000)];

const THREE_PACKETS: &[u8; 96] = b"packet,bearer,length,fate,period\r\n\
    0,0,20,delivered,0\r\n1,1,100,delivered,0\r\n2,2,384,delivered,1\r\n";

const THREE_PERIODS: &[u8; 42] = b"period,network,application\r\n0,1700,62300\r\n";

/// Appends a number's bytes, which come with the highest first.
fn put_number<const N: usize>(
    file: &mut Vec<u8>,
    order: ByteOrder,
    mut bytes: [u8; N],
) -> Result<(), AllocError> {
    if order == ByteOrder::Little {
        bytes.reverse();
    }
    file.extend_from_slice(&bytes)
}

fn savefile(alloc: Global, order: ByteOrder, lines: &[Line]) -> Result<Vec<u8>, AllocError> {
    let mut file = Vec::new(alloc);
    put_number(&mut file, order, 0xA1B2_C3D4_u32.to_be_bytes())?;
    put_number(&mut file, order, 2_u16.to_be_bytes())?;
    put_number(&mut file, order, 4_u16.to_be_bytes())?;
    file.extend_from_slice(&[0; 16])?;
    for (bearer, length, microseconds) in lines {
        for number in [0, *microseconds, 1, u32::from(*length) + 1] {
            put_number(&mut file, order, number.to_be_bytes())?;
        }
        file.push(*bearer)?;
    }
    Ok(file)
}

/// Every packet delivered, in so many turns and periods.
fn delivered(packets: usize, turns: u64, periods: u32) -> Figures {
    Figures {
        packets,
        turns,
        periods,
        fates: FateCounts {
            delivered: packets,
            bearer_full: 0,
            queue_full: 0,
            waiting: 0,
            pending: 0,
        },
    }
}

/// In either byte order, and the memory behind the tables is as it was.
#[test]
fn three_packets(rt: HostRuntime) -> Result<(), Fail> {
    for order in [ByteOrder::Little, ByteOrder::Big] {
        let file = savefile(rt.alloc(), order, &THREE)?;
        let (mut packets, mut periods) = ([b'#'; 100], [b'#'; 50]);
        let expected = Replayed {
            figures: delivered(3, 25, 1),
            packets_len: 96,
            periods_len: 42,
        };
        let answer = replay(rt.alloc(), &file, &mut packets, &mut periods);
        assert_eq!(rt; answer, Ok(expected));
        assert!(rt; &packets[0..96] == THREE_PACKETS.as_slice());
        assert!(rt; &packets[96..] == b"####".as_slice());
        assert!(rt; &periods[0..42] == THREE_PERIODS.as_slice());
        assert!(rt; &periods[42..] == b"########".as_slice());
    }
    Ok(())
}

/// Memory of just the tables' sizes is enough. With a byte less nothing is written, and the packets' table is asked for first.
#[test]
fn memory(rt: HostRuntime) -> Result<(), Fail> {
    let file = savefile(rt.alloc(), ByteOrder::Little, &THREE)?;
    for (packets_len, periods_len, need) in [
        (96, 42, None),
        (95, 42, Some(96)),
        (96, 41, Some(42)),
        (95, 41, Some(96)),
        (0, 0, Some(96)),
    ] {
        let mut packets = vec![in rt.alloc(); b'#'; packets_len]?;
        let mut periods = vec![in rt.alloc(); b'#'; periods_len]?;
        let answer = replay(rt.alloc(), &file, &mut packets, &mut periods);
        match need {
            None => {
                assert!(rt; answer.is_ok());
                assert!(rt; packets.as_slice() == THREE_PACKETS.as_slice());
                assert!(rt; periods.as_slice() == THREE_PERIODS.as_slice());
            }
            Some(need) => {
                let refusal = Refusal::TooSmall(need);
                assert_eq!(rt; answer, Err(ReplayError::Refused(refusal)));
                assert_eq!(rt; (refusal.number(), refusal.place()), (17, need));
                assert!(rt; packets.iter().all(|byte| *byte == b'#'));
                assert!(rt; periods.iter().all(|byte| *byte == b'#'));
            }
        }
    }
    Ok(())
}

/// A capture that is refused leaves the memory as it was.
#[test]
fn refused_captures(rt: HostRuntime) -> Result<(), Fail> {
    let mut file = savefile(rt.alloc(), ByteOrder::Big, &[(0, 20, 0), (3, 20, 0)])?;
    let (mut packets, mut periods) = ([b'#'; 100], [b'#'; 50]);
    for (number, place) in [(13, 41), (10, 0)] {
        match replay(rt.alloc(), &file, &mut packets, &mut periods) {
            Err(ReplayError::Refused(refusal)) => {
                assert_eq!(rt; (refusal.number(), refusal.place()), (number, place));
            }
            _ => panic!(rt; "the capture is not refused"),
        }
        assert!(rt; packets == [b'#'; 100]);
        assert!(rt; periods == [b'#'; 50]);
        file.truncate(23);
    }
    Ok(())
}

#[test]
fn no_packets(rt: HostRuntime) -> Result<(), Fail> {
    let file = savefile(rt.alloc(), ByteOrder::Little, &[])?;
    let tables = tables(rt.alloc(), &file)?;
    assert_eq!(rt; tables.figures, delivered(0, 0, 0));
    assert!(rt; tables.packets.as_slice() == b"packet,bearer,length,fate,period\r\n".as_slice());
    assert!(rt; tables.periods.as_slice() == b"period,network,application\r\n".as_slice());
    Ok(())
}

/// Arrival, begin, take, empty and completed; fetch, work and finish.
#[test]
fn one_packet(rt: HostRuntime) -> Result<(), Fail> {
    let file = savefile(rt.alloc(), ByteOrder::Little, &[(1, 384, 7)])?;
    let tables = tables(rt.alloc(), &file)?;
    assert_eq!(rt; tables.figures, delivered(1, 8, 0));
    assert!(rt;
        tables.packets.as_slice()
            == b"packet,bearer,length,fate,period\r\n0,1,384,delivered,0\r\n".as_slice()
    );
    Ok(())
}

/// A packet whose timestamp is before the first's arrives at once: the application does not work until both were polled.
#[test]
fn earlier_than_the_first(rt: HostRuntime) -> Result<(), Fail> {
    let file = savefile(rt.alloc(), ByteOrder::Big, &[(0, 20, 1_000), (1, 20, 10)])?;
    let tables = tables(rt.alloc(), &file)?;
    assert_eq!(rt; tables.figures, delivered(2, 16, 0));
    Ok(())
}

/// The last period is closed by the begin of a grant: its packet waits, and the next one, four cycles later, never arrives.
#[test]
fn stopped_at_1000_periods(rt: HostRuntime) -> Result<(), Fail> {
    let lines = [(0, 20, 0), (0, 20, 999_998), (1, 20, 999_999)];
    let file = savefile(rt.alloc(), ByteOrder::Little, &lines)?;
    let tables = tables(rt.alloc(), &file)?;
    let fates = FateCounts {
        delivered: 1,
        bearer_full: 0,
        queue_full: 0,
        waiting: 1,
        pending: 1,
    };
    let expected = Figures {
        packets: 3,
        turns: 1_010,
        periods: 1_000,
        fates,
    };
    assert_eq!(rt; tables.figures, expected);
    let rows = b"packet,bearer,length,fate,period\r\n0,0,20,delivered,0\r\n1,0,20,waiting,1000\r\n\
        2,1,20,pending,1000\r\n";
    assert!(rt; tables.packets.as_slice() == rows.as_slice());
    let first = b"period,network,application\r\n0,760,63240\r\n1,0,64000\r\n";
    assert!(rt; tables.periods.starts_with(first.as_slice()));
    let last = b"998,0,64000\r\n999,128,63872\r\n";
    assert!(rt; tables.periods.ends_with(last.as_slice()));
    Ok(())
}

/// Of five packets at once on a bearer of depth 4 one is lost.
#[test]
fn bearer_full(rt: HostRuntime) -> Result<(), Fail> {
    let file = savefile(rt.alloc(), ByteOrder::Little, &[(1, 20, 0); 5])?;
    let tables = tables(rt.alloc(), &file)?;
    assert_eq!(rt; tables.figures.fates.bearer_full, 1);
    let rows = b"packet,bearer,length,fate,period\r\n0,1,20,delivered,0\r\n1,1,20,delivered,0\r\n\
        2,1,20,delivered,0\r\n3,1,20,delivered,0\r\n4,1,20,bearer-full,0\r\n";
    assert!(rt; tables.packets.as_slice() == rows.as_slice());
    Ok(())
}
