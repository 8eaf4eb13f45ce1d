//! The expected values are those of docs/RULES.md.
use crate::*;
use capture::Refusal;
use replay::{FateCounts, Figures};
use std::test::Fail;

/// A savefile's header, least significant byte first.
const HEADER: [u8; 24] = *b"\xD4\xC3\xB2\xA1\x02\0\x04\0\0\0\0\0\0\0\0\0\0\0\0\0\0\0\0\0";

#[test]
fn no_packets(rt: HostRuntime) -> Result<(), Fail> {
    let packets = report(rt.alloc(), &HEADER, Table::Packets)?;
    assert!(rt; packets.text.as_slice() == b"packet,bearer,length,fate,period\r\n".as_slice());
    let periods = report(rt.alloc(), &HEADER, Table::Periods)?;
    assert!(rt; periods.text.as_slice() == b"period,network,application\r\n".as_slice());
    let said = words(rt.alloc(), periods.outcome)?;
    assert!(rt;
        said.as_str()
            == "0 packets, 0 turns, 0 periods; 0 delivered, 0 bearer-full, 0 queue-full, 0 waiting, 0 pending"
    );
    Ok(())
}

#[test]
fn refused(rt: HostRuntime) -> Result<(), Fail> {
    // The header's last byte is missing; a record's header runs past the end.
    let cases: [(&[u8], &[u8]); 2] = [
        (&HEADER[0..23], b"10,0\r\n"),
        (
            b"\xD4\xC3\xB2\xA1\x02\0\x04\0\0\0\0\0\0\0\0\0\0\0\0\0\0\0\0\0\0",
            b"11,24\r\n",
        ),
    ];
    for (bytes, expected) in cases {
        for table in [Table::Packets, Table::Periods] {
            let report = report(rt.alloc(), bytes, table)?;
            assert!(rt; report.text.as_slice() == expected);
        }
    }
    Ok(())
}

#[test]
fn words_of_figures(rt: HostRuntime) -> Result<(), Fail> {
    let fates = FateCounts {
        delivered: 1,
        bearer_full: 2,
        queue_full: 3,
        waiting: 4,
        pending: 5,
    };
    let several = Figures {
        packets: 15,
        turns: 0,
        periods: 1_000,
        fates,
    };
    let said = words(rt.alloc(), Ok(several))?;
    assert!(rt;
        said.as_str()
            == "15 packets, 0 turns, 1000 periods; 1 delivered, 2 bearer-full, 3 queue-full, 4 waiting, 5 pending"
    );
    let one = Figures {
        packets: 1,
        turns: 1,
        periods: 1,
        fates,
    };
    let said = words(rt.alloc(), Ok(one))?;
    assert!(rt;
        said.as_str()
            == "1 packet, 1 turn, 1 period; 1 delivered, 2 bearer-full, 3 queue-full, 4 waiting, 5 pending"
    );
    Ok(())
}

#[test]
fn words_of_a_refusal(rt: HostRuntime) -> Result<(), Fail> {
    let said = words(rt.alloc(), Err(Refusal::TooLate(579)))?;
    assert!(rt;
        said.as_str()
            == "the capture is refused with 15, place 579: a packet is a second or more after the first"
    );
    Ok(())
}
