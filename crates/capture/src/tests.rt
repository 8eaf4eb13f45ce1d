//! Each refusal at its exact edge, on captures built here byte by byte.
use crate::entry::read;
use crate::orders::ByteOrder;
use crate::packets::Captured;
use crate::refusals::{ReadError, Refusal};
use std::alloc::{AllocError, Global};
use std::iter;
use std::test::Fail;

/// A record to write: bearer (in every octet of its data), seconds, microseconds, captured and original length.
type Line = (u8, u32, u32, usize, u32);

const FIRST: Line = (0, 7, 900_000, 1, 21);

/// How many packets a capture holds, or the number and the place of its refusal.
fn answer(
    alloc: Global,
    bytes: &[u8],
    shown: usize,
) -> Result<Result<usize, (u8, usize)>, ReadError> {
    match read(alloc, bytes, shown) {
        Ok(packets) => Ok(Ok(packets.len())),
        Err(ReadError::Refused(refusal)) => Ok(Err((refusal.number(), refusal.place()))),
        Err(ReadError::Memory) => Err(ReadError::Memory),
    }
}

/// Appends a number's bytes, which come with the highest first.
fn put_number<const N: usize>(
    file: &mut Vec<u8>,
    order: ByteOrder,
    mut bytes: [u8; N],
) -> Result<(), AllocError> {
    if order == ByteOrder::Little {
        bytes.reverse();
    }
    file.extend_from_slice(&bytes)
}

fn header(alloc: Global, order: ByteOrder) -> Result<Vec<u8>, AllocError> {
    let mut file = Vec::new(alloc);
    put_number(&mut file, order, 0xA1B2_C3D4_u32.to_be_bytes())?;
    put_number(&mut file, order, 2_u16.to_be_bytes())?;
    put_number(&mut file, order, 4_u16.to_be_bytes())?;
    file.extend_from_slice(&[0; 16])?;
    Ok(file)
}

fn put_record(file: &mut Vec<u8>, order: ByteOrder, line: Line) -> Result<(), AllocError> {
    let (bearer, seconds, micros, captured, original) = line;
    let length = u32::try_from(captured).unwrap_or(u32::MAX);
    for number in [seconds, micros, length, original] {
        put_number(file, order, number.to_be_bytes())?;
    }
    file.extend(iter::repeat_n(bearer, captured))
}

#[test]
fn file_sizes(rt: HostRuntime) -> Result<(), Fail> {
    let alloc = rt.alloc();
    let mut file = header(alloc, ByteOrder::Little)?;
    assert_eq!(rt; answer(alloc, &file, 3)?, Ok(0));
    file.truncate(23);
    assert_eq!(rt; answer(alloc, &file, 3)?, Err((10, 0)));
    let mut file = header(alloc, ByteOrder::Little)?;
    put_record(&mut file, ByteOrder::Little, (0, 7, 900_000, 65_496, 21))?;
    assert_eq!(rt; file.len(), 65_536);
    assert_eq!(rt; answer(alloc, &file, 3)?, Ok(1));
    file.extend_from_slice(&[0])?;
    assert_eq!(rt; answer(alloc, &file, 3)?, Err((9, 0)));
    Ok(())
}

/// A second record after FIRST, cut by so many bytes at its end.
#[test]
fn second_records(rt: HostRuntime) -> Result<(), Fail> {
    let alloc = rt.alloc();
    let cases = [
        (FIRST, 0, Ok(2)),
        (FIRST, 1, Err((11, 41))),
        (FIRST, 2, Err((11, 41))),
        (FIRST, 16, Err((11, 41))),
        (FIRST, 17, Ok(1)),
        ((0, 7, 900_000, 0, 21), 0, Err((12, 41))),
        ((2, 7, 900_000, 1, 21), 0, Ok(2)),
        ((3, 7, 900_000, 1, 21), 0, Err((13, 41))),
        ((3, 9, 0, 1, 0), 0, Err((13, 41))),
        ((0, 8, 899_999, 1, 21), 0, Ok(2)),
        ((0, 8, 900_000, 1, 21), 0, Err((15, 41))),
        ((0, 8, 900_000, 1, 0), 0, Err((15, 41))),
        ((0, 0, 0, 1, 21), 0, Ok(2)),
        ((0, 7, 900_000, 1, 0), 0, Err((16, 41))),
        ((0, 7, 900_000, 1, 1), 0, Err((16, 41))),
        ((0, 7, 900_000, 1, 2), 0, Ok(2)),
        ((0, 7, 900_000, 1, 385), 0, Ok(2)),
        ((0, 7, 900_000, 1, 386), 0, Err((16, 41))),
    ];
    for (line, cut, expected) in cases {
        let mut file = header(alloc, ByteOrder::Big)?;
        put_record(&mut file, ByteOrder::Big, FIRST)?;
        put_record(&mut file, ByteOrder::Big, line)?;
        let len = file.len();
        file.truncate(len.saturating_sub(cut));
        assert_eq!(rt; answer(alloc, &file, 3)?, expected);
    }
    Ok(())
}

#[test]
fn packet_count(rt: HostRuntime) -> Result<(), Fail> {
    let alloc = rt.alloc();
    let mut file = header(alloc, ByteOrder::Little)?;
    for _ in 0..1_024 {
        put_record(&mut file, ByteOrder::Little, FIRST)?;
    }
    assert_eq!(rt; answer(alloc, &file, 1)?, Ok(1_024));
    let full = file.len();
    let cases = [
        ((1, 9, 0, 1, 0), Err((13, 17_432))),
        ((0, 9, 0, 1, 0), Err((14, 17_432))),
    ];
    for (line, expected) in cases {
        file.truncate(full);
        put_record(&mut file, ByteOrder::Little, line)?;
        assert_eq!(rt; answer(alloc, &file, 1)?, expected);
    }
    Ok(())
}

#[test]
fn byte_orders(rt: HostRuntime) -> Result<(), Fail> {
    let alloc = rt.alloc();
    for order in [ByteOrder::Big, ByteOrder::Little] {
        let mut file = header(alloc, order)?;
        put_record(&mut file, order, FIRST)?;
        put_record(&mut file, order, (2, 7, 5, 9, 385))?;
        let packets = read(alloc, &file, 3)?;
        assert!(rt; packets.len() == 2);
        assert_eq!(rt;
            packets[0],
            Captured {
                bearer: 0,
                length: 20,
                microseconds: 7_900_000,
            }
        );
        assert_eq!(rt;
            packets[1],
            Captured {
                bearer: 2,
                length: 384,
                microseconds: 7_000_005,
            }
        );
    }
    Ok(())
}

/// Written out, so that nothing but the reading asks for memory: it answers so if there is none, too.
#[test]
fn refused_without_memory(rt: HostRuntime) -> Result<(), Fail> {
    // One packet for bearer 0, and then a record without data.
    let file = *b"\xD4\xC3\xB2\xA1\x02\0\x04\0\0\0\0\0\0\0\0\0\0\0\0\0\0\0\0\0\
        \0\0\0\0\0\0\0\0\x01\0\0\0\x15\0\0\0\0\
        \0\0\0\0\0\0\0\0\0\0\0\0\x15\0\0\0";
    assert!(rt;
        matches!(
            read(rt.alloc(), &file, 3),
            Err(ReadError::Refused(Refusal::NoData(41)))
        )
    );
    Ok(())
}
