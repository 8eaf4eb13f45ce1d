use crate::list;
use std::test::Fail;

#[test]
fn no_packets(rt: HostRuntime) -> Result<(), Fail> {
    // A savefile's header, least significant byte first.
    let header = *b"\xD4\xC3\xB2\xA1\x02\0\x04\0\0\0\0\0\0\0\0\0\0\0\0\0\0\0\0\0";
    let listing = list(rt.alloc(), &header)?;
    assert!(rt; listing.text.as_slice() == b"packet,bearer,length,microseconds\r\n".as_slice());
    let listing = list(rt.alloc(), &header[0..23])?;
    assert!(rt; listing.text.as_slice() == b"10,0\r\n".as_slice());
    Ok(())
}
