ghost use Rattle.std.specs.Prelude.{◌≡◌, IfOk};
ghost use Rattle.capture.specs.Captures.{first_stamp};
ghost use Rattle.table.specs.Text.{table};
ghost use Rattle.listing.specs.Listing.{row_of_record, records, refusal_row};

use capture::{Captured, Refusal};
use std::alloc::{AllocError, Global};
use table::{Field, Word, push_row};

const HEADING: [Word; 4] = [Word::Packet, Word::Bearer, Word::Length, Word::Microseconds];

/// The row of the packet with this index; `first` is the first packet's timestamp.
fn record_row(index: usize, first: u64, packet: Captured) -> [Field; 4]
    ensures value { result ≡ row_of_record index first packet }
{
    [
        index.into(),
        packet.bearer.into(),
        u64::from(packet.length).into(),
        packet.microseconds.saturating_sub(first).into(),
    ]
}

/// The timestamp that a table counts from: the first packet's.
fn first_stamp(packets: &[Captured]) -> u64
    ensures value { result ≡ first_stamp packets.now }
{
    packets.first().map_or(0, |packet| packet.microseconds)
}

/// The table of the packets.
pub(crate) fn records_table(alloc: Global, packets: &[Captured]) -> Result<Vec<u8>, AllocError>
    ensures value { IfOk result (λ text. text.items ≡ table (records packets.now)) }
{
    let first = first_stamp(packets);
    let mut text = Vec::new(alloc);
    push_row(&mut text, &HEADING.map(Field::from))?;
    for (index, packet) in packets.iter().enumerate() {
        push_row(&mut text, &record_row(index, first, *packet))?;
    }
    Ok(text)
}

/// What is printed of a capture that is refused: the refusal's number and place, as a row.
pub fn refusal_row(alloc: Global, refusal: Refusal) -> Result<Vec<u8>, AllocError>
    ensures value { IfOk result (λ text. text.items ≡ refusal_row refusal) }
{
    let mut text = Vec::new(alloc);
    let fields = [u64::from(refusal.number()).into(), refusal.place().into()];
    push_row(&mut text, &fields)?;
    Ok(text)
}
