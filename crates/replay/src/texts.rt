ghost use Rattle.std.specs.Prelude.{◌≡◌, length, IfOk};
ghost use Rattle.ring.specs.Queue.{ring_elements};
ghost use Rattle.replay.specs.Tables.{word_of, packet_row, packets_table, period_row, periods_table};

use crate::accounts::Records;
use crate::fates::{Fallen, Fate};
use capture::Captured;
use machine::Period;
use std::alloc::{AllocError, Global};
use table::{Field, Word, push_row};

const PACKET_HEADING: [Word; 5] = [
    Word::Packet,
    Word::Bearer,
    Word::Length,
    Word::Fate,
    Word::Period,
];

const PERIOD_HEADING: [Word; 3] = [Word::Period, Word::Network, Word::Application];

fn word(fate: Fate) -> Word
    ensures value { result ≡ word_of fate }
{
    match fate {
        Fate::Delivered => Word::Delivered,
        Fate::BearerFull => Word::BearerFull,
        Fate::QueueFull => Word::QueueFull,
        Fate::Waiting => Word::Waiting,
        Fate::Pending => Word::Pending,
    }
}

/// The row of the packet with this index.
fn packet_row(index: usize, packet: Captured, fallen: Fallen) -> [Field; 5]
    ensures value { result ≡ packet_row index packet fallen }
{
    [
        index.into(),
        packet.bearer.into(),
        u64::from(packet.length).into(),
        word(fallen.fate).into(),
        u64::from(fallen.period).into(),
    ]
}

/// The table of the packets, and of what became of them.
pub(crate) fn packets_table(
    alloc: Global,
    packets: &[Captured],
    outcomes: &[Fallen],
) -> Result<Vec<u8>, AllocError>
    requires outcomes { length outcomes.now ≡ length packets.now }
    ensures value { IfOk result (λ text. text.items ≡ packets_table packets.now outcomes.now) }
{
    let mut text = Vec::new(alloc);
    push_row(&mut text, &PACKET_HEADING.map(Field::from))?;
    for (index, packet) in packets.iter().enumerate() {
        push_row(&mut text, &packet_row(index, *packet, outcomes[index]))?;
    }
    Ok(text)
}

/// The row of the closed period with this index.
fn period_row(index: usize, period: Period) -> [Field; 3]
    ensures value { result ≡ period_row index period }
{
    [
        index.into(),
        u64::from(period.network).into(),
        u64::from(period.offered).into(),
    ]
}

/// The table of the closed periods.
pub(crate) fn periods_table(alloc: Global, records: &Records<'_>) -> Result<Vec<u8>, AllocError>
    ensures value { IfOk result (λ text. text.items ≡ periods_table (ring_elements records.now)) }
{
    let mut text = Vec::new(alloc);
    push_row(&mut text, &PERIOD_HEADING.map(Field::from))?;
    for index in 0..records.len() {
        let record = records.get(index).unwrap();
        push_row(&mut text, &period_row(index, record))?;
    }
    Ok(text)
}
