ghost use Rattle.std.specs.Prelude.{◌≡◌, IfOk};
ghost use Rattle.ring.specs.Queue.{ring_elements, ring_capacity};
ghost use Rattle.replay.specs.Accounts.{noted_record};
ghost use Rattle.replay.specs.Fates.{noted, in_the_end, all_in_the_end};

use crate::fates::{Decision, Fallen, Fate};
use crate::stages::MOST_PERIODS;
use machine::{Period, Report};
use ring::Ring;
use std::alloc::{AllocError, Global};

/// The records of closed periods.
pub(crate) type Records<'a> = Ring<'a, Period, { MOST_PERIODS }>;

/// Notes a fate that was decided while so many periods were closed.
pub(crate) fn note(fates: &mut Vec<Option<Fallen>>, decision: Option<Decision>, period: u32)
    ensures after { fates.new.items ≡ noted decision period fates.old.items }
{
    let Some(Decision { number, fate }) = decision else {
        return;
    };
    if let Some(noted) = fates.get_mut(number as usize) {
        *noted = Some(Fallen { fate, period });
    }
}

/// Notes the last closed period, if it is not noted yet.
pub(crate) fn record(records: &mut Records<'_>, report: Report)
    ensures after { ring_elements records.new ≡ noted_record (ring_capacity records.old) report (ring_elements records.old) }
    ensures room { ring_capacity records.new ≡ ring_capacity records.old }
{
    if let Some(period) = report.last
        && records.len() < report.closed as usize
    {
        // Not refused: there is a slot for each period.
        let _ = records.push(period);
    }
}

/// What became of the packet with this number, in the end.
fn fallen(numbered: u32, closed: u32, number: usize, fate: Option<Fallen>) -> Fallen
    ensures value { result ≡ in_the_end numbered closed number fate }
{
    let undecided = if number < numbered as usize {
        Fate::Waiting
    } else {
        Fate::Pending
    };
    fate.unwrap_or(Fallen {
        fate: undecided,
        period: closed,
    })
}

/// What became of each packet, in the end.
pub(crate) fn in_the_end(
    alloc: Global,
    report: Report,
    fates: &[Option<Fallen>],
) -> Result<Vec<Fallen>, AllocError>
    ensures value { IfOk result (λ all. all.items ≡ all_in_the_end report.counts.numbered report.closed 0 fates.now) }
{
    let mut all = Vec::new(alloc);
    for (number, fate) in fates.iter().enumerate() {
        all.push(fallen(report.counts.numbered, report.closed, number, *fate))?;
    }
    Ok(all)
}
