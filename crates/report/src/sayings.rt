ghost use Rattle.std.specs.Prelude.{◌≡◌, IfOk, string_bytes};
ghost use Rattle.report.specs.Words.{several, fates, figured, refused, words};

use capture::Refusal;
use replay::{FateCounts, Figures};
use std::alloc::{AllocError, Global};

/// So many of a thing, which is named as one.
fn several(alloc: Global, count: u64, thing: &str) -> Result<String, AllocError>
    ensures value { IfOk result (λ text. string_bytes text ≡ several count thing.now) }
{
    match count {
        1 => format!(in alloc; "{count} {thing}"),
        _ => format!(in alloc; "{count} {thing}s"),
    }
}

fn fates(alloc: Global, counts: FateCounts) -> Result<String, AllocError>
    ensures value { IfOk result (λ text. string_bytes text ≡ fates counts) }
{
    let FateCounts {
        delivered,
        bearer_full,
        queue_full,
        waiting,
        pending,
    } = counts;
    format!(in alloc;
        "{delivered} delivered, {bearer_full} bearer-full, {queue_full} queue-full, {waiting} waiting, {pending} pending"
    )
}

fn figured(alloc: Global, figures: Figures) -> Result<String, AllocError>
    ensures value { IfOk result (λ text. string_bytes text ≡ figured figures) }
{
    let packets = several(alloc, figures.packets as u64, "packet")?;
    let turns = several(alloc, figures.turns, "turn")?;
    let periods = several(alloc, figures.periods.into(), "period")?;
    let fates = fates(alloc, figures.fates)?;
    format!(in alloc; "{packets}, {turns}, {periods}; {fates}")
}

fn refused(alloc: Global, refusal: Refusal) -> Result<String, AllocError>
    ensures value { IfOk result (λ text. string_bytes text ≡ refused refusal) }
{
    let number = refusal.number();
    let place = refusal.place();
    format!(in alloc; "the capture is refused with {number}, place {place}: {refusal}")
}

/// What was done, as one line without its end: the figures, or the refusal.
pub fn words(alloc: Global, outcome: Result<Figures, Refusal>) -> Result<String, AllocError>
    ensures value { IfOk result (λ text. string_bytes text ≡ words outcome) }
{
    match outcome {
        Ok(figures) => figured(alloc, figures),
        Err(refusal) => refused(alloc, refusal),
    }
}
