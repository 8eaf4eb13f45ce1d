ghost use Rattle.std.specs.Prelude.{◌≡◌, IfOk, string_bytes};
ghost use Rattle.script.specs.Answers.{arrival_text, progress_text, counts_text, last_text, report_text, answer_text};

use machine::{Answer, Arrival, Counts, Period, Progress, Report};
use std::alloc::{AllocError, Global};

fn arrival_text(alloc: Global, arrival: Arrival) -> Result<String, AllocError>
    ensures value { IfOk result (λ text. string_bytes text ≡ arrival_text arrival) }
{
    let number = arrival.number;
    if arrival.accepted {
        format!(in alloc; "arrived {number} accepted")
    } else {
        format!(in alloc; "arrived {number} dropped bearer-full")
    }
}

fn progress_text(alloc: Global, progress: Progress) -> Result<String, AllocError>
    ensures value { IfOk result (λ text. string_bytes text ≡ progress_text progress) }
{
    match progress {
        Progress::Begun { bearer, quota } => format!(in alloc; "begun {bearer} quota {quota}"),
        Progress::Empty => String::from_str(alloc, "empty"),
        Progress::Taken { number, queued } => {
            if queued {
                format!(in alloc; "taken {number} queued")
            } else {
                format!(in alloc; "taken {number} dropped queue-full")
            }
        }
        Progress::Rescheduled => String::from_str(alloc, "rescheduled"),
        Progress::Completed => String::from_str(alloc, "completed"),
    }
}

fn counts_text(alloc: Global, counts: Counts) -> Result<String, AllocError>
    ensures value { IfOk result (λ text. string_bytes text ≡ counts_text counts) }
{
    let Counts {
        numbered,
        delivered,
        bearer_full,
        queue_full,
        discarded,
    } = counts;
    format!(in alloc;
        "numbered {numbered} delivered {delivered} bearer-full {bearer_full} queue-full {queue_full} discarded {discarded}"
    )
}

fn last_text(alloc: Global, period: Option<Period>) -> Result<String, AllocError>
    ensures value { IfOk result (λ text. string_bytes text ≡ last_text period) }
{
    match period {
        Some(Period { offered, network }) => format!(in alloc;
            " offered {offered} network {network}"
        ),
        None => Ok(String::new(alloc)),
    }
}

fn report_text(alloc: Global, report: Report) -> Result<String, AllocError>
    ensures value { IfOk result (λ text. string_bytes text ≡ report_text report) }
{
    let counts = counts_text(alloc, report.counts)?;
    let closed = report.closed;
    let last = last_text(alloc, report.last)?;
    format!(in alloc; "told {counts} closed {closed}{last}")
}

/// What was answered, as one line without its end.
pub fn answer(alloc: Global, answer: Answer) -> Result<String, AllocError>
    ensures value { IfOk result (λ text. string_bytes text ≡ answer_text answer) }
{
    match answer {
        Answer::Configured => String::from_str(alloc, "configured"),
        Answer::Arrived(arrival) => arrival_text(alloc, arrival),
        Answer::Stepped(progress) => progress_text(alloc, progress),
        Answer::Worked => String::from_str(alloc, "worked"),
        Answer::Fetched(packet) => {
            let number = packet.number;
            let length = packet.length;
            let tag = packet.tag;
            format!(in alloc; "fetched {number} length {length} tag {tag}")
        }
        Answer::Finished => String::from_str(alloc, "finished"),
        Answer::Discarded => String::from_str(alloc, "discarded"),
        Answer::Told(report) => report_text(alloc, report),
    }
}
