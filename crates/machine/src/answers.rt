use board::Packet;

/// What an accepted call answers.
#[derive(Clone, Copy, PartialEq, Eq, Debug)]
pub enum Answer {
    Configured,
    Arrived(Arrival),
    Stepped(Progress),
    Worked,
    Fetched(Packet),
    Finished,
    Discarded,
    Told(Report),
}

/// A packet's number, and whether its bearer took it; otherwise it was dropped as bearer-full.
// The packet is numbered either way, so this is no `Result`.
#[derive(Clone, Copy, PartialEq, Eq, Debug)]
pub struct Arrival {
    pub number: u32,
    pub accepted: bool,
}

/// What a step did.
#[derive(Clone, Copy, PartialEq, Eq, Debug)]
pub enum Progress {
    /// A grant began.
    Begun { bearer: usize, quota: u32 },
    /// The grant found nothing to take.
    Empty,
    /// A packet was taken, and queued or dropped as queue-full.
    // Its number is told either way, so this is no `Result`.
    Taken { number: u32, queued: bool },
    /// The grant closed, and its bearer waits for another turn.
    Rescheduled,
    /// The grant closed with nothing left to take.
    Completed,
}

/// How many packets were numbered, and what became of those that are gone.
#[derive(Clone, Copy, PartialEq, Eq, Debug)]
pub struct Counts {
    pub numbered: u32,
    pub delivered: u32,
    pub bearer_full: u32,
    pub queue_full: u32,
    pub discarded: u32,
}

/// The record of a closed period, in cycles.
#[derive(Clone, Copy, PartialEq, Eq, Debug)]
pub struct Period {
    /// What the application was offered.
    pub offered: u32,
    /// The rest of the period.
    pub network: u32,
}

/// What a receiver tells of itself.
#[derive(Clone, Copy, PartialEq, Eq, Debug)]
pub struct Report {
    pub counts: Counts,
    /// How many periods have closed.
    pub closed: u32,
    /// The record of the last one.
    pub last: Option<Period>,
}
