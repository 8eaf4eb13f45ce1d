ghost use Rattle.std.specs.Prelude.{◌≡◌};
ghost use Rattle.machine.specs.declared.answers.Answer.TheVariants.{Arrived, Stepped};
ghost use Rattle.replay.specs.Fates.{dropped};

use machine::{Arrival, Progress};

/// What became of a packet.
#[derive(Clone, Copy, PartialEq, Eq, Debug)]
pub enum Fate {
    Delivered,
    BearerFull,
    QueueFull,
    /// In a bearer, in the queue or out when the replay stopped.
    Waiting,
    /// It had not arrived when the replay stopped.
    Pending,
}

/// A fate, and how many periods were closed when it fell.
#[derive(Clone, Copy, PartialEq, Eq, Debug)]
pub struct Fallen {
    pub fate: Fate,
    pub period: u32,
}

/// The packet whose fate a call decided.
#[derive(Clone, Copy, PartialEq, Eq, Debug)]
pub(crate) struct Decision {
    pub number: u32,
    pub fate: Fate,
}

impl Decision {
    /// A packet that no bearer took is dropped.
    pub(crate) fn of_arrival(arrival: Arrival) -> Option<Decision>
        ensures value { result ≡ dropped (Arrived arrival) }
    {
        let dropped = Decision {
            number: arrival.number,
            fate: Fate::BearerFull,
        };
        (!arrival.accepted).then_some(dropped)
    }

    /// A packet that was taken and not queued is dropped.
    pub(crate) fn of_step(progress: Progress) -> Option<Decision>
        ensures value { result ≡ dropped (Stepped progress) }
    {
        match progress {
            Progress::Taken {
                number,
                queued: false,
            } => Some(Decision {
                number,
                fate: Fate::QueueFull,
            }),
            _ => None,
        }
    }
}
