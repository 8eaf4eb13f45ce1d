ghost use Rattle.std.specs.Prelude.{◌≡◌, ◌&&◌, ◌||◌, true, false};
ghost use Rattle.board.specs.Signals.{is_armed, is_up};

/// Whether a bearer is armed and its signal up. No bearer has its signal up while it is disarmed.
#[derive(Clone, Copy, PartialEq, Eq, Debug)]
pub(crate) enum Signal {
    Disarmed,
    Down,
    Up,
}

impl Signal {
    /// After a packet came, which raises the signal of an armed bearer.
    pub(crate) fn after_packet(self) -> Signal
        ensures armed { is_armed result ≡ is_armed self }
        ensures up { is_up result ≡ (is_up self || is_armed self) }
    {
        match self {
            Signal::Disarmed => Signal::Disarmed,
            Signal::Down | Signal::Up => Signal::Up,
        }
    }

    /// After a packet was taken. The signal goes down if none is left.
    pub(crate) fn after_take(self, any_left: bool) -> Signal
        ensures armed { is_armed result ≡ is_armed self }
        ensures up { is_up result ≡ (is_up self && any_left) }
    {
        match self {
            Signal::Up if !any_left => Signal::Down,
            _ => self,
        }
    }

    /// After arming, which leaves an armed bearer as it is.
    pub(crate) fn armed(self, raises: bool) -> Signal
        ensures armed { is_armed result ≡ true }
        ensures fresh { is_armed self ≡ false → is_up result ≡ raises }
        ensures same { is_armed self ≡ true → result ≡ self }
    {
        match self {
            Signal::Disarmed if raises => Signal::Up,
            Signal::Disarmed => Signal::Down,
            Signal::Down | Signal::Up => self,
        }
    }
}
