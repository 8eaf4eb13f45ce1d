/// The six settings as a host gives them: plain numbers, in range or not.
#[derive(Clone, Copy, PartialEq, Eq, Debug)]
pub struct RawSettings {
    /// P, the period in cycles.
    pub period: u64,
    /// N, the bearers' limit in a period, in cycles.
    pub limit: u64,
    /// S, the queue's size.
    pub size: u64,
    /// H, the queue's high mark.
    pub high: u64,
    /// L, the queue's low mark.
    pub low: u64,
    /// T, the hold in periods.
    pub hold: u64,
}

/// One of the six settings, by its place in the order P, N, S, H, L, T.
#[derive(Clone, Copy, PartialEq, Eq, Debug)]
pub enum Setting {
    Period = 1,
    Limit,
    Size,
    High,
    Low,
    Hold,
}

/// A call of a receiver. `Finish` and `Discard` name the number of the receipt that they spend.
#[derive(Clone, Copy, PartialEq, Eq, Debug)]
pub enum Call {
    Configure(RawSettings),
    Arrive {
        bearer: usize,
        length: usize,
        tag: u32,
    },
    Step,
    Work(u64),
    Fetch,
    Finish(u32),
    Discard(u32),
    Tell,
}
