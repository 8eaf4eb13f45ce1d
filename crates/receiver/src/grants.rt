/// A bearer's turn.
#[derive(Clone, Copy)]
pub struct Grant {
    pub bearer: usize,
    /// How many packets it may still take.
    pub left: u32,
}
