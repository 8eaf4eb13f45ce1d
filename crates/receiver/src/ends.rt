/// What becomes of a packet when its receipt is spent.
#[derive(Clone, Copy)]
pub(crate) enum End {
    Delivered,
    Discarded,
}
