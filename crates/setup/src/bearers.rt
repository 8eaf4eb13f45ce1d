use board::{Board, MailboxBearer, Packet, RingBearer};

/// A board of one bearer, of any kind.
#[derive(Drop)]
pub enum AnyBearer<'a> {
    Ring(RingBearer<'a>),
    Mailbox(MailboxBearer),
}

impl<'a> Board for AnyBearer<'a> {
    ghost use Rattle.setup.specs.Boards.{any_bearer};

    ghost bearers = { any_bearer };

    fn size(&self) -> usize {
        match self {
            AnyBearer::Ring(board) => board.size(),
            AnyBearer::Mailbox(board) => board.size(),
        }
    }

    fn depth(&self, bearer: usize) -> usize {
        match self {
            AnyBearer::Ring(board) => board.depth(bearer),
            AnyBearer::Mailbox(board) => board.depth(bearer),
        }
    }

    fn cost(&self, bearer: usize) -> u32 {
        match self {
            AnyBearer::Ring(board) => board.cost(bearer),
            AnyBearer::Mailbox(board) => board.cost(bearer),
        }
    }

    fn waiting(&self, bearer: usize) -> usize {
        match self {
            AnyBearer::Ring(board) => board.waiting(bearer),
            AnyBearer::Mailbox(board) => board.waiting(bearer),
        }
    }

    fn signal(&self, bearer: usize) -> bool {
        match self {
            AnyBearer::Ring(board) => board.signal(bearer),
            AnyBearer::Mailbox(board) => board.signal(bearer),
        }
    }

    fn offer(&mut self, bearer: usize, packet: Packet) -> bool {
        match self {
            AnyBearer::Ring(board) => board.offer(bearer, packet),
            AnyBearer::Mailbox(board) => board.offer(bearer, packet),
        }
    }

    fn take(&mut self, bearer: usize) -> Option<Packet> {
        match self {
            AnyBearer::Ring(board) => board.take(bearer),
            AnyBearer::Mailbox(board) => board.take(bearer),
        }
    }

    fn arm(&mut self, bearer: usize) {
        match self {
            AnyBearer::Ring(board) => board.arm(bearer),
            AnyBearer::Mailbox(board) => board.arm(bearer),
        }
    }

    fn disarm(&mut self, bearer: usize) {
        match self {
            AnyBearer::Ring(board) => board.disarm(bearer),
            AnyBearer::Mailbox(board) => board.disarm(bearer),
        }
    }
}
