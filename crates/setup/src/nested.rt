use crate::bearers::AnyBearer;
use board::{Board, Packet, Pair};

/// A bearer alone, or before the others of a board.
#[derive(Drop)]
pub enum Before<'a, B> {
    Alone(AnyBearer<'a>),
    Others(Pair<AnyBearer<'a>, B>),
}

impl<'a, B: Board> Board for Before<'a, B> {
    ghost use Rattle.setup.specs.Boards.{nested_bearers};

    ghost bearers = { λ x. nested_bearers B.bearers x };

    fn size(&self) -> usize {
        match self {
            Before::Alone(board) => board.size(),
            Before::Others(board) => board.size(),
        }
    }

    fn depth(&self, bearer: usize) -> usize {
        match self {
            Before::Alone(board) => board.depth(bearer),
            Before::Others(board) => board.depth(bearer),
        }
    }

    fn cost(&self, bearer: usize) -> u32 {
        match self {
            Before::Alone(board) => board.cost(bearer),
            Before::Others(board) => board.cost(bearer),
        }
    }

    fn waiting(&self, bearer: usize) -> usize {
        match self {
            Before::Alone(board) => board.waiting(bearer),
            Before::Others(board) => board.waiting(bearer),
        }
    }

    fn signal(&self, bearer: usize) -> bool {
        match self {
            Before::Alone(board) => board.signal(bearer),
            Before::Others(board) => board.signal(bearer),
        }
    }

    fn offer(&mut self, bearer: usize, packet: Packet) -> bool {
        match self {
            Before::Alone(board) => board.offer(bearer, packet),
            Before::Others(board) => board.offer(bearer, packet),
        }
    }

    fn take(&mut self, bearer: usize) -> Option<Packet> {
        match self {
            Before::Alone(board) => board.take(bearer),
            Before::Others(board) => board.take(bearer),
        }
    }

    fn arm(&mut self, bearer: usize) {
        match self {
            Before::Alone(board) => board.arm(bearer),
            Before::Others(board) => board.arm(bearer),
        }
    }

    fn disarm(&mut self, bearer: usize) {
        match self {
            Before::Alone(board) => board.disarm(bearer),
            Before::Others(board) => board.disarm(bearer),
        }
    }
}
