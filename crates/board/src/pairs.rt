ghost use Rattle.std.specs.Prelude.{◌≡◌, IfNone};
ghost use Rattle.board.specs.Pairs.{both, Stands, PassedOn};

use crate::boards::{Board, MOST_BEARERS};
use crate::packets::Packet;

/// Two boards as one: the first's bearers and then the second's, eight at most.
#[derive(Drop)]
pub struct Pair<A, B>(pub A, pub B);

/// The board of a pair that shows a bearer, and the bearer's number there.
enum Side {
    First(usize),
    Second(usize),
}

impl<A: Board, B: Board> Pair<A, B> {
    fn side(&self, bearer: usize) -> Option<Side>
        ensures value { Stands (A.bearers self.now.0) (B.bearers self.now.1) bearer result }
    {
        let first = self.0.size();
        if bearer < first {
            Some(Side::First(bearer))
        } else if bearer < MOST_BEARERS {
            Some(Side::Second(bearer - first))
        } else {
            None
        }
    }

    /// Calls the function of the board that shows the bearer, with the bearer's number there.
    fn call<R, F: FnOnce(&A, usize) -> R, G: FnOnce(&B, usize) -> R>(
        &self,
        bearer: usize,
        first: F,
        second: G,
    ) -> Option<R>
        requires first { F.IsAlwaysCallable first }
        requires second { G.IsAlwaysCallable second }
        ensures value { (side : _) × Stands (A.bearers self.now.0) (B.bearers self.now.1) bearer side × PassedOn
            (λ b r. (board : _) × (board.now ≡ self.now.0) × F.post first board b r)
            (λ b r. (board : _) × (board.now ≡ self.now.1) × G.post second board b r)
            result side }
    {
        match self.side(bearer)? {
            Side::First(b) => Some(first(&self.0, b)),
            Side::Second(b) => Some(second(&self.1, b)),
        }
    }

    /// As `call`, of functions that may change their board.
    // Not one function with `call`: of a `&mut` at a type parameter, a contract cannot say what a call left there.
    fn call_mut<R, F: FnOnce(&mut A, usize) -> R, G: FnOnce(&mut B, usize) -> R>(
        &mut self,
        bearer: usize,
        first: F,
        second: G,
    ) -> Option<R>
        requires first { F.IsAlwaysCallable first }
        requires second { G.IsAlwaysCallable second }
        ensures value { (side : _) × Stands (A.bearers self.old.0) (B.bearers self.old.1) bearer side × PassedOn
            (λ b r. (board : _) × (left : _) × (board.now ≡ self.old.0) × F.post first board b r left × (self.new ≡ (left.now, self.old.1)))
            (λ b r. (board : _) × (left : _) × (board.now ≡ self.old.1) × G.post second board b r left × (self.new ≡ (self.old.0, left.now)))
            result side }
        ensures kept { IfNone result (self.new ≡ self.old) }
    {
        match self.side(bearer)? {
            Side::First(b) => Some(first(&mut self.0, b)),
            Side::Second(b) => Some(second(&mut self.1, b)),
        }
    }
}

impl<A: Board, B: Board> Board for Pair<A, B> {
    ghost bearers = { λ x. both (A.bearers x.0) (B.bearers x.1) };

    fn size(&self) -> usize {
        MOST_BEARERS.min(self.0.size() + self.1.size())
    }

    fn depth(&self, bearer: usize) -> usize {
        self.call(bearer, A::depth, B::depth).unwrap_or(0)
    }

    fn cost(&self, bearer: usize) -> u32 {
        self.call(bearer, A::cost, B::cost).unwrap_or(0)
    }

    fn waiting(&self, bearer: usize) -> usize {
        self.call(bearer, A::waiting, B::waiting).unwrap_or(0)
    }

    fn signal(&self, bearer: usize) -> bool {
        self.call(bearer, A::signal, B::signal).unwrap_or(false)
    }

    fn offer(&mut self, bearer: usize, packet: Packet) -> bool {
        self.call_mut(
            bearer,
            |first, b| first.offer(b, packet),
            |second, b| second.offer(b, packet),
        )
        .unwrap_or(false)
    }

    fn take(&mut self, bearer: usize) -> Option<Packet> {
        self.call_mut(bearer, A::take, B::take)?
    }

    fn arm(&mut self, bearer: usize) {
        self.call_mut(bearer, A::arm, B::arm);
    }

    fn disarm(&mut self, bearer: usize) {
        self.call_mut(bearer, A::disarm, B::disarm);
    }
}
