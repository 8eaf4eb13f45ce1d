ghost use Rattle.std.specs.Prelude.{◌≡◌, ◌≤◌, map, IfOk, IfErr, OnOk, vec_capacity};
ghost use Rattle.machine.specs.Laws.{Lawful};
ghost use Rattle.machine.specs.Ledger.{ledger};
ghost use Rattle.machine.specs.State.{put_up};
ghost use Rattle.receiver.specs.declared.receipts.Receipt.{Receipt};
ghost use Rattle.conduct.specs.Lists.{Keeps, after_list, after_one, conducted, receipts_of, replies_to, reply_to};

use crate::receipts::take;
use crate::replies::Reply;
use board::Board;
use machine::{Answer, Call};
use policy::Policy;
use receiver::{MOST_OUT, Receipt, Receiver};
use std::alloc::Global;

/// What a list of calls left.
pub struct Conducted<B: Board, P: Policy> {
    /// The reply to each call of the list.
    pub replies: Vec<Reply>,
    pub receiver: Receiver<B, P>,
    /// The receipts of what is out, in the order of the fetches.
    pub receipts: Vec<Receipt>,
}

/// There was no memory, and no call was made.
#[derive(Drop)]
pub struct NoMemory<B: Board, P: Policy> {
    pub board: B,
    pub policy: P,
}

/// Makes one call of a list, with the receipts that are held.
#[tactic(auto, using(crate::proofs::Out::leaving))]
fn make<B: Board, P: Policy>(
    receiver: &mut Receiver<B, P>,
    receipts: &mut Vec<Receipt>,
    call: Call,
) -> Reply
    requires held { receipts.old.items ≡ receipts_of receiver.old.state }
    requires room { MOST_OUT ≤ vec_capacity receipts.old }
    ensures value { result ≡ reply_to (P.meaning receiver.old.policy) call receiver.old.state }
    ensures after { receiver.new ≡ record receiver.old { state = after_one (P.meaning receiver.old.policy) call receiver.old.state } }
    ensures held { receipts.new.items ≡ receipts_of receiver.new.state }
    ensures room { MOST_OUT ≤ vec_capacity receipts.new }
{
    match call {
        Call::Configure(settings) => {
            Reply::from(receiver.configure(settings).map(|()| Answer::Configured))
        }
        Call::Arrive {
            bearer,
            length,
            tag,
        } => Reply::from(receiver.arrive(bearer, length, tag).map(Answer::Arrived)),
        Call::Step => Reply::from(receiver.step().map(Answer::Stepped)),
        Call::Work(cycles) => Reply::from(receiver.work(cycles).map(|()| Answer::Worked)),
        Call::Fetch => match receiver.fetch() {
            Ok((packet, receipt)) => {
                receipts.push_reserved(receipt);
                Reply::Accepted(Answer::Fetched(packet))
            }
            Err(refusal) => Reply::Refused(refusal),
        },
        // Where a receipt is held, its number is out, so that neither call is refused.
        Call::Finish(number) => match take(receipts, number) {
            Some(receipt) => {
                receiver.finish(receipt).unwrap();
                Reply::Accepted(Answer::Finished)
            }
            None => Reply::NoReceipt,
        },
        Call::Discard(number) => match take(receipts, number) {
            Some(receipt) => {
                receiver.discard(receipt).unwrap();
                Reply::Accepted(Answer::Discarded)
            }
            None => Reply::NoReceipt,
        },
        Call::Tell => Reply::Accepted(Answer::Told(receiver.tell())),
    }
}

/// Makes a list of calls on a receiver that it puts up over a board and a policy.
pub fn conduct<B: Board, P: Policy>(
    alloc: Global,
    board: B,
    policy: P,
    calls: &[Call],
) -> Result<Conducted<B, P>, NoMemory<B, P>>
    ensures replies { IfOk result (λ d. d.replies.items ≡ replies_to (P.meaning policy) (put_up (B.bearers board)) calls.now) }
    ensures receiver { IfOk result (λ d. d.receiver ≡ record { policy = policy; state = after_list (P.meaning policy) (put_up (B.bearers board)) calls.now }) }
    ensures receipts { IfOk result (λ d. d.receipts.items ≡ receipts_of d.receiver.state) }
    ensures out { IfOk result (λ d. map (λ (r : Receipt). r.number) d.receipts.items ≡ (ledger (B.bearers board) (conducted (P.meaning policy) (put_up (B.bearers board)) calls.now)).columns.out) }
    ensures no_memory { IfErr result (λ e. e ≡ record { board = board; policy = policy }) }
    ensures laws { OnOk result (Keeps Lawful (P.meaning policy) (B.bearers board) calls.now) }
{
    let Ok(mut replies) = Vec::with_capacity(alloc, calls.len()) else {
        return Err(NoMemory { board, policy });
    };
    let Ok(mut receipts) = Vec::with_capacity(alloc, MOST_OUT) else {
        return Err(NoMemory { board, policy });
    };
    let mut receiver = Receiver::new(board, policy);
    for call in calls {
        replies.push_reserved(make(&mut receiver, &mut receipts, *call));
    }
    Ok(Conducted {
        replies,
        receiver,
        receipts,
    })
}
