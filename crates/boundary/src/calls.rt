ghost use Rattle.std.specs.Prelude.{◌≡◌, ◌≢◌, Ok, Err, IfErr, IfOk, false, true, string_bytes};
ghost use Rattle.setup.specs.Setups.{is_board};
ghost use Rattle.boundary.specs.Calls.{calls_answer, calls_end, end, failure_end, is_known, memory_left};

use crate::setups::{RawBearer, RawPolicy, policy, setups};
use crate::statuses::{NO_BOARD, NO_MEMORY, TOO_LONG, TOO_SMALL, UNKNOWN_KIND, UNREAD, WRITTEN};
use board::MOST_BEARERS;
use std::alloc::Global;
use table::put;
use transcript::{Failure, run_on};

/// How the calls of a text ended.
#[repr(C)]
#[derive(Clone, Copy)]
pub struct CallsEnd {
    pub status: u32,
    /// How many bytes the answers have, or the number of the line that cannot be read; otherwise 0.
    pub figure: usize,
}

impl CallsEnd {
    fn new(status: u32, figure: usize) -> CallsEnd
        ensures value { result ≡ end status figure }
    {
        CallsEnd { status, figure }
    }
}

impl From<Failure> for CallsEnd {
    ghost from_gives = { λ failure r. r ≡ failure_end failure };

    fn from(failure: Failure) -> CallsEnd {
        match failure {
            Failure::Unread(unread) => CallsEnd::new(UNREAD, unread.line),
            Failure::TooLong => CallsEnd::new(TOO_LONG, 0),
            Failure::NoMemory => CallsEnd::new(NO_MEMORY, 0),
        }
    }
}

/// Makes the calls of a text on a new receiver, and answers a line for each, or how the calls end without.
fn lines(
    alloc: Global,
    bearers: &[RawBearer],
    raw_policy: RawPolicy,
    text: &[u8],
) -> Result<String, CallsEnd>
    ensures no_board { is_board bearers.now ≡ false → result ≡ Err (end NO_BOARD 0) }
    ensures unknown_kind { is_board bearers.now ≡ true → is_known bearers.now raw_policy ≡ false → result ≡ Err (end UNKNOWN_KIND 0) }
    ensures ok { IfOk result (λ lines. calls_answer bearers.now raw_policy text.now ≡ Ok (string_bytes lines)) }
    ensures err { IfErr result (λ e. e.status ≢ NO_MEMORY → calls_answer bearers.now raw_policy text.now ≡ Err e) }
    ensures no_memory { IfErr result (λ e. e.status ≡ NO_MEMORY → e.figure ≡ 0) }
{
    if bearers.is_empty() || bearers.len() > MOST_BEARERS {
        return Err(CallsEnd::new(NO_BOARD, 0));
    }
    let (Some(setups), Some(policy)) = (setups(bearers), policy(raw_policy)) else {
        return Err(CallsEnd::new(UNKNOWN_KIND, 0));
    };
    let lines = run_on(alloc, &setups[..bearers.len()], policy, text).unwrap()?;
    Ok(lines)
}

/// Makes the calls of a text on a new receiver, and writes a line for each into memory that is lent for them.
#[unsafe(no_mangle)]
pub extern "C" fn zuphlos_calls(
    alloc: Global,
    bearers: &[RawBearer],
    policy: RawPolicy,
    text: &[u8],
    answers: &mut [u8],
) -> CallsEnd
    ensures value { result.status ≢ NO_MEMORY → result ≡ calls_end (calls_answer bearers.now policy text.now) answers.old }
    ensures no_board { is_board bearers.now ≡ false → result ≡ end NO_BOARD 0 }
    ensures unknown_kind { is_board bearers.now ≡ true → is_known bearers.now policy ≡ false → result ≡ end UNKNOWN_KIND 0 }
    ensures no_memory { result.status ≡ NO_MEMORY → result.figure ≡ 0 }
    ensures written { result.status ≡ WRITTEN → answers.new ≡ memory_left (calls_answer bearers.now policy text.now) answers.old }
    ensures same { result.status ≢ WRITTEN → answers.new ≡ answers.old }
{
    match lines(alloc, bearers, policy, text) {
        Ok(lines) => match put(answers, 0, lines.as_bytes()) {
            Ok(len) => CallsEnd::new(WRITTEN, len),
            Err(small) => CallsEnd::new(TOO_SMALL, small.need),
        },
        Err(end) => end,
    }
}
