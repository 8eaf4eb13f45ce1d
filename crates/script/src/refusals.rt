ghost use Rattle.std.specs.Prelude.{◌≡◌, IfOk, string_bytes};
ghost use Rattle.script.specs.Refusals.{rule, refusal_text, fault_text, unread_text};

use crate::faults::{Fault, Unread};
use machine::Refusal;
use std::alloc::{AllocError, Global};

/// What is said of a finish or a discard where no receipt of its number is held, so that no call was made.
pub const NO_RECEIPT: &str = "no receipt";

/// The rule that a refused call breaks.
fn rule(refusal: Refusal) -> &'static str
    ensures value { result.now ≡ rule refusal }
{
    match refusal {
        Refusal::BadSetting(_) => "the setting is outside its range",
        Refusal::NoShare => "the limit and the grant bound together are above the period",
        Refusal::NotShown(_) => "the board does not show this bearer",
        Refusal::BadLength(_) => "the length is not 1 to 384",
        Refusal::BadWork => "the work is of no cycles, or of more than a period",
        Refusal::NotConfigured => "the receiver is not configured",
        Refusal::AlreadyConfigured => "the receiver is configured already",
        Refusal::PacketWaits(_) => "a packet waits in this bearer",
        Refusal::Retired => "the receiver is retired",
        Refusal::LimitUsed => "the bearers have used their limit in this period",
        Refusal::OnHold => "the hold has not ended",
        Refusal::NoneListed => "the poll list is empty",
        Refusal::PastPeriod(_) => "the work goes past the period's end, this many cycles away",
        Refusal::NoneQueued => "the queue is empty",
        Refusal::AllOut => "sixteen packets are out",
        Refusal::NotOut => "the receipt's number is not out",
    }
}

/// What was refused, as one line without its end: number, place, and the rule.
pub fn refusal(alloc: Global, refusal: Refusal) -> Result<String, AllocError>
    ensures value { IfOk result (λ text. string_bytes text ≡ refusal_text refusal) }
{
    let number = refusal.number();
    let place = refusal.place();
    let rule = rule(refusal);
    format!(in alloc; "refused {number} place {place}: {rule}")
}

/// What is wrong with a line.
fn fault_text(alloc: Global, fault: Fault) -> Result<String, AllocError>
    ensures value { IfOk result (λ text. string_bytes text ≡ fault_text fault) }
{
    match fault {
        Fault::UnknownCall => String::from_str(alloc, "no call has this name"),
        Fault::OutOfPlace => String::from_str(alloc, "a call stands before this line"),
        Fault::UnknownBearerKind => String::from_str(alloc, "no kind of bearer has this name"),
        Fault::UnknownPolicyKind => String::from_str(alloc, "no kind of policy has this name"),
        Fault::WrongCount { wanted } => {
            format!(in alloc; "the count of numbers is not {wanted}")
        }
        Fault::NotANumber => String::from_str(alloc, "a number is not digits alone"),
        Fault::TooLarge => String::from_str(alloc, "a number is too large"),
        Fault::NinthBearer => {
            String::from_str(alloc, "a board shows no more than eight bearers")
        }
        Fault::SecondPolicy => String::from_str(alloc, "the policy is said already"),
    }
}

/// What is said of a line that cannot be read, as one line without its end: its number, and what is wrong.
pub fn unread(alloc: Global, unread: Unread) -> Result<String, AllocError>
    ensures value { IfOk result (λ text. string_bytes text ≡ unread_text unread) }
{
    let line = unread.line;
    let fault = fault_text(alloc, unread.fault)?;
    format!(in alloc; "unread {line}: {fault}")
}
