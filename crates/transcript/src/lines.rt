ghost use Rattle.std.specs.Prelude.{◌≡◌, IfOk, string_bytes};
ghost use Rattle.transcript.specs.Transcript.{line_of, lines_of};

use conduct::Reply;
use script::{NO_RECEIPT, answer, refusal};
use std::alloc::{AllocError, Global};

/// What is said of a reply, as one line without its end.
fn line(alloc: Global, reply: Reply) -> Result<String, AllocError>
    ensures value { IfOk result (λ text. string_bytes text ≡ line_of reply) }
{
    match reply {
        Reply::Accepted(said) => answer(alloc, said),
        Reply::Refused(refused) => refusal(alloc, refused),
        Reply::NoReceipt => String::from_str(alloc, NO_RECEIPT),
    }
}

/// A line for each reply.
pub(crate) fn lines(alloc: Global, replies: &[Reply]) -> Result<String, AllocError>
    ensures value { IfOk result (λ text. string_bytes text ≡ lines_of replies.now) }
{
    let mut text = String::new(alloc);
    for reply in replies {
        let line = line(alloc, *reply)?;
        text.push_str(&line)?;
        text.push('\n')?;
    }
    Ok(text)
}
