ghost use Rattle.std.specs.Prelude.{◌≡◌, ◌≤◌, IfOk, length, nat_lt, vec_items};
ghost use Rattle.script.specs.Script.{contents_of, script_meaning};
ghost use Rattle.script.specs.Texts.{meaning};
ghost use Rattle.transcript.specs.Transcript.{Tells, reading};

use crate::failures::Failure;
use machine::Call;
use script::{Script, read, read_script};
use std::alloc::Global;

/// No text is read that has more bytes.
pub const LONGEST: usize = 1_048_576;

fn is_too_long(text: &[u8]) -> bool
    ensures value { result ≡ nat_lt LONGEST (length text.now) }
{
    text.len() > LONGEST
}

/// The calls of a text that has nothing else.
pub(crate) fn calls_of(alloc: Global, text: &[u8]) -> Result<Vec<Call>, Failure>
    ensures value { Tells vec_items (reading meaning text.now) result }
{
    if is_too_long(text) {
        return Err(Failure::TooLong);
    }
    let calls = read(alloc, text)?;
    Ok(calls)
}

/// All that a text says.
pub(crate) fn script_of(alloc: Global, text: &[u8]) -> Result<Script, Failure>
    ensures value { Tells contents_of (reading script_meaning text.now) result }
    ensures few { IfOk result (λ script. length (vec_items script.bearers) ≤ 8) }
{
    if is_too_long(text) {
        return Err(Failure::TooLong);
    }
    let script = read_script(alloc, text)?;
    Ok(script)
}
