ghost use Rattle.std.specs.Prelude.{◌≡◌, ℕ, List, All, Ok, vec_items};
ghost use Rattle.machine.specs.declared.calls.Call.{Call};
ghost use Rattle.script.specs.Readings.{Reads};
ghost use Rattle.script.specs.Script.{Contents, contents_of, script_meaning};
ghost use Rattle.script.specs.Texts.{meaning};
ghost use Rattle.script.specs.Writing.{FitsTypes, IsWritable, calls_text, script_text};

use crate::faults::{ReadError, Unread};
use crate::keywords::call_of;
use crate::scripts::Script;
use crate::words::words;
use machine::Call;
use std::alloc::Global;

/// The calls that a text of calls alone asks for, in order, or the first line that cannot be read. It answers what the text means,
/// and so, of a text that was written call by call, the calls that were written.
pub fn read(alloc: Global, text: &[u8]) -> Result<Vec<Call>, ReadError>
    ensures value { Reads vec_items (meaning text.now) result }
    ensures faithful { (cs : List Call) → All FitsTypes cs → text.now ≡ calls_text cs → Reads vec_items (Ok cs) result }
{
    let mut calls = Vec::new(alloc);
    for (index, line) in text.split(|byte| *byte == b'\n').enumerate() {
        let call = match call_of(&words(alloc, line)?) {
            Ok(call) => call,
            Err(fault) => {
                let line = index + 1;
                return Err(ReadError::Unread(Unread { line, fault }));
            }
        };
        if let Some(call) = call {
            calls.push(call)?;
        }
    }
    Ok(calls)
}

/// All that a text says of the board, of the policy and of calls, or the first line that cannot be read. It answers what
/// the text means, and so, of a text that was written line by line, what was written, behind whichever of the bearers
/// the policy stands.
pub fn read_script(alloc: Global, text: &[u8]) -> Result<Script, ReadError>
    ensures value { Reads contents_of (script_meaning text.now) result }
    ensures faithful { (n : ℕ) (script : Contents) → IsWritable script → text.now ≡ script_text n script → Reads contents_of (Ok script) result }
{
    let mut script = Script::new(alloc);
    for (index, line) in text.split(|byte| *byte == b'\n').enumerate() {
        let statement = match script.statement(&words(alloc, line)?) {
            Ok(statement) => statement,
            Err(fault) => {
                return Err(ReadError::Unread(Unread {
                    line: index + 1,
                    fault,
                }));
            }
        };
        if let Some(statement) = statement {
            script.add(statement)?;
        }
    }
    Ok(script)
}
