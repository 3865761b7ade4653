//! From what a command gives to its reply.

ghost use Rattle.std.specs.Prelude.{◌≡◌, option_map, string_bytes, Some, IfOk};
ghost use Rattle.host_runs.specs.Answer.{stored_answer, text_answer};
ghost use Rattle.host_runs.specs.Views.{given_by, reply_view};
ghost use Rattle.pace_tool.specs.Told.{itself, written_view};

use host_runs::Reply;
use scale_base::{NoMemory, Stop};
use std::alloc::Global;

/// A text to print, or the refusal.
pub fn text_reply(alloc: Global, given: Result<String, Stop>) -> Result<Reply, NoMemory>
    ensures { IfOk result (λ reply. option_map (text_answer itself) (given_by string_bytes given) ≡ Some (reply_view reply)) }
{
    match given {
        Ok(text) => Ok(Reply {
            stores: Vec::new(alloc),
            text,
            status: 0,
        }),
        Err(Stop::Refused(refusal)) => Reply::refused(alloc, &refusal),
        Err(Stop::Memory) => Err(NoMemory),
    }
}

/// A file to store under a name and a text to print, or the refusal.
pub fn stored_reply(
    alloc: Global,
    out: &str,
    given: Result<(Vec<u8>, String), Stop>,
) -> Result<Reply, NoMemory>
    ensures { IfOk result (λ reply. option_map (stored_answer itself out.now) (given_by written_view given) ≡ Some (reply_view reply)) }
{
    match given {
        Ok((bytes, text)) => Reply::of_file(alloc, out, bytes, text, 0),
        Err(Stop::Refused(refusal)) => Reply::refused(alloc, &refusal),
        Err(Stop::Memory) => Err(NoMemory),
    }
}
