//! The words of the command line.

ghost use Rattle.std.specs.Prelude.{◌≡◌, drop, Err, IfOk, IfErr};
ghost use Rattle.std.specs.Vec.Iter.{into_iter_items};
ghost use Rattle.std.specs.IoError.{error_kind};
ghost use Rattle.host_runs.specs.Words.{why_none};

use std::alloc::{AllocError, Global};
use std::env::Args;
use std::io;

/// Why there are no words to look at.
#[derive(Clone, Copy)]
pub enum NoWords {
    /// One of them isn't text.
    NotText,
    /// Memory ran out.
    OutOfMemory,
}

impl From<AllocError> for NoWords {
    ghost use Rattle.host_runs.specs.declared.words.NoWords.TheVariants.{OutOfMemory};

    ghost from_gives = { λ _ reason. reason ≡ OutOfMemory };

    fn from(_: AllocError) -> NoWords {
        NoWords::OutOfMemory
    }
}

impl From<io::Error> for NoWords {
    ghost from_gives = { λ error reason. reason ≡ why_none (error_kind error) };

    fn from(error: io::Error) -> NoWords {
        match error.kind() {
            io::ErrorKind::OutOfMemory => NoWords::OutOfMemory,
            _ => NoWords::NotText,
        }
    }
}

/// The words behind the program's name, of what the system gave.
pub fn words_of(alloc: Global, given: io::Result<Args>) -> Result<Vec<String>, NoWords>
    ensures words { IfOk given (λ all. IfOk result (λ words. words.items ≡ drop 1 (into_iter_items all))) }
    ensures memory { IfOk given (λ all. IfErr result (λ reason. reason ≡ NoWords.OutOfMemory)) }
    ensures error { IfErr given (λ error. result ≡ Err (why_none (error_kind error))) }
{
    Ok(given?.skip(1).collect(alloc)?)
}
