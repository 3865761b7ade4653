//! The run of a command over files.

ghost use Rattle.std.specs.Prelude.{◌≡◌, ◌≤◌, ℕ, Bool, length, IfErr, IfOk, IfSome, IsSome, IsTrue};
ghost use Rattle.std.specs.List.{AllZip};
ghost use Rattle.host_files.specs.HostState.{IsUntouched};
ghost use Rattle.host_files.specs.Host.{count_if, is_failed};
ghost use Rattle.host_runs.specs.Command.{Answering, Ends, IsAnswerOf};
ghost use Rattle.host_runs.specs.Loading.{Missing, Wants, loading_of};
ghost use Rattle.host_runs.specs.Views.{files_view, reply_view, want_views};

use crate::delivering::deliver;
use crate::loading::{AllLoaded, Want, load_all};
use crate::reply::Reply;
use host_files::{Host, HostError};
use run_progress::Progress;
use scale_base::NoMemory;
use std::alloc::{AllocError, Global};

/// A command over files: which files it loads, and what it replies to their bytes.
pub trait FileCommand {
    /// The names of the files that it loads, in order, each with its limit in bytes.
    ghost loads: { Self → Wants };

    /// The answers that it may give for their bytes.
    ghost makes: { Self → Answering };

    /// The statuses of those answers and of a refusal.
    ghost may_give: { Self → ℕ → Bool };

    /// The files that it loads, in order.
    fn wants<'a>(&'a self, alloc: Global) -> Result<Vec<Want<'a>>, AllocError>
        ensures { IfOk result (λ wants. want_views wants.items ≡ loads self.now) };

    /// What it replies to the bytes of those files. How far it is is told.
    fn reply<P: Progress>(
        &self,
        alloc: Global,
        files: &[Vec<u8>],
        progress: &mut P,
    ) -> Result<Reply, NoMemory>
        requires { AllZip (λ want file. length file ≤ want.1) (loads self.now) (files_view files.now) }
        ensures answer { IfOk result (λ reply. makes self.now (files_view files.now) (reply_view reply)) }
        ensures status { IfOk result (λ reply. IsTrue (may_give self.now reply.status)) };

    /// It may refuse its files.
    ghost may_refuse: { (command : Self) → IsTrue (may_give command 1) };
}

// Loads the files, and makes what is made of them.
fn reply_to<H: Host, C: FileCommand, P: Progress>(
    host: &mut H,
    alloc: Global,
    command: &C,
    progress: &mut P,
) -> Result<Reply, HostError>
    ensures told { IfOk result (λ reply. IfSome (H.state host.old).files (λ files. IsAnswerOf (C.loads command.now) (C.makes command.now)
        files (reply_view reply))) }
    ensures status { IfOk result (λ reply. IsTrue (C.may_give command.now reply.status)) }
    ensures untouched { IsUntouched (H.state host.old) (H.state host.new) }
    ensures faults { (H.state host.new).faults ≡ count_if (is_failed result) (H.state host.old).faults }
    ensures steady { IfErr result (λ error. error ≡ HostError.Failed → IsSome (H.state host.old).room →
        IfSome (H.state host.old).files (λ files. loading_of (C.loads command.now) files ≡ Missing)) }
{
    let wants = command.wants(alloc)?;
    match load_all(host, alloc, &wants) {
        Ok(AllLoaded::Whole(files)) => Ok(command.reply(alloc, &files, progress)?),
        Ok(AllLoaded::TooLong(number)) => Ok(Reply::too_large(alloc, wants[number].name)?),
        Err(error) => Err(error),
    }
}

/// Loads the files of a command, stores and prints what it replies, and gives its status. How far it is is told.
pub fn run_command<H: Host, C: FileCommand, P: Progress>(
    host: &mut H,
    alloc: Global,
    command: &C,
    progress: &mut P,
) -> Result<u8, HostError>
    ensures status { IfOk result (λ status. IsTrue (C.may_give command.now status)) }
    ensures ends { Ends (C.loads command.now) (C.makes command.now) result (H.state host.old) (H.state host.new) }
    ensures faults { (H.state host.new).faults ≡ count_if (is_failed result) (H.state host.old).faults }
{
    let reply = reply_to(host, alloc, command, progress);
    progress.done();
    match reply {
        Ok(reply) => match deliver(host, &reply.stores, reply.text.as_bytes()) {
            Ok(()) => Ok(reply.status),
            // It takes no memory.
            Err(_) => Err(HostError::Failed),
        },
        Err(error) => Err(error),
    }
}
