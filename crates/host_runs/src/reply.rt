//! What a command gives, made whole before the first of it is stored or printed.

ghost use Rattle.std.specs.Prelude.{◌≡◌, [], ◌∷◌, string_bytes, IfOk};
ghost use Rattle.host_runs.specs.Answer.{refused};
ghost use Rattle.scale_base.specs.declared.refusal.Refusal.TheVariants.{TooLarge};

use scale_base::{Name, NoMemory, Refusal};
use scale_report::refusal_text;
use std::alloc::Global;

/// A file to store.
#[derive(Drop)]
pub struct Store {
    pub name: String,
    pub bytes: Vec<u8>,
}

/// The files to store, in order, the text to print, and the status.
#[derive(Drop)]
pub struct Reply {
    pub stores: Vec<Store>,
    pub text: String,
    pub status: u8,
}

impl Reply {
    ghost use Rattle.host_runs.specs.Views.{reply_view};

    /// A refusal, and nothing to store.
    pub fn refused(alloc: Global, refusal: &Refusal) -> Result<Reply, NoMemory>
        ensures { IfOk result (λ reply. reply_view reply ≡ refused refusal.now) }
    {
        Ok(Reply {
            stores: Vec::new(alloc),
            text: refusal_text(alloc, refusal)?,
            status: 1,
        })
    }

    /// The refusal of a file of this name, which is longer than its limit.
    pub fn too_large(alloc: Global, name: &str) -> Result<Reply, NoMemory>
        ensures { IfOk result (λ reply. reply_view reply ≡ refused (TooLarge name.now)) }
    {
        let name = Name::new(String::from_str(alloc, name)?);
        Reply::refused(alloc, &Refusal::TooLarge(name))
    }

    /// One file to store under a name, a text and a status.
    pub fn of_file(
        alloc: Global,
        out: &str,
        bytes: Vec<u8>,
        text: String,
        status: u8,
    ) -> Result<Reply, NoMemory>
        ensures { IfOk result (λ reply. reply_view reply ≡ record {
          stores = (out.now, bytes.items) ∷ [];
          text =
              string_bytes text;
          status = status;
        }) }
    {
        let name = String::from_str(alloc, out)?;
        let mut stores = Vec::new(alloc);
        stores.push(Store { name, bytes })?;
        Ok(Reply {
            stores,
            text,
            status,
        })
    }
}
