//! The code that runs while a call from a loop is open.

ghost use Rattle.std.specs.Prelude.{◌<◌, length};

use crate::scope::Scope;
use scale_base::NoMemory;
use std::alloc::Global;

// By node whether it is such code, and the nodes whose ways are still to be looked at.
#[derive(Drop)]
struct Quiet {
    flags: Vec<bool>,
    open: Vec<usize>,
}

impl Quiet {
    fn add(&mut self, k: usize) -> Result<(), NoMemory> {
        if k < self.flags.len() && !self.flags[k] {
            self.flags[k] = true;
            self.open.push(k)?;
        }
        Ok(())
    }

    fn add_called(&mut self, scope: &Scope<'_>, k: usize) -> Result<(), NoMemory> {
        match scope.callee_of(k) {
            Some(callee) => self.add(callee.entry),
            None => Ok(()),
        }
    }

    fn add_behind(&mut self, scope: &Scope<'_>, k: usize) -> Result<(), NoMemory> {
        self.add_called(scope, k)?;
        for to in scope.targets_of(k) {
            if let Some(to) = to {
                self.add(to)?;
            }
        }
        Ok(())
    }
}

/// By node, whether it may run while a call from the body is open.
pub fn quiet_of(alloc: Global, scope: &Scope<'_>) -> Result<Vec<bool>, NoMemory> {
    let count = scope.body.len();
    let mut quiet = Quiet {
        flags: vec![in alloc; false; count]?,
        open: Vec::new(alloc),
    };
    for k in scope.nodes {
        quiet.add_called(scope, *k)?;
    }
    for _ in 0..count {
        match quiet.open.pop() {
            Some(k) => quiet.add_behind(scope, k)?,
            None => break,
        }
    }
    Ok(quiet.flags)
}
