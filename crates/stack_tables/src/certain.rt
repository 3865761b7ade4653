//! Whether nothing is taken of what is stored.

ghost use Rattle.std.specs.Prelude.{◌≡◌, true, false};
ghost use Rattle.std.specs.List.{All};
ghost use Rattle.stack_laws.specs.Tidy.{IsCertain};
ghost use Rattle.stack_tables.specs.Tables.{IsStackClaim, claim_stacks};

use crate::claims::StackClaim;

// Whether none of these is so.
fn are_none(flags: &[bool]) -> bool
    ensures { result ≡ true → All (λ is. is ≡ false) flags.now }
{
    for flag in flags {
        if *flag {
            return false;
        }
    }
    true
}

/// Whether no instruction is taken to miss words of the stack.
pub fn is_certain(claim: &StackClaim<'_>) -> bool
    requires { IsStackClaim claim.now }
    ensures { result ≡ true → IsCertain (claim_stacks claim.now) }
{
    are_none(&claim.stack.doubtful)
}
