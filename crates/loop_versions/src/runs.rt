//! Laws of versioned images, over the definitions alone.

ghost use Rattle.loop_versions.specs.GuardRuns.{GuardsLeadOn};
ghost use Rattle.loop_versions.specs.MovedSteps.{PlainInstructionsMove};

/// A guard leads one of its two ways, with the registers as they were.
pub fn guards_lead_on()
    ensures { GuardsLeadOn }
{}

/// An instruction that reads no pc does the same at another address.
pub fn plain_instructions_move()
    ensures { PlainInstructionsMove }
{}
