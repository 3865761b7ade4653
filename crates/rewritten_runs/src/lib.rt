//! Runs of rewritten images: they follow those of the original, in time, and never faster than before.
//! Tests: none, since nothing of it runs.
#![tactic(auto)]

ghost use Rattle.rewritten_runs.specs.Laws.{BudgetedImagesFollow, ChosenImagesFollow, RewrittenImagesFollow};

/// The file that is stored of a program with its stubs is an image, which keeps the promise and follows the original in time.
pub fn rewritten_images_follow()
    ensures { RewrittenImagesFollow }
{}

/// So is that of any rule that keeps budgets: with switches on any chosen edges of branches, with slack or without, and from any level within
/// whose budget its worst cycles are.
pub fn budgeted_images_follow()
    ensures budgeted { BudgetedImagesFollow }
    ensures chosen { ChosenImagesFollow }
{}
