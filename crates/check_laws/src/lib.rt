//! What `rewrite` stores passes a check.
//! Tests: none, since nothing of it runs.
#![tactic(auto)]

ghost use Rattle.check_laws.specs.Passing.{RewrittenFilesAreChecked, RewrittenImagesPass};

/// Yes, with the numbers of the summary, is an answer that a check may give of the image that `rewrite` stores, with the same three files.
pub fn rewritten_files_are_checked()
    ensures files { RewrittenFilesAreChecked }
{}

/// A check of the image that `rewrite` stores, with the same three files, has no other answer than yes, with the numbers of the summary.
pub fn rewritten_images_pass()
    ensures { RewrittenImagesPass }
{}
