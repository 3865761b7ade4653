//! Laws of the answers of a check: two of them agree, and a rewritten program's image is a safe one.

ghost use Rattle.image_check.specs.Agreeing.{CheckedAnswersAgree};
ghost use Rattle.image_check.specs.RewrittenSafe.{RewrittenImagesAreSafe};

/// What a rewritten program stores is a safe image, under the program's own numbers.
pub fn rewritten_images_are_safe_to_check()
    ensures images { RewrittenImagesAreSafe }
{}

/// Two answers that a check may give of the same four files are the same, but for the cycle that a refusal names.
pub fn checked_answers_agree()
    ensures { CheckedAnswersAgree }
{}
