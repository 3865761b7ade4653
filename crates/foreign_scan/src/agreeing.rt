//! Laws that what a scan finds is determined, and which of its causes holds first. They are the contracts of a function with an empty body.

ghost use Rattle.foreign_scan.specs.Agree.{ScanIsNotRefused, CausesAgree, FoundAgree};

/// Over the reached code of an original, an image has found fragments or a first cause, and not both; and no two of either.
pub fn scans_agree()
    ensures not_both { ScanIsNotRefused }
    ensures causes { CausesAgree }
    ensures found { FoundAgree }
{}
