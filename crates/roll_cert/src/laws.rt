//! Laws of the texts of claims. Each is the contract of a function that makes no call.
ghost use Rattle.roll_cert.specs.Laws.{OneClaimAText, TextsAreShort};

/// A text is of one claim.
pub fn one_claim_a_text()
    ensures { OneClaimAText }
{}

/// No claim's text is too long to be read.
pub fn texts_are_short()
    ensures { TextsAreShort }
{}
