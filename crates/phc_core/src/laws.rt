//! Laws of the grammar, each stated by the contract of a function that does nothing.
ghost use Rattle.phc_core.specs.PasswordHash.{OneValue, OneText, OneLine};

/// One text has one value.
#[tactic(auto, using(crate::proofs::OneValue::phc_one_value))]
pub fn one_text_has_one_value()
    ensures { OneValue }
{}

/// One value has one text.
#[tactic(auto, using(crate::proofs::OneValue::phc_one_text))]
pub fn one_value_has_one_text()
    ensures { OneText }
{}

/// Each text is one line of ASCII.
#[tactic(auto, using(crate::proofs::OneLine::phc_one_line))]
pub fn text_is_one_line()
    ensures { OneLine }
{}
