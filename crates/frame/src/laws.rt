//! Laws of the input, each stated by the contract of a function that does nothing.
ghost use Rattle.frame.specs.InputText.{OneInput};

/// An input spells one store, and one second line or none.
pub fn one_input()
    ensures { OneInput }
{}
