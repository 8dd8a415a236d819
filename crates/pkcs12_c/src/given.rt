//! Texts that may be left out.
ghost use Rattle.std.specs.Prelude.{◌≡◌, IfNone, IfSome};
ghost use Rattle.std.specs.Option.{option_copied};
ghost use Rattle.pkcs12_c.specs.Given.{IsGivenText, given};

/// A text, or none.
#[derive(Clone, Copy)]
pub struct Given<'a> {
    pub text: Option<&'a str>,
}

/// The text that these octets spell, or none where there are no octets; None exactly where they spell none.
pub fn given_of(octets: &[u8]) -> Option<Given<'_>>
    ensures some { IfSome result (λ g. (option_copied g.text ≡ given octets.now)
        × IsGivenText (given octets.now)) }
    ensures none { IfNone result (IsGivenText (given octets.now) → ⊥) }
{
    if octets.is_empty() {
        return Some(Given { text: None });
    }
    match str::from_utf8(octets) {
        Ok(text) => Some(Given { text: Some(text) }),
        Err(_) => None,
    }
}
