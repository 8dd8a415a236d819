//! Laws of the texts.
ghost use Rattle.std.specs.Prelude.{◌≡◌, ◌∷◌, [], Ok, All};
ghost use Rattle.pem_text.specs.Pem.{pem};
ghost use Rattle.pem_text.specs.Reading.{IsInLine, blocks};

/// What `pem_of` writes is read back as one block of exactly that label and those octets. The label is to have no line feed.
pub fn what_is_written_is_read_back(label: &str, octets: &[u8])
    ensures { All IsInLine label.now → blocks (pem label.now octets.now)
        ≡ Ok (record { label = label.now; octets = octets.now } ∷ []) }
{
    let _label = label;
    let _octets = octets;
}
