//! A caller of the crate, as `README.md` shows it.
ghost use Rattle.std.specs.Prelude.{◌≡◌, IfOk};

use octet_core::Text;
use phc_core::{Error, PasswordHash};
use std::alloc::Global;

/// Reads a text and writes it again, which gives the same text.
fn round_trip(alloc: Global, text: &str) -> Result<Text, Error>
    ensures { IfOk result (λ t. t ≡ text.now) }
{
    match PasswordHash::new(text) {
        Ok(hash) => hash.to_text(alloc),
        Err(refused) => Err(refused),
    }
}

#[test]
fn a_text_comes_back(rt: HostRuntime) {
    let text = "$a$v=1$x=1,y=2$AAECAwQFBgc$AAECAwQFBgcICQ";
    let written = round_trip(rt.alloc(), text).expect(&rt, "a text");
    assert!(rt; written.as_str() == text);
}
