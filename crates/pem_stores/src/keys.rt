//! The private key of a PEM file.
ghost use Rattle.std.specs.Prelude.{IfOk, IfErr};
ghost use Rattle.std.specs.Option.{option_copied};
ghost use Rattle.pem_stores.specs.Keys.{HasKey, LacksKey};

use asn1_core::Octets;
use key_files::{KeyRefusal, form_of, key_block, key_text};
use pem_text::Block;
use std::alloc::Global;

/// What encrypted private keys are opened with.
#[derive(Clone, Copy)]
pub struct KeyOpening<'a> {
    pub password: Option<&'a str>,
    /// The most rounds of PBKDF2 for one of them.
    pub limit: u32,
}

/// The PKCS#8 text of the one private key that these blocks have.
pub fn key_in(
    alloc: Global,
    blocks: &[Block],
    opening: KeyOpening<'_>,
) -> Result<Octets, KeyRefusal>
    ensures ok { IfOk result
        (HasKey blocks.now (option_copied opening.entry.password) opening.entry.limit) }
    ensures err { IfErr result
        (LacksKey blocks.now (option_copied opening.entry.password) opening.entry.limit) }
{
    let block = match key_block(blocks) {
        Ok(block) => block,
        Err(refusal) => return Err(refusal),
    };
    let form = form_of(block.label.as_slice());
    key_text(
        alloc,
        form,
        block.octets.as_slice(),
        opening.password,
        opening.limit,
    )
}
