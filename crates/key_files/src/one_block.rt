//! The block of the private key of a file.
ghost use Rattle.std.specs.Prelude.{◌≡◌, ◌<◌, IfOk, IfErr, IfSome, length, position};
ghost use Rattle.std.specs.List.{list_any};
ghost use Rattle.key_files.specs.Blocks.{IsOnlyKey, LacksOneKey, is_key_block};

use crate::key_form::is_key_label;
use crate::key_refusal::KeyRefusal;
use pem_text::Block;

/// Where the first block of a private key is.
fn first_key(blocks: &[Block]) -> Option<usize>
    ensures at { result ≡ position is_key_block blocks.now }
    ensures within { IfSome result (λ i. i < length blocks.now) }
{
    blocks
        .iter()
        .position(|block| is_key_label(block.label.as_slice()))
}

/// Whether one of these is the block of a private key.
fn has_key(blocks: &[Block]) -> bool
    ensures { result ≡ list_any is_key_block blocks.now }
{
    blocks
        .iter()
        .any(|block| is_key_label(block.label.as_slice()))
}

/// The one block of these that is a private key's, whatever its form. `NoKey` exactly where there is none, and `ManyKeys` exactly
/// where there are several.
pub fn key_block(blocks: &[Block]) -> Result<&Block, KeyRefusal>
    ensures ok { IfOk result (λ b. IsOnlyKey blocks.now b.now) }
    ensures err { IfErr result (LacksOneKey blocks.now) }
{
    let Some(place) = first_key(blocks) else {
        return Err(KeyRefusal::NoKey);
    };
    if has_key(&blocks[place + 1..]) {
        return Err(KeyRefusal::ManyKeys);
    }
    Ok(&blocks[place])
}
