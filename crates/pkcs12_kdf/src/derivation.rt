//! The key derivation of stores (RFC 7292 appendix B.2), and their MAC (appendix B.4).
ghost use Rattle.std.specs.Prelude.{◌≡◌, ℕ, ◌+◌, ◌*◌, ◌-◌, ◌<◌, ◌≤◌, ◌^◌, ◌++◌, ◌/◌, ◌%◌, List, length, take, replicate, IfOk, OnOk};
ghost use Rattle.mac_modes.specs.Hmac.{hmac};
ghost use Rattle.pkcs12_kdf.specs.Numbers.{number, numbers};
ghost use Rattle.pkcs12_kdf.specs.Derivation.{answer, hashed, derive12, derive12_in, fill, next_inputs, repeat_to, turns};
ghost use Rattle.pkcs12_kdf.specs.Mac.{mac_under, mac_under_in};

use crate::carry::add_to_blocks;
use mac_modes::{HashFn, Hmac, Prf};
use octet_core::Octets;
use std::alloc::{AllocError, Global};
use std::marker::Brand;
use std::sync::ledger::{Blank, Ledger};
use steps::Steps;

/// The purpose of a key of a cipher (RFC 7292 appendix B.3).
pub const KEY_ID: u8 = 1;

/// The purpose of an initialization vector.
pub const IV_ID: u8 = 2;

/// The purpose of the key of a MAC.
pub const MAC_ID: u8 = 3;

/// What keys and MACs are derived from.
#[derive(Clone, Copy, Drop)]
pub struct Derivation<'a> {
    /// As `utf16_password` gives it.
    pub password: &'a [u8],
    pub salt: &'a [u8],
    /// How often the hash function is applied for each of its digests (the iterations of RFC 7292), at least 1.
    pub rounds: u64,
}

/// The longest block of a hash function, in octets.
const MOST_BLOCK: usize = 128;

/// The hash function after a block of octets `id`.
fn start_with<H: HashFn>(id: u8) -> H
    ensures { H.holds result (replicate H.BLOCK id) }
{
    let mut hasher = H::start();
    hasher.update(&[id; MOST_BLOCK][..H::BLOCK]);
    hasher
}

/// The result at the inputs, which come as blocks of octets. Each application of the hash is a step.
fn hash_rounds<H: HashFn, L: Ledger>(
    id: u8,
    input: &[u8],
    rounds: u64,
    steps: &mut Steps<L>,
) -> [u8; 64]
    requires rounds { 1 ≤ rounds }
    requires whole { length input.now % H.BLOCK ≡ 0 }
    ensures value { take H.OUTPUT result
        ≡ answer H.BLOCK H.digest rounds id (numbers H.BLOCK input.now) }
    ensures steps { steps.new ≡ steps.old + rounds }
{
    let mut answer = [0u8; 64];
    let mut first = start_with::<H>(id);
    first.update(input);
    first.finish(&mut answer);
    steps.tick();
    for done in 1..rounds {
        let mut hasher = H::start();
        hasher.update(&answer[..H::OUTPUT]);
        hasher.finish(&mut answer);
        steps.tick();
    }
    answer
}

/// Adds the text, repeated to a multiple of the octets of a block.
fn push_filled(out: &mut Vec<u8>, text: &[u8], block: usize) -> Result<(), AllocError>
    requires text { length text.now < 2 ^ 59 }
    requires block { (0 < block) × (block ≤ 128) }
    ensures { OnOk result (out.new.items ≡ out.old.items ++ fill block text.now) }
{
    for i in 0..block * ((text.len() + (block - 1)) / block) {
        out.push(text[i % text.len()])?;
    }
    Ok(())
}

/// The salt and the password after it, each repeated to a multiple of the octets of a block.
fn first_inputs(
    alloc: Global,
    salt: &[u8],
    password: &[u8],
    block: usize,
) -> Result<Vec<u8>, AllocError>
    requires salt { length salt.now < 2 ^ 59 }
    requires password { length password.now < 2 ^ 59 }
    requires block { (0 < block) × (block ≤ 128) }
    ensures { IfOk result (λ inputs. inputs.items ≡ fill block salt.now ++ fill block password.now) }
{
    let mut inputs = Vec::new(alloc);
    push_filled(&mut inputs, salt, block)?;
    push_filled(&mut inputs, password, block)?;
    Ok(inputs)
}

/// The text repeated to the octets of a block.
fn repeated(text: &[u8], block: usize) -> [u8; MOST_BLOCK]
    requires text { 0 < length text.now }
    requires block { block ≤ 128 }
    ensures { take block result ≡ repeat_to block text.now }
{
    let mut octets = [0u8; MOST_BLOCK];
    for i in 0..block {
        octets[i] = text[i % text.len()];
    }
    octets
}

/// Adds an answer, repeated to a block, and 1 to each of the inputs.
fn add_answer<H: HashFn>(inputs: &mut [u8], answer: &[u8])
    requires { 0 < length answer.now }
    ensures { numbers H.BLOCK inputs.new
        ≡ next_inputs H.BLOCK answer.now (numbers H.BLOCK inputs.old) }
{
    let block = repeated(answer, H::BLOCK);
    add_to_blocks(inputs, &block[..H::BLOCK]);
}

/// HMAC over a hash of one piece.
fn hmac_of<H: HashFn>(key: &[u8], content: &[u8]) -> [u8; 64]
    ensures { take H.OUTPUT result ≡ hmac H.digest H.BLOCK key.now content.now }
{
    let mut out = [0u8; 64];
    if let Ok(mut keyed) = Hmac::<H>::new_from_slice(key) {
        keyed.update(content);
        keyed.finalize_into(&mut out);
    } else {
        unreachable!();
    }
    out
}

impl<'a> Derivation<'a> {
    /// `key_counted` under a hash function of any block length: a block of RFC 7292 appendix B.2 has `H::BLOCK` octets, 64 for SHA-1
    /// and SHA-256, 128 for SHA-384 and SHA-512.
    ///
    /// Caller: `rounds` is at least 1, `size` at most 2^32, password and salt have fewer than 2^59 octets each.
    pub fn key_by_block_counted<H: HashFn, L: Ledger>(
        &self,
        alloc: Global,
        id: u8,
        size: usize,
        steps: &mut Steps<L>,
    ) -> Result<Octets, AllocError>
        requires rounds { 1 ≤ self.now.rounds }
        requires password { length self.now.password.now < 2 ^ 59 }
        requires salt { length self.now.salt.now < 2 ^ 59 }
        requires size { size ≤ 2 ^ 32 }
        ensures value { IfOk result (λ key. key ≡ derive12_in H.BLOCK H.digest H.OUTPUT
            self.now.password.now self.now.salt.now self.now.rounds id size) }
        ensures steps { OnOk result
            (steps.new ≡ steps.old + self.now.rounds * turns size H.OUTPUT) }
        ensures at_most { (steps.old ≤ steps.new)
            × (steps.new ≤ steps.old + self.now.rounds * turns size H.OUTPUT) }
    {
        let mut inputs = first_inputs(alloc, self.salt, self.password, H::BLOCK)?;
        let mut key = Vec::new(alloc);
        for turn in 0..(size + (H::OUTPUT - 1)) / H::OUTPUT {
            let answer = hash_rounds::<H, L>(id, &inputs, self.rounds, steps);
            key.extend_from_slice(&answer[..H::OUTPUT])?;
            add_answer::<H>(&mut inputs, &answer[..H::OUTPUT]);
        }
        key.truncate(size);
        Ok(Octets::from_vec(key))
    }

    /// `size` octets for the purpose `id`: `KEY_ID`, `IV_ID` or `MAC_ID` (RFC 7292 appendix B.2); another number is not refused.
    /// The only refusal is `Memory`. Each output of the hash that `size` octets need takes `rounds` steps; a refusal takes
    /// no more than all of them.
    ///
    /// Caller: `H::BLOCK` is 64, `rounds` at least 1, `size` at most 2^32, password and salt of fewer than 2^59 octets each.
    pub fn key_counted<H: HashFn, L: Ledger>(
        &self,
        alloc: Global,
        id: u8,
        size: usize,
        steps: &mut Steps<L>,
    ) -> Result<Octets, AllocError>
        requires block { H.BLOCK ≡ 64 }
        requires rounds { 1 ≤ self.now.rounds }
        requires password { length self.now.password.now < 2 ^ 59 }
        requires salt { length self.now.salt.now < 2 ^ 59 }
        requires size { size ≤ 2 ^ 32 }
        ensures value { IfOk result (λ key. key ≡ derive12 H.digest H.OUTPUT
            self.now.password.now self.now.salt.now self.now.rounds id size) }
        ensures steps { OnOk result
            (steps.new ≡ steps.old + self.now.rounds * turns size H.OUTPUT) }
        ensures at_most { (steps.old ≤ steps.new)
            × (steps.new ≤ steps.old + self.now.rounds * turns size H.OUTPUT) }
    {
        self.key_by_block_counted::<H, L>(alloc, id, size, steps)
    }

    /// `key_counted` with a counter of its own.
    fn key_from<H: HashFn, L: Ledger>(
        &self,
        alloc: Global,
        id: u8,
        size: usize,
        blank: Blank,
    ) -> Result<Octets, AllocError>
        requires name { blank.name ≡ L.name }
        requires parts { blank.parts ≡ L.parts }
        requires some { 0 < blank.parts }
        requires block { H.BLOCK ≡ 64 }
        requires rounds { 1 ≤ self.now.rounds }
        requires password { length self.now.password.now < 2 ^ 59 }
        requires salt { length self.now.salt.now < 2 ^ 59 }
        requires size { size ≤ 2 ^ 32 }
        ensures { IfOk result (λ key. key ≡ derive12 H.digest H.OUTPUT
            self.now.password.now self.now.salt.now self.now.rounds id size) }
    {
        let mut steps = Steps::<L>::open(blank);
        self.key_counted::<H, L>(alloc, id, size, &mut steps)
    }

    /// `key_counted` where nothing is counted. Caller: as there.
    pub fn key<H: HashFn>(&self, alloc: Global, id: u8, size: usize) -> Result<Octets, AllocError>
        requires block { H.BLOCK ≡ 64 }
        requires rounds { 1 ≤ self.now.rounds }
        requires password { length self.now.password.now < 2 ^ 59 }
        requires salt { length self.now.salt.now < 2 ^ 59 }
        requires size { size ≤ 2 ^ 32 }
        ensures { IfOk result (λ key. key ≡ derive12 H.digest H.OUTPUT
            self.now.password.now self.now.salt.now self.now.rounds id size) }
    {
        self.key_from::<H, Brand>(alloc, id, size, Blank::new(1))
    }

    /// `mac_counted` under a hash function of any block length, as `key_by_block_counted`.
    ///
    /// Caller: `rounds` is at least 1, password and salt have fewer than 2^59 octets each.
    pub fn mac_by_block_counted<H: HashFn, L: Ledger>(
        &self,
        alloc: Global,
        content: &[u8],
        steps: &mut Steps<L>,
    ) -> Result<Octets, AllocError>
        requires rounds { 1 ≤ self.now.rounds }
        requires password { length self.now.password.now < 2 ^ 59 }
        requires salt { length self.now.salt.now < 2 ^ 59 }
        ensures value { IfOk result (λ mac. mac ≡ mac_under_in H.BLOCK H.digest H.OUTPUT
            self.now.password.now self.now.salt.now self.now.rounds content.now) }
        ensures steps { OnOk result (steps.new ≡ steps.old + self.now.rounds) }
        ensures at_most { (steps.old ≤ steps.new)
            × (steps.new ≤ steps.old + self.now.rounds) }
    {
        let key = self.key_by_block_counted::<H, L>(alloc, MAC_ID, H::OUTPUT, steps)?;
        let mac = hmac_of::<H>(key.as_slice(), content);
        Octets::from_slice(alloc, &mac[..H::OUTPUT])
    }

    /// The MAC of a content under the hash `H`, whose key has as many octets as an output of the hash (RFC 7292 appendix B.4). The
    /// only refusal is running out of memory. Each round is a step.
    ///
    /// Caller: `H::BLOCK` is 64, `rounds` at least 1, password and salt of fewer than 2^59 octets each.
    pub fn mac_counted<H: HashFn, L: Ledger>(
        &self,
        alloc: Global,
        content: &[u8],
        steps: &mut Steps<L>,
    ) -> Result<Octets, AllocError>
        requires block { H.BLOCK ≡ 64 }
        requires rounds { 1 ≤ self.now.rounds }
        requires password { length self.now.password.now < 2 ^ 59 }
        requires salt { length self.now.salt.now < 2 ^ 59 }
        ensures value { IfOk result (λ mac. mac ≡ mac_under H.digest H.OUTPUT
            self.now.password.now self.now.salt.now self.now.rounds content.now) }
        ensures steps { OnOk result (steps.new ≡ steps.old + self.now.rounds) }
        ensures at_most { (steps.old ≤ steps.new)
            × (steps.new ≤ steps.old + self.now.rounds) }
    {
        self.mac_by_block_counted::<H, L>(alloc, content, steps)
    }

    /// `mac_counted` with a counter of its own.
    fn mac_from<H: HashFn, L: Ledger>(
        &self,
        alloc: Global,
        content: &[u8],
        blank: Blank,
    ) -> Result<Octets, AllocError>
        requires block { H.BLOCK ≡ 64 }
        requires name { blank.name ≡ L.name }
        requires parts { blank.parts ≡ L.parts }
        requires some { 0 < blank.parts }
        requires rounds { 1 ≤ self.now.rounds }
        requires password { length self.now.password.now < 2 ^ 59 }
        requires salt { length self.now.salt.now < 2 ^ 59 }
        ensures { IfOk result (λ mac. mac ≡ mac_under H.digest H.OUTPUT
            self.now.password.now self.now.salt.now self.now.rounds content.now) }
    {
        let mut steps = Steps::<L>::open(blank);
        self.mac_counted::<H, L>(alloc, content, &mut steps)
    }

    /// `mac_counted` where nothing is counted. Caller: as there.
    pub fn mac<H: HashFn>(&self, alloc: Global, content: &[u8]) -> Result<Octets, AllocError>
        requires block { H.BLOCK ≡ 64 }
        requires rounds { 1 ≤ self.now.rounds }
        requires password { length self.now.password.now < 2 ^ 59 }
        requires salt { length self.now.salt.now < 2 ^ 59 }
        ensures { IfOk result (λ mac. mac ≡ mac_under H.digest H.OUTPUT
            self.now.password.now self.now.salt.now self.now.rounds content.now) }
    {
        self.mac_from::<H, Brand>(alloc, content, Blank::new(1))
    }
}
