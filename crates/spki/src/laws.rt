//! Laws of texts, each the contract of a function that does nothing.
ghost use Rattle.std.specs.Prelude.{◌≡◌, ◌↔◌, ◌⊎◌, ℕ, List, IsTrue};
ghost use Rattle.asn1_core.specs.Der.{IsShort};
ghost use Rattle.asn1_core.specs.Sets.{Other};
ghost use Rattle.der_core.specs.BitString.{is_bits, seen_bits};
ghost use Rattle.der_core.specs.Optional.{writable_option};
ghost use Rattle.spki.specs.Algorithm.{SpellsAlgorithm};
ghost use Rattle.spki.specs.Seen.{AnyAlgorithm, AnyPublicKey, IsAlgorithm, IsPublicKey, borrowed_algorithm, borrowed_any, owned_algorithm, owned_any, seen_public_key};
ghost use Rattle.spki.specs.Spelling.{algorithm_text, public_key_text, AreParameters, IsReadAgain, IsReadWhere};
ghost use Rattle.spki.specs.SubjectPublicKeyInfo.{SpellsPublicKey};

use crate::algorithm::{AlgorithmIdentifier, AlgorithmIdentifierOwned, AlgorithmIdentifierRef};
use crate::subject_public_key_info::{
    SubjectPublicKeyInfo, SubjectPublicKeyInfoOwned, SubjectPublicKeyInfoRef,
};
use der_core::{Decode, Encode, Spelled, canon_is_read, exact_spellings};

/// An algorithm with any parameters has one text, and nothing else is a text of it.
pub fn algorithms_have_one_text()
    ensures { (b : List ℕ) (a : AnyAlgorithm) → IsAlgorithm b a
        ↔ (AreParameters a.parameters × (b ≡ algorithm_text a) × IsShort b) }
{}

/// A public key of any algorithm has one text, and nothing else is a text of it.
pub fn public_keys_have_one_text()
    ensures { (b : List ℕ) (k : AnyPublicKey) → IsPublicKey b k
        ↔ (AreParameters k.algorithm.parameters
        × IsTrue (is_bits k.subject_public_key.0 k.subject_public_key.1)
        × (b ≡ public_key_text k) × IsShort b) }
{}

/// A text is that of one algorithm at most.
pub fn texts_have_one_algorithm()
    ensures { (b : List ℕ) (a c : AnyAlgorithm) → IsAlgorithm b a → IsAlgorithm b c → a ≡ c }
{}

/// A text is that of one public key at most.
pub fn texts_have_one_public_key()
    ensures { (b : List ℕ) (k l : AnyPublicKey) → IsPublicKey b k → IsPublicKey b l → k ≡ l }
{}

/// What is written of an algorithm with any parameters is its one text.
pub fn algorithms_are_written(algorithm: &AlgorithmIdentifierOwned)
    ensures { ⟦<AlgorithmIdentifierOwned as Encode>⟧.canon algorithm.now
        ≡ algorithm_text (owned_algorithm algorithm.now) }
{
    let _ = algorithm;
}

/// The same of an algorithm that borrows its parameters.
pub fn borrowed_algorithms_are_written<'a>(algorithm: &AlgorithmIdentifierRef<'a>)
    ensures { ⟦<AlgorithmIdentifierRef<'a> as Encode>⟧.canon algorithm.now
        ≡ algorithm_text (borrowed_algorithm algorithm.now) }
{
    let _ = algorithm;
}

/// What is written of a public key of any algorithm is its one text, of which its fingerprint is the digest.
pub fn public_keys_are_written(key: &SubjectPublicKeyInfoOwned)
    ensures { ⟦<SubjectPublicKeyInfoOwned as Encode>⟧.canon key.now
        ≡ public_key_text (seen_public_key owned_any
        (λ s. seen_bits s.unused_bits s.octets) key.now) }
{
    let _ = key;
}

/// The same of a public key that borrows its parts.
pub fn borrowed_public_keys_are_written<'a>(key: &SubjectPublicKeyInfoRef<'a>)
    ensures { ⟦<SubjectPublicKeyInfoRef<'a> as Encode>⟧.canon key.now
        ≡ public_key_text (seen_public_key borrowed_any
        (λ s. seen_bits s.unused_bits s.octets.now) key.now) }
{
    let _ = key;
}

/// Octets are read as this algorithm exactly where they are what is written of it or another of its spellings, for
/// parameters of every type that keeps the laws; and what is written of it is read as it again.
pub fn algorithms_are_spelled<'a, Params: Spelled<&'a [u8]>>(
    bytes: &[u8],
    algorithm: &AlgorithmIdentifier<Params>,
)
    ensures spelled { IsReadWhere (⟦<AlgorithmIdentifier<Params> as Decode<&'a [u8]>>⟧.at) bytes.now
        (⟦<AlgorithmIdentifier<Params> as Decode<&'a [u8]>>⟧.seen algorithm.now)
        (writable_option Params.writable algorithm.now.parameters)
        ((bytes.now ≡ ⟦<AlgorithmIdentifier<Params> as Encode>⟧.canon algorithm.now)
        ⊎ Other (λ b a. SpellsAlgorithm Params.spell b a.oid a.parameters)
        (⟦<AlgorithmIdentifier<Params> as Encode>⟧.canon) bytes.now algorithm.now) }
    ensures again { IsReadAgain (⟦<AlgorithmIdentifier<Params> as Decode<&'a [u8]>>⟧.at) bytes.now
        (⟦<AlgorithmIdentifier<Params> as Decode<&'a [u8]>>⟧.seen algorithm.now)
        (⟦<AlgorithmIdentifier<Params> as Encode>⟧.canon algorithm.now) }
{
    exact_spellings::<&'a [u8], AlgorithmIdentifier<Params>>(bytes, algorithm);
    canon_is_read::<&'a [u8], AlgorithmIdentifier<Params>>(algorithm);
}

/// Octets are read as this public key exactly where they are what is written of it or another of its spellings, for
/// parts of every type that keeps the laws; and what is written of it is read as it again.
pub fn public_keys_are_spelled<'a, Params: Spelled<&'a [u8]>, Key: Spelled<&'a [u8]>>(
    bytes: &[u8],
    key: &SubjectPublicKeyInfo<Params, Key>,
)
    ensures spelled { IsReadWhere
        (⟦<SubjectPublicKeyInfo<Params, Key> as Decode<&'a [u8]>>⟧.at) bytes.now
        (⟦<SubjectPublicKeyInfo<Params, Key> as Decode<&'a [u8]>>⟧.seen key.now)
        (writable_option Params.writable key.now.algorithm.parameters
        × Key.writable key.now.subject_public_key)
        ((bytes.now ≡ ⟦<SubjectPublicKeyInfo<Params, Key> as Encode>⟧.canon key.now)
        ⊎ Other (λ b k. SpellsPublicKey Params.spell Key.spell b k.algorithm.oid
        k.algorithm.parameters k.subject_public_key)
        (⟦<SubjectPublicKeyInfo<Params, Key> as Encode>⟧.canon) bytes.now key.now) }
    ensures again { IsReadAgain
        (⟦<SubjectPublicKeyInfo<Params, Key> as Decode<&'a [u8]>>⟧.at) bytes.now
        (⟦<SubjectPublicKeyInfo<Params, Key> as Decode<&'a [u8]>>⟧.seen key.now)
        (⟦<SubjectPublicKeyInfo<Params, Key> as Encode>⟧.canon key.now) }
{
    exact_spellings::<&'a [u8], SubjectPublicKeyInfo<Params, Key>>(bytes, key);
    canon_is_read::<&'a [u8], SubjectPublicKeyInfo<Params, Key>>(key);
}
