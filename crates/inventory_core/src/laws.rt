//! Laws of inventories, each stated by the contract of a function that does nothing.
ghost use Rattle.std.specs.Prelude.{◌≡◌, ℕ, List};
ghost use Rattle.p12.specs.declared.safe_bag.SafeBag.{SafeBag};
ghost use Rattle.inventory_core.specs.Certificate.{Certificate, IsCertificate};
ghost use Rattle.sha2.specs.Sha256.{sha256};
ghost use Rattle.spki.specs.Seen.{IsPublicKey};
ghost use Rattle.inventory_core.specs.Chains.{ChainsRise};
ghost use Rattle.inventory_core.specs.Lines.{fingerprint};
ghost use Rattle.inventory_core.specs.Table.{IsTable};

use spki::public_keys_have_one_text;

/// A chain has each certificate at most once, and the subject of each is the issuer of the one
/// before it.
pub fn chains_rise()
    ensures { ChainsRise }
{}

/// A text is that of one certificate at most.
pub fn texts_have_one_certificate()
    ensures { (b : List ℕ) (c d : Certificate) → IsCertificate b c → IsCertificate b d → c ≡ d }
{}

/// What a store holds has one table.
pub fn one_table()
    ensures { (bags : List (List SafeBag)) (t u : List ℕ) → IsTable bags t → IsTable bags u → t
        ≡ u }
{}

/// The fingerprint of a certificate is the SHA-256 digest of the octets of its public key.
pub fn fingerprints_are_of_keys()
    ensures { (octets : List ℕ) (c : Certificate) → IsPublicKey octets c.key
        → fingerprint c ≡ sha256 octets }
{
    public_keys_have_one_text();
}
