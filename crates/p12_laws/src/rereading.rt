//! Laws of what is written and read again, each the contract of a function that does nothing.
ghost use Rattle.std.specs.Prelude.{◌≡◌, ℕ, List, All};
ghost use Rattle.asn1_core.specs.Oid.{oid_octets};
ghost use Rattle.asn1_core.specs.declared.identifier.ObjectIdentifier.{ObjectIdentifier};
ghost use Rattle.asn1_core.specs.Sets.{Each};
ghost use Rattle.asn1_core.specs.Texts.{Many, Within};
ghost use Rattle.p12.specs.AlgorithmIdentifier.{AlgorithmText, ParamsText};
ghost use Rattle.p12.specs.Attribute.{AttributeText};
ghost use Rattle.p12.specs.Canonical.{WritableAlgorithm, WritableAttribute, WritableBag, WritableCertBag, WritableContent, WritableDigest, WritableEncryptedContent, WritableEncryptedData, WritableKey, WritableKind, WritableMac, WritableStore, algorithm_canon, attribute_canon, bag_canon, bags_canon, cert_bag_canon, content_canon, contents_canon, digest_canon, encrypted_content_canon, encrypted_data_canon, encrypted_key_canon, kind_canon, mac_canon, params_canon, store_canon};
ghost use Rattle.p12.specs.CertBag.{CertBagText};
ghost use Rattle.p12.specs.ContentInfo.{ContentText};
ghost use Rattle.p12.specs.DigestInfo.{DigestText};
ghost use Rattle.p12.specs.EncryptedData.{EncryptedContentText, EncryptedDataText};
ghost use Rattle.p12.specs.EncryptedPrivateKeyInfo.{EncryptedKeyText};
ghost use Rattle.p12.specs.MacData.{MacText};
ghost use Rattle.p12.specs.Pfx.{PfxText};
ghost use Rattle.p12.specs.SafeBag.{BagText, KindText, kind_oid};
ghost use Rattle.p12.specs.declared.safe_bag.SafeBagKind.{SafeBagKind};
ghost use Rattle.p12.specs.Same.{CanBeWritten, IsOneText, IsReadAgain, IsReadAsSame, IsWrittenAlike, SameAttribute, SameBag};

/// The canonical text of a value that some text has is a text of that value. With `uniqueness::one_text_has_one_value`
/// it is read as that value and no other.
pub fn written_values_are_read_again()
    ensures params { IsReadAgain ParamsText params_canon }
    ensures algorithm { IsReadAgain AlgorithmText algorithm_canon }
    ensures digest { IsReadAgain DigestText digest_canon }
    ensures mac { IsReadAgain MacText mac_canon }
    ensures encrypted_content { IsReadAgain EncryptedContentText encrypted_content_canon }
    ensures encrypted_data { IsReadAgain EncryptedDataText encrypted_data_canon }
    ensures content { IsReadAgain ContentText content_canon }
    ensures contents { IsReadAgain (Within 0x30 (Many ContentText)) contents_canon }
    ensures encrypted_key { IsReadAgain EncryptedKeyText encrypted_key_canon }
    ensures certificate { IsReadAgain CertBagText cert_bag_canon }
    ensures kind { (k : ObjectIdentifier) → IsReadAgain (KindText k) kind_canon }
    ensures store { IsReadAgain PfxText store_canon }
{}

/// The value of a bag is read under the identifier of its kind.
pub fn bag_values_tell_their_kind()
    ensures { (k : ObjectIdentifier) (b : List ℕ) (v : SafeBagKind) → KindText k b v
        → kind_oid v ≡ oid_octets k }
{}

/// Of a value with sets the canonical text is a text of a value that is the same up to the order of its sets.
pub fn written_sets_are_read_as_the_same()
    ensures attribute { IsReadAsSame AttributeText SameAttribute attribute_canon }
    ensures bag { IsReadAsSame BagText SameBag bag_canon }
    ensures bags { IsReadAsSame (Within 0x30 (Many BagText)) (Each SameBag) bags_canon }
{}

/// Values that are the same up to the order of their sets have one canonical text: so what was written and read is
/// written again octet for octet.
pub fn sets_have_one_canonical_text()
    ensures attribute { IsOneText SameAttribute attribute_canon }
    ensures bag { IsOneText SameBag bag_canon }
    ensures bags { IsOneText (Each SameBag) bags_canon }
{}

/// Each value that some text has can be written.
pub fn what_is_read_can_be_written()
    ensures algorithm { CanBeWritten AlgorithmText WritableAlgorithm }
    ensures digest { CanBeWritten DigestText WritableDigest }
    ensures mac { CanBeWritten MacText WritableMac }
    ensures encrypted_content { CanBeWritten EncryptedContentText WritableEncryptedContent }
    ensures encrypted_data { CanBeWritten EncryptedDataText WritableEncryptedData }
    ensures content { CanBeWritten ContentText WritableContent }
    ensures encrypted_key { CanBeWritten EncryptedKeyText WritableKey }
    ensures certificate { CanBeWritten CertBagText WritableCertBag }
    ensures attribute { CanBeWritten AttributeText WritableAttribute }
    ensures kind { (k : ObjectIdentifier) → CanBeWritten (KindText k) WritableKind }
    ensures bag { CanBeWritten BagText WritableBag }
    ensures contents { CanBeWritten (Within 0x30 (Many ContentText)) (All WritableContent) }
    ensures bags { CanBeWritten (Within 0x30 (Many BagText)) (All WritableBag) }
    ensures store { CanBeWritten PfxText WritableStore }
{}

/// A value that was read, written, read again and written again is the same value up to the order of its sets, and the
/// octets of both writings are equal.
pub fn what_was_read_is_written_alike()
    ensures params { IsWrittenAlike ParamsText (λ v w. v ≡ w) params_canon }
    ensures algorithm { IsWrittenAlike AlgorithmText (λ v w. v ≡ w) algorithm_canon }
    ensures digest { IsWrittenAlike DigestText (λ v w. v ≡ w) digest_canon }
    ensures mac { IsWrittenAlike MacText (λ v w. v ≡ w) mac_canon }
    ensures encrypted_content { IsWrittenAlike EncryptedContentText (λ v w. v ≡ w)
        encrypted_content_canon }
    ensures encrypted_data { IsWrittenAlike EncryptedDataText (λ v w. v ≡ w)
        encrypted_data_canon }
    ensures content { IsWrittenAlike ContentText (λ v w. v ≡ w) content_canon }
    ensures contents { IsWrittenAlike (Within 0x30 (Many ContentText)) (λ v w. v ≡ w)
        contents_canon }
    ensures encrypted_key { IsWrittenAlike EncryptedKeyText (λ v w. v ≡ w) encrypted_key_canon }
    ensures certificate { IsWrittenAlike CertBagText (λ v w. v ≡ w) cert_bag_canon }
    ensures attribute { IsWrittenAlike AttributeText SameAttribute attribute_canon }
    ensures kind { (k : ObjectIdentifier) → IsWrittenAlike (KindText k) (λ v w. v ≡ w) kind_canon }
    ensures bag { IsWrittenAlike BagText SameBag bag_canon }
    ensures bags { IsWrittenAlike (Within 0x30 (Many BagText)) (Each SameBag) bags_canon }
    ensures store { IsWrittenAlike PfxText (λ v w. v ≡ w) store_canon }
{}
