//! Laws of the texts of a value, each the contract of a function that does nothing. Of a value that some text has, the
//! texts are its canonical one and its other spellings, of which those of at most 2^32 - 1 octets are read.
ghost use Rattle.asn1_core.specs.Sets.{Each};
ghost use Rattle.asn1_core.specs.Texts.{Many, Within};
ghost use Rattle.p12.specs.AlgorithmIdentifier.{AlgorithmText, ParamsText};
ghost use Rattle.p12.specs.Attribute.{AttributeText};
ghost use Rattle.p12.specs.Canonical.{algorithm_canon, attribute_canon, bag_canon, bags_canon, cert_bag_canon, content_canon, contents_canon, digest_canon, encrypted_content_canon, encrypted_data_canon, encrypted_key_canon, mac_canon, params_canon, store_canon};
ghost use Rattle.p12.specs.CertBag.{CertBagText};
ghost use Rattle.p12.specs.ContentInfo.{ContentText};
ghost use Rattle.p12.specs.DigestInfo.{DigestText};
ghost use Rattle.p12.specs.EncryptedData.{EncryptedContentText, EncryptedDataText};
ghost use Rattle.p12.specs.EncryptedPrivateKeyInfo.{EncryptedKeyText};
ghost use Rattle.p12.specs.MacData.{MacText};
ghost use Rattle.p12.specs.Pfx.{PfxText};
ghost use Rattle.p12.specs.SafeBag.{BagText};
ghost use Rattle.p12.specs.Same.{SameAttribute, SameBag};
ghost use Rattle.p12_laws.specs.Spellings.{HasOneText, IsSpelled, IsSpelledAsSame, SpellsAlgorithm, SpellsAttribute, SpellsBag, SpellsBags, SpellsContent, SpellsContents, SpellsDigest, SpellsEncryptedContent, SpellsEncryptedData, SpellsEncryptedKey, SpellsMac, SpellsStore};

/// Parameters of RFC 7292 and certificates have their canonical text alone.
pub fn values_have_one_text()
    ensures params { HasOneText ParamsText params_canon }
    ensures certificate { HasOneText CertBagText cert_bag_canon }
{}

/// The texts of an algorithm: SHA-1 and SHA-256 may be without NULL, and the parameters of PBES2 in any spelling.
pub fn algorithms_are_spelled()
    ensures { IsSpelled AlgorithmText algorithm_canon SpellsAlgorithm }
{}

/// The texts of a digest: its algorithm in any spelling.
pub fn digests_are_spelled()
    ensures { IsSpelled DigestText digest_canon SpellsDigest }
{}

/// The texts of a MAC: its digest in any spelling, and a count of 1 may be left out.
pub fn macs_are_spelled()
    ensures { IsSpelled MacText mac_canon SpellsMac }
{}

/// The texts of an encrypted private key: its algorithm in any spelling.
pub fn encrypted_keys_are_spelled()
    ensures { IsSpelled EncryptedKeyText encrypted_key_canon SpellsEncryptedKey }
{}

/// The texts of an encrypted content: its algorithm in any spelling.
pub fn encrypted_contents_are_spelled()
    ensures content { IsSpelled EncryptedContentText encrypted_content_canon
        SpellsEncryptedContent }
    ensures versioned { IsSpelled EncryptedDataText encrypted_data_canon SpellsEncryptedData }
{}

/// The texts of a content, and those of a list of contents, in their order.
pub fn contents_are_spelled()
    ensures one { IsSpelled ContentText content_canon SpellsContent }
    ensures list { IsSpelled (Within 0x30 (Many ContentText)) contents_canon SpellsContents }
{}

/// The texts of an attribute: further names or key ids may come before the one, and the elements of another set in any
/// order.
pub fn attributes_are_spelled()
    ensures { IsSpelledAsSame AttributeText SameAttribute attribute_canon SpellsAttribute }
{}

/// The texts of a bag, and those of a list of bags, in their order: the attributes in any order, and an empty set where
/// there are none.
pub fn bags_are_spelled()
    ensures one { IsSpelledAsSame BagText SameBag bag_canon SpellsBag }
    ensures list { IsSpelledAsSame (Within 0x30 (Many BagText)) (Each SameBag) bags_canon
        SpellsBags }
{}

/// The texts of a store: its content and its MAC in any spelling.
pub fn stores_are_spelled()
    ensures { IsSpelled PfxText store_canon SpellsStore }
{}
