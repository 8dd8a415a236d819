//! Laws of the definitions, each the contract of a function that does nothing.
ghost use Rattle.std.specs.Prelude.{◌≡◌, ◌↔◌, ◌<◌, ℕ, List, All, Some, length};
ghost use Rattle.asn1_core.specs.declared.identifier.ObjectIdentifier.{ObjectIdentifier};
ghost use Rattle.mac_modes.specs.Padding.{padded};
ghost use Rattle.p12.specs.AlgorithmIdentifier.{AlgorithmText, ParamsText, ciphertext_length, unlock_pbe};
ghost use Rattle.pkcs5.specs.Opening.{unpadded};
ghost use Rattle.p12.specs.declared.pkcs12_pbe_params.Pkcs12PbeParams.{Pkcs12PbeParams};
ghost use Rattle.p12.specs.declared.algorithm_identifier.AlgorithmIdentifier.TheVariants.{PbeWithSHAAnd3KeyTripleDESCBC};
ghost use Rattle.p12.specs.Attribute.{AttributeText};
ghost use Rattle.p12.specs.CertBag.{CertBagText};
ghost use Rattle.p12.specs.DigestInfo.{DigestText};
ghost use Rattle.p12.specs.EncryptedData.{EncryptedContentText, EncryptedDataText};
ghost use Rattle.p12.specs.EncryptedPrivateKeyInfo.{EncryptedKeyText};
ghost use Rattle.p12.specs.MacData.{MacText};
ghost use Rattle.p12.specs.Sole.{IsSole};
ghost use Rattle.p12.specs.Pfx.{IsStore};
ghost use Rattle.p12.specs.ContentInfo.{ContentText, IsContents};
ghost use Rattle.p12.specs.SafeBag.{BagText, IsBags, KindText};
ghost use Rattle.p12.specs.declared.pfx.PFX.{PFX};
ghost use Rattle.p12.specs.declared.content_info.ContentInfo.{ContentInfo};
ghost use Rattle.p12.specs.declared.safe_bag.SafeBag.{SafeBag};

/// Taking the padding off undoes padding, and nothing else is taken off: the text without its padding is the one of which it is the
/// padded text.
pub fn unpadding_undoes_padding()
    ensures { (n : ℕ) (t m : List ℕ) → 0 < n → (unpadded n t ≡ Some m) ↔ (padded m n ≡ t) }
{}

/// One text is at most one store.
pub fn one_text_is_one_store()
    ensures { (b : List ℕ) (s t : PFX) → IsStore b s → IsStore b t → s ≡ t }
{}

/// One text lists contents in one way.
pub fn one_text_lists_contents_once()
    ensures { (b : List ℕ) (s t : List ContentInfo) → IsContents b s → IsContents b t → s ≡ t }
{}

/// One text lists bags in one way.
pub fn one_text_lists_bags_once()
    ensures { (b : List ℕ) (s t : List SafeBag) → IsBags b s → IsBags b t → s ≡ t }
{}

/// One text has at most one value of each row.
pub fn one_text_has_one_value()
    ensures params { IsSole ParamsText }
    ensures algorithm { IsSole AlgorithmText }
    ensures digest { IsSole DigestText }
    ensures mac { IsSole MacText }
    ensures encrypted_content { IsSole EncryptedContentText }
    ensures encrypted_data { IsSole EncryptedDataText }
    ensures content { IsSole ContentText }
    ensures encrypted_key { IsSole EncryptedKeyText }
    ensures certificate { IsSole CertBagText }
    ensures attribute { IsSole AttributeText }
    ensures kind { (k : ObjectIdentifier) → IsSole (KindText k) }
    ensures bag { IsSole BagText }
{}

/// Two ciphertexts that open to the same text under Triple DES and a password in UTF-16 are the same: so what `encrypt_pbe`
/// returns is the only ciphertext of its text. Of PBES2 `pkcs5::opening_laws` says the same.
pub fn one_ciphertext_opens_to_a_text()
    ensures { (p : Pkcs12PbeParams) (q c d m : List ℕ) → All (λ octet. octet < 256) c
        → All (λ octet. octet < 256) d
        → unlock_pbe (PbeWithSHAAnd3KeyTripleDESCBC p) q c ≡ Some m
        → unlock_pbe (PbeWithSHAAnd3KeyTripleDESCBC p) q d ≡ Some m → c ≡ d }
{}

/// The length of a ciphertext under Triple DES is the next greater multiple of a block than that of its text. Of PBES2
/// `pkcs5::opening_laws` says what it is.
pub fn ciphertexts_have_one_length()
    ensures { (p : Pkcs12PbeParams) (q c m : List ℕ)
        → unlock_pbe (PbeWithSHAAnd3KeyTripleDESCBC p) q c ≡ Some m
        → length c ≡ ciphertext_length (length m) }
{}
