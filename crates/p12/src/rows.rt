//! The rows of the grammar, as they are written.
ghost use Rattle.std.specs.Prelude.{◌≡◌, ◌++◌, All, List, ℕ, length, OnOk};
ghost use Rattle.asn1_core.specs.Der.{IsShort, ctx, oid, seq};
ghost use Rattle.asn1_core.specs.Oid.{oid_octets};
ghost use Rattle.p12.specs.Canonical.{WritableAlgorithm, WritableAttribute, WritableBag, WritableCertBag, WritableContent, WritableDigest, WritableEncryptedContent, WritableEncryptedData, WritableKey, WritableKind, WritableMac, WritableStore, algorithm_canon, attribute_canon, attributes_canon, bag_canon, cert_bag_canon, content_canon, digest_canon, encrypted_content_canon, encrypted_data_canon, encrypted_key_canon, kind_canon, mac_canon, params_canon, store_canon};
ghost use Rattle.p12.specs.Writing.{MakesText};

use crate::algorithm_identifier::AlgorithmIdentifier;
use crate::attribute::PKCS12Attribute;
use crate::cert_bag::CertBag;
use crate::content_info::ContentInfo;
use crate::digest_info::DigestInfo;
use crate::encrypted_data::{EncryptedContentInfo, EncryptedData};
use crate::encrypted_private_key_info::EncryptedPrivateKeyInfo;
use crate::identifiers::{
    CERT_BAG, DATA, ENCRYPTED_DATA, FRIENDLY_NAME, LOCAL_KEY_ID,
    PBE_WITH_SHA1_AND_3KEY_TRIPLE_DES_CBC, PBE_WITH_SHA1_AND_40BIT_RC2_CBC, SDSI_CERTIFICATE, SHA1,
    SHA256, SHROUDED_KEY_BAG, X509_CERTIFICATE,
};
use crate::mac_data::MacData;
use crate::pfx::PFX;
use crate::pkcs12_pbe_params::Pkcs12PbeParams;
use crate::safe_bag::{SafeBag, SafeBagKind};
use crate::writing::{Bmp, Both, Encoded, GrammarRow, Held, Ia5, Number, SetOf, Within, sequence};
use asn1_core::{ObjectIdentifier, Octets, Tag};
use pkcs5::pbes2::PBES2_OID;
use std::alloc::Global;

impl GrammarRow for Pkcs12PbeParams {
    ghost canon = { params_canon };

    ghost writable = { λ p. Unit {0} };

    fn text(&self, alloc: Global) -> Result<Octets, asn1_core::Error> {
        let salt = Held {
            tag: Tag::OCTET_STRING,
            octets: self.salt.as_slice(),
        };
        sequence(alloc, &salt, &Number(self.iterations))
    }
}

impl GrammarRow for AlgorithmIdentifier {
    ghost canon = { algorithm_canon };

    ghost writable = { WritableAlgorithm };

    fn text(&self, alloc: Global) -> Result<Octets, asn1_core::Error> {
        let null = Held {
            tag: Tag::NULL,
            octets: &[],
        };
        match self {
            AlgorithmIdentifier::Sha1 => sequence(alloc, &SHA1, &null),
            AlgorithmIdentifier::Sha256 => sequence(alloc, &SHA256, &null),
            AlgorithmIdentifier::PbewithSHAAnd40BitRC2CBC(params) => {
                sequence(alloc, &PBE_WITH_SHA1_AND_40BIT_RC2_CBC, params)
            }
            AlgorithmIdentifier::PbeWithSHAAnd3KeyTripleDESCBC(params) => {
                sequence(alloc, &PBE_WITH_SHA1_AND_3KEY_TRIPLE_DES_CBC, params)
            }
            AlgorithmIdentifier::Pbes2(parameters) => {
                sequence(alloc, &PBES2_OID, &Encoded(parameters))
            }
            AlgorithmIdentifier::OtherAlg(other) => {
                sequence(alloc, &other.algorithm_type, &other.params)
            }
        }
    }
}

impl GrammarRow for DigestInfo {
    ghost canon = { digest_canon };

    ghost writable = { WritableDigest };

    fn text(&self, alloc: Global) -> Result<Octets, asn1_core::Error> {
        let digest = Held {
            tag: Tag::OCTET_STRING,
            octets: self.digest.as_slice(),
        };
        sequence(alloc, &self.digest_algorithm, &digest)
    }
}

impl GrammarRow for MacData {
    ghost canon = { mac_canon };

    ghost writable = { WritableMac };

    fn text(&self, alloc: Global) -> Result<Octets, asn1_core::Error> {
        let salt = Held {
            tag: Tag::OCTET_STRING,
            octets: self.salt.as_slice(),
        };
        let iterations = Number(u64::from(self.iterations));
        sequence(alloc, &self.mac, &Both(&salt, &iterations))
    }
}

impl GrammarRow for EncryptedContentInfo {
    ghost canon = { encrypted_content_canon };

    ghost writable = { WritableEncryptedContent };

    fn text(&self, alloc: Global) -> Result<Octets, asn1_core::Error> {
        let content = Held {
            tag: Tag::PRIMITIVE_CONTEXT_0,
            octets: self.encrypted_content.as_slice(),
        };
        let behind = Both(&self.content_encryption_algorithm, &content);
        sequence(alloc, &DATA, &behind)
    }
}

impl GrammarRow for EncryptedData {
    ghost canon = { encrypted_data_canon };

    ghost writable = { WritableEncryptedData };

    fn text(&self, alloc: Global) -> Result<Octets, asn1_core::Error> {
        sequence(alloc, &Number(0), &self.encrypted_content_info)
    }
}

/// An identifier, and a row in an element of the context class with the number 0.
fn explicit<A: GrammarRow>(
    alloc: Global,
    kind: &ObjectIdentifier,
    row: &A,
) -> Result<Octets, asn1_core::Error>
    ensures { MakesText (A.writable row.now)
        (seq (oid (oid_octets kind.now) ++ ctx 0 (A.canon row.now))) result }
{
    let inner = Within {
        tag: Tag::CONTEXT_0,
        row,
    };
    sequence(alloc, kind, &inner)
}

impl GrammarRow for ContentInfo {
    ghost canon = { content_canon };

    ghost writable = { WritableContent };

    fn text(&self, alloc: Global) -> Result<Octets, asn1_core::Error> {
        match self {
            ContentInfo::Data(content) => {
                let content = Held {
                    tag: Tag::OCTET_STRING,
                    octets: content.as_slice(),
                };
                explicit(alloc, &DATA, &content)
            }
            ContentInfo::EncryptedData(encrypted) => explicit(alloc, &ENCRYPTED_DATA, encrypted),
            ContentInfo::OtherContext(other) => {
                explicit(alloc, &other.content_type, &other.content)
            }
        }
    }
}

impl GrammarRow for EncryptedPrivateKeyInfo {
    ghost canon = { encrypted_key_canon };

    ghost writable = { WritableKey };

    fn text(&self, alloc: Global) -> Result<Octets, asn1_core::Error> {
        let encrypted = Held {
            tag: Tag::OCTET_STRING,
            octets: self.encrypted_data.as_slice(),
        };
        sequence(alloc, &self.encryption_algorithm, &encrypted)
    }
}

impl GrammarRow for CertBag {
    ghost canon = { cert_bag_canon };

    ghost writable = { WritableCertBag };

    fn text(&self, alloc: Global) -> Result<Octets, asn1_core::Error> {
        match self {
            CertBag::X509(certificate) => {
                let certificate = Held {
                    tag: Tag::OCTET_STRING,
                    octets: certificate.as_slice(),
                };
                explicit(alloc, &X509_CERTIFICATE, &certificate)
            }
            CertBag::SDSI(text) => explicit(alloc, &SDSI_CERTIFICATE, &Ia5(text.as_str())),
        }
    }
}

impl GrammarRow for PKCS12Attribute {
    ghost canon = { attribute_canon };

    ghost writable = { WritableAttribute };

    fn text(&self, alloc: Global) -> Result<Octets, asn1_core::Error> {
        match self {
            PKCS12Attribute::FriendlyName(name) => {
                let set = Within {
                    tag: Tag::SET,
                    row: &Bmp(name.as_str()),
                };
                sequence(alloc, &FRIENDLY_NAME, &set)
            }
            PKCS12Attribute::LocalKeyId(key_id) => {
                let key_id = Held {
                    tag: Tag::OCTET_STRING,
                    octets: key_id.as_slice(),
                };
                let set = Within {
                    tag: Tag::SET,
                    row: &key_id,
                };
                sequence(alloc, &LOCAL_KEY_ID, &set)
            }
            PKCS12Attribute::Other(other) => {
                sequence(alloc, &other.oid, &SetOf(other.values.as_slice()))
            }
        }
    }
}

impl GrammarRow for SafeBagKind {
    ghost canon = { kind_canon };

    ghost writable = { WritableKind };

    fn text(&self, alloc: Global) -> Result<Octets, asn1_core::Error> {
        match self {
            SafeBagKind::Pkcs8ShroudedKeyBag(key) => key.text(alloc),
            SafeBagKind::CertBag(certificate) => certificate.text(alloc),
            SafeBagKind::OtherBagKind(other) => other.bag_value.text(alloc),
        }
    }
}

/// The attributes of a bag: no set where there are none.
#[derive(Drop)]
struct Attributes<'p>(&'p [PKCS12Attribute]);

impl<'p> GrammarRow for Attributes<'p> {
    ghost canon = { λ a. attributes_canon a.0.now };

    ghost writable = { λ a. All WritableAttribute a.0.now };

    fn text(&self, alloc: Global) -> Result<Octets, asn1_core::Error> {
        if self.0.is_empty() {
            return Ok(Octets::new(alloc));
        }
        SetOf(self.0).text(alloc)
    }
}

impl GrammarRow for SafeBag {
    ghost canon = { bag_canon };

    ghost writable = { WritableBag };

    fn text(&self, alloc: Global) -> Result<Octets, asn1_core::Error> {
        let value = Within {
            tag: Tag::CONTEXT_0,
            row: &self.bag,
        };
        let behind = Both(&value, &Attributes(self.attributes.as_slice()));
        sequence(alloc, &self.bag.oid(), &behind)
    }
}

impl GrammarRow for PFX {
    ghost canon = { store_canon };

    ghost writable = { WritableStore };

    fn text(&self, alloc: Global) -> Result<Octets, asn1_core::Error> {
        let version = Number(u64::from(self.version));
        sequence(alloc, &version, &Both(&self.auth_safe, &self.mac_data))
    }
}
