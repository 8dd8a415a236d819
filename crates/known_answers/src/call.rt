//! The calls that cases name.
ghost use Rattle.std.specs.Prelude.{◌≡◌, IfSome};
ghost use Rattle.known_answers.specs.Known.{name_of};

/// A call whose answers are known.
#[derive(Clone, Copy)]
pub enum Call {
    Aes128Encrypt,
    Aes128Decrypt,
    Aes192Encrypt,
    Aes192Decrypt,
    Aes256Encrypt,
    Aes256Decrypt,
    DesEncrypt,
    DesDecrypt,
    TdesEncrypt,
    TdesDecrypt,
    CbcAes128Decrypt,
    CbcAes192Decrypt,
    CbcAes256Decrypt,
    CbcDesDecrypt,
    CbcTdesDecrypt,
    GcmAes128Encrypt,
    GcmAes128Decrypt,
    GcmAes192Encrypt,
    GcmAes192Decrypt,
    GcmAes256Encrypt,
    GcmAes256Decrypt,
    HmacSha1,
    HmacSha224,
    HmacSha256,
    HmacSha384,
    HmacSha512,
    Pbkdf2Sha1,
    Pbkdf2Sha256,
    Pbkdf2Sha512,
    Scrypt,
    Pkcs12Key,
    Pkcs12Store,
    Pkcs12Written,
    PhcVerify,
    PhcString,
    Pkcs5Decrypt,
    Pkcs5Encrypt,
    Pkcs5Scheme,
    SpkiFingerprint,
    Identifier,
}

/// The call of this name that has a cipher work on one block.
fn block_call(name: &str) -> Option<Call>
    ensures { IfSome result (λ call. name.now ≡ name_of call) }
{
    match name {
        "aes128-encrypt" => Some(Call::Aes128Encrypt),
        "aes128-decrypt" => Some(Call::Aes128Decrypt),
        "aes192-encrypt" => Some(Call::Aes192Encrypt),
        "aes192-decrypt" => Some(Call::Aes192Decrypt),
        "aes256-encrypt" => Some(Call::Aes256Encrypt),
        "aes256-decrypt" => Some(Call::Aes256Decrypt),
        "des-encrypt" => Some(Call::DesEncrypt),
        "des-decrypt" => Some(Call::DesDecrypt),
        "tdes-encrypt" => Some(Call::TdesEncrypt),
        "tdes-decrypt" => Some(Call::TdesDecrypt),
        _ => None,
    }
}

/// The call of this name that has a cipher work in a mode.
fn mode_call(name: &str) -> Option<Call>
    ensures { IfSome result (λ call. name.now ≡ name_of call) }
{
    match name {
        "cbc-aes128-decrypt" => Some(Call::CbcAes128Decrypt),
        "cbc-aes192-decrypt" => Some(Call::CbcAes192Decrypt),
        "cbc-aes256-decrypt" => Some(Call::CbcAes256Decrypt),
        "cbc-des-decrypt" => Some(Call::CbcDesDecrypt),
        "cbc-tdes-decrypt" => Some(Call::CbcTdesDecrypt),
        "gcm-aes128-encrypt" => Some(Call::GcmAes128Encrypt),
        "gcm-aes128-decrypt" => Some(Call::GcmAes128Decrypt),
        "gcm-aes192-encrypt" => Some(Call::GcmAes192Encrypt),
        "gcm-aes192-decrypt" => Some(Call::GcmAes192Decrypt),
        "gcm-aes256-encrypt" => Some(Call::GcmAes256Encrypt),
        "gcm-aes256-decrypt" => Some(Call::GcmAes256Decrypt),
        _ => None,
    }
}

/// The call of this name that returns a tag or a key.
fn key_call(name: &str) -> Option<Call>
    ensures { IfSome result (λ call. name.now ≡ name_of call) }
{
    match name {
        "hmac-sha1" => Some(Call::HmacSha1),
        "hmac-sha224" => Some(Call::HmacSha224),
        "hmac-sha256" => Some(Call::HmacSha256),
        "hmac-sha384" => Some(Call::HmacSha384),
        "hmac-sha512" => Some(Call::HmacSha512),
        "pbkdf2-sha1" => Some(Call::Pbkdf2Sha1),
        "pbkdf2-sha256" => Some(Call::Pbkdf2Sha256),
        "pbkdf2-sha512" => Some(Call::Pbkdf2Sha512),
        "scrypt" => Some(Call::Scrypt),
        "pkcs12-key" => Some(Call::Pkcs12Key),
        _ => None,
    }
}

/// The call of this name on a store, the string of a password, a scheme, a public key or an identifier.
fn text_call(name: &str) -> Option<Call>
    ensures { IfSome result (λ call. name.now ≡ name_of call) }
{
    match name {
        "pkcs12-store" => Some(Call::Pkcs12Store),
        "pkcs12-written" => Some(Call::Pkcs12Written),
        "phc-verify" => Some(Call::PhcVerify),
        "phc-string" => Some(Call::PhcString),
        "pkcs5-decrypt" => Some(Call::Pkcs5Decrypt),
        "pkcs5-encrypt" => Some(Call::Pkcs5Encrypt),
        "pkcs5-scheme" => Some(Call::Pkcs5Scheme),
        "spki-fingerprint" => Some(Call::SpkiFingerprint),
        "identifier" => Some(Call::Identifier),
        _ => None,
    }
}

impl Call {
    /// The call of this name.
    pub fn new(name: &str) -> Option<Call>
        ensures { IfSome result (λ call. name.now ≡ name_of call) }
    {
        if let Some(call) = block_call(name) {
            return Some(call);
        }
        if let Some(call) = mode_call(name) {
            return Some(call);
        }
        if let Some(call) = key_call(name) {
            return Some(call);
        }
        text_call(name)
    }
}
