//! What exactly was wrong with a store that is refused.
ghost use Rattle.std.specs.Prelude.{◌≡◌};

use crate::advice::WRONG_PASSWORD;
use crate::ending::{Ending, Failure};
use crate::long_work::Duration;
use crate::old_store::looked_at;
use command_base::{Message, Password};
use legacy_store::store_in_der;
use pkcs12_arguments::Accepted;
use pkcs12_inspection::{
    Detail, damaged, is_without_password, mac_unsupported, malformed, steps_of_mac, unsupported,
    visible_work,
};
use std::alloc::{AllocError, Global};
use transfer::TransferError;

const WITHOUT_PASSWORD: &str = "\
the store was made with no password at all, which is not the empty password";

const OPENSSL: &str = "\
OpenSSL opens it, if you press Enter at its question, and can write it anew with a password. It keeps one \
private key of it, and no friendly name, so count the keys first:
    openssl pkcs12 -in STORE.p12 -nocerts -passout pass:count | grep -c BEGIN
If there is one or none:
    openssl pkcs12 -in STORE.p12 -out anew.pem
    openssl pkcs12 -export -in anew.pem -out NEW.p12 -certpbe AES-256-CBC -keypbe AES-256-CBC -macalg sha256
    rm anew.pem";

const NO_MAC_TELLS: &str = "\
the password is wrong, or the store is damaged: it has no MAC, which would tell one from the other";

/// An attempt to open a store.
#[derive(Clone, Copy)]
pub struct Attempt<'a> {
    pub store: &'a [u8],
    pub password: &'a Password,
    /// The most steps.
    pub limit: u64,
    pub accepted: Accepted,
}

/// What a store was made with whose MAC does not agree under the empty password.
fn mac_mismatch(
    alloc: Global,
    store: &[u8],
    password: &Password,
) -> Result<Option<Detail>, AllocError> {
    if !password.as_str().is_empty() || !is_without_password(alloc, store)? {
        return Ok(None);
    }
    let text = String::from_str(alloc, WITHOUT_PASSWORD)?;
    Ok(Some(Detail::advised(alloc, text, OPENSSL)?))
}

/// How much work a store takes that takes more than this limit.
fn work_limit(alloc: Global, store: &[u8], limit: u64) -> Result<Option<Detail>, AllocError> {
    let work = visible_work(store);
    if work <= u128::from(limit) {
        let text = format!(in alloc;
            "opening the store takes more than the {limit} steps that --limit allows"
        )?;
        let advice = format!(in alloc;
            "If you trust the store, give a larger limit than {limit}."
        )?;
        return Ok(Some(Detail {
            text,
            advice: Some(advice),
        }));
    }
    let duration = Duration(work);
    let text = format!(in alloc;
        "opening the store takes at least {work} steps, about {duration}, and --limit allows less"
    )?;
    let advice = format!(in alloc;
        "If you trust the store, give a larger limit, at least\n    --limit {work}"
    )?;
    Ok(Some(Detail {
        text,
        advice: Some(advice),
    }))
}

/// The same of what is unsupported.
fn not_supported(
    alloc: Global,
    store: &[u8],
    password: &Password,
    modern_only: bool,
) -> Result<Option<Detail>, AllocError> {
    match unsupported(alloc, store, password, modern_only)? {
        Some(text) => Ok(Some(Detail::of(text))),
        None => Ok(None),
    }
}

/// Of a store without a MAC of which a part does not open.
fn no_mac_tells(alloc: Global) -> Result<Option<Detail>, AllocError> {
    let text = String::from_str(alloc, NO_MAC_TELLS)?;
    Ok(Some(Detail::advised(alloc, text, WRONG_PASSWORD)?))
}

/// What more there is to say of a refusal; None where its meaning says all.
fn detail(
    alloc: Global,
    refusal: TransferError,
    tried: &Attempt<'_>,
) -> Result<Option<Detail>, AllocError> {
    let store = tried.store;
    let password = tried.password;
    let modern_only = tried.accepted == Accepted::Modern;
    match refusal {
        TransferError::Malformed => malformed(alloc, store, modern_only),
        TransferError::DecryptFailed | TransferError::ContentMalformed | TransferError::KeyMalformed
            if steps_of_mac(store) == 0 => no_mac_tells(alloc),
        TransferError::ContentMalformed => damaged(alloc, store, password, modern_only),
        TransferError::Unsupported => not_supported(alloc, store, password, modern_only),
        TransferError::MacUnsupported => mac_unsupported(alloc, store),
        TransferError::MacMismatch => mac_mismatch(alloc, store, password),
        TransferError::WorkLimit => work_limit(alloc, store, tried.limit),
        _ => Ok(None),
    }
}

/// The same of a store that may be in BER, which is looked at in DER.
fn seen_detail(
    alloc: Global,
    refusal: TransferError,
    tried: &Attempt<'_>,
) -> Result<Option<Detail>, AllocError> {
    if tried.accepted == Accepted::Modern {
        return detail(alloc, refusal, tried);
    }
    let in_der = store_in_der(alloc, tried.store)?;
    let seen = Attempt {
        store: looked_at(&in_der, tried.store),
        password: tried.password,
        limit: tried.limit,
        accepted: tried.accepted,
    };
    detail(alloc, refusal, &seen)
}

fn message_of(text: String) -> Message {
    Message::Made(text)
}

/// The failure of an attempt to open a store, with what more there is to say of it. Its kind stays. What is unsupported or damaged
/// is looked for by decrypting the contents once more, within the limit that opening kept.
pub fn with_detail(alloc: Global, failure: Failure, tried: &Attempt<'_>) -> Failure
    ensures { result.ending ≡ failure.ending }
{
    let Ending::Refused(refusal) = failure.ending else {
        return failure;
    };
    match seen_detail(alloc, refusal, tried) {
        Ok(Some(detail)) => Failure {
            ending: failure.ending,
            message: Message::Made(detail.text),
            advice: detail.advice.map(message_of),
        },
        // Where even that cannot be told, the refusal itself still is.
        Ok(None) | Err(_) => failure,
    }
}
