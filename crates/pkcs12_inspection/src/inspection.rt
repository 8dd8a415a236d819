//! What of a store is seen before it is opened, and what of it is not opened.
ghost use Rattle.std.specs.Prelude.{◌≡◌, ◌<◌, ◌≤◌, ◌^◌, IsTrue, length};
ghost use Rattle.p12.specs.AlgorithmIdentifier.{salt_of};
ghost use Rattle.p12.specs.AlgorithmView.{seen_algorithm};

use crate::algorithm_name::{AlgorithmName, Named};
use crate::detail::Detail;
use crate::old_cipher::OldCipher;
use crate::out_of_memory::out_of_memory;
use crate::pbmac1::{Pbmac1, mac_work};
use asn1_core::Octets;
use command_base::Password;
use legacy_store::scrypt_text;
use p12::{AlgorithmView, BagView, BagsView, ContentView, ContentsView, StoreView};
use std::alloc::{AllocError, Global};
use std::marker::Brand;
use std::sync::ledger::{Blank, Ledger};
use steps::Steps;

/// The most octets of a store that is transferred, and so of each of its parts.
const STORE_LIMIT: usize = 16_777_215;

/// The contents of a store; None where its outer content is not data that lists contents.
pub(crate) fn contents_in<'a>(store: &StoreView<'a>) -> Option<ContentsView<'a>> {
    match store.auth_safe {
        ContentView::Plain { content, .. } => ContentsView::parse(content).ok(),
        ContentView::Encrypted { .. } | ContentView::Other { .. } => None,
    }
}

/// The same of a store's octets.
fn contents_of(store: &[u8]) -> Option<ContentsView<'_>> {
    match StoreView::parse(store) {
        Ok(store) => contents_in(&store),
        Err(_) => None,
    }
}

/// Whether the salt is no longer than a store, as it is in every store that is transferred.
fn has_short_salt(algorithm: &AlgorithmView<'_>) -> bool
    ensures { IsTrue result → length (salt_of (seen_algorithm algorithm.now)) ≤ 16777215 }
{
    match algorithm {
        AlgorithmView::Rc2 { salt, .. } | AlgorithmView::TripleDes { salt, .. } => {
            salt.len() <= STORE_LIMIT
        }
        AlgorithmView::Sha1
        | AlgorithmView::Sha256
        | AlgorithmView::Pbes2(_)
        | AlgorithmView::Other { .. } => true,
    }
}

/// The plain octets of a ciphertext, with a step counter of its own; None where it does not open.
fn opened_from<L: Ledger>(
    alloc: Global,
    algorithm: &AlgorithmView<'_>,
    password: &Password,
    ciphertext: &[u8],
    blank: Blank,
) -> Result<Option<Octets>, AllocError>
    requires name { blank.name ≡ L.name }
    requires parts { blank.parts ≡ L.parts }
    requires some { 0 < blank.parts }
    requires ciphertext { length ciphertext.now < 2 ^ 32 }
    requires salt { length (salt_of (seen_algorithm algorithm.now)) < 2 ^ 59 }
{
    let mut steps = Steps::<L>::open(blank);
    let mut text = Octets::from_slice(alloc, ciphertext)?;
    match algorithm.decrypt_in_place_counted(
        alloc,
        password.as_str(),
        text.as_mut_slice(),
        &mut steps,
    ) {
        Ok(Some(len)) => {
            text.truncate(len);
            Ok(Some(text))
        }
        Ok(None) => Ok(None),
        Err(error) => Err(out_of_memory(error)),
    }
}

/// The plain octets of a content under the password; None where it does not open.
pub fn plain_of(
    alloc: Global,
    content: &ContentView<'_>,
    password: &Password,
) -> Result<Option<Octets>, AllocError> {
    match content {
        ContentView::Plain { content, .. } => Ok(Some(Octets::from_slice(alloc, content)?)),
        ContentView::Encrypted {
            algorithm,
            content,
            ..
        } => {
            if content.len() > STORE_LIMIT || !has_short_salt(algorithm) {
                return Ok(None);
            }
            opened_from::<Brand>(alloc, algorithm, password, content, Blank::new(1))
        }
        ContentView::Other { .. } => Ok(None),
    }
}

/// The steps of opening a text under an algorithm, where it is opened.
fn work_under(algorithm: &AlgorithmView<'_>) -> u128 {
    match algorithm {
        AlgorithmView::Pbes2(parameters) => {
            algorithm
                .cost()
                .saturating_add(scrypt_text::cost(parameters))
        }
        _ => algorithm.cost(),
    }
}

/// The steps of opening a content, where it is opened.
fn content_work(content: &ContentView<'_>) -> u128 {
    match content {
        ContentView::Encrypted { algorithm, .. } => work_under(algorithm),
        ContentView::Plain { .. } | ContentView::Other { .. } => 0,
    }
}

/// The steps of opening the contents.
fn contents_work(mut contents: ContentsView<'_>) -> u128 {
    let mut work = 0u128;
    while let Some(content) = contents.next() {
        work = work.saturating_add(content_work(&content));
    }
    work
}

/// Whether a content is encrypted, as a number.
fn encrypted_in(content: &ContentView<'_>) -> usize {
    match content {
        ContentView::Encrypted { .. } => 1,
        ContentView::Plain { .. } | ContentView::Other { .. } => 0,
    }
}

/// How many contents of a store are encrypted; 0 where there is no store.
pub fn encrypted_contents(store: &[u8]) -> usize {
    let Some(mut contents) = contents_of(store) else {
        return 0;
    };
    let mut count = 0usize;
    while let Some(content) = contents.next() {
        count = count.saturating_add(encrypted_in(&content));
    }
    count
}

/// The steps of testing the MAC of a store; 0 where there is no store or no MAC.
pub fn steps_of_mac(store: &[u8]) -> u64 {
    match StoreView::parse(store) {
        Ok(
            StoreView {
                mac_data: Some(mac),
                ..
            },
        ) => mac_work(&mac),
        _ => 0,
    }
}

/// The steps of the MAC and of opening the contents, which are seen before one of them is opened; 0
/// where there is no store. Those of the private keys are not.
pub fn visible_work(store: &[u8]) -> u128 {
    let Ok(store) = StoreView::parse(store) else {
        return 0;
    };
    let mac = match &store.mac_data {
        Some(mac) => u128::from(mac_work(mac)),
        None => 0,
    };
    match contents_in(&store) {
        Some(contents) => mac.saturating_add(contents_work(contents)),
        None => mac,
    }
}

/// Which ciphers of old stores are opened.
#[derive(Clone, Copy)]
enum OldCiphers {
    No,
    All,
    /// Those that are opened in a store without a MAC.
    WithoutMac,
}

impl OldCiphers {
    /// Those of a store, with `modern_only` of one of today.
    fn of(store: &StoreView<'_>, modern_only: bool) -> OldCiphers {
        if modern_only {
            OldCiphers::No
        } else if store.mac_data.is_some() {
            OldCiphers::All
        } else {
            OldCiphers::WithoutMac
        }
    }
}

/// Whether texts under an algorithm are opened in old stores, by scrypt.
fn is_opened_by_scrypt(algorithm: &AlgorithmView<'_>) -> bool {
    match algorithm {
        AlgorithmView::Pbes2(parameters) => scrypt_text::is_openable(parameters),
        _ => false,
    }
}

/// Whether texts under an algorithm are opened.
fn is_opened(algorithm: &AlgorithmView<'_>, old: OldCiphers) -> bool {
    match (OldCipher::of(algorithm), old) {
        (None, OldCiphers::No) => algorithm.is_openable(),
        (None, _) => algorithm.is_openable() || is_opened_by_scrypt(algorithm),
        (Some(_), OldCiphers::No) => false,
        (Some(_), OldCiphers::All) => true,
        (Some(cipher), OldCiphers::WithoutMac) => cipher != OldCipher::Rc2Of40,
    }
}

/// The first private key among the bags in these octets that is under an algorithm that is not
/// opened.
fn key_not_opened(
    alloc: Global,
    text: &[u8],
    old: OldCiphers,
) -> Result<Option<String>, AllocError> {
    let Ok(mut bags) = BagsView::parse(text) else {
        return Ok(None);
    };
    while let Some(bag) = bags.next() {
        if let BagView::Shrouded { algorithm, .. } = bag
            && !is_opened(&algorithm, old)
        {
            let name = AlgorithmName(&algorithm);
            return Ok(Some(format!(in alloc; "a private key is encrypted by {name}")?));
        }
    }
    Ok(None)
}

/// Why one content is not opened, by its kind or its algorithm.
fn content_not_opened(
    alloc: Global,
    content: &ContentView<'_>,
    old: OldCiphers,
) -> Result<Option<String>, AllocError> {
    match content {
        ContentView::Plain { .. } => Ok(None),
        ContentView::Encrypted { algorithm, .. } if is_opened(algorithm, old) => Ok(None),
        ContentView::Encrypted { algorithm, .. } => {
            let name = AlgorithmName(algorithm);
            Ok(Some(format!(in alloc; "a content is encrypted by {name}")?))
        }
        ContentView::Other { content_type, .. } => {
            let name = Named(*content_type);
            Ok(Some(format!(in alloc; "a content is of the kind {name}")?))
        }
    }
}

/// The first of the contents that is not opened.
fn contents_not_opened(
    alloc: Global,
    mut contents: ContentsView<'_>,
    old: OldCiphers,
) -> Result<Option<String>, AllocError> {
    while let Some(content) = contents.next() {
        if let Some(text) = content_not_opened(alloc, &content, old)? {
            return Ok(Some(text));
        }
    }
    Ok(None)
}

/// The first of the contents' keys that is not opened.
fn keys_not_opened(
    alloc: Global,
    mut contents: ContentsView<'_>,
    password: &Password,
    old: OldCiphers,
) -> Result<Option<String>, AllocError> {
    while let Some(content) = contents.next() {
        if let Some(plain) = plain_of(alloc, &content, password)? {
            if let Some(text) = key_not_opened(alloc, plain.as_slice(), old)? {
                return Ok(Some(text));
            }
        }
    }
    Ok(None)
}

/// Why the outer content is not opened: it has to be data, in which the contents are.
fn outer_not_opened(alloc: Global, outer: &ContentView<'_>) -> Result<Option<String>, AllocError> {
    match outer {
        ContentView::Plain { .. } => Ok(None),
        ContentView::Encrypted { .. } => Ok(Some(format!(in alloc;
            "the outer content is of the kind encryptedData (1.2.840.113549.1.7.6)"
        )?)),
        ContentView::Other { content_type, .. } => {
            let name = Named(*content_type);
            Ok(Some(format!(in alloc; "the outer content is of the kind {name}")?))
        }
    }
}

/// What of the store is unsupported, under its password: the kind of the outer content, the first content that is not opened, or
/// the first key; None where nothing is. With `modern_only` what is opened in old stores alone is unsupported.
pub fn unsupported(
    alloc: Global,
    store: &[u8],
    password: &Password,
    modern_only: bool,
) -> Result<Option<String>, AllocError> {
    let Ok(view) = StoreView::parse(store) else {
        return Ok(None);
    };
    if let Some(text) = outer_not_opened(alloc, &view.auth_safe)? {
        return Ok(Some(text));
    }
    let old = OldCiphers::of(&view, modern_only);
    if let Some(contents) = contents_in(&view) {
        if let Some(text) = contents_not_opened(alloc, contents, old)? {
            return Ok(Some(text));
        }
    }
    match contents_in(&view) {
        Some(contents) => keys_not_opened(alloc, contents, password, old),
        None => Ok(None),
    }
}

/// What the MAC is made with, where there is a MAC.
fn mac_digest(store: &[u8]) -> Option<AlgorithmView<'_>> {
    match StoreView::parse(store) {
        Ok(
            StoreView {
                mac_data: Some(mac),
                ..
            },
        ) => Some(mac.algorithm),
        _ => None,
    }
}

/// What of PBMAC1 is not supported: the length of the key, since all that it is made with is.
fn pbmac1_unsupported(alloc: Global, pbmac1: &Pbmac1) -> Result<Option<Detail>, AllocError> {
    let text = match pbmac1.key_length() {
        Some(octets) => format!(in alloc;
            "the MAC of the store is made with {pbmac1} and a key of {octets} octets, of which at least 20 are needed"
        )?,
        None => format!(in alloc;
            "the MAC of the store is made with {pbmac1}, whose parameters do not say how long the key is"
        )?,
    };
    Ok(Some(Detail::of(text)))
}

/// What the MAC is made with that is not supported. The only error is out of memory.
pub fn mac_unsupported(alloc: Global, store: &[u8]) -> Result<Option<Detail>, AllocError> {
    let Some(digest) = mac_digest(store) else {
        return Ok(None);
    };
    if let Some(pbmac1) = Pbmac1::of(&digest) {
        return pbmac1_unsupported(alloc, &pbmac1);
    }
    let name = AlgorithmName(&digest);
    Ok(Some(Detail::of(format!(in alloc;
        "the MAC of the store is made with {name}, which is not supported"
    )?)))
}
