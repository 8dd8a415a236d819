//! Which certificate is a private key's.
ghost use Rattle.std.specs.Prelude.{◌≡◌, ◌<◌, IfOk, IfSome, length, position};
ghost use Rattle.std.specs.List.{AllZip};
ghost use Rattle.pem_stores.specs.Choice.{IsChoice, IsMatchOfTexts, IsPlaceOf, is_own, is_untold};

use asn1_core::Octets;
use inventory_core::CertificateView;
use key_files::{Match, match_of};
use pkcs8::PrivateKeyInfoRef;
use std::alloc::{AllocError, Global};

/// Which of several certificates is a private key's.
#[derive(Clone, Copy, Debug, PartialEq, Eq)]
pub(crate) enum Choice {
    /// The one at this place.
    Own(usize),
    /// The one at this place, for all that is told.
    Untold(usize),
    /// Each is that of another key.
    Nowhere,
}

/// How a certificate matches the private key of this text.
fn match_of_texts(key: &[u8], certificate: &[u8]) -> Match
    ensures { IsMatchOfTexts key.now certificate.now result }
{
    let Ok(key) = PrivateKeyInfoRef::try_from(key) else {
        return Match::Another;
    };
    match CertificateView::parse(certificate) {
        Ok(certificate) => match_of(&key, &certificate.spki),
        Err(_) => Match::Another,
    }
}

/// How each certificate matches the private key of this text.
pub(crate) fn matches_of(
    alloc: Global,
    key: &[u8],
    certificates: &[Octets],
) -> Result<Vec<Match>, AllocError>
    ensures { IfOk result (λ ms. AllZip (IsMatchOfTexts key.now) certificates.now ms.items) }
{
    let mut matches = Vec::new(alloc);
    for certificate in certificates {
        matches.push(match_of_texts(key, certificate.as_slice()))?;
    }
    Ok(matches)
}

/// Whether a certificate is the key's own.
fn is_own(found: Match) -> bool
    ensures { result ≡ is_own found }
{
    match found {
        Match::Own => true,
        Match::Another | Match::Untold => false,
    }
}

/// Whether it is not told.
fn is_untold(found: Match) -> bool
    ensures { result ≡ is_untold found }
{
    match found {
        Match::Untold => true,
        Match::Own | Match::Another => false,
    }
}

/// Where the first certificate is that is the key's own.
fn first_own(matches: &[Match]) -> Option<usize>
    ensures at { result ≡ position is_own matches.now }
    ensures within { IfSome result (λ place. place < length matches.now) }
{
    matches.iter().position(|found| is_own(*found))
}

/// Where the first one is that is not told.
fn first_untold(matches: &[Match]) -> Option<usize>
    ensures at { result ≡ position is_untold matches.now }
    ensures within { IfSome result (λ place. place < length matches.now) }
{
    matches.iter().position(|found| is_untold(*found))
}

/// The first certificate that is the key's own, or the first of which that is not told where none is.
pub(crate) fn choice_of(matches: &[Match]) -> Choice
    ensures choice { IsChoice matches.now result }
    ensures within { IsPlaceOf (length matches.now) result }
{
    if let Some(place) = first_own(matches) {
        return Choice::Own(place);
    }
    match first_untold(matches) {
        Some(place) => Choice::Untold(place),
        None => Choice::Nowhere,
    }
}
