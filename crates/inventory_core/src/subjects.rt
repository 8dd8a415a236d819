//! How an index of subjects is made, from the last certificate to the first.
ghost use Rattle.std.specs.Prelude.{◌≡◌, ℕ, List, Some, None, cond, get_or, IfOk, OnOk};
ghost use Rattle.std.specs.BTreeMap as tree;
ghost use Rattle.std.specs.Cmp.Lexicographic.{slice_cmp};
ghost use Rattle.std.specs.Ordering.{nat_cmp};
ghost use Rattle.asn1_core.specs.Texts.{seen_option};
ghost use Rattle.inventory_core.specs.Chains.{has_subject};
ghost use Rattle.inventory_core.specs.SubjectIndex.{at_issuer, at_subject, issuer_of, named_from, namesake_of};
ghost use Rattle.inventory_core.specs.View.{seen_all, seen_certificate};

use crate::certificate::CertificateView;
use std::alloc::{AllocError, Global};
use std::collections::BTreeMap;

/// Takes note of the subject of a certificate, which comes before those noted so far, and returns
/// the next certificate with the same subject.
fn note_subject<'a>(
    firsts: &mut BTreeMap<&'a [u8], usize>,
    certificate: &Option<CertificateView<'a>>,
    k: usize,
) -> Result<Option<usize>, AllocError>
    ensures namesake { IfOk result (λ namesake. namesake
        ≡ at_subject (λ name. tree.get_by (λ n. slice_cmp nat_cmp name n.now) firsts.old)
        (Some (seen_option seen_certificate certificate.now))) }
    ensures firsts { OnOk result ((name : List ℕ)
        → tree.get_by (λ n. slice_cmp nat_cmp name n.now) firsts.new
        ≡ cond (has_subject (Some (seen_option seen_certificate certificate.now)) name) (Some k)
        (tree.get_by (λ n. slice_cmp nat_cmp name n.now) firsts.old)) }
{
    match certificate {
        Some(certificate) => {
            let namesake = firsts.insert(certificate.subject, k)?;
            Ok(namesake)
        }
        None => Ok(None),
    }
}

/// For each certificate the next one with the same subject, and in the map the first of each
/// subject.
pub(crate) fn namesakes_of<'a>(
    alloc: Global,
    certificates: &[Option<CertificateView<'a>>],
    firsts: &mut BTreeMap<&'a [u8], usize>,
) -> Result<Vec<Option<usize>>, AllocError>
    requires { (name : List ℕ)
        → tree.get_by (λ n. slice_cmp nat_cmp name n.now) firsts.old ≡ None }
    ensures namesakes { IfOk result (λ namesakes. (k : ℕ) → get_or namesakes.items k None
        ≡ namesake_of (seen_all certificates.now) k) }
    ensures firsts { OnOk result ((name : List ℕ)
        → tree.get_by (λ n. slice_cmp nat_cmp name n.now) firsts.new
        ≡ named_from (seen_all certificates.now) 0 name) }
{
    let mut namesakes = vec![in alloc; None; certificates.len()]?;
    for k in (0..certificates.len()).rev() {
        namesakes[k] = note_subject(firsts, &certificates[k], k)?;
    }
    Ok(namesakes)
}

/// The first certificate that may have issued one that is not its own issuer.
fn issuer_among(
    firsts: &BTreeMap<&[u8], usize>,
    certificate: &Option<CertificateView<'_>>,
) -> Option<usize>
    ensures { result
        ≡ at_issuer (λ name. tree.get_by (λ n. slice_cmp nat_cmp name n.now) firsts.now)
        (Some (seen_option seen_certificate certificate.now)) }
{
    let Some(certificate) = certificate else {
        return None;
    };
    if certificate.issuer == certificate.subject {
        return None;
    }
    firsts.get(certificate.issuer).copied()
}

/// For each certificate the first that may have issued it.
pub(crate) fn issuers_of(
    alloc: Global,
    certificates: &[Option<CertificateView<'_>>],
    firsts: &BTreeMap<&[u8], usize>,
) -> Result<Vec<Option<usize>>, AllocError>
    requires { (name : List ℕ)
        → tree.get_by (λ n. slice_cmp nat_cmp name n.now) firsts.now
        ≡ named_from (seen_all certificates.now) 0 name }
    ensures { IfOk result (λ issuers. (j : ℕ) → get_or issuers.items j None
        ≡ issuer_of (seen_all certificates.now) j) }
{
    let mut issuers = Vec::new(alloc);
    for certificate in certificates {
        issuers.push(issuer_among(firsts, certificate))?;
    }
    Ok(issuers)
}
