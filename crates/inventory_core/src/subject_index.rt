//! An index of certificates by their subjects: parents and chains.
ghost use Rattle.std.specs.Prelude.{◌≡◌, ◌++◌, [], ◌∷◌, ℕ, List, None, get_or, IfOk, IfSome, MatchOption};
ghost use Rattle.std.specs.BTreeMap as tree;
ghost use Rattle.std.specs.List.{slice_get};
ghost use Rattle.std.specs.Option.{option_flatten, option_map};
ghost use Rattle.std.specs.Ordering.{nat_cmp};
ghost use Rattle.std.proofs.Props.{props};
ghost use Rattle.inventory_core.specs.Chains.{IsChain, IsParent, Next};
ghost use Rattle.inventory_core.specs.SubjectIndex.{AreCursors, cursor_of, issuer_of, namesake_of};
ghost use Rattle.inventory_core.specs.View.{seen_all, seen_certificate};

use crate::certificate::CertificateView;
use crate::chain::{Cursors, number_at, take_next};
use crate::parent::Parent;
use crate::subjects::{issuers_of, namesakes_of};
use octet_core::Items;
use std::alloc::{AllocError, Global};
use std::collections::BTreeMap;

/// The certificates of a store, with an index of their subjects, by which their parents and chains
/// are found. Certificates are numbered from 0; `None` is for one that could not be read.
///
/// Making it takes a time that is about linear in what the certificates take, a parent a constant
/// one, and a chain one that is about linear in its length.
#[derive(Drop)]
pub struct SubjectIndex<'a> {
    certificates: &'a [Option<CertificateView<'a>>],
    /// For each certificate the first whose subject is its issuer; none where it is its own issuer.
    issuers: Vec<Option<usize>>,
    /// For each certificate the next one with the same subject.
    namesakes: Vec<Option<usize>>,
    ghost issuers_are: { (j : ℕ) → get_or issuers.items j None
        ≡ issuer_of (seen_all certificates.now) j } by { Prim.hlevel props },
    ghost namesakes_are: { (k : ℕ) → get_or namesakes.items k None
        ≡ namesake_of (seen_all certificates.now) k } by { Prim.hlevel props },
}

impl<'a> SubjectIndex<'a> {
    /// An index of the certificates of a store, in their order; `None` is for one that could not be read.
    /// `AllocError` where there is no memory.
    pub fn new(
        alloc: Global,
        certificates: &'a [Option<CertificateView<'a>>],
    ) -> Result<SubjectIndex<'a>, AllocError>
        ensures { IfOk result (λ index. index.certificates.now ≡ certificates.now) }
    {
        let mut firsts = BTreeMap::new(alloc);
        let namesakes = namesakes_of(alloc, certificates, &mut firsts)?;
        let issuers = issuers_of(alloc, certificates, &firsts)?;
        Ok(SubjectIndex {
            certificates,
            issuers,
            namesakes,
        })
    }

    /// The certificates of the index, in their order.
    pub fn certificates(&self) -> &'a [Option<CertificateView<'a>>]
        ensures { result.now ≡ self.now.certificates.now }
    {
        self.certificates
    }

    /// The certificate of this number, where there is one and it could be read.
    fn certificate(&self, j: usize) -> Option<CertificateView<'a>>
        ensures { option_map seen_certificate result
            ≡ option_flatten (slice_get (seen_all self.now.certificates.now) j) }
    {
        match self.certificates.get(j) {
            Some(certificate) => *certificate,
            None => None,
        }
    }

    /// The parent of the certificate of number `j`: itself where its issuer is its subject, else
    /// the first other certificate whose subject is its issuer. `Unknown` where there is none,
    /// and where there is no such number or the certificate could not be read.
    pub fn parent_of(&self, j: usize) -> Parent
        ensures { MatchOption (option_flatten (slice_get (seen_all self.now.certificates.now) j))
            (result ≡ Parent.Unknown)
            (λ c. IsParent (seen_all self.now.certificates.now) j c result) }
    {
        let Some(certificate) = self.certificate(j) else {
            return Parent::Unknown;
        };
        if certificate.issuer == certificate.subject {
            return Parent::Itself;
        }
        match number_at(self.issuers.as_slice(), j) {
            Some(k) => Parent::Of(k),
            None => Parent::Unknown,
        }
    }

    /// The certificate that comes next in a chain after the certificate `last`.
    fn next_of(
        &self,
        cursors: &mut Cursors,
        start: usize,
        last: usize,
    ) -> Result<Option<usize>, AllocError>
        ensures next { (chain : List ℕ)
            → AreCursors (seen_all self.now.certificates.now) start chain
            (cursor_of (tree.get nat_cmp cursors.old))
            → IfOk result (λ next. Next (seen_all self.now.certificates.now) chain last next) }
        ensures cursors { (chain : List ℕ)
            → AreCursors (seen_all self.now.certificates.now) start chain
            (cursor_of (tree.get nat_cmp cursors.old))
            → IfOk result (λ next. IfSome next (λ k.
            AreCursors (seen_all self.now.certificates.now) start (chain ++ k ∷ [])
            (cursor_of (tree.get nat_cmp cursors.new)))) }
    {
        match number_at(self.issuers.as_slice(), last) {
            Some(first) => take_next(self.namesakes.as_slice(), cursors, start, first),
            None => Ok(None),
        }
    }

    /// The chain of certificates from the one with the number `start`, as numbers in the order of the
    /// chain. Each certificate is followed by its issuer's: the first certificate whose subject is its
    /// issuer and that is not yet in the chain. The chain ends where there is no such certificate, and
    /// at one that could not be read or is its own issuer. `AllocError` where there is no memory.
    pub fn chain_from(&self, alloc: Global, start: usize) -> Result<Items<usize>, AllocError>
        ensures { IfOk result (λ ks. IsChain (seen_all self.now.certificates.now) start ks) }
    {
        let mut cursors = Cursors::new(alloc);
        let mut chain = Items::new(alloc);
        chain.push(start)?;
        let mut last = start;
        'links: loop {
            let k = match self.next_of(&mut cursors, start, last)? {
                Some(k) => k,
                None => return Ok(chain),
            };
            chain.push(k)?;
            last = k;
        }
    }
}
