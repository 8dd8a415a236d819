//! Laws of the way of opening: each is the contract of a function that does nothing.
ghost use Rattle.legacy_store.specs.Laws.{DerListsStay, LegacyOpenedExactly, OneLegacyVerdict, OpensStoresAsBefore, OpensTextsAsBefore, RefusesStoresAsBefore, SameWithMac, ScryptFitsExactly};

/// A text that p12 opens opens to the same octets.
#[tactic(auto, using(crate::proofs::Conservative::texts_as_before))]
pub fn opens_texts_as_before()
    ensures { OpensTextsAsBefore }
{}

/// A store that `transfer` opens opens to the same bags and keys, by the same work.
#[tactic(auto, using(crate::proofs::Conservative::stores_as_before))]
pub fn opens_stores_as_before()
    ensures { OpensStoresAsBefore }
{}

/// A store that `transfer` refuses for a cause that no old store has is refused for it, by the same work.
#[tactic(auto, using(crate::proofs::Refused::stores_refused))]
pub fn refuses_stores_as_before()
    ensures { RefusesStoresAsBefore }
{}

/// One store has one verdict, after one number of steps.
#[tactic(auto, using(crate::proofs::Verdict::verdict_sole))]
pub fn one_legacy_verdict()
    ensures { OneLegacyVerdict }
{}

/// A store is opened exactly where it opens within the limit, and then the steps are its work.
#[tactic(auto, using(crate::proofs::Closed::opened_exactly))]
pub fn legacy_opened_exactly()
    ensures { LegacyOpenedExactly }
{}

/// A store with a MAC comes to the same whether one is required or not.
#[tactic(auto, using(crate::proofs::Verdict::same_with_mac))]
pub fn same_with_mac()
    ensures { SameWithMac }
{}

/// Nothing is joined in a list of contents in DER.
#[tactic(auto, using(crate::proofs::Unparted::lists_stay))]
pub fn der_lists_stay()
    ensures { DerListsStay }
{}

/// The costs of scrypt that a text is opened under are those that scrypt takes within the bound on memory.
#[tactic(auto, using(crate::proofs::ScryptCosts::fits_exactly))]
pub fn scrypt_fits_exactly()
    ensures { ScryptFitsExactly }
{}
