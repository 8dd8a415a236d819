//! Laws of changes, each stated by the contract of a function that does nothing.
ghost use Rattle.rekey_core.specs.Changes.{AllChangesKeep, ChangesAlike, ChangesKeep, ChangesKeepTo, NoCauseAfter, SealsWithin};
ghost use Rattle.rekey_core.specs.Making.{MadeStoresAreChanges, MadeStoresAreSized};
ghost use Rattle.rekey_core.specs.Renewed.{ChangesRenew, RenewedWork};
ghost use Rattle.rekey_core.specs.Upgraded.{RenewedTextsOpen, UpgradesReopen};

/// A store that is made of contents sealed anew is a change of the first store.
pub fn made_stores_are_changes()
    ensures { MadeStoresAreChanges }
{}

/// The text of such a store has the size that is computed before anything is sealed.
pub fn made_stores_are_sized()
    ensures { MadeStoresAreSized }
{}

/// A change keeps what a store opens to: its keys, its certificates, and its bags up to the order
/// of their attributes.
pub fn changes_keep()
    ensures { ChangesKeep }
{}

/// And so does a change to other kinds; the work of opening the changed store is bounded by these.
pub fn changes_keep_to()
    ensures { ChangesKeepTo }
{}

/// A store that is upgraded has no part and no MAC of another kind.
pub fn changes_renew()
    ensures { ChangesRenew }
{}

/// Opening an upgraded store takes the count of rounds for its MAC and for each encrypted part.
pub fn renewed_stores_cost()
    ensures { RenewedWork }
{}

/// An upgraded store opens by as many steps as sealing it took rounds, so no cause refuses it under a limit of as many.
pub fn upgrades_reopen()
    ensures { UpgradesReopen }
{}

/// What is sealed as renewed kinds opens again, however the old parts opened.
pub fn renewed_texts_open()
    ensures { RenewedTextsOpen }
{}

/// A part that is sealed anew costs no more steps than it did before.
pub fn sealing_keeps_costs()
    ensures { SealsWithin }
{}

/// Any number of changes keep what a store opens to.
pub fn all_changes_keep()
    ensures { AllChangesKeep }
{}

/// After a first change no cause refuses the store under the same limit.
pub fn no_cause_after()
    ensures { NoCauseAfter }
{}

/// A further change draws as many octets, and comes to a text of the same size.
pub fn changes_are_alike()
    ensures { ChangesAlike }
{}
