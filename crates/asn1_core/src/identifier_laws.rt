//! Octets, arcs and text are three forms of one identifier. Each law is the contract of a function that does nothing.
ghost use Rattle.std.specs.Prelude.{◌≡◌, ◌↔◌, ℕ, List, IsTrue};
ghost use Rattle.asn1_core.specs.Identifier.{is_identifier};
ghost use Rattle.asn1_core.specs.Arcs.{HasArcs, IsText, arcs, arcs_text};
ghost use Rattle.asn1_core.specs.Oid.{oid_octets};
ghost use Rattle.asn1_core.specs.declared.identifier.ObjectIdentifier.{ObjectIdentifier};

/// Octets are those of one `ObjectIdentifier`.
#[tactic(auto, using(crate::specs::Oid::same_oid))]
pub fn octets_have_one_identifier()
    ensures { (o p : ObjectIdentifier) → oid_octets o ≡ oid_octets p → o ≡ p }
{}

/// The octets of an identifier have one list of arcs: the one that `arc` reads.
pub fn identifiers_have_one_list_of_arcs()
    ensures { (o list : List ℕ) → HasArcs o list ↔ (IsTrue (is_identifier o) × (list ≡ arcs o)) }
{}

/// A list of arcs is that of one identifier.
pub fn arcs_have_one_identifier()
    ensures { (o p list : List ℕ) → HasArcs o list → HasArcs p list → o ≡ p }
{}

/// The octets of an identifier have one text: the one that is printed.
pub fn identifiers_have_one_text()
    ensures { (t o : List ℕ) → IsText t o ↔ (IsTrue (is_identifier o) × (t ≡ arcs_text (arcs o))) }
{}

/// A text is that of one identifier.
pub fn texts_have_one_identifier()
    ensures { (t o p : List ℕ) → IsText t o → IsText t p → o ≡ p }
{}
