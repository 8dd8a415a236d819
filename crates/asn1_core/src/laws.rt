//! Laws of the grammar, each the contract of a function that does nothing.
ghost use Rattle.std.specs.Prelude.{◌≡◌, ◌↔◌, ◌++◌, ℕ, List, IsTrue, IsPermutation, IsSorted};
ghost use Rattle.std.specs.Ordering.{nat_cmp};
ghost use Rattle.std.specs.Cmp.Lexicographic.{slice_cmp};
ghost use Rattle.asn1_core.specs.Der.{el};
ghost use Rattle.asn1_core.specs.Identifier.{is_identifier, IsIdentifier};
ghost use Rattle.asn1_core.specs.Sets.{in_order};

/// No element begins another, and an element has one tag and one value.
pub fn elements_are_parted()
    ensures { (t u : ℕ) (v w x y : List ℕ) → el t v ++ x ≡ el u w ++ y → (t ≡ u) × (v ≡ w)
        × (x ≡ y) }
{}

/// The test in one pass is the grammar of identifiers: subidentifiers in their fewest octets, each below 2^32, in at most 39 octets.
pub fn identifiers_are_tested()
    ensures { (o : List ℕ) → IsTrue (is_identifier o) ↔ IsIdentifier o }
{}

/// The elements of a set are written in an order of theirs in which none is less than the one before it, octet by octet.
pub fn sets_are_in_order()
    ensures same { (texts : List (List ℕ)) → IsPermutation texts (in_order texts) }
    ensures ascending { (texts : List (List ℕ)) → IsSorted (slice_cmp nat_cmp) (in_order texts) }
{}
