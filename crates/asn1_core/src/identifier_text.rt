//! The text of an identifier: its arcs in decimal, with points between them.
ghost use Rattle.std.specs.Prelude.{◌≡◌, ◌<◌, ◌≤◌, ◌^◌, [], ◌∷◌, List, ℕ, length, take, map, decimal, Some, IfSome, IfNone, MatchOption};
ghost use Rattle.std.specs.Fmt.{DisplaysOnOk};
ghost use Rattle.asn1_core.specs.Identifier.{AllUnder};
ghost use Rattle.asn1_core.specs.Arcs.{words, arc_text};

use octet_core::decimal_of;
use std::fmt;

/// The word in front of the first point, and what comes after it.
fn first_word(text: &str) -> Option<(&str, &str)>
    ensures { MatchOption result (words text.now ≡ text.now ∷ [])
        (λ x. (words text.now ≡ x.0.now ∷ words x.1.now) × (length x.1.now < length text.now)) }
{
    text.split_once('.')
}

/// Writes the arcs of a text into the array, and says how many there are. None where a word is no arc, or there are more
/// words than an identifier of 39 octets has arcs.
pub(crate) fn read_arcs(text: &str, arcs: &mut [u32; 40]) -> Option<usize>
    ensures some { IfSome result (λ n. (n ≤ 40) × AllUnder (2 ^ 32) (take n arcs.new)
        × (words text.now ≡ map decimal (take n arcs.new))) }
    ensures none { IfNone result ((list : List ℕ) → length list ≤ 40 → AllUnder (2 ^ 32) list
        → words text.now ≡ map decimal list → ⊥) }
{
    let mut rest = text;
    let mut n = 0;
    while let Some((word, more)) = first_word(rest) {
        let Some(arc) = decimal_of(word) else {
            return None;
        };
        if n == 39 {
            return None;
        }
        arcs[n] = arc;
        n += 1;
        rest = more;
    }
    let Some(arc) = decimal_of(rest) else {
        return None;
    };
    arcs[n] = arc;
    Some(n + 1)
}

/// Writes the arc at place `i`, with a point in front where it is not the first.
pub(crate) fn write_arc<W: fmt::Write>(i: usize, arc: u32, f: &mut fmt::Formatter<W>) -> fmt::Result
    ensures { DisplaysOnOk W.write_str_gives f.old result (Some (arc_text i arc)) f.new }
{
    if i == 0 {
        return write!(f, "{arc}");
    }
    write!(f, ".{arc}")
}
