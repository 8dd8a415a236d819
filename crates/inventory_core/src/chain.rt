//! The steps of a chain of certificates.
ghost use Rattle.std.specs.Prelude.{◌≡◌, ℕ, None, get_or, IfOk};
ghost use Rattle.std.specs.BTreeMap as tree;
ghost use Rattle.std.specs.Ordering.{nat_cmp};
ghost use Rattle.inventory_core.specs.SubjectIndex.{cursor_of, moved, skipped};

use std::alloc::AllocError;
use std::collections::BTreeMap;

/// The cursors of a chain. For the first certificate of a subject: the certificate at which the
/// search for the next one with this subject goes on, or `None` where all of them are in the chain.
/// A cursor that was not moved is left out, and is at that first certificate. Certificates from a
/// cursor on are not in the chain, but for the one that the chain starts with.
pub(crate) type Cursors = BTreeMap<usize, Option<usize>>;

/// The number at this place, where there is one.
pub(crate) fn number_at(numbers: &[Option<usize>], k: usize) -> Option<usize>
    ensures { result ≡ get_or numbers.now k None }
{
    match numbers.get(k) {
        Some(number) => *number,
        None => None,
    }
}

/// The cursor of the certificates with the subject of `first`, which is the first of them.
fn cursor_at(cursors: &Cursors, first: usize) -> Option<usize>
    ensures { result ≡ cursor_of (tree.get nat_cmp cursors.now) first }
{
    match cursors.get(&first) {
        Some(cursor) => *cursor,
        None => Some(first),
    }
}

/// The certificate at a cursor, or the next one with its subject where that is the start.
fn skip_start(namesakes: &[Option<usize>], start: usize, cursor: Option<usize>) -> Option<usize>
    ensures { result ≡ skipped namesakes.now start cursor }
{
    let k = cursor?;
    if k == start {
        number_at(namesakes, k)
    } else {
        Some(k)
    }
}

/// Takes the next certificate of those with the subject of `first`, which is the first of them.
pub(crate) fn take_next(
    namesakes: &[Option<usize>],
    cursors: &mut Cursors,
    start: usize,
    first: usize,
) -> Result<Option<usize>, AllocError>
    ensures next { IfOk result (λ next. next
        ≡ skipped namesakes.now start (cursor_of (tree.get nat_cmp cursors.old) first)) }
    ensures cursors { IfOk result (λ next. (r : ℕ) → cursor_of (tree.get nat_cmp cursors.new) r
        ≡ moved namesakes.now first next (cursor_of (tree.get nat_cmp cursors.old)) r) }
{
    let Some(k) = skip_start(namesakes, start, cursor_at(cursors, first)) else {
        return Ok(None);
    };
    cursors.insert(first, number_at(namesakes, k))?;
    Ok(Some(k))
}
