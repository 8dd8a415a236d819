//! Lists in memory of their own.
ghost use Rattle.std.specs.Prelude.{◌≡◌, List, [], ◌∷◌, ◌++◌, length, IfErr, OnOk, OnErr, slice_get, ◌==◌, ◌↔◌, ◌≤◌, IfOk, IfSome, IsNone, Some};

use std::alloc::{AllocError, Global};
use std::marker::Model;

/// A list in memory of its own, which a contract sees as a list.
#[derive(Debug, Drop)]
pub struct Items<T> {
    items: Vec<T>,
}

impl<T> Model for Items<T> {
    ghost Value = { List T };

    ghost view = { λ o. o.items.items };
}

impl<T> Items<T> {
    /// No items. This takes no memory yet.
    pub fn new(alloc: Global) -> Items<T>
        ensures { result ≡ [] }
    {
        Items {
            items: Vec::new(alloc),
        }
    }

    /// One item more after the others. `AllocError` where there is no memory, and nothing is changed then; the item is let go.
    pub fn push(&mut self, item: T) -> Result<(), AllocError>
    where
        T: Drop,
        ensures ok { OnOk result (self.new ≡ self.old ++ item ∷ []) }
        ensures unchanged { OnErr result (self.new ≡ self.old) }
    {
        self.items.push(item)?;
        Ok(())
    }

    /// Gives back the memory that no item is in.
    pub fn shrink_to_fit(&mut self)
        ensures { self.new ≡ self.old }
    {
        self.items.shrink_to_fit();
    }

    /// How many items there are.
    pub fn len(&self) -> usize
        ensures { result ≡ length self.now }
    {
        self.items.len()
    }

    /// Whether there are none.
    pub fn is_empty(&self) -> bool
        ensures { result ≡ (length self.now == 0) }
    {
        self.items.is_empty()
    }

    /// The item at this place, counted from 0; none exactly where `i` is not below the number of items.
    pub fn get(&self, i: usize) -> Option<&T>
        ensures some { IfSome result (λ x. slice_get self.now i ≡ Some x.now) }
        ensures none { IsNone result ↔ length self.now ≤ i }
    {
        self.items.get(i)
    }

    /// The items, borrowed.
    pub fn as_slice(&self) -> &[T]
        ensures { result.now ≡ self.now }
    {
        self.items.as_slice()
    }

    /// The items in a vector, which takes them over. This takes no memory.
    pub fn into_vec(self) -> Vec<T>
        ensures { result.items ≡ self }
    {
        self.items
    }
}

/// The same numbers in memory of their own. `AllocError` where there is no memory.
pub(crate) fn copied_numbers(alloc: Global, numbers: &Items<u64>) -> Result<Items<u64>, AllocError>
    ensures { IfOk result (λ copies. copies ≡ numbers.now) }
{
    Ok(Items {
        items: Vec::from_slice(alloc, numbers.as_slice())?,
    })
}
