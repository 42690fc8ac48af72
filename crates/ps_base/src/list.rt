ghost use Rattle.std.specs.Prelude.{◌≡◌, [], ◌∷◌, ◌++◌, ◌<◌, length, IfOk, OnOk, OnErr};

use crate::memory::{Duplicate, OutOfMemory};
use std::alloc::Global;
use std::marker::Model;

/// A `Vec` that contracts see as a list of its items, first to last.
#[derive(Clone, Debug, Drop)]
pub struct List<T> {
    items: Vec<T>,
}

impl<T> Model for List<T> {
    ghost use Rattle.std.specs.Prelude.{List as Items};
    ghost use Rattle.std.specs.Coded.{coded_list};

    ghost Value = { Items T };

    ghost coded = { coded_list T.code };

    ghost view = { λ it. it.items.items };
}

impl<T> List<T> {
    /// The empty list. Allocates nothing.
    pub fn new(alloc: Global) -> List<T>
        ensures { result ≡ [] }
    {
        List {
            items: Vec::new(alloc),
        }
    }

    /// Wraps the items of a `Vec`, in the same memory.
    pub fn from_vec(items: Vec<T>) -> List<T>
        ensures { result ≡ items.items }
    {
        List { items }
    }

    /// The items as a `Vec`, in the same memory.
    pub fn into_vec(self) -> Vec<T>
        ensures { result.items ≡ self }
    {
        let List { items } = self;
        items
    }

    /// The items, first to last.
    pub fn as_slice(&self) -> &[T]
        ensures { result.now ≡ self.now }
    {
        self.items.as_slice()
    }

    /// The number of items.
    pub fn len(&self) -> usize
        ensures { result ≡ length self.now }
    {
        self.items.len()
    }
}

impl<T: Drop> List<T> {
    /// Adds an item at the end. If out of memory, the list stays as it was.
    pub fn push(&mut self, item: T) -> Result<(), OutOfMemory>
        ensures ok { OnOk result (self.new ≡ self.old ++ item ∷ []) }
        ensures err { OnErr result (self.new ≡ self.old) }
    {
        self.items.push(item)?;
        Ok(())
    }

    /// Removes all items, and keeps the memory for new ones.
    pub fn clear(&mut self)
        ensures { self.new ≡ [] }
    {
        self.items.clear();
    }
}

impl<T: Duplicate> List<T> {
    /// A list of equal items in the same order. Fails only if out of memory.
    pub fn copy_of(alloc: Global, items: &[T]) -> Result<List<T>, OutOfMemory>
        ensures { IfOk result (λ made. made ≡ items.now) }
    {
        let mut made = List::new(alloc);
        for item in items {
            made.push(item.copy(alloc)?)?;
        }
        Ok(made)
    }
}

impl<T: Duplicate> Duplicate for List<T> {
    fn copy(&self, alloc: Global) -> Result<List<T>, OutOfMemory> {
        List::copy_of(alloc, self.items.as_slice())
    }
}
