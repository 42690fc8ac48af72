ghost use Rattle.std.specs.Prelude.{◌≡◌, IfOk};

use std::alloc::{AllocError, AllocFailed, Global};

/// There is no memory left for a call.
#[derive(Clone, Copy, Debug, PartialEq, Eq)]
pub struct OutOfMemory;

impl From<AllocError> for OutOfMemory {
    fn from(_e: AllocError) -> OutOfMemory {
        OutOfMemory
    }
}

impl<T: Drop> From<AllocFailed<T>> for OutOfMemory {
    fn from(_e: AllocFailed<T>) -> OutOfMemory {
        OutOfMemory
    }
}

/// A fallible `Clone`: it makes an equal value in memory of its own.
pub trait Duplicate: Sized + Drop {
    /// An equal value. Fails only if out of memory.
    fn copy(&self, alloc: Global) -> Result<Self, OutOfMemory>
        ensures { IfOk result (λ made. made ≡ self.now) };
}

impl Duplicate for u32 {
    fn copy(&self, _alloc: Global) -> Result<u32, OutOfMemory> {
        Ok(*self)
    }
}

impl Duplicate for u64 {
    fn copy(&self, _alloc: Global) -> Result<u64, OutOfMemory> {
        Ok(*self)
    }
}

impl<A: Duplicate, B: Duplicate> Duplicate for (A, B) {
    fn copy(&self, alloc: Global) -> Result<(A, B), OutOfMemory> {
        let first = self.0.copy(alloc)?;
        let second = self.1.copy(alloc)?;
        Ok((first, second))
    }
}

impl<A: Duplicate> Duplicate for Option<A> {
    fn copy(&self, alloc: Global) -> Result<Option<A>, OutOfMemory> {
        match self {
            None => Ok(None),
            Some(value) => Ok(Some(value.copy(alloc)?)),
        }
    }
}
