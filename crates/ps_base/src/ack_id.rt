use crate::memory::{Duplicate, OutOfMemory};
use std::alloc::Global;

/// Names one lease of one message on one subscription, each by its number.
#[derive(Clone, Copy, Debug, PartialEq, Eq)]
pub struct AckId {
    pub sub: u64,
    pub message: u64,
    pub lease: u64,
}

impl Duplicate for AckId {
    fn copy(&self, _alloc: Global) -> Result<AckId, OutOfMemory> {
        Ok(*self)
    }
}
