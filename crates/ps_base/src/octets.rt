ghost use Rattle.std.specs.Prelude.{◌≡◌, length, IfOk};

use crate::memory::{Duplicate, OutOfMemory};
use std::alloc::Global;
use std::marker::Model;

/// Bytes on the heap, which contracts see as a list.
#[derive(Clone, Debug, Drop)]
pub struct Octets {
    bytes: Vec<u8>,
}

impl Model for Octets {
    ghost use Rattle.std.specs.Prelude.{List, ℕ};

    ghost Value = { List ℕ };

    ghost view = { λ it. it.bytes.items };
}

impl Octets {
    /// A copy of these bytes. Fails only if out of memory.
    pub fn from_slice(alloc: Global, bytes: &[u8]) -> Result<Octets, OutOfMemory>
        ensures { IfOk result (λ made. made ≡ bytes.now) }
    {
        Ok(Octets {
            bytes: Vec::from_slice(alloc, bytes)?,
        })
    }

    /// Wraps the bytes of a `Vec`, in the same memory.
    pub fn from_vec(bytes: Vec<u8>) -> Octets
        ensures { result ≡ bytes.items }
    {
        Octets { bytes }
    }

    /// The bytes, first to last.
    pub fn as_slice(&self) -> &[u8]
        ensures { result.now ≡ self.now }
    {
        self.bytes.as_slice()
    }

    /// The number of bytes.
    pub fn len(&self) -> usize
        ensures { result ≡ length self.now }
    {
        self.bytes.len()
    }
}

impl Duplicate for Octets {
    fn copy(&self, alloc: Global) -> Result<Octets, OutOfMemory> {
        Octets::from_slice(alloc, self.bytes.as_slice())
    }
}
