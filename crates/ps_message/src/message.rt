ghost use Rattle.std.specs.Prelude.{◌≡◌, ◌+◌, ◌^◌, min};

use ps_base::{Duplicate, Labels, Octets, OutOfMemory, Text};
use std::alloc::Global;

/// The attributes of a message: pairs of key and value, in ascending byte order of the keys.
pub type Attributes = Labels;

/// The most bytes that a message counts for, 2^40.
const MOST_COUNTED: u64 = 1 << 40;

/// What a publisher sends.
#[derive(Clone, Drop)]
pub struct Message {
    pub payload: Octets,
    pub attributes: Attributes,
    /// The ordering key. Empty is none.
    pub key: Text,
}

impl Message {
    ghost use Rattle.ps_message.specs.Messages.{size_of};

    /// The bytes of the payload, of the attributes' keys and values, and of the ordering key together, or 2^40
    /// if these are more.
    pub fn size(&self) -> u64
        ensures { result ≡ size_of self.now }
    {
        let mut size = counted(self.payload.len() as u64, self.key.len());
        for pair in self.attributes.as_slice() {
            size = counted(counted(size, pair.0.len()), pair.1.len());
        }
        size
    }
}

/// The sum, or 2^40 if it is more.
fn counted(size: u64, more: usize) -> u64
    ensures { result ≡ min (2 ^ 40) (size + more) }
{
    size.saturating_add(more as u64).min(MOST_COUNTED)
}

impl Duplicate for Message {
    fn copy(&self, _alloc: Global) -> Result<Message, OutOfMemory> {
        Ok(self.clone()?)
    }
}
