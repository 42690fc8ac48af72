ghost use Rattle.std.specs.Prelude.{◌≡◌, Some, None, [], true, if◌then◌else◌};
ghost use Rattle.ps_base.specs.Keys.{has_ascending_keys};

use crate::list::List;
use crate::memory::{Duplicate, OutOfMemory};
use crate::text::Text;
use std::alloc::Global;
use std::marker::Model;

/// A map of texts: pairs of a key and a value, with keys in strictly ascending byte order.
#[derive(Clone, Debug, Drop)]
pub struct Labels {
    pairs: List<(Text, Text)>,
}

impl Model for Labels {
    ghost use Rattle.std.specs.Prelude.{List, ℕ, ◌≡◌, true};
    ghost use Rattle.ps_base.specs.Keys.{has_ascending_keys};

    ghost Value = { List (List ℕ × List ℕ) };

    ghost view = { λ it. it.pairs };

    ghost invariant = { λ it. has_ascending_keys it.pairs ≡ true };
}

impl Labels {
    /// No labels. Allocates nothing.
    pub fn new(alloc: Global) -> Labels
        ensures { result ≡ [] }
    {
        Labels {
            pairs: List::new(alloc),
        }
    }

    /// Makes labels of these pairs. Returns `None` if and only if some key isn't below the next one.
    pub fn of(pairs: List<(Text, Text)>) -> Option<Labels>
        ensures { result ≡ (if has_ascending_keys pairs then Some pairs else None) }
    {
        if ascends(pairs.as_slice()) {
            Some(Labels { pairs })
        } else {
            None
        }
    }

    /// The pairs of key and value, in ascending order of the keys.
    pub fn as_slice(&self) -> &[(Text, Text)]
        ensures value { result.now ≡ self.now }
        ensures ascending { has_ascending_keys result.now ≡ true }
    {
        self.pairs.as_slice()
    }
}

fn ascends(pairs: &[(Text, Text)]) -> bool
    ensures { result ≡ has_ascending_keys pairs.now }
{
    let next = pairs.iter().skip(1);
    pairs.iter().zip(next).all(|(a, b)| a.0.is_below(&b.0))
}

impl Duplicate for Labels {
    fn copy(&self, _alloc: Global) -> Result<Labels, OutOfMemory> {
        Ok(self.clone()?)
    }
}
