ghost use Rattle.std.specs.Prelude.{◌≡◌, ◌&&◌, ◌||◌, false, IfOk, OnOk, List, ℕ};
ghost use Rattle.std.specs.BTreeSet.{contains_text};
ghost use Rattle.ps_sub.specs.Keys.{has_order, is_noted};

use crate::standing::has_order;
use ps_base::OutOfMemory;
use ps_model::Slot;
use std::alloc::Global;
use std::collections::BTreeSet;

/// The ordering keys of the messages that were noted so far on a walk through a subscription, in order of number.
#[derive(Drop)]
pub struct KeysSoFar {
    pub keys: BTreeSet<String>,
}

impl KeysSoFar {
    /// None. Allocates nothing.
    pub fn new(alloc: Global) -> KeysSoFar
        ensures { (key : List ℕ) → contains_text result.keys key ≡ false }
    {
        KeysSoFar {
            keys: BTreeSet::new(alloc),
        }
    }

    /// Whether a message of this one's key was noted before. Then notes this one, if it is to be noted.
    pub fn pass(
        &mut self,
        alloc: Global,
        ordering: bool,
        slot: &Slot,
        noted: bool,
    ) -> Result<bool, OutOfMemory>
        ensures before { IfOk result (λ before. before ≡ (has_order ordering slot.now && contains_text self.old.keys slot.now.item.key)) }
        ensures noted { OnOk result ((key : List ℕ) → contains_text self.new.keys key ≡ (contains_text self.old.keys key || is_noted ordering noted key slot.now)) }
    {
        if !has_order(ordering, slot) {
            return Ok(false);
        }
        let key = slot.item.key.as_str();
        let before = self.keys.contains(key);
        if noted && !before {
            self.keys.insert(String::from_str(alloc, key)?)?;
        }
        Ok(before)
    }
}
