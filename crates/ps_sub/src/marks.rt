ghost use Rattle.std.specs.Prelude.{◌≡◌, ◌++◌, ◌∷◌, [], length, OnOk, OnErr};
ghost use Rattle.ps_model.specs.Same.{same_mark};
ghost use Rattle.ps_sub.specs.Marks.{with_marks, any_differs, live};

use crate::standing::is_gone;
use ps_base::OutOfMemory;
use ps_model::{Mark, Slot};

pub fn is_same(a: Mark, b: Mark) -> bool
    ensures { result ≡ same_mark a b }
{
    a == b
}

/// Gives each slot the mark at its place, and returns whether one changed.
pub fn write_marks(slots: &mut [Slot], marks: &[Mark]) -> bool
    requires { length slots.old ≡ length marks.now }
    ensures after { slots.new ≡ with_marks marks.now slots.old }
    ensures changed { result ≡ any_differs marks.now slots.old }
{
    let mut changed = false;
    for (i, mark) in marks.iter().enumerate() {
        changed |= !is_same(slots[i].mark, *mark);
        slots[i].mark = *mark;
    }
    changed
}

/// Adds the slot behind all others, unless it is gone. After an error nothing was added.
pub fn push_live(slots: &mut Vec<Slot>, slot: Slot) -> Result<(), OutOfMemory>
    ensures ok { OnOk result (slots.new.items ≡ slots.old.items ++ live (slot ∷ [])) }
    ensures err { OnErr result (slots.new.items ≡ slots.old.items) }
{
    if !is_gone(slot.mark) {
        slots.push(slot)?;
    }
    Ok(())
}

/// Drops what is gone.
pub fn drop_gone(slots: &mut Vec<Slot>)
    ensures { slots.new.items ≡ live slots.old.items }
{
    slots.retain(|slot| !is_gone(slot.mark));
}
