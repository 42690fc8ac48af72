//! The logs under the paths of a cabinet, in slots: a path, and its keeper unless that is out.

ghost use Rattle.std.specs.Prelude.{◌≡◌, None, Some, IfOk, OnOk, OnErr, is_some, position};
ghost use Rattle.std.specs.Str.{bytes_eq};
ghost use Rattle.ps_edge.specs.Files.{HasAsked};
ghost use Rattle.ps_edge.specs.PathLogs.{after_back, is_out_of, kept, slot_at, stored};

use ps_base::{List, OutOfMemory, Text};
use std::alloc::Global;

/// A path of a cabinet, and its keeper unless that is out.
#[derive(Drop)]
pub struct PathLog<K> {
    pub path: Text,
    pub keeper: Option<K>,
}

/// The place of the first slot of a path.
fn place_of<K>(slots: &[PathLog<K>], path: &str) -> Option<usize>
    ensures { result ≡ position (λ s. bytes_eq s.path path.now) slots.now }
{
    slots.iter().position(|slot| slot.path.as_str() == path)
}

/// Whether a keeper lies under a path.
pub fn is_kept<K>(slots: &[PathLog<K>], path: &str) -> bool
    ensures { result ≡ is_some (kept path.now slots.now) }
{
    match place_of(slots, path) {
        Some(at) => slots[at].keeper.is_some(),
        None => false,
    }
}

/// Whether a keeper is out for a path.
pub fn is_out<K>(slots: &[PathLog<K>], path: &str) -> bool
    ensures { result ≡ is_out_of path.now slots.now }
{
    match place_of(slots, path) {
        Some(at) => slots[at].keeper.is_none(),
        None => false,
    }
}

/// Takes the keeper out of its slot. A missing slot is made, so that there is room for its return.
pub fn take_out<K: Drop>(
    alloc: Global,
    slots: &mut Vec<PathLog<K>>,
    path: &str,
) -> Result<Option<K>, OutOfMemory>
    ensures keeper { IfOk result (λ keeper. keeper ≡ kept path.now slots.old.items) }
    ensures ok { OnOk result (slots.new.items ≡ stored path.now None slots.old.items) }
    ensures err { OnErr result (slots.new.items ≡ slots.old.items) }
    ensures fails { OnErr result (slot_at path.now slots.old.items ≡ None) }
{
    match place_of(slots.as_slice(), path) {
        Some(at) => {
            let slot = &mut slots[at];
            Ok(slot.keeper.take())
        }
        None => {
            let path = Text::from_str(alloc, path)?;
            slots.push(PathLog { path, keeper: None })?;
            Ok(None)
        }
    }
}

/// Puts a keeper into its slot. A missing slot is made.
pub fn put_in<K: Drop>(
    alloc: Global,
    slots: &mut Vec<PathLog<K>>,
    path: &str,
    keeper: K,
) -> Result<(), OutOfMemory>
    ensures ok { OnOk result (slots.new.items ≡ stored path.now (Some keeper) slots.old.items) }
    ensures err { OnErr result (slots.new.items ≡ slots.old.items) }
    ensures fails { OnErr result (slot_at path.now slots.old.items ≡ None) }
{
    match place_of(slots.as_slice(), path) {
        Some(at) => {
            let slot = &mut slots[at];
            slot.keeper = Some(keeper);
            Ok(())
        }
        None => {
            let path = Text::from_str(alloc, path)?;
            slots.push(PathLog {
                path,
                keeper: Some(keeper),
            })?;
            Ok(())
        }
    }
}

/// Puts a keeper back if one is out for this path.
pub fn put_back<K: Drop>(slots: &mut Vec<PathLog<K>>, path: &str, keeper: K)
    ensures { slots.new.items ≡ after_back path.now keeper slots.old.items }
{
    if let Some(at) = place_of(slots.as_slice(), path) {
        if slots[at].keeper.is_none() {
            let slot = &mut slots[at];
            slot.keeper = Some(keeper);
        }
    }
}

/// The list of paths asked for with one more, or `None` if there is no memory for it.
pub fn noted(alloc: Global, asked: Option<List<Text>>, path: &str) -> Option<List<Text>>
    ensures { HasAsked path.now asked result }
{
    let mut asked = asked?;
    let path = Text::from_str(alloc, path).ok()?;
    asked.push(path).ok()?;
    Some(asked)
}
