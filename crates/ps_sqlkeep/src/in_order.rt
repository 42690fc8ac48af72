ghost use Rattle.std.specs.Prelude.{IsTrue};
ghost use Rattle.ps_sqlkeep.specs.Orders.{IsInOrder};
ghost use Rattle.ps_sqlkeep.specs.Laws.{memory_in_order, file_in_order};

use sqlite::{Alter, FileStore, MemStore};
use sqlite_disk::Disk;

/// A store that keeps the rows of each table in the order of their numbers, as far as they are committed.
pub trait InOrder: Alter {
    ghost in_order: { (s : Self) → IsTrue (Self.Store.view s).is_open → IsInOrder (Self.Store.view s) };
}

impl InOrder for MemStore {
    ghost in_order = { memory_in_order };
}

impl<D: Disk> InOrder for FileStore<D> {
    ghost in_order = { file_in_order };
}
