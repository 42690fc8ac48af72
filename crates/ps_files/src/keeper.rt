ghost use Rattle.std.specs.Prelude.{◌≡◌};
ghost use Rattle.ps_files.specs.Keepers.{faults_of, unfailed};

use ps_base as base;
use ps_keeper::{Keeper, KeeperError, MemoryKeeper, Row};
use ps_sqlkeep::SqlKeeper;
use sqlite::{File, FileStore};
use std::alloc::Global;

/// The store of a connection to a file.
pub type Store = FileStore<File>;

/// A log in the table `entries` of a file, or in memory.
#[derive(Drop)]
pub enum FileKeeper {
    Sql(SqlKeeper<Store>),
    Memory(MemoryKeeper),
}

impl FileKeeper {
    /// The same log in a keeper with a count of faults of 0. A script of faults is gone.
    pub fn reopened(self) -> FileKeeper
        ensures { result ≡ unfailed self }
    {
        match self {
            FileKeeper::Sql(keeper) => FileKeeper::Sql(keeper.reopened()),
            FileKeeper::Memory(keeper) => FileKeeper::Memory(keeper.reopened()),
        }
    }

    /// How often its store has failed.
    pub fn faults(&self) -> u64
        ensures { result ≡ faults_of self.now }
    {
        match self {
            FileKeeper::Sql(keeper) => keeper.faults(),
            FileKeeper::Memory(keeper) => keeper.faults(),
        }
    }
}

impl Keeper for FileKeeper {
    ghost use Rattle.ps_files.specs.Keepers.{faults_of, is_known, leaves, log_of};

    ghost known = { is_known };

    ghost log = { log_of };

    ghost may_leave = { leaves };

    ghost faults = { faults_of };

    fn append(&mut self, seq: u64, body: &[u8]) -> Result<(), KeeperError> {
        match self {
            FileKeeper::Sql(keeper) => keeper.append(seq, body),
            FileKeeper::Memory(keeper) => keeper.append(seq, body),
        }
    }

    fn replace(&mut self, rows: &[base::Octets]) -> Result<(), KeeperError> {
        match self {
            FileKeeper::Sql(keeper) => keeper.replace(rows),
            FileKeeper::Memory(keeper) => keeper.replace(rows),
        }
    }

    fn rows(
        &mut self,
        alloc: Global,
        after: u64,
        most: u32,
    ) -> Result<base::List<Row>, KeeperError> {
        match self {
            FileKeeper::Sql(keeper) => keeper.rows(alloc, after, most),
            FileKeeper::Memory(keeper) => keeper.rows(alloc, after, most),
        }
    }
}
