ghost use Rattle.std.specs.Prelude.{◌≡◌, ◌↔◌, ◌≤◌, ◌<◌, ◌+◌, ◌-◌, ◌^◌, min, length, Some, IsTrue, IfOk, IfErr, IfSome};
ghost use Rattle.sqlite.specs.Held.{state};
ghost use Rattle.sqlite.specs.State.{HasCleanDisk};
ghost use Rattle.ps_keeper.specs.Cause.{Rose};
ghost use Rattle.ps_sqlkeep.specs.Adopting.{HoldsLog, IsFresh, IsRefused, IsSame, LeavesEntries, StandsAlone, cause_of};
ghost use Rattle.ps_sqlkeep.specs.Keeper.{is_known};

use crate::adopting::examine;
use crate::in_order::InOrder;
use crate::reading::read_rows;
use crate::{replacing, statements};
use ps_base as base;
use ps_keeper::{Keeper, KeeperError, Row};
use sqlite::{Alter, Connection, Error, ErrorCode};
use std::alloc::Global;
use std::marker::Model;

/// A log in the table `entries` of a database, over a connection to any store. The number of a row is its place, from 1.
#[derive(Drop)]
pub struct SqlKeeper<S: Alter> {
    connection: Connection<S>,
    /// Whether the table was found to hold a log, as it was adopted.
    holds_log: bool,
    faults: u64,
}

impl<S: Alter> Model for SqlKeeper<S> {
    ghost use Rattle.ps_sqlkeep.specs.Keeper.{Kept, kept_code, IsKept};

    ghost Value = { Kept S };

    ghost coded = { kept_code S.code };

    ghost view = { λ k. record { held = k.connection; holds_log = k.holds_log; faults = k.faults } };

    ghost invariant = { λ k. IsKept S.Store k.connection k.holds_log };
}

/// A connection that wasn't adopted, and why.
#[derive(Drop)]
pub struct Unadopted<S: Alter> {
    pub connection: Connection<S>,
    pub error: KeeperError,
}

/// The cause of a refused statement or a refused opening: there is no memory, or else it is a fault.
pub fn cause_of(error: Error) -> KeeperError
    ensures { result ≡ cause_of error }
{
    if error == Error::SqliteFailure(ErrorCode::OutOfMemory) {
        KeeperError::OutOfMemory
    } else {
        KeeperError::Failed
    }
}

/// The same, and counts a fault.
fn counted(faults: &mut u64, error: Error) -> KeeperError
    ensures value { result ≡ cause_of error }
    ensures later { faults.old ≤ faults.new }
    ensures rose { result ≡ KeeperError.Failed → Rose faults.old faults.new }
{
    let cause = cause_of(error);
    if cause == KeeperError::Failed {
        *faults = faults.saturating_add(1);
    }
    cause
}

impl<S: InOrder> SqlKeeper<S> {
    /// Makes a keeper of a connection. It makes the table if there is none of that name. The log is known if the database
    /// holds that table and nothing else, the numbers of its rows are 1 to their count, and no transaction is open.
    pub fn adopt(mut connection: Connection<S>) -> Result<SqlKeeper<S>, Unadopted<S>>
        ensures known { IfOk result (λ k. IsTrue (is_known S.Store k) ↔ HoldsLog (state S.Store k.held)) }
        ensures log { IfOk result (λ k. IsTrue (is_known S.Store k) → StandsAlone (state S.Store k.held)) }
        ensures same { IfOk result (λ k. HasCleanDisk (state S.Store k.held) → IsSame (state S.Store connection) (state S.Store k.held)) }
        ensures fresh { IfOk result (λ k. HasCleanDisk (state S.Store k.held) → IsFresh (state S.Store connection) (state S.Store k.held)) }
        ensures faults { IfOk result (λ k. k.faults ≡ 0) }
        ensures cause { IfErr result (λ u. HasCleanDisk (state S.Store u.connection) → IsRefused S.Store connection u.connection u.error) }
        ensures left { IfErr result (λ u. HasCleanDisk (state S.Store u.connection) → LeavesEntries (state S.Store connection) (state S.Store u.connection)) }
    {
        match examine(&mut connection) {
            Ok(holds_log) => Ok(SqlKeeper {
                connection,
                holds_log,
                faults: 0,
            }),
            Err(error) => Err(Unadopted {
                connection,
                error: cause_of(error),
            }),
        }
    }
}

impl<S: Alter> SqlKeeper<S> {
    /// Gives the connection back.
    pub fn release(self) -> Connection<S>
        ensures { result ≡ self.held }
    {
        let SqlKeeper { connection, .. } = self;
        connection
    }

    /// The same keeper with a count of faults of 0.
    pub fn reopened(self) -> SqlKeeper<S>
        ensures { result ≡ record self { faults = 0 } }
    {
        let SqlKeeper {
            connection,
            holds_log,
            faults: _,
        } = self;
        SqlKeeper {
            connection,
            holds_log,
            faults: 0,
        }
    }

    /// How often a statement was refused.
    pub fn faults(&self) -> u64
        ensures { result ≡ self.now.faults }
    {
        self.faults
    }
}

impl<S: Alter> Keeper for SqlKeeper<S> {
    ghost use Rattle.sqlite.specs.Held.{state};
    ghost use Rattle.ps_sqlkeep.specs.Keeper.{is_known};
    ghost use Rattle.ps_sqlkeep.specs.Kept.{leaves, log_of};

    ghost known = { is_known S.Store };

    ghost log = { λ k. log_of (state S.Store k.held) };

    ghost may_leave = { λ k. leaves (state S.Store k.held) };

    ghost faults = { λ k. k.faults };

    fn append(&mut self, seq: u64, body: &[u8]) -> Result<(), KeeperError> {
        match statements::insert(&mut self.connection, seq as i64, body) {
            Ok(_) => Ok(()),
            Err(error) => Err(counted(&mut self.faults, error)),
        }
    }

    fn replace(&mut self, rows: &[base::Octets]) -> Result<(), KeeperError> {
        match replacing::replace(&mut self.connection, rows) {
            Ok(()) => Ok(()),
            Err(error) => Err(counted(&mut self.faults, error)),
        }
    }

    fn rows(
        &mut self,
        alloc: Global,
        after: u64,
        most: u32,
    ) -> Result<base::List<Row>, KeeperError> {
        let shown = match statements::page(&mut self.connection, after, most) {
            Ok(shown) => shown,
            Err(error) => return Err(counted(&mut self.faults, error)),
        };
        match read_rows(alloc, shown.as_slice(), most) {
            Ok(rows) => Ok(rows),
            Err(error) => Err(counted(&mut self.faults, error)),
        }
    }
}
