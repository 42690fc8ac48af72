ghost use Rattle.std.specs.Prelude.{◌≡◌, ◌≤◌, ◌<◌, ◌+◌, ◌^◌, ℕ, List, length, Option, Some, None, MatchOption, MatchResult, option_copied, IfOk, IfErr, IfSome, OnOk, OnErr, Bool, IsTrue, is_some, IsSome, is_ok, option_and_then, true, false, IsErrOf};
ghost use Rattle.ps_keeper.specs.Log.{Log};
ghost use Rattle.ps_keeper.specs.Cause.{Rose};
ghost use Rattle.ps_book.specs.Meaning.{meaning};
ghost use Rattle.ps_book.specs.Read.{IsOnlyRead, HasBadRow};
ghost use Rattle.ps_book.specs.Cause.{HasCause};
ghost use Rattle.ps_book.specs.Books.{Answers, AnswersIn, BeginsFrom, BookMeans, FirstBadRow, FromWhereItStood, GoesOn, IsPresent, MayHaveRecorded, MayRecord, MeansSome, MeantNothing, OnlyRead, Records, Refuses, StaysKnown, StaysUnread};

use crate::error::{BeginError, CallError};
use crate::machine::{Machine, Verdict};
use crate::replay::replay;
use ps_keeper::Keeper;
use std::alloc::Global;
use std::marker::Model;

/// A write-ahead log and the machine that it means. Without its machine the book is in doubt.
#[derive(Drop)]
pub struct Book<M, K> {
    alloc: Global,
    keeper: K,
    machine: Option<M>,
    place: u64,
}

impl<M, K> Model for Book<M, K> {
    ghost use Rattle.std.specs.Prelude.{◌≤◌, ◌^◌};
    ghost use Rattle.ps_book.specs.Journaled.{Journaled};

    ghost Value = { Journaled M K };

    ghost view = { λ b. record { keeper = b.keeper; machine = b.machine; place = b.place } };

    ghost invariant = { λ b. b.place ≤ 2 ^ 50 };
}

/// The answer of a book to a call.
#[derive(Drop)]
pub struct Answer<R> {
    /// The reply of the machine.
    pub reply: R,
    /// How many entries the log has after the call.
    pub place: u64,
    /// Whether the call added an entry.
    pub recorded: bool,
}

/// A log that couldn't be read into a machine, and why.
#[derive(Drop)]
pub struct Unbegun<K> {
    /// The keeper, with its log unchanged.
    pub keeper: K,
    /// Why it couldn't be read.
    pub error: BeginError,
}

/// Adds an entry at the end of the log. The machine has already made its step.
fn record<M: Machine, K: Keeper>(
    alloc: Global,
    keeper: &mut K,
    machine: &M,
    entry: &M::Entry,
) -> Result<(), CallError>
    requires can { M.can_write entry.now }
    requires next { IsTrue (K.known keeper.old) → IfSome (K.log keeper.old) (λ log. M.number (M.world machine.now) ≡ length log + 1) }
    ensures still_known { StaysKnown K.Keeper keeper.old keeper.new }
    ensures ok { OnOk result (Records M.Machine K.Keeper keeper.old keeper.new entry.now (M.world machine.now)) }
    ensures err { OnErr result (MayRecord M.Machine K.Keeper keeper.old keeper.new entry.now (M.world machine.now)) }
    ensures unread { StaysUnread K.Keeper keeper.old keeper.new }
    ensures unanswered { IsTrue (K.known keeper.new) → K.log keeper.old ≡ None → is_ok result ≡ false }
    ensures no_row { IfErr result (λ e. (seq : ℕ) → e ≡ CallError.BadRow seq → ⊥) }
    ensures cause { HasCause (K.faults keeper.old) (K.faults keeper.new) result }
{
    let row = M::write_row(alloc, entry)?;
    keeper.append(machine.count(), row.as_slice())?;
    Ok(())
}

impl<M: Machine, K: Keeper> Book<M, K> {
    /// Reads all rows of a log into a fresh machine. At the first bad row, at a failure of the keeper and if memory
    /// runs out it hands the keeper back.
    pub fn begin(alloc: Global, mut machine: M, mut keeper: K) -> Result<Book<M, K>, Unbegun<K>>
        requires { M.world machine ≡ M.first }
        ensures begins { IfOk result (BeginsFrom M.Machine K.Keeper (K.log keeper)) }
        ensures kept { IfOk result (λ book. OnlyRead K.Keeper keeper book.keeper) }
        ensures kept_err { IfErr result (λ u. OnlyRead K.Keeper keeper u.keeper) }
        ensures bad { IfErr result (λ u. (seq : ℕ) → u.error ≡ CallError.BadRow seq → FirstBadRow M.Machine K.Keeper keeper u.keeper seq) }
        ensures no_meaning { IfErr result (λ u. (seq : ℕ) → u.error ≡ CallError.BadRow seq → MeantNothing M.Machine K.Keeper keeper u.keeper) }
        ensures failed { IfErr result (λ u. u.error ≡ CallError.StoreFault → Rose (K.faults keeper) (K.faults u.keeper)) }
        ensures later { MatchResult result (λ book. K.faults keeper ≤ K.faults book.keeper) (λ u. K.faults keeper ≤ K.faults u.keeper) }
        ensures still_known { MatchResult result (λ book. StaysKnown K.Keeper keeper book.keeper) (λ u. StaysKnown K.Keeper keeper u.keeper) }
    {
        match replay(alloc, &mut machine, &mut keeper) {
            Ok(()) => {
                let place = machine.count();
                Ok(Book {
                    alloc,
                    keeper,
                    machine: Some(machine),
                    place,
                })
            }
            Err(error) => Err(Unbegun { keeper, error }),
        }
    }

    /// Judges a command given at a moment, in milliseconds since 1970, records its entry, and answers. A book in
    /// doubt first reads all rows into a fresh machine. After an error the book is in doubt: the entry of this
    /// call, if it had one, may be in the log.
    pub fn call(&mut self, now: u64, command: &M::Command) -> Result<Answer<M::Reply>, CallError>
        requires { MeansSome M.Machine K.Keeper self.old }
        ensures goes { GoesOn M.Machine K.Keeper self.old self.new }
        ensures shown { is_some self.new.machine ≡ is_ok result }
        ensures answered { IfOk result (Answers M.Machine K.Keeper self.old self.new now command.now) }
        ensures refused { OnErr result (Refuses M.Machine K.Keeper self.old self.new now command.now) }
        ensures no_bad_row { IfErr result (λ e. (seq : ℕ) → e ≡ CallError.BadRow seq → IsTrue (K.known self.new.keeper) → ⊥) }
        ensures bad { IfErr result (λ e. (seq : ℕ) → e ≡ CallError.BadRow seq → FirstBadRow M.Machine K.Keeper self.old.keeper self.new.keeper seq) }
        ensures bad_in_doubt { IfErr result (λ e. (seq : ℕ) → e ≡ CallError.BadRow seq → self.old.machine ≡ None) }
        ensures unread { StaysUnread K.Keeper self.old.keeper self.new.keeper }
        ensures unanswered { IfOk result (λ a. IsTrue (K.known self.new.keeper) → K.log self.old.keeper ≡ None → (a.recorded ≡ false) × IsSome self.old.machine) }
        ensures cause { HasCause (K.faults self.old.keeper) (K.faults self.new.keeper) result }
    {
        match self.present() {
            Ok(machine) => self.carry_out(machine, now, command),
            Err(error) => Err(error),
        }
    }

    /// Returns how many entries the book counts, at most 2^50. An entry in doubt isn't counted.
    pub fn place(&self) -> u64
        ensures place { result ≡ self.now.place }
        ensures most { result ≤ 2 ^ 50 }
    {
        self.place
    }

    /// Returns the machine, or `None` if the book is in doubt: from an error of `call` to its next answer.
    pub fn machine(&self) -> Option<&M>
        ensures { option_copied result ≡ self.now.machine }
    {
        self.machine.as_ref()
    }

    /// Gives the keeper back.
    pub fn close(self) -> K
        ensures { result ≡ self.keeper }
    {
        let Book {
            alloc: _,
            keeper,
            machine: _,
            place: _,
        } = self;
        keeper
    }

    /// Takes the machine out. If it is missing, reads all rows into a fresh one.
    fn present(&mut self) -> Result<M, CallError>
        ensures gone { self.new.machine ≡ None }
        ensures found { IfOk result (IsPresent M.Machine K.Keeper self.old self.new) }
        ensures refused { OnErr result (FromWhereItStood M.Machine K.Keeper self.old (BookMeans M.Machine K.Keeper self.new)) }
        ensures bad { IfErr result (λ e. (seq : ℕ) → e ≡ CallError.BadRow seq → FirstBadRow M.Machine K.Keeper self.old.keeper self.new.keeper seq) }
        ensures bad_in_doubt { IfErr result (λ e. (seq : ℕ) → e ≡ CallError.BadRow seq → self.old.machine ≡ None) }
        ensures unread { StaysUnread K.Keeper self.old.keeper self.new.keeper }
        ensures unanswered { IfOk result (λ m. IsTrue (K.known self.new.keeper) → K.log self.old.keeper ≡ None → IsSome self.old.machine) }
        ensures still_known { StaysKnown K.Keeper self.old.keeper self.new.keeper }
        ensures cause { HasCause (K.faults self.old.keeper) (K.faults self.new.keeper) result }
    {
        match self.machine.take() {
            Some(machine) => Ok(machine),
            None => {
                let mut machine = M::fresh(self.alloc)?;
                match replay(self.alloc, &mut machine, &mut self.keeper) {
                    Ok(()) => {
                        self.place = machine.count();
                        Ok(machine)
                    }
                    Err(error) => Err(error),
                }
            }
        }
    }

    /// Carries a command out, and records its entry. The machine isn't in the book.
    fn carry_out(
        &mut self,
        mut machine: M,
        now: u64,
        command: &M::Command,
    ) -> Result<Answer<M::Reply>, CallError>
        requires stands { BookMeans M.Machine K.Keeper self.old (M.world machine) None }
        requires gone { self.old.machine ≡ None }
        ensures shown { is_some self.new.machine ≡ is_ok result }
        ensures answered { IfOk result (AnswersIn M.Machine K.Keeper true true (M.world machine) None self.new now command.now) }
        ensures refused { OnErr result (MayHaveRecorded M.Machine K.Keeper self.new (M.world machine) now command.now) }
        ensures no_row { IfErr result (λ e. (seq : ℕ) → e ≡ CallError.BadRow seq → ⊥) }
        ensures unread { StaysUnread K.Keeper self.old.keeper self.new.keeper }
        ensures unanswered { IfOk result (λ a. IsTrue (K.known self.new.keeper) → K.log self.old.keeper ≡ None → a.recorded ≡ false) }
        ensures still_known { StaysKnown K.Keeper self.old.keeper self.new.keeper }
        ensures cause { HasCause (K.faults self.old.keeper) (K.faults self.new.keeper) result }
    {
        let Verdict { reply, entry } = machine.judge(self.alloc, now, command)?;
        let recorded = entry.is_some();
        if let Some(entry) = entry {
            record(self.alloc, &mut self.keeper, &machine, &entry)?;
            self.place = machine.count();
        }
        self.machine = Some(machine);
        Ok(Answer {
            reply,
            place: self.place,
            recorded,
        })
    }
}
