ghost use Rattle.std.specs.Prelude.{◌≡◌, ℕ, List, IfOk};
ghost use Rattle.ps_run.specs.declared.protocol.Reading.{Reading};
ghost use Rattle.ps_run.specs.declared.protocol.Report.{Report};

use ps_base as base;
use ps_book::Machine;
use std::alloc::Global;

/// What a line asks: a call at a moment, or nothing but the text that refuses the line.
#[derive(Drop)]
pub enum Reading<C> {
    Call { now: u64, command: C },
    Refused { text: base::Octets },
}

/// What is printed of a log that is only read.
#[derive(Clone, Copy)]
pub enum Report {
    /// How many entries it has.
    Check,
    /// The numbers of its world, with nothing settled.
    Stat,
}

/// How lines spell a machine's commands, and what is printed of its replies and its state.
pub trait Protocol: Machine {
    /// What a line asks. The line comes without its line feed.
    ghost reading_of: { List ℕ → Reading Self.Command };

    /// The line that prints a reply, with its line feed.
    ghost reply_text: { Self.Reply → List ℕ };

    /// The lines of a report on a machine.
    ghost report_text: { Report → Self → List ℕ };

    /// Reads a line. Fails only if out of memory.
    fn read_line(alloc: Global, line: &[u8]) -> Result<Reading<Self::Command>, base::OutOfMemory>
        ensures { IfOk result (λ reading. reading ≡ reading_of line.now) };

    /// Prints a reply. Fails only if out of memory.
    fn print_reply(alloc: Global, reply: &Self::Reply) -> Result<base::Octets, base::OutOfMemory>
        ensures { IfOk result (λ text. text ≡ reply_text reply.now) };

    /// Prints a report on the machine. Fails only if out of memory.
    fn print_report(&self, alloc: Global, report: Report) -> Result<base::Octets, base::OutOfMemory>
        ensures { IfOk result (λ text. text ≡ report_text report self.now) };
}
