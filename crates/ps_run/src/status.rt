ghost use Rattle.std.specs.Prelude.{◌≡◌, ◌++◌, take, ℕ, option_map, OnOk, OnErr};
ghost use Rattle.ps_edge.specs.Edge.{HasWriteCause};
ghost use Rattle.ps_run.specs.Statuses.{code_of, status_text, begin_status, Writes};

use itoa::Buffer;
use ps_book::BeginError;
use ps_edge::{Failed, Sink, write_all};

/// How a command ends.
#[derive(Clone, Copy, PartialEq, Eq)]
pub enum Status {
    /// Each line of the input was answered, or the report was printed.
    Done,
    /// The words ask for no command.
    Usage,
    ReadFault,
    WriteFault,
    StoreFault,
    /// The row of this number is no entry in its place, as the log was opened.
    BadRow { seq: u64 },
    OutOfMemory,
    /// 2 ^ 60 bytes of input were read.
    TooLong,
    /// The net failed: a port couldn't be opened, or no connection came through it any more.
    AcceptFault,
}

/// A keeper that comes back from a command, and how the command ended.
#[derive(Drop)]
pub struct Ended<K> {
    pub status: Status,
    pub keeper: K,
}

impl Status {
    /// The exit status of the process.
    pub fn code(self) -> u8
        ensures { result ≡ code_of self }
    {
        match self {
            Status::Done => 0,
            Status::Usage => 2,
            Status::ReadFault => 3,
            Status::WriteFault => 4,
            Status::StoreFault => 5,
            Status::BadRow { .. } => 6,
            Status::OutOfMemory => 7,
            Status::TooLong => 8,
            Status::AcceptFault => 9,
        }
    }
}

/// The status of a book that couldn't be opened.
pub fn status_of_begin(error: BeginError) -> Status
    ensures { result ≡ begin_status error }
{
    match error {
        BeginError::StoreFault => Status::StoreFault,
        BeginError::BadRow { seq } => Status::BadRow { seq },
        BeginError::OutOfMemory => Status::OutOfMemory,
    }
}

/// The text of a status other than a bad row.
fn plain_text(status: Status) -> &'static [u8]
    requires { (seq : ℕ) → status ≡ Status.BadRow seq → ⊥ }
    ensures { result.now ≡ status_text status }
{
    match status {
        Status::Done => b"",
        Status::Usage => {
            b"usage: pubsub batch FILE | check FILE | stat FILE | compact FILE | load N | serve OPTIONS FILE\n"
        }
        Status::ReadFault => b"read fault\n",
        Status::WriteFault => b"write fault\n",
        Status::StoreFault => b"store fault\n",
        Status::BadRow { .. } => unreachable!(),
        Status::OutOfMemory => b"out of memory\n",
        Status::TooLong => b"input too long\n",
        Status::AcceptFault => b"accept fault\n",
    }
}

fn write_bad_row<E: Sink>(faults: &mut E, seq: u64) -> Result<(), Failed>
    ensures whole { OnOk result (E.holds faults.new ≡ option_map (λ held. held ++ status_text (Status.BadRow seq)) (E.holds faults.old)) }
    ensures part { (cut : ℕ) × (E.holds faults.new ≡ option_map (λ held. held ++ take cut (status_text (Status.BadRow seq))) (E.holds faults.old)) }
    ensures cause { HasWriteCause (E.faults faults.old) (E.faults faults.new) result }
{
    let mut digits = Buffer::new();
    write_all(faults, b"bad row ")?;
    write_all(faults, digits.format(seq).as_bytes())?;
    write_all(faults, b"\n")
}

fn write_status<E: Sink>(faults: &mut E, status: Status) -> Result<(), Failed>
    ensures whole { OnOk result (E.holds faults.new ≡ option_map (λ held. held ++ status_text status) (E.holds faults.old)) }
    ensures part { (cut : ℕ) × (E.holds faults.new ≡ option_map (λ held. held ++ take cut (status_text status)) (E.holds faults.old)) }
    ensures cause { HasWriteCause (E.faults faults.old) (E.faults faults.new) result }
{
    match status {
        Status::BadRow { seq } => write_bad_row(faults, seq),
        other => write_all(faults, plain_text(other)),
    }
}

/// Writes the text of a status, and gives the exit status of the process. A write that fails changes nothing else.
pub fn conclude<E: Sink>(faults: &mut E, status: Status) -> u8
    ensures code { result ≡ code_of status }
    ensures written { Writes E.Sink faults.old faults.new (status_text status) }
{
    let _ = write_status(faults, status);
    status.code()
}
