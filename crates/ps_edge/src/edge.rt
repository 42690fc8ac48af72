ghost use Rattle.std.specs.Prelude.{◌≡◌, ◌<◌, ◌≤◌, ◌++◌, ℕ, List, length, take, Option, option_map, MatchResult, IfOk, OnOk};
ghost use Rattle.ps_edge.specs.Edge.{Takes, HasReadCause, HasWriteCause, Adds};

/// What a read gives: a number of bytes, the end, or a fault.
#[derive(Clone, Copy, PartialEq, Eq)]
pub enum Got {
    Bytes(usize),
    End,
    Failed,
}

/// A write that took nothing.
#[derive(Clone, Copy, PartialEq, Eq)]
pub struct Failed;

/// An input: where bytes come from.
pub trait Source {
    /// What is left to read, if that is known.
    ghost left: { Self → Option (List ℕ) };

    /// How often a read failed.
    ghost faults: { Self → ℕ };

    /// Reads some bytes into the front of the room. After a fault it may be called again.
    fn read(&mut self, room: &mut [u8]) -> Got
        requires { 0 < length room.old }
        ensures bytes { Takes (left self.old) (left self.new) room.new result }
        ensures cause { HasReadCause (faults self.old) (faults self.new) result };
}

/// An output: where bytes go to.
pub trait Sink {
    /// What was written, if that is known.
    ghost holds: { Self → Option (List ℕ) };

    /// How often a write failed.
    ghost faults: { Self → ℕ };

    /// Writes some bytes from the front of a piece, and returns how many. A write that fails adds nothing.
    fn write(&mut self, piece: &[u8]) -> Result<usize, Failed>
        requires { 0 < length piece.now }
        ensures took { IfOk result (λ n. (0 < n) × (n ≤ length piece.now)) }
        ensures bytes { MatchResult result (λ n. Adds (holds self.old) (holds self.new) piece.now n) (λ _. holds self.new ≡ holds self.old) }
        ensures cause { HasWriteCause (faults self.old) (faults self.new) result };
}

/// Writes the whole text. After a fault only a front of it was written.
pub fn write_all<O: Sink>(output: &mut O, text: &[u8]) -> Result<(), Failed>
    ensures whole { OnOk result (O.holds output.new ≡ option_map (λ held. held ++ text.now) (O.holds output.old)) }
    ensures part { (k : ℕ) × (O.holds output.new ≡ option_map (λ held. held ++ take k text.now) (O.holds output.old)) }
    ensures cause { HasWriteCause (O.faults output.old) (O.faults output.new) result }
{
    let mut done = 0;
    while done < text.len() {
        let count = output.write(&text[done..])?;
        done += count;
    }
    Ok(())
}
