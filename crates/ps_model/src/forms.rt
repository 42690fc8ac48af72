ghost use Rattle.std.specs.Prelude.{◌≡◌, ◌++◌, Some, None, MatchOption, IfOk, OnOk, List, ℕ, Option};

mod fields;
mod labels;
mod many;
mod messages;
mod names;
mod settings;
mod subscriptions;
mod texts;

use ps_base::OutOfMemory;
use ps_codec::{FieldReader, FieldWriter};
use std::alloc::Global;

/// A value that has one encoding as bytes.
pub trait Form: Sized + Drop {
    /// Its bytes.
    ghost form: { Self → List ℕ };

    /// The value at the start of some bytes, with the bytes after it.
    ghost at: { List ℕ → Option (Self × List ℕ) };

    /// The values whose lengths and counts can be encoded.
    ghost fits: { Self → Type 0 };

    /// Appends the bytes of this value. Fails if out of memory, or if a length or a count is 2^32 or more. After an
    /// error the writer may hold a part of them.
    fn write_to(&self, writer: &mut FieldWriter) -> Result<(), OutOfMemory>
        ensures ok { OnOk result (writer.new ≡ writer.old ++ form self.now) }
        ensures fits { OnOk result (fits self.now) };

    /// Reads the value at the start. Returns `None` if and only if the bytes don't begin with a value; the reader may
    /// then have moved. Fails only if out of memory, and never allocates in proportion to a length that isn't there.
    fn read_from(alloc: Global, reader: &mut FieldReader<'_>) -> Result<Option<Self>, OutOfMemory>
        ensures { IfOk result (λ found. MatchOption found (at reader.old ≡ None) (λ value. at reader.old ≡ Some (value, reader.new))) };
}
