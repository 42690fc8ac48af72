ghost use Rattle.std.specs.Prelude.{◌≡◌, ◌++◌, Some, None, MatchOption, OnOk};
ghost use Rattle.ps_codec.specs.Fields.{bytes_field};
ghost use Rattle.ps_model.specs.Forms.{text_at, IsShort, TextFits};

use crate::forms::Form;
use ps_base::{Octets, OutOfMemory, Text};
use ps_codec::{FieldReader, FieldWriter};
use std::alloc::Global;

/// The greatest number of bytes that a count of four bytes can hold.
const MOST_BYTES: usize = 0xffff_ffff;

impl Form for Octets {
    ghost use Rattle.ps_codec.specs.Fields.{bytes_field};
    ghost use Rattle.ps_model.specs.Forms.{octets_at, IsShort};

    ghost form = { bytes_field };

    ghost at = { octets_at };

    ghost fits = { IsShort };

    fn write_to(&self, writer: &mut FieldWriter) -> Result<(), OutOfMemory> {
        write_bytes(self.as_slice(), writer)
    }

    fn read_from(
        alloc: Global,
        reader: &mut FieldReader<'_>,
    ) -> Result<Option<Octets>, OutOfMemory> {
        match reader.bytes() {
            Ok(bytes) => Ok(Some(Octets::from_slice(alloc, bytes)?)),
            Err(_) => Ok(None),
        }
    }
}

impl Form for Text {
    ghost use Rattle.ps_codec.specs.Fields.{bytes_field};
    ghost use Rattle.ps_model.specs.Forms.{text_at, TextFits};

    ghost form = { bytes_field };

    ghost at = { text_at };

    ghost fits = { TextFits };

    fn write_to(&self, writer: &mut FieldWriter) -> Result<(), OutOfMemory> {
        write_text(self.as_str(), writer)
    }

    fn read_from(alloc: Global, reader: &mut FieldReader<'_>) -> Result<Option<Text>, OutOfMemory> {
        match read_text(reader) {
            Some(text) => Ok(Some(Text::from_str(alloc, text)?)),
            None => Ok(None),
        }
    }
}

/// Appends the number of bytes, then the bytes. Fails if out of memory, or if there are 2^32 bytes or more.
pub fn write_bytes(bytes: &[u8], writer: &mut FieldWriter) -> Result<(), OutOfMemory>
    ensures ok { OnOk result (writer.new ≡ writer.old ++ bytes_field bytes.now) }
    ensures fits { OnOk result (IsShort bytes.now) }
{
    if bytes.len() > MOST_BYTES {
        return Err(OutOfMemory);
    }
    writer.bytes(bytes)
}

/// Appends the length in bytes, then the text. Fails if out of memory, or if it has 2^32 bytes or more.
pub fn write_text(text: &str, writer: &mut FieldWriter) -> Result<(), OutOfMemory>
    ensures ok { OnOk result (writer.new ≡ writer.old ++ bytes_field text.now) }
    ensures fits { OnOk result (TextFits text.now) }
{
    write_bytes(text.as_bytes(), writer)
}

/// Reads the text at the start. Returns `None` if and only if there are no such bytes or they aren't UTF-8.
pub fn read_text<'a>(reader: &mut FieldReader<'a>) -> Option<&'a str>
    ensures { MatchOption result (text_at reader.old ≡ None) (λ text. text_at reader.old ≡ Some (text.now, reader.new)) }
{
    let bytes = reader.bytes().ok()?;
    match str::from_utf8(bytes) {
        Ok(text) => Some(text),
        Err(_) => None,
    }
}
