use crate::forms::Form;
use crate::forms::texts::{read_text, write_text};
use ps_base::OutOfMemory;
use ps_codec::{FieldReader, FieldWriter};
use ps_names::{SnapName, SubName, TopicName};
use std::alloc::Global;

impl Form for TopicName {
    ghost use Rattle.ps_codec.specs.Fields.{bytes_field};
    ghost use Rattle.ps_names.specs.Names.{is_topic_name};
    ghost use Rattle.ps_model.specs.Forms.{checked_at, text_at, CheckedFits, TextFits};

    ghost form = { bytes_field };

    ghost at = { checked_at is_topic_name text_at };

    ghost fits = { CheckedFits is_topic_name TextFits };

    fn write_to(&self, writer: &mut FieldWriter) -> Result<(), OutOfMemory> {
        write_text(self.text(), writer)
    }

    fn read_from(
        alloc: Global,
        reader: &mut FieldReader<'_>,
    ) -> Result<Option<TopicName>, OutOfMemory> {
        match read_text(reader) {
            Some(text) => TopicName::read(alloc, text),
            None => Ok(None),
        }
    }
}

impl Form for SubName {
    ghost use Rattle.ps_codec.specs.Fields.{bytes_field};
    ghost use Rattle.ps_names.specs.Names.{is_sub_name};
    ghost use Rattle.ps_model.specs.Forms.{checked_at, text_at, CheckedFits, TextFits};

    ghost form = { bytes_field };

    ghost at = { checked_at is_sub_name text_at };

    ghost fits = { CheckedFits is_sub_name TextFits };

    fn write_to(&self, writer: &mut FieldWriter) -> Result<(), OutOfMemory> {
        write_text(self.text(), writer)
    }

    fn read_from(
        alloc: Global,
        reader: &mut FieldReader<'_>,
    ) -> Result<Option<SubName>, OutOfMemory> {
        match read_text(reader) {
            Some(text) => SubName::read(alloc, text),
            None => Ok(None),
        }
    }
}

impl Form for SnapName {
    ghost use Rattle.ps_codec.specs.Fields.{bytes_field};
    ghost use Rattle.ps_names.specs.Names.{is_snap_name};
    ghost use Rattle.ps_model.specs.Forms.{checked_at, text_at, CheckedFits, TextFits};

    ghost form = { bytes_field };

    ghost at = { checked_at is_snap_name text_at };

    ghost fits = { CheckedFits is_snap_name TextFits };

    fn write_to(&self, writer: &mut FieldWriter) -> Result<(), OutOfMemory> {
        write_text(self.text(), writer)
    }

    fn read_from(
        alloc: Global,
        reader: &mut FieldReader<'_>,
    ) -> Result<Option<SnapName>, OutOfMemory> {
        match read_text(reader) {
            Some(text) => SnapName::read(alloc, text),
            None => Ok(None),
        }
    }
}
