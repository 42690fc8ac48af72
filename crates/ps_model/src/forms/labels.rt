use crate::forms::Form;
use crate::forms::many::write_list;
use ps_base::{Labels, List, OutOfMemory, Text};
use ps_codec::{FieldReader, FieldWriter};
use std::alloc::Global;

impl Form for Labels {
    ghost use Rattle.ps_model.specs.Forms.{labels_form, labels_at, LabelsFit};

    ghost form = { labels_form };

    ghost at = { labels_at };

    ghost fits = { LabelsFit };

    fn write_to(&self, writer: &mut FieldWriter) -> Result<(), OutOfMemory> {
        write_list(self.as_slice(), writer)
    }

    fn read_from(
        alloc: Global,
        reader: &mut FieldReader<'_>,
    ) -> Result<Option<Labels>, OutOfMemory> {
        match List::<(Text, Text)>::read_from(alloc, reader)? {
            Some(pairs) => Ok(Labels::of(pairs)),
            None => Ok(None),
        }
    }
}
