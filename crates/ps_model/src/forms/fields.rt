use crate::forms::Form;
use ps_base::OutOfMemory;
use ps_codec::{FieldReader, FieldWriter};
use std::alloc::Global;

impl Form for u32 {
    ghost use Rattle.std.specs.Prelude.{◌<◌, ◌^◌};
    ghost use Rattle.ps_codec.specs.Fields.{u32_field};
    ghost use Rattle.ps_model.specs.Forms.{number32_at};

    ghost form = { u32_field };

    ghost at = { number32_at };

    ghost fits = { λ value. value < 2 ^ 32 };

    fn write_to(&self, writer: &mut FieldWriter) -> Result<(), OutOfMemory> {
        writer.u32(*self)
    }

    fn read_from(_alloc: Global, reader: &mut FieldReader<'_>) -> Result<Option<u32>, OutOfMemory> {
        Ok(reader.u32().ok())
    }
}

impl Form for u64 {
    ghost use Rattle.std.specs.Prelude.{◌<◌, ◌^◌};
    ghost use Rattle.ps_codec.specs.Fields.{u64_field};
    ghost use Rattle.ps_model.specs.Forms.{number64_at};

    ghost form = { u64_field };

    ghost at = { number64_at };

    ghost fits = { λ value. value < 2 ^ 64 };

    fn write_to(&self, writer: &mut FieldWriter) -> Result<(), OutOfMemory> {
        writer.u64(*self)
    }

    fn read_from(_alloc: Global, reader: &mut FieldReader<'_>) -> Result<Option<u64>, OutOfMemory> {
        Ok(reader.u64().ok())
    }
}

impl Form for bool {
    ghost use Rattle.ps_codec.specs.Fields.{flag_field};
    ghost use Rattle.ps_model.specs.Forms.{truth_at};

    ghost form = { flag_field };

    ghost at = { truth_at };

    ghost fits = { λ value. Unit {0} };

    fn write_to(&self, writer: &mut FieldWriter) -> Result<(), OutOfMemory> {
        writer.flag(*self)
    }

    fn read_from(
        _alloc: Global,
        reader: &mut FieldReader<'_>,
    ) -> Result<Option<bool>, OutOfMemory> {
        Ok(reader.flag().ok())
    }
}
