ghost use Rattle.std.specs.Prelude.{◌≡◌, ◌++◌, Some, None, MatchOption, IfOk, OnOk};
ghost use Rattle.ps_model.specs.Forms.{list_form, ListFits, each_form, EachFits, each_at};

use crate::forms::Form;
use ps_base::{List, OutOfMemory};
use ps_codec::{FieldReader, FieldWriter};
use std::alloc::Global;

/// The greatest number of items that a count of four bytes can hold.
const MOST_ITEMS: usize = 0xffff_ffff;

impl<A: Form, B: Form> Form for (A, B) {
    ghost use Rattle.ps_model.specs.Forms.{pair_form, pair_at, PairFits};

    ghost form = { pair_form A.form B.form };

    ghost at = { pair_at A.at B.at };

    ghost fits = { PairFits A.fits B.fits };

    fn write_to(&self, writer: &mut FieldWriter) -> Result<(), OutOfMemory> {
        self.0.write_to(writer)?;
        self.1.write_to(writer)
    }

    fn read_from(
        alloc: Global,
        reader: &mut FieldReader<'_>,
    ) -> Result<Option<(A, B)>, OutOfMemory> {
        let Some(first) = A::read_from(alloc, reader)? else {
            return Ok(None);
        };
        let Some(second) = B::read_from(alloc, reader)? else {
            return Ok(None);
        };
        Ok(Some((first, second)))
    }
}

impl<A: Form> Form for Option<A> {
    ghost use Rattle.ps_model.specs.Forms.{option_form, option_at, OptionFits};

    ghost form = { option_form A.form };

    ghost at = { option_at A.at };

    ghost fits = { OptionFits A.fits };

    fn write_to(&self, writer: &mut FieldWriter) -> Result<(), OutOfMemory> {
        match self {
            None => writer.flag(false),
            Some(value) => {
                writer.flag(true)?;
                value.write_to(writer)
            }
        }
    }

    fn read_from(
        alloc: Global,
        reader: &mut FieldReader<'_>,
    ) -> Result<Option<Option<A>>, OutOfMemory> {
        match reader.flag() {
            Err(_) => Ok(None),
            Ok(false) => Ok(Some(None)),
            Ok(true) => Ok(A::read_from(alloc, reader)?.map(Some)),
        }
    }
}

impl<A: Form> Form for List<A> {
    ghost use Rattle.ps_model.specs.Forms.{list_form, list_at, ListFits};

    ghost form = { list_form A.form };

    ghost at = { list_at A.at };

    ghost fits = { ListFits A.fits };

    fn write_to(&self, writer: &mut FieldWriter) -> Result<(), OutOfMemory> {
        write_list(self.as_slice(), writer)
    }

    fn read_from(
        alloc: Global,
        reader: &mut FieldReader<'_>,
    ) -> Result<Option<List<A>>, OutOfMemory> {
        match reader.u32() {
            Ok(count) => read_each(alloc, count, reader),
            Err(_) => Ok(None),
        }
    }
}

/// Appends the number of items, then each item. Fails if out of memory, or if there are 2^32 items or more.
pub fn write_list<A: Form>(items: &[A], writer: &mut FieldWriter) -> Result<(), OutOfMemory>
    ensures ok { OnOk result (writer.new ≡ writer.old ++ list_form A.form items.now) }
    ensures fits { OnOk result (ListFits A.fits items.now) }
{
    if items.len() > MOST_ITEMS {
        return Err(OutOfMemory);
    }
    writer.u32(items.len() as u32)?;
    write_each(items, writer)
}

fn write_each<A: Form>(items: &[A], writer: &mut FieldWriter) -> Result<(), OutOfMemory>
    ensures ok { OnOk result (writer.new ≡ writer.old ++ each_form A.form items.now) }
    ensures fits { OnOk result (EachFits A.fits items.now) }
{
    for item in items {
        item.write_to(writer)?;
    }
    Ok(())
}

/// Reads this many items from the start. Allocates item by item, as they come.
fn read_each<A: Form>(
    alloc: Global,
    count: u32,
    reader: &mut FieldReader<'_>,
) -> Result<Option<List<A>>, OutOfMemory>
    ensures { IfOk result (λ items. MatchOption items (each_at A.at count reader.old ≡ None) (λ xs. each_at A.at count reader.old ≡ Some (xs, reader.new))) }
{
    let mut items = List::new(alloc);
    for _ in 0..count {
        match A::read_from(alloc, reader)? {
            Some(item) => items.push(item)?,
            None => return Ok(None),
        }
    }
    Ok(Some(items))
}
