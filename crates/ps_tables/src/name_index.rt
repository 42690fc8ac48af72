ghost use Rattle.std.specs.Prelude.{◌≡◌, ℕ, List, None, Some, IfOk, OnOk, MatchOption, nat_eq, string_bytes};
ghost use Rattle.std.specs.BTreeMap.{get_by_text, values, IsOrdered};
ghost use Rattle.std.specs.List.{starts_with};
ghost use Rattle.std.specs.String.{string_cmp};
ghost use Rattle.ps_tables.specs.Pages.{later};

use ps_base::{OutOfMemory, Text};
use std::alloc::Global;
use std::collections::BTreeMap;
use std::ops::Bound;

/// The numbers of resources by their names, in byte order of the names.
#[derive(Drop)]
pub struct NameIndex {
    pub numbers: BTreeMap<String, u64>,
}

impl NameIndex {
    ghost use Rattle.ps_tables.specs.Pages.{page_next, page_numbers, range_of};
    ghost use Rattle.ps_tables.specs.TableEdits.{PutsName, RemovesName};

    /// An empty index. Allocates nothing.
    pub fn new(alloc: Global) -> NameIndex
        ensures empty { (name : List ℕ) → get_by_text result.numbers name ≡ None }
    {
        NameIndex {
            numbers: BTreeMap::new(alloc),
        }
    }

    /// The number of the resource with this name.
    pub fn find(&self, name: &str) -> Option<u64>
        ensures number { result ≡ get_by_text self.now.numbers name.now }
    {
        self.numbers.get(name).copied()
    }

    /// Gives this name a number, and leaves the others theirs.
    pub fn put(&mut self, alloc: Global, name: &str, number: u64) -> Result<(), OutOfMemory>
        ensures names { OnOk result (PutsName self.old name.now number self.new) }
    {
        self.numbers.insert(String::from_str(alloc, name)?, number)?;
        Ok(())
    }

    /// Takes a name out, and leaves the others their numbers.
    pub fn remove(&mut self, name: &str)
        ensures names { RemovesName self.old name.now self.new }
    {
        let _number = self.numbers.remove(name);
    }

    /// All numbers, in the order of the names.
    pub fn all(&self, alloc: Global) -> Result<Vec<u64>, OutOfMemory>
        ensures numbers { IfOk result (λ numbers. numbers.items ≡ values self.now.numbers) }
        ensures ordered { OnOk result (IsOrdered string_cmp self.now.numbers) }
    {
        let mut numbers = Vec::new(alloc);
        for number in self.numbers.values() {
            numbers.push(*number)?;
        }
        Ok(numbers)
    }

    /// A page of the names that start with a front and come after both it and another name: the first of them in byte
    /// order, at most `most`.
    pub fn page(
        &self,
        alloc: Global,
        front: &str,
        after: &str,
        most: usize,
    ) -> Result<NamePage, OutOfMemory>
        ensures numbers { IfOk result (λ page. page.numbers.items ≡ page_numbers most (range_of front.now after.now self.now)) }
        ensures next { IfOk result (λ page. page.next ≡ page_next most (range_of front.now after.now self.now)) }
        ensures ordered { IfOk result (λ _. IsOrdered string_cmp self.now.numbers) }
    {
        let start = Bound::Excluded(String::from_str(alloc, later(front, after))?);
        let mut numbers = Vec::new(alloc);
        let mut last = None;
        for (name, number) in self.numbers.range((start, Bound::Unbounded)) {
            if !has_front(name.as_str(), front) {
                break;
            }
            if numbers.len() == most {
                let next = text_of(alloc, last)?;
                return Ok(NamePage { numbers, next });
            }
            numbers.push(*number)?;
            last = Some(name);
        }
        Ok(NamePage {
            numbers,
            next: None,
        })
    }
}

/// The later of two names.
fn later<'a>(first: &'a str, second: &'a str) -> &'a str
    ensures { result.now ≡ later first.now second.now }
{
    if first < second { second } else { first }
}

/// Whether a name starts with this front.
fn has_front(name: &str, front: &str) -> bool
    ensures { result ≡ starts_with nat_eq name.now front.now }
{
    name.starts_with(front)
}

/// The text of a name.
fn text_of(alloc: Global, name: Option<&String>) -> Result<Option<Text>, OutOfMemory>
    ensures { IfOk result (λ text. MatchOption name.entry (text ≡ None) (λ x. text ≡ Some (string_bytes x.now))) }
{
    match name {
        Some(name) => Ok(Some(Text::from_str(alloc, name.as_str())?)),
        None => Ok(None),
    }
}

/// A page of names.
#[derive(Drop)]
pub struct NamePage {
    /// The numbers of its names, in the order of the names.
    pub numbers: Vec<u64>,
    /// The last name of the page, if more remain.
    pub next: Option<Text>,
}
