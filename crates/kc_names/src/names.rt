//! A table of names.
ghost use Rattle.std.specs.Prelude.{◌≡◌, ◌==◌, ◌++◌, ◌∷◌, [], Some, IfOk, OnErr, OnOk, decimal, length};
ghost use Rattle.kc_names.specs.Names.{first_two, name_at, number_of, numbered_line, pairs_in, names_with, names_with_pair};
ghost use Rattle.kc_names.specs.Steps.{lines_behind, names_behind};
ghost use Rattle.kc_text.specs.Lines.{fields};

use crate::pairs::first_two;
use indexmap::IndexSet;
use itoa::Buffer;
use kc_text::{NoMemory, cut_line};
use std::alloc::Global;
use std::marker::Model;

/// Names, each once, in the order of their first coming. The number of a name is its place, from 0.
///
/// Contracts see the list of them.
///
/// # Example
///
/// ```rust
/// use kc_names::Names;
///
/// let mut names = Names::new(alloc);
/// let first = names.number(alloc, b"bob")?; // 0
/// let second = names.number(alloc, b"eve")?; // 1
/// let again = names.number(alloc, b"bob")?; // 0
/// let name = names.get(1); // b"eve"
/// ```
#[derive(Drop)]
pub struct Names {
    table: IndexSet<Vec<u8>>,
}

impl Model for Names {
    ghost use Rattle.std.specs.Prelude.{ℕ, List, map};

    ghost Value = { List (List ℕ) };

    ghost view = { λ names. map (λ name. name.items) names.table.keys };
}

impl Names {
    /// No names.
    pub fn new(alloc: Global) -> Names
        ensures { result ≡ [] }
    {
        Names {
            table: IndexSet::new(alloc),
        }
    }

    /// How many names there are.
    pub fn len(&self) -> usize
        ensures { result ≡ length self.now }
    {
        self.table.len()
    }

    /// Whether there is no name.
    pub fn is_empty(&self) -> bool
        ensures { result ≡ (length self.now == 0) }
    {
        self.table.len() == 0
    }

    /// The name of a number, or no bytes where there are fewer names.
    pub fn get(&self, number: usize) -> &[u8]
        ensures { result.now ≡ name_at self.now number }
    {
        match self.table.get_index(number) {
            Some(name) => name.as_slice(),
            None => b"",
        }
    }

    /// The number of a name. A name that is new goes behind the others; `NoMemory` comes where there is none for it, and then the names are
    /// as they were.
    pub fn number(&mut self, alloc: Global, name: &[u8]) -> Result<usize, NoMemory>
        ensures number { IfOk result (λ number. number ≡ number_of self.old name.now) }
        ensures names { OnOk result (self.new ≡ names_with self.old name.now) }
        ensures unchanged { OnErr result (self.new ≡ self.old) }
    {
        if let Some(number) = self.table.get_index_of(name) {
            return Ok(number);
        }
        let (number, _) = self.table.insert_full(Vec::from_slice(alloc, name)?)?;
        Ok(number)
    }

    /// Numbers two names, and writes the line of their numbers.
    fn number_pair(
        &mut self,
        alloc: Global,
        first: &[u8],
        second: &[u8],
        out: &mut Vec<u8>,
    ) -> Result<(), NoMemory>
        ensures names { OnOk result (self.new ≡ names_with_pair self.old (Some (first.now, second.now))) }
        ensures text { OnOk result (out.new.items ≡ out.old.items ++ numbered_line self.new (Some (first.now, second.now))) }
    {
        let first_number = self.number(alloc, first)?;
        let second_number = self.number(alloc, second)?;
        write_numbers(out, first_number, second_number)?;
        Ok(())
    }

    /// Numbers the two names of a line, and writes the line of their numbers; an empty one where the line has no two fields.
    fn number_line(&mut self, alloc: Global, line: &[u8], out: &mut Vec<u8>) -> Result<(), NoMemory>
        ensures names { OnOk result (self.new ≡ names_with_pair self.old (first_two (fields line.now))) }
        ensures text { OnOk result (out.new.items ≡ out.old.items ++ numbered_line self.new (first_two (fields line.now))) }
    {
        match first_two(line) {
            Some((first, second)) => self.number_pair(alloc, first, second, out),
            None => {
                out.push(b'\n')?;
                Ok(())
            }
        }
    }

    /// Numbers the names of a text's lines, two a line, and writes a line of numbers for each of its lines. After `NoMemory` some of the lines
    /// may be numbered.
    pub(crate) fn number_lines(
        &mut self,
        alloc: Global,
        text: &[u8],
        out: &mut Vec<u8>,
    ) -> Result<(), NoMemory>
        ensures names { OnOk result (self.new ≡ names_behind self.old (pairs_in text.now)) }
        ensures text { OnOk result (out.new.items ≡ out.old.items ++ lines_behind self.old (pairs_in text.now)) }
    {
        let mut rest = text;
        while let Some((line, more)) = cut_line(rest) {
            self.number_line(alloc, line, out)?;
            rest = more;
        }
        Ok(())
    }
}

/// Writes a number in decimal digits.
fn write_number(out: &mut Vec<u8>, number: usize) -> Result<(), NoMemory>
    ensures { OnOk result (out.new.items ≡ out.old.items ++ decimal number) }
{
    out.extend_from_slice(Buffer::new().format(number).as_bytes())
}

/// Writes the line of two numbers.
fn write_numbers(out: &mut Vec<u8>, first: usize, second: usize) -> Result<(), NoMemory>
    ensures { OnOk result (out.new.items ≡ out.old.items ++ (decimal first ++ 32 ∷ (decimal second ++ 10 ∷ []))) }
{
    write_number(out, first)?;
    out.push(b' ')?;
    write_number(out, second)?;
    out.push(b'\n')?;
    Ok(())
}
