//! Which package needs which, as numbers.
use kc_topo::NoMemory;
use kc_words::VERTICES;
use std::alloc::Global;
use std::collections::HashMap;

/// What a comment begins with.
const COMMENT: &str = "#";

/// The names of packages, and each need: the numbers of a package and of one that it needs.
///
/// The name that was met last has number 0. A list mostly names a package before what it needs, so the order that the packages have at first
/// is right for most needs already, and few have to move.
#[derive(Drop)]
pub(crate) struct Needs<'a> {
    pub(crate) names: Vec<&'a str>,
    pub(crate) pairs: Vec<(u32, u32)>,
}

impl<'a> Needs<'a> {
    /// The name of a package; a question mark where no package has this number.
    pub(crate) fn name_of(&self, package: u32) -> &'a str {
        match self.names.get(package as usize) {
            Some(name) => *name,
            None => "?",
        }
    }

    /// Numbers the packages the other way round.
    fn turn(&mut self) {
        self.names.reverse();
        let last = self.names.len().saturating_sub(1).min(VERTICES as usize) as u32;
        for (package, needed) in self.pairs.iter_mut() {
            *package = last.saturating_sub(*package);
            *needed = last.saturating_sub(*needed);
        }
    }
}

/// The number of a name, a new one where it was not met before.
fn number_of<'a>(
    numbers: &mut HashMap<&'a str, u32>,
    names: &mut Vec<&'a str>,
    name: &'a str,
) -> Result<u32, NoMemory> {
    if let Some(number) = numbers.get(name) {
        return Ok(*number);
    }
    // More packages than there can be vertices are refused before any is added.
    let number = names.len().min(VERTICES as usize) as u32;
    numbers.insert(name, number)?;
    names.push(name)?;
    Ok(number)
}

/// The two names of a line. None where it has not two, or begins a comment.
fn pair_in(line: &str) -> Option<(&str, &str)> {
    if line.starts_with(COMMENT) {
        return None;
    }
    let mut fields = line.split_whitespace();
    match (fields.next(), fields.next(), fields.next()) {
        (Some(package), Some(needed), None) => Some((package, needed)),
        _ => None,
    }
}

/// The needs of a text. A comment, and a line that has not two names, is passed over.
pub(crate) fn needs_in(alloc: Global, text: &str) -> Result<Needs<'_>, NoMemory> {
    let mut numbers = HashMap::new(alloc);
    let mut names = Vec::new(alloc);
    let mut pairs = Vec::new(alloc);
    for line in text.lines() {
        if let Some((package, needed)) = pair_in(line) {
            let package = number_of(&mut numbers, &mut names, package)?;
            let needed = number_of(&mut numbers, &mut names, needed)?;
            pairs.push((package, needed))?;
        }
    }
    let mut needs = Needs { names, pairs };
    needs.turn();
    Ok(needs)
}
