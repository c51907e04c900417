//! What is told of a text that was read as lines of a graph, and may be none.
ghost use Rattle.std.specs.Prelude.{◌≡◌, IfOk, option_map, string_bytes};
ghost use Rattle.kc_text.specs.Inputs.{IsNamedEdges};
ghost use Rattle.kc_text.specs.Meaning.{Told};
ghost use Rattle.kc_cores.specs.Sentences.{first_pair_in, remark_on, told_foreign};

use crate::ending::in_file;
use crate::sentences::{foreign, foreign_sentence};
use kc_dialect::{Dialect, Ids, first_pair};
use kc_graph::NoMemory;
use kc_head::{Foreign, may_be_sizes};
use kc_text::NamedEdges;
use std::alloc::Global;

/// The first pair of numbers that a text with this head tells, where its ids are numbers.
fn first_pair_in(dialect: Option<Dialect>, head: &[u8]) -> Option<(u32, u32)>
    ensures { result ≡ first_pair_in dialect head.now }
{
    match dialect {
        None => first_pair(Dialect::PLAIN, head),
        Some(dialect) => match dialect.ids {
            Ids::Numbers => first_pair(dialect, head),
            Ids::Names => None,
        },
    }
}

/// What a text may be that was read as lines of a graph, and may be none, as its head and all that was read say.
pub(crate) fn remark_on(
    dialect: Option<Dialect>,
    head: &[u8],
    named: &NamedEdges,
) -> Option<Foreign>
    ensures { (told : Told) → IsNamedEdges told named.now → result ≡ remark_on dialect head.now told }
{
    if let Some(what) = foreign(dialect, head) {
        return Some(what);
    }
    let pair = first_pair_in(dialect, head)?;
    if may_be_sizes(pair, named) {
        Some(Foreign::SizesFirst)
    } else {
        None
    }
}

/// What the text of a file may be that is no lines of a graph, and how it is mended; nothing where it is as others.
pub(crate) fn told_foreign(
    alloc: Global,
    file: Option<&str>,
    what: Option<Foreign>,
) -> Result<String, NoMemory>
    ensures { IfOk result (λ line. string_bytes line ≡ told_foreign (option_map (λ t. t.now) file.entry) what) }
{
    let Some(what) = what else {
        return Ok(String::new(alloc));
    };
    let front = in_file(alloc, file)?;
    let sentence = foreign_sentence(what);
    format!(in alloc; "cores: {front}{sentence}\n")
}
