//! The words that a run gets, borrowed.
ghost use Rattle.std.specs.Prelude.{◌≡◌, IfOk, map, string_bytes};

use kc_io::NoMemory;
use std::alloc::Global;

/// Each word, borrowed.
pub(crate) fn borrowed<'a>(alloc: Global, words: &'a [String]) -> Result<Vec<&'a str>, NoMemory>
    ensures { IfOk result (λ texts. map (λ text. text.now) texts.items ≡ map string_bytes words.now) }
{
    let mut texts = Vec::new(alloc);
    for word in words {
        texts.push(word.as_str())?;
    }
    Ok(texts)
}
