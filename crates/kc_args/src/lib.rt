//! The words of a program's arguments.
//!
//! [`words_of`] takes the arguments after the program's name, in their order. It says what the words are where an argument is no text, and
//! when there are none for want of memory. The crate stands on the standard library alone.
#![tactic(auto)]

ghost use Rattle.std.specs.Prelude.{◌≡◌, ◌≢◌, IfOk, IfErr, IsErr, drop, map, string_bytes};
ghost use Rattle.std.specs.IoError.{error_kind};
ghost use Rattle.std.specs.Vec.Iter.{into_iter_items};
ghost use Rattle.kc_args.specs.Words.{AreWords};

use std::alloc::{AllocError, Global};
use std::env::Args;
use std::io;
use std::io::ErrorKind;

/// All of these but the first, in their order.
fn all_but_first(alloc: Global, mut args: Args) -> Result<Vec<String>, AllocError>
    ensures { IfOk result (λ words. words.items ≡ drop 1 (into_iter_items args)) }
{
    let _name = args.next();
    let mut words = Vec::new(alloc);
    for word in args {
        words.push(word)?;
    }
    Ok(words)
}

/// The words after the program's name, in their order. Where one is not UTF-8, an empty word stands for all of them.
/// Where there was no memory for the arguments, there is none for the words.
pub fn words_of(alloc: Global, args: io::Result<Args>) -> Result<Vec<String>, AllocError>
    ensures words { IfOk result (λ words. AreWords args (map string_bytes words.items)) }
    ensures no_memory { IfErr args (λ error. error_kind error ≢ ErrorKind.InvalidData → IsErr result) }
{
    match args {
        Ok(args) => all_but_first(alloc, args),
        Err(error) => {
            if error.kind() != ErrorKind::InvalidData {
                return Err(AllocError);
            }
            let mut words = Vec::new(alloc);
            words.push(String::new(alloc))?;
            Ok(words)
        }
    }
}
