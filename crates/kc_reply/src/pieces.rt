//! The pieces of a line. Where there is no memory, some of them may have been put at the end of the text.
ghost use Rattle.std.specs.Prelude.{◌≡◌, ◌++◌, OnOk};
ghost use Rattle.std.specs.Io.{StartsWith};

use crate::NoMemory;
use itoa::{Buffer, Integer};

/// Puts a text.
pub(crate) fn put_text(out: &mut Vec<u8>, text: &str) -> Result<(), NoMemory>
    ensures ok { OnOk result (out.new.items ≡ out.old.items ++ text.now) }
    ensures kept { StartsWith out.new.items out.old.items }
{
    out.extend_from_slice(text.as_bytes())
}

/// Puts a number, with the text before it.
pub(crate) fn put_field<N: Integer>(
    out: &mut Vec<u8>,
    label: &str,
    number: N,
) -> Result<(), NoMemory>
    ensures ok { OnOk result (out.new.items ≡ out.old.items ++ (label.now ++ N.text number)) }
    ensures kept { StartsWith out.new.items out.old.items }
{
    out.extend_from_slice(label.as_bytes())?;
    out.extend_from_slice(Buffer::new().format(number).as_bytes())
}
