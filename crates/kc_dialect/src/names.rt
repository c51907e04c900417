//! The separator that the name of a file tells.
ghost use Rattle.std.specs.Prelude.{◌≡◌};
ghost use Rattle.kc_dialect.specs.Names.{separator_of_name};

use crate::dialect::Separator;

/// The separator of a file by the end of its name: a comma of `.csv`, a tab of `.tsv`, and else blanks.
pub fn separator_of_name(name: &[u8]) -> Separator
    ensures { result ≡ separator_of_name name.now }
{
    if name.ends_with(b".csv") {
        Separator::Comma
    } else if name.ends_with(b".tsv") {
        Separator::Tab
    } else {
        Separator::Blank
    }
}
