//! The two names of a line.
ghost use Rattle.std.specs.Prelude.{◌≡◌, None, Some, MatchOption};
ghost use Rattle.kc_names.specs.Names.{first_two};
ghost use Rattle.kc_text.specs.Lines.{fields};

use kc_text::cut_field;

/// The first two fields of a line, if it has two.
pub(crate) fn first_two(line: &[u8]) -> Option<(&[u8], &[u8])>
    ensures { MatchOption result (first_two (fields line.now) ≡ None) (λ pair. first_two (fields line.now) ≡ Some (pair.0.now, pair.1.now)) }
{
    let (first, rest) = cut_field(line)?;
    let (second, _) = cut_field(rest)?;
    Some((first, second))
}
