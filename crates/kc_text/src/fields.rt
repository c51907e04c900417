//! Cuts the first field off a line. Blanks part fields, and an empty field is none.
ghost use Rattle.std.specs.Prelude.{◌≡◌, ◌∷◌, [], MatchOption};
ghost use Rattle.std.specs.List.{prefix_len, position_or_len};
ghost use Rattle.kc_text.specs.Lines.{fields, is_blank};

pub(crate) fn is_blank(b: u8) -> bool
    ensures { result ≡ is_blank b }
{
    b == b' ' || b == b'\t'
}

/// How many blanks stand at the front.
fn blanks(line: &[u8]) -> usize
    ensures { result ≡ prefix_len is_blank line.now }
{
    for (i, b) in line.iter().enumerate() {
        if !is_blank(*b) {
            return i;
        }
    }
    line.len()
}

/// Where the first blank stands, or the end.
fn field_len(line: &[u8]) -> usize
    ensures { result ≡ position_or_len is_blank line.now }
{
    for (i, b) in line.iter().enumerate() {
        if is_blank(*b) {
            return i;
        }
    }
    line.len()
}

/// The first field of a line, and what follows it; `None` where there are only blanks. Spaces and tabs are blanks.
pub fn cut_field(line: &[u8]) -> Option<(&[u8], &[u8])>
    ensures { MatchOption result (fields line.now ≡ []) (λ r. fields line.now ≡ r.0.now ∷ fields r.1.now) }
{
    let (_, line) = line.split_at(blanks(line));
    if line.is_empty() {
        return None;
    }
    Some(line.split_at(field_len(line)))
}
