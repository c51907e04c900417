//! Finds the last line end.
ghost use Rattle.std.specs.Prelude.{◌≡◌, ◌≤◌, All, drop, false, length, take};
ghost use Rattle.kc_text.specs.Lines.{EndsLine, is_newline};

/// How many bytes stand before the last line end, and at it.
pub(crate) fn whole_len(bytes: &[u8]) -> usize
    ensures within { result ≤ length bytes.now }
    ensures ended { EndsLine (take result bytes.now) }
    ensures open { All (λ b. is_newline b ≡ false) (drop result bytes.now) }
{
    let mut len = bytes.len();
    while len > 0 {
        if bytes[len - 1] == b'\n' {
            return len;
        }
        len -= 1;
    }
    0
}
