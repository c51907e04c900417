//! Cuts a piece of a stream behind its last line end.
ghost use Rattle.std.specs.Prelude.{◌≡◌, ◌≤◌, length, drop, take};
ghost use Rattle.kc_stream.specs.Ended.{IsOpen};
ghost use Rattle.kc_text.specs.Lines.{EndsLine};

/// How many bytes stand before the end of the last line that ends, and at it: the others are of a line that has not ended.
pub fn ended_len(bytes: &[u8]) -> usize
    ensures within { result ≤ length bytes.now }
    ensures ended { EndsLine (take result bytes.now) }
    ensures rest { IsOpen (drop result bytes.now) }
{
    let mut len = bytes.len();
    while len > 0 {
        if bytes[len - 1] == b'\n' {
            return len;
        }
        len -= 1;
    }
    0
}
