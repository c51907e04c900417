//! Whether the edges of a text ascend where it begins. It is looked at before a sweep, which would be vain else; no clause hangs on it.
use kc_io::source::Source;
use kc_text::{TextLine, cut_line, read_line};
use std::alloc::Global;

/// How many bytes are looked at.
const FRONT_BYTES: usize = 4096;

/// Whether the lines that have ended tell edges, each above the one before it and with its lesser id first.
fn ascend(front: &[u8]) -> bool {
    let (mut first, mut second) = (0u32, 0u32);
    let mut rest = front;
    while let Some((line, others)) = cut_line(rest) {
        if others.is_empty() {
            return true;
        }
        match read_line(line) {
            TextLine::Nothing => {}
            TextLine::Edge(a, b) => {
                if b <= a || a < first || (a == first && b <= second) {
                    return false;
                }
                first = a;
                second = b;
            }
            _ => return false,
        }
        rest = others;
    }
    true
}

/// Whether the first edges of a source ascend. It reads once.
pub(crate) fn begins_ascending<S: Source>(alloc: Global, source: &mut S) -> bool {
    let Ok(mut front) = vec![in alloc; 0u8; FRONT_BYTES] else {
        return false;
    };
    match source.read(&mut front) {
        Ok(n) => ascend(&front[..n]),
        Err(_) => false,
    }
}
