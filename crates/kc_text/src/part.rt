//! The parts of a piece of text, which several threads may read, and who reads them.
//!
//! A part is whole lines. Most lines of a text are plain edge lines, whose meaning hangs on no line before them. A part with no other
//! line is told by its edges alone. What reads a text in order then takes these at once, and reads the lines of any other part itself.
ghost use Rattle.std.specs.Prelude.{◌≡◌, ◌≤◌, ◌++◌, IfOk, IfSome, length};
ghost use Rattle.std.specs.Thread.{IsSync};
ghost use Rattle.kc_text.specs.Forms.{all_said};
ghost use Rattle.kc_text.specs.Lines.{EndsLine};
ghost use Rattle.kc_text.specs.Parts.{ArePartsOf};
ghost use Rattle.kc_text.specs.TellingLines.{edge_lines};

use crate::NoMemory;
use crate::bytes::whole_len;
use crate::plain::front_pair;
use std::alloc::Global;
use std::thread::{Threads, join};

/// How many bytes a short edge line has. Room for edges is made as for lines of that length.
const LINE_BYTES: usize = 8;

/// Bytes that are fewer are read by one thread.
const SHARED_BYTES: usize = 131_072;

/// Whole lines of a piece of text.
#[derive(Drop)]
pub struct Part<'a> {
    /// The lines, each with its end.
    pub bytes: &'a [u8],
    /// The edges that the lines tell, one each, where it is known that they tell nothing else.
    pub edges: Option<Vec<(u32, u32)>>,
}

/// Who reads the parts of a piece.
pub trait PartsReader {
    /// Cuts whole lines into parts, as many as `threads` or any other number, and reads what it will of them. `NoMemory` comes where there
    /// is no memory for that.
    fn read_parts<'a>(
        &self,
        alloc: Global,
        threads: u32,
        bytes: &'a [u8],
    ) -> Result<Vec<Part<'a>>, NoMemory>
        requires { EndsLine bytes.now }
        ensures { IfOk result (λ parts. ArePartsOf bytes.now parts.items) };
}

/// Reads nothing ahead: a piece is one part, and what reads the text reads its lines too.
#[derive(Drop)]
pub struct OneThread;

impl PartsReader for OneThread {
    fn read_parts<'a>(
        &self,
        alloc: Global,
        _threads: u32,
        bytes: &'a [u8],
    ) -> Result<Vec<Part<'a>>, NoMemory> {
        one_part(alloc, bytes, None)
    }
}

/// A piece that is one part.
fn one_part<'a>(
    alloc: Global,
    bytes: &'a [u8],
    edges: Option<Vec<(u32, u32)>>,
) -> Result<Vec<Part<'a>>, NoMemory>
    requires ended { EndsLine bytes.now }
    requires edges { IfSome edges (λ edges. all_said bytes.now ≡ edge_lines edges.items) }
    ensures { IfOk result (λ parts. ArePartsOf bytes.now parts.items) }
{
    let mut parts = Vec::new(alloc);
    parts.push(Part { bytes, edges })?;
    Ok(parts)
}

/// The edges that lines tell, where each is a plain edge line.
fn plain_edges(alloc: Global, bytes: &[u8]) -> Result<Option<Vec<(u32, u32)>>, NoMemory>
    ensures { IfOk result (λ edges. IfSome edges (λ edges. all_said bytes.now ≡ edge_lines edges.items)) }
{
    let mut edges = Vec::with_capacity(alloc, bytes.len() / LINE_BYTES)?;
    let mut rest = bytes;
    while !rest.is_empty() {
        let Some((a, b, more)) = front_pair(rest) else {
            return Ok(None);
        };
        edges.push((a, b))?;
        rest = more;
    }
    Ok(Some(edges))
}

/// A piece that is one part, which this thread reads.
pub fn read_part<'a>(alloc: Global, bytes: &'a [u8]) -> Result<Vec<Part<'a>>, NoMemory>
    requires { EndsLine bytes.now }
    ensures { IfOk result (λ parts. ArePartsOf bytes.now parts.items) }
{
    let edges = plain_edges(alloc, bytes)?;
    one_part(alloc, bytes, edges)
}

/// Cuts whole lines behind the last line end that is among the first `most` bytes, or before all.
///
/// # Example
///
/// ```rust
/// use kc_text::cut_lines;
///
/// let (front, back) = cut_lines(b"5 9\n9 7\n", 6); // b"5 9\n" and b"9 7\n"
/// ```
pub fn cut_lines<'a>(bytes: &'a [u8], most: usize) -> (&'a [u8], &'a [u8])
    requires ended { EndsLine bytes.now }
    requires within { most ≤ length bytes.now }
    ensures parts { result.0.now ++ result.1.now ≡ bytes.now }
    ensures front { EndsLine result.0.now }
    ensures back { EndsLine result.1.now }
{
    let (front, _) = bytes.split_at(most);
    bytes.split_at(whole_len(front))
}

/// Cuts whole lines into at most `threads` parts, or into one, each of which a thread of its own reads. They are about as long as one
/// another, but that each ends with a line. Fewer than 131,072 bytes are not cut. `NoMemory` comes where there is no memory for the edges
/// or the parts.
///
/// # Example
///
/// ```rust
/// use kc_text::read_parts_in;
///
/// let parts = read_parts_in(rt, alloc, 4, b"5 9\n9 7\n")?; // these are few bytes, so this is one part
/// let edges = parts[0].edges.is_some(); // true: the part has the edges (5, 9) and (9, 7)
/// let parts = read_parts_in(rt, alloc, 4, b"# a comment\n5 9\n")?;
/// let edges = parts[0].edges.is_some(); // false: what reads the text reads these lines
/// ```
pub fn read_parts_in<'a, R: Threads + Sync>(
    rt: &R,
    alloc: Global,
    threads: u32,
    bytes: &'a [u8],
) -> Result<Vec<Part<'a>>, NoMemory>
    requires { EndsLine bytes.now }
    ensures { IfOk result (λ parts. ArePartsOf bytes.now parts.items) }
{
    if threads <= 1 || bytes.len() < SHARED_BYTES {
        return read_part(alloc, bytes);
    }
    let half = threads / 2;
    let others = threads - half;
    let (front, back) = cut_lines(bytes, bytes.len() / threads as usize * half as usize);
    let (front, back) = join(
        rt,
        || -> Result<Vec<Part>, NoMemory>
            requires { IsSync R.row × EndsLine front.now }
            ensures { IfOk result (λ parts. ArePartsOf front.entry.now parts.items) }
        { read_parts_in(rt, alloc, half, front) },
        || -> Result<Vec<Part>, NoMemory>
            requires { IsSync R.row × EndsLine back.now }
            ensures { IfOk result (λ parts. ArePartsOf back.entry.now parts.items) }
        { read_parts_in(rt, alloc, others, back) },
    );
    let mut parts = front?;
    let mut more = back?;
    parts.append(&mut more)?;
    Ok(parts)
}
