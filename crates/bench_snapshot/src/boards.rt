//! Boards that are read and published to, and how long the calls took.
ghost use Rattle.std.specs.Prelude.{◌≡◌, ◌<◌, ◌∷◌, [], IfOk, length};
ghost use Rattle.kc_snapshot.specs.declared.publisher.TheConstants.{MOST_LISTS as MOST_PUBLISHED};
ghost use Rattle.kc_snapshot.specs.Histories.{member, width};

use anyhow::{Result, bail};
use kc_snapshot::{Blank, BoardName, NoMemory, Place, Publisher, Reader, open};
use std::alloc::Global;
use std::rt::Clock;
use std::sync::Wait;
use std::time::{Duration, Instant};

/// How many vertices change from one list to the next, one of them twice where these are all.
pub(crate) const CHANGED: u32 = 10;

/// From one vertex that is read or changed to the next; a prime number.
const STRIDE: u32 = 7_919;

/// How a list is published.
#[derive(Clone, Copy, Drop, Eq, PartialEq)]
pub(crate) enum How {
    /// By the vertices that change, with their new numbers.
    Places,
    /// As a list that is looked at where it changes.
    Among,
    /// As a whole.
    Whole,
}

/// What reads came to.
#[derive(Clone, Copy, Drop)]
pub(crate) struct Reads {
    /// The core numbers that were read, added up.
    pub(crate) sum: u64,
    pub(crate) took: Duration,
}

/// Opens a board with a list, for one reader.
fn open_one<J: BoardName, R: Wait + Drop>(
    rt: R,
    alloc: Global,
    blank: Blank,
    list: &[u32],
) -> Result<(Publisher<J, R>, Reader<J>)>
    requires { blank ≡ J.book }
    ensures publisher { IfOk result (λ r. r.0 ≡ member list.now ∷ []) }
    ensures reader { IfOk result (λ r. r.1 ≡ member list.now ∷ []) }
{
    let (publisher, mut readers) = open::<J, R>(rt, alloc, blank, list, 1)?;
    match readers.pop() {
        Some(reader) => Ok((publisher, reader)),
        None => bail!("there is no reader"),
    }
}

/// Reads so many core numbers of a board, from one vertex to another, and adds them up.
fn add_up<J: BoardName, R: Wait>(rt: &R, reader: &mut Reader<J>, vertices: u32, reads: u32) -> u64
    requires { (width reader.old ≡ vertices) × (0 < vertices) }
{
    let mut sum: u64 = 0;
    let mut v = 0;
    for _ in 0..reads {
        sum = sum.wrapping_add(u64::from(reader.read(rt, v).core));
        v = v.wrapping_add(STRIDE) % vertices;
    }
    sum
}

/// Reads so many core numbers of a board, and answers how long the reads took.
fn time_reads<J: BoardName, R: Wait + Clock>(
    rt: &R,
    reader: &mut Reader<J>,
    vertices: u32,
    reads: u32,
) -> Result<Reads>
    requires { (width reader.old ≡ vertices) × (0 < vertices) }
{
    let start = Instant::now(rt)?;
    let sum = add_up(rt, reader, vertices, reads);
    let took = start.elapsed(rt)?;
    Ok(Reads { sum, took })
}

/// Opens a board where each core number is 1, and reads so many of them.
pub(crate) fn measure_reads<J: BoardName, R: Wait + AllocGlobal + Clock>(
    rt: &R,
    blank: Blank,
    vertices: u32,
    reads: u32,
) -> Result<Reads>
    requires { (blank ≡ J.book) × (0 < vertices) }
{
    let list = vec![in rt.alloc(); 1; vertices as usize]?;
    let (publisher, mut reader) = open_one::<J, &R>(rt, rt.alloc(), blank, &list)?;
    let timed = time_reads(rt, &mut reader, vertices, reads);
    publisher.end();
    timed
}

/// Gives a few vertices of a list another number, and says which.
fn change(alloc: Global, list: &mut [u32], number: u32) -> Result<Vec<Place>, NoMemory>
    requires { 0 < length list.old }
    ensures { length list.new ≡ length list.old }
{
    let mut places = Vec::new(alloc);
    for step in 0..CHANGED {
        let drawn = number.wrapping_mul(CHANGED).wrapping_add(step);
        let at = drawn.wrapping_mul(STRIDE) as usize % list.len();
        list[at] = number;
        places.push(Place { at, core: number })?;
    }
    Ok(places)
}

/// The vertices of places.
fn vertices_of(alloc: Global, places: &[Place]) -> Result<Vec<u32>, NoMemory> {
    let mut vertices = Vec::new(alloc);
    for place in places {
        if let Ok(vertex) = u32::try_from(place.at) {
            vertices.push(vertex)?;
        }
    }
    Ok(vertices)
}

/// Publishes so many lists, each with a few numbers that changed, and answers how long the calls took.
fn publish_all<J: BoardName, R: Wait + Clock>(
    rt: &R,
    alloc: Global,
    publisher: &mut Publisher<J, &R>,
    list: &mut [u32],
    how: How,
    publishes: u32,
) -> Result<Duration>
    requires new { length publisher.old ≡ 1 }
    requires list { (0 < length list.old) × (length list.old ≡ width publisher.old) }
    requires room { publishes < MOST_PUBLISHED }
    ensures list { length list.new ≡ length list.old }
{
    let mut took = Duration::ZERO;
    for number in 1..publishes + 1 {
        let places = change(alloc, list, number)?;
        let vertices = vertices_of(alloc, &places)?;
        let start = Instant::now(rt)?;
        match how {
            How::Places => publisher.publish_changes(rt, places)?,
            How::Among => publisher.publish_among(rt, list, &vertices)?,
            How::Whole => publisher.publish(rt, list)?,
        };
        took = took.saturating_add(start.elapsed(rt)?);
    }
    Ok(took)
}

/// Whether a reader who learns what was published then sees this list, under this number.
fn shows<J: BoardName, R: Wait>(
    rt: &R,
    alloc: Global,
    publisher: &Publisher<J, &R>,
    reader: &mut Reader<J>,
    list: &[u32],
    number: u32,
) -> Result<bool, NoMemory>
    requires { length list.now ≡ width reader.old }
{
    let mut shown = vec![in alloc; 0; list.len()]?;
    reader.learn(rt, publisher.tell());
    let found = reader.cores(rt, &mut shown);
    Ok(found == number && shown.as_slice() == list)
}

/// Publishes so many lists, and answers how long the calls took. It is an error where a reader does not see the last one then.
fn publish_and_look<J: BoardName, R: Wait + AllocGlobal + Clock>(
    rt: &R,
    publisher: &mut Publisher<J, &R>,
    reader: &mut Reader<J>,
    list: &mut [u32],
    how: How,
    publishes: u32,
) -> Result<Duration>
    requires new { length publisher.old ≡ 1 }
    requires list { (0 < length list.old) × (length list.old ≡ width publisher.old) }
    requires reader { length list.old ≡ width reader.old }
    requires room { publishes < MOST_PUBLISHED }
{
    let alloc = rt.alloc();
    let took = publish_all(rt, alloc, publisher, list, how, publishes)?;
    if !shows(rt, alloc, publisher, reader, list, publishes)? {
        bail!("a reader does not see the last list");
    }
    Ok(took)
}

/// Opens a board where each core number is 0, and publishes so many lists. It is an error where a reader does not see the last one then.
pub(crate) fn measure_publishes<J: BoardName, R: Wait + AllocGlobal + Clock>(
    rt: &R,
    blank: Blank,
    vertices: u32,
    how: How,
    publishes: u32,
) -> Result<Duration>
    requires board { (blank ≡ J.book) × (0 < vertices) }
    requires room { publishes < MOST_PUBLISHED }
{
    let alloc = rt.alloc();
    let mut list = vec![in alloc; 0; vertices as usize]?;
    let (mut publisher, mut reader) = open_one::<J, &R>(rt, alloc, blank, &list)?;
    let took = publish_and_look(rt, &mut publisher, &mut reader, &mut list, how, publishes);
    publisher.end();
    took
}
