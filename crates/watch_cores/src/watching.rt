//! What watches one vertex in a thread of its own.
ghost use Rattle.std.specs.Prelude.{◌≡◌, ◌<◌, ◌∷◌, [], All, IfSome, length};
ghost use Rattle.kc_snapshot.specs.Histories.{member, width};

use kc_snapshot::{BoardName, NoMemory, Read, Reader};
use std::alloc::Global;
use std::sync::Wait;

/// How often each watcher reads.
const READS: u32 = 100_000;

/// A reader, the vertex that it watches, and the first answer of each list that it came to see.
#[derive(Drop)]
pub(crate) struct Watcher<J: BoardName> {
    reader: Reader<J>,
    vertex: u32,
    seen: Vec<Read>,
    ghost here: { vertex < width reader },
}

impl<J: BoardName> Watcher<J> {
    /// Reads on and on, and waits for nobody. Where memory runs out it ends sooner.
    pub(crate) fn watch<R: Wait>(&mut self, rt: &R) {
        for _ in 0..READS {
            let read = self.reader.read(rt, self.vertex);
            if self.seen.last() != Some(&read) && self.seen.push(read).is_err() {
                return;
            }
        }
    }

    /// Whether each answer is its vertex's number in the list with the answer's number, and no list was seen after a later one.
    pub(crate) fn is_right(&self, lists: &[Vec<u32>]) -> bool {
        let mut next = 0;
        let mut right = true;
        for read in self.seen.iter() {
            let list = lists.get(read.number as usize);
            let core = list.and_then(|list| list.get(self.vertex as usize));
            right = right && core == Some(&read.core) && next <= read.number;
            next = read.number.saturating_add(1);
        }
        right
    }
}

/// One of these readers, which have seen a first list; none where there is none left.
pub(crate) fn one_of<J: BoardName>(readers: &mut Vec<Reader<J>>, first: &[u32]) -> Option<Reader<J>>
    requires { All (λ reader. reader ≡ member first.now ∷ []) readers.old.items }
    ensures one { IfSome result (λ reader. reader ≡ member first.now ∷ []) }
    ensures rest { All (λ reader. reader ≡ member first.now ∷ []) readers.new.items }
{
    readers.pop()
}

/// A watcher for each vertex, as far as there are readers, which have seen a first list.
pub(crate) fn watchers_of<J: BoardName>(
    alloc: Global,
    mut readers: Vec<Reader<J>>,
    first: &[u32],
    vertices: u32,
) -> Result<Vec<Watcher<J>>, NoMemory>
    requires readers { All (λ reader. reader ≡ member first.now ∷ []) readers.items }
    requires vertices { length first.now ≡ vertices }
{
    let mut watchers = Vec::new(alloc);
    for vertex in 0..vertices {
        let Some(reader) = one_of(&mut readers, first) else {
            break;
        };
        watchers.push(Watcher {
            reader,
            vertex,
            seen: Vec::new(alloc),
        })?;
    }
    Ok(watchers)
}
