//! The vertices that were queued, the candidates among them, and the moves of those that were evicted.
ghost use Rattle.std.specs.Prelude.{◌≡◌, ◌<◌, ◌≤◌, ◌+◌, ◌-◌, ◌^◌, ◌&&◌, min, nat_le, true, false, IfOk, OnOk, length};
ghost use Rattle.std.specs.List.{insert};
ghost use Rattle.kc_marks.specs.SearchMarks.{MarksOne};
ghost use Rattle.kc_insert.specs.Rising.{is_candidate, cands, earlier_at, turn_at};
ghost use Rattle.kc_insert.specs.Turns.{Begins, LeavesQueue, Evicts};

use kc_blocks::BlockList;
use kc_graph::NoMemory;
use kc_marks::SearchMarks;
use std::alloc::Global;

/// What is known of a vertex that was queued.
#[derive(Clone, Copy, Debug, Drop)]
pub(crate) struct Mark {
    /// How many of its neighbours are candidates that stand before it. None count once it is past.
    pub earlier: usize,
    /// Of a candidate: how many of its neighbours have a greater core number, or stand behind it on the level and may still rise.
    pub later: usize,
    /// Of a candidate: its place in the queue.
    pub turn: usize,
    /// Whether it may rise.
    pub is_candidate: bool,
    /// Whether it was found too weak to rise, and put on the list of those.
    pub is_weak: bool,
}

/// How far a search for the vertices that rise has come.
#[derive(Drop)]
pub(crate) struct Rising {
    /// The mark of each vertex that was ever queued, and the candidates that were found too weak.
    pub seen: SearchMarks<Mark>,
    /// All that were ever queued, in the order of the view.
    pub queue: BlockList,
    /// How many of them have left.
    pub turn: usize,
    /// For each of the weak that was evicted, itself and the vertex behind which it is put.
    pub shifts: Vec<(u32, u32)>,
}

impl Mark {
    /// The mark of a vertex that will not rise, once it has left the queue.
    pub fn past() -> Mark
        ensures { result ≡ record { earlier = 0; later = 0; turn = 0; is_candidate = false; is_weak = false } }
    {
        Mark {
            earlier: 0,
            later: 0,
            turn: 0,
            is_candidate: false,
            is_weak: false,
        }
    }

    /// The mark of a candidate.
    pub fn candidate(earlier: usize, later: usize, turn: usize) -> Mark
        ensures { result ≡ record { earlier = earlier; later = later; turn = turn; is_candidate = true; is_weak = false } }
    {
        Mark {
            earlier,
            later,
            turn,
            is_candidate: true,
            is_weak: false,
        }
    }

    /// Whether it is of a candidate with no more neighbours than the level asks.
    pub fn is_too_weak(&self, level: u32) -> bool
        ensures { result ≡ (self.now.is_candidate && nat_le (self.now.earlier + self.now.later) level) }
    {
        self.is_candidate && self.earlier.saturating_add(self.later) <= level as usize
    }
}

impl Rising {
    /// Only `root` is queued.
    pub fn start(alloc: Global, root: u32) -> Result<Rising, NoMemory>
        ensures { IfOk result (λ rising. Begins root rising) }
    {
        let mut seen = SearchMarks::new(alloc);
        seen.mark(root, Mark::past())?;
        let mut queue = BlockList::new(alloc);
        queue.insert(0, root)?;
        Ok(Rising {
            seen,
            queue,
            turn: 0,
            shifts: Vec::new(alloc),
        })
    }

    /// How many candidates stand before a vertex among its neighbours, as far as this was counted.
    pub fn earlier_of(&self, y: u32) -> usize
        ensures { result ≡ earlier_at self.now y }
    {
        match self.seen.find(y) {
            Some(mark) => mark.earlier,
            None => 0,
        }
    }

    /// The vertex that waits first leaves the queue.
    pub fn leave(&mut self, w: u32, mark: Mark) -> Result<(), NoMemory>
        requires { self.old.turn < length self.old.queue.items }
        ensures { OnOk result (LeavesQueue w mark self.old self.new) }
    {
        prove!(self.turn < self.queue.len());
        self.seen.mark(w, mark)?;
        self.turn += 1;
        Ok(())
    }

    /// Queues a vertex at this place, with one candidate before it.
    pub fn enqueue(&mut self, x: u32, place: usize) -> Result<(), NoMemory>
        requires { place ≤ length self.old.queue.items }
        ensures marks { OnOk result (MarksOne x
            (record { earlier = 1; later = 0; turn = 0; is_candidate = false; is_weak = false }) self.old.seen self.new.seen) }
        ensures queue { OnOk result (self.new.queue.items ≡ insert self.old.queue.items place x) }
        ensures rest { OnOk result ((self.new.turn ≡ self.old.turn) × (self.new.seen.weak.items ≡ self.old.seen.weak.items)
            × (self.new.shifts.items ≡ self.old.shifts.items)) }
    {
        let mark = Mark {
            earlier: 1,
            ..Mark::past()
        };
        self.seen.mark(x, mark)?;
        self.queue.insert(place, x)
    }

    /// Counts one candidate more before a queued vertex.
    pub fn count_candidate(&mut self, x: u32, mark: Mark) -> Result<(), NoMemory>
        ensures marks { OnOk result (MarksOne x (record mark { earlier = min (mark.earlier + 1) (2 ^ 64 - 1) }) self.old.seen self.new.seen) }
        ensures rest { OnOk result ((self.new.queue.items ≡ self.old.queue.items) × (self.new.turn ≡ self.old.turn)
            × (self.new.seen.weak.items ≡ self.old.seen.weak.items) × (self.new.shifts.items ≡ self.old.shifts.items)) }
    {
        let earlier = mark.earlier.saturating_add(1);
        self.seen.mark(x, Mark { earlier, ..mark })
    }

    /// A candidate that was found too weak will not rise, and is put behind another. What comes back is its turn.
    pub fn evict(&mut self, x: u32, anchor: u32) -> Result<usize, NoMemory>
        ensures turn { IfOk result (λ turn. turn ≡ turn_at self.old x) }
        ensures evicts { OnOk result (Evicts x anchor self.old self.new) }
    {
        let turn = self.dismiss(x)?;
        self.shifts.push((x, anchor))?;
        Ok(turn)
    }

    /// The place in the queue of a vertex, or 0 where it has no mark.
    fn turn_of(&self, x: u32) -> usize
        ensures { result ≡ turn_at self.now x }
    {
        match self.seen.find(x) {
            Some(mark) => mark.turn,
            None => 0,
        }
    }

    /// The mark of a vertex says from now on that it was too weak. What comes back is its turn.
    fn dismiss(&mut self, x: u32) -> Result<usize, NoMemory>
        ensures turn { IfOk result (λ turn. turn ≡ turn_at self.old x) }
        ensures marks { OnOk result (MarksOne x
            (record { earlier = 0; later = 0; turn = turn_at self.old x; is_candidate = false; is_weak = true }) self.old.seen self.new.seen) }
        ensures rest { OnOk result ((self.new.queue.items ≡ self.old.queue.items) × (self.new.turn ≡ self.old.turn)
            × (self.new.seen.weak.items ≡ self.old.seen.weak.items) × (self.new.shifts.items ≡ self.old.shifts.items)) }
    {
        let turn = self.turn_of(x);
        let mark = Mark {
            turn,
            is_weak: true,
            ..Mark::past()
        };
        self.seen.mark(x, mark)?;
        Ok(turn)
    }

    /// Those that may still rise, in the order of the queue.
    pub fn candidates(&self, alloc: Global) -> Result<Vec<u32>, NoMemory>
        ensures { IfOk result (λ list. list.items ≡ cands self.now) }
    {
        let mut list = Vec::new(alloc);
        for i in 0..self.queue.len() {
            let y = self.queue.get(i);
            if self.may_rise(y) {
                list.push(y)?;
            }
        }
        Ok(list)
    }

    /// Whether a vertex is a candidate.
    fn may_rise(&self, y: u32) -> bool
        ensures { result ≡ is_candidate self.now y }
    {
        match self.seen.find(y) {
            Some(mark) => mark.is_candidate,
            None => false,
        }
    }
}
