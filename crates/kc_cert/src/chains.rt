//! Shifts, compared without making them.
ghost use Rattle.std.specs.Prelude.{◌≡◌, ◌≢◌, ◌<◌, ℕ, [], IfOk, OnOk, true, false, length, nat_eq, slice_index, is_some, if◌then◌else◌, Some};
ghost use Rattle.std.specs.HashMap.{get};
ghost use Rattle.kc_lists.specs.Lists.{member, Distinct, right_after};
ghost use Rattle.kc_graph.specs.Lawful.{Ranked};
ghost use Rattle.kc_cert.specs.Local.{firsts, AreInTurn};
ghost use Rattle.kc_cert.specs.Ranks.{rank_in};
ghost use Rattle.kc_cert.specs.Shifting.{anchor_of, with_anchor, line_with, home_with, line_after, home_after, no_home, chain_after};
ghost use Rattle.kc_cert.specs.Arrangements.{AreChainsOf};

use crate::NoMemory;
use crate::places::Places;
use crate::state::State;
use std::alloc::Global;
use std::collections::HashMap;

/// All anchors and shifted vertices, each chain in its order, and the anchor of each.
#[derive(Drop)]
struct ChainLine {
    vertices: Vec<u32>,
    anchors: HashMap<u32, u32>,
}

/// Where a line has one of its vertices, looked for from the end.
fn place_from_end(line: &[u32], w: u32) -> usize
    requires { member w line.now ≡ true }
    ensures within { result < length line.now }
    ensures there { slice_index line.now result ≡ w }
{
    let mut place = line.len() - 1;
    while line[place] != w {
        place -= 1;
    }
    place
}

/// Puts `x` right behind `w`.
fn put_behind(line: &mut Vec<u32>, x: u32, w: u32) -> Result<(), NoMemory>
    requires there { member w line.old.items ≡ true }
    requires once { Distinct line.old.items }
    ensures { OnOk result (line.new.items ≡ right_after x w line.old.items) }
{
    let place = place_from_end(line, w);
    line.insert(place + 1, x)?;
    Ok(())
}

impl ChainLine {
    /// The anchor of `w`, which stands in the line then.
    fn anchor(&mut self, w: u32) -> Result<u32, NoMemory>
        requires held { (y : ℕ) → is_some (get nat_eq self.old.anchors y) ≡ member y self.old.vertices.items }
        ensures anchor { IfOk result (λ anchor. anchor ≡ anchor_of (get nat_eq self.old.anchors) w) }
        ensures vertices { OnOk result (self.new.vertices.items ≡ with_anchor w self.old.vertices.items) }
        ensures anchors { OnOk result ((y : ℕ) → get nat_eq self.new.anchors y
            ≡ (if nat_eq y w then Some (anchor_of (get nat_eq self.old.anchors) w) else get nat_eq self.old.anchors y)) }
    {
        if let Some(anchor) = self.anchors.get(&w).copied() {
            return Ok(anchor);
        }
        self.vertices.push(w)?;
        self.anchors.insert(w, w)?;
        Ok(w)
    }

    /// Puts `x`, which is not in the line, right behind `w`.
    fn shift(&mut self, x: u32, w: u32) -> Result<(), NoMemory>
        requires differ { w ≢ x }
        requires free { member x self.old.vertices.items ≡ false }
        requires once { Distinct self.old.vertices.items }
        requires held { (y : ℕ) → is_some (get nat_eq self.old.anchors y) ≡ member y self.old.vertices.items }
        ensures vertices { OnOk result (self.new.vertices.items ≡ line_with x w self.old.vertices.items) }
        ensures anchors { OnOk result ((y : ℕ) → get nat_eq self.new.anchors y ≡ home_with x w (get nat_eq self.old.anchors) y) }
    {
        let anchor = self.anchor(w)?;
        put_behind(&mut self.vertices, x, w)?;
        self.anchors.insert(x, anchor)?;
        Ok(())
    }
}

/// The line of shifts.
fn line_of(alloc: Global, shifts: &[(u32, u32)]) -> Result<ChainLine, NoMemory>
    requires in_turn { AreInTurn shifts.now }
    requires once { Distinct (firsts shifts.now) }
    ensures vertices { IfOk result (λ line. line.vertices.items ≡ line_after [] shifts.now) }
    ensures anchors { IfOk result (λ line. (y : ℕ) → get nat_eq line.anchors y ≡ home_after no_home shifts.now y) }
{
    let mut line = ChainLine {
        vertices: Vec::new(alloc),
        anchors: HashMap::new(alloc),
    };
    for (x, w) in shifts {
        line.shift(*x, *w)?;
    }
    Ok(line)
}

/// Where shifts put their vertices: for each the anchor behind which it stands, and its place in the line.
#[derive(Drop)]
pub(crate) struct Chains {
    anchors: HashMap<u32, u32>,
    places: Places,
}

impl Chains {
    /// The chains of shifts.
    pub(crate) fn of_shifts(alloc: Global, shifts: &[(u32, u32)]) -> Result<Chains, NoMemory>
        requires in_turn { AreInTurn shifts.now }
        requires once { Distinct (firsts shifts.now) }
        ensures { IfOk result (AreChainsOf shifts.now) }
    {
        let line = line_of(alloc, shifts)?;
        let places = Places::in_list(alloc, &line.vertices)?;
        Ok(Chains {
            anchors: line.anchors,
            places,
        })
    }

    /// The anchor behind which a vertex stands, or itself.
    fn anchor(&self, y: u32) -> u32
        ensures { result ≡ anchor_of (get nat_eq self.now.anchors) y }
    {
        self.anchors.get(&y).copied().unwrap_or(y)
    }

    /// Whether `z` stands after `y` once the shifts are made.
    pub(crate) fn stands_after<S: State>(&self, state: &S, y: u32, z: u32) -> bool
        requires first { anchor_of (get nat_eq self.now.anchors) y < (S.state state.now).graph.size }
        requires second { anchor_of (get nat_eq self.now.anchors) z < (S.state state.now).graph.size }
        ensures { result ≡ chain_after (rank_in (S.state state.now).order) (get nat_eq self.now.anchors) (get nat_eq self.now.places.of) y z }
    {
        let (first, second) = (self.anchor(y), self.anchor(z));
        if first != second {
            return state.precedes(first, second);
        }
        self.places.get(y).unwrap_or(0) < self.places.get(z).unwrap_or(0)
    }
}
