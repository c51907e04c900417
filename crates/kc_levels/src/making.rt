//! All moves of a plan in one section: its puts, one at a time, and then the words of the vertices that they moved.
//!
//! Shifts are put in turn, the risen from the last to the first right behind the next head, and the fallen in turn before the head.
ghost use Rattle.std.specs.Prelude.{◌≡◌, ◌≢◌, ◌<◌, ◌≤◌, ◌+◌, ◌-◌, ◌++◌, ℕ, [], true, false, length, slice_index};
ghost use Rattle.kc_lists.specs.Lists.{member, Distinct};
ghost use Rattle.kc_graph.specs.Plans.{put_between, renumbered, shifted};
ghost use Rattle.kc_cert.specs.Local.{firsts, moved_vertices, seconds, AreInTurn};
ghost use Rattle.kc_levels.specs.Heads.{under, up_to};
ghost use Rattle.kc_levels.specs.Levels.{AreLevels, size_of, unsealed_in};
ghost use Rattle.kc_levels.specs.Makes.{backwards, Makes, MakesAll, MayMake, MayPutAll, PutsAll, SealsAll};

use crate::levels::Levels;
use kc_graph::Moves;
use kc_table::Words;

/// Makes all moves, one put at a time, and then seals the vertices that were moved.
pub fn make_moves(levels: &mut Levels, words: &Words, moves: &Moves)
    requires table { levels.old.table ≡ words.now }
    requires may { MayMake levels.old moves.now }
    ensures { Makes levels.old levels.new moves.now }
{
    match moves {
        Moves::Kept => {}
        Moves::Plain => {}
        Moves::Rise {
            level,
            rise,
            shifts,
        } => make_rise(levels, words, rise, shifts, *level),
        Moves::Fall { level, fall } => make_fall(levels, words, fall, *level),
    }
}

/// How many vertices moves move.
pub fn moved_count(moves: &Moves) -> usize
    ensures { result ≡ length (moved_vertices moves.now) }
{
    match moves {
        Moves::Kept => 0,
        Moves::Plain => 0,
        Moves::Rise { rise, shifts, .. } => rise.len() + shifts.len(),
        Moves::Fall { fall, .. } => fall.len(),
    }
}

/// Makes the shifts and rises, and seals all that moved.
fn make_rise(levels: &mut Levels, words: &Words, rise: &[u32], shifts: &[(u32, u32)], level: u32)
    requires table { levels.old.table ≡ words.now }
    requires fresh { unsealed_in levels.old ≡ [] }
    requires may { MayPutAll levels.old (rise.now ++ firsts shifts.now) }
    requires once { Distinct (rise.now ++ firsts shifts.now) }
    requires turn { AreInTurn shifts.now }
    requires firsts { (x : ℕ) → member x (firsts shifts.now) ≡ true → slice_index levels.old.core x ≡ level }
    requires seconds { (w : ℕ) → member w (seconds shifts.now) ≡ true → (w < size_of levels.old) × (slice_index levels.old.core w ≡ level) }
    requires room { (v : ℕ) → member v rise.now ≡ true → level + 1 < size_of levels.old }
    ensures { MakesAll levels.old levels.new (firsts shifts.now ++ backwards rise.now) (rise.now ++ firsts shifts.now)
        (put_between (up_to levels.old.core level) rise.now (shifted shifts.now levels.old.order)) (renumbered rise.now (level + 1) levels.old.core) }
{
    shift_each(levels, words, shifts);
    raise_each(levels, words, rise, level);
    seal_each(levels, words, rise);
    seal_shifted(levels, words, shifts);
}

/// Makes the falls, and seals all that fell.
fn make_fall(levels: &mut Levels, words: &Words, fall: &[u32], level: u32)
    requires table { levels.old.table ≡ words.now }
    requires fresh { unsealed_in levels.old ≡ [] }
    requires may { MayPutAll levels.old fall.now }
    requires once { Distinct fall.now }
    requires room { (v : ℕ) → member v fall.now ≡ true → (0 < level) × (level < size_of levels.old) }
    ensures { MakesAll levels.old levels.new fall.now fall.now
        (put_between (under levels.old.core level) fall.now levels.old.order) (renumbered fall.now (level - 1) levels.old.core) }
{
    lower_each(levels, words, fall, level);
    seal_each(levels, words, fall);
}

/// Each pair's first vertex is put right after its second, in turn.
fn shift_each(levels: &mut Levels, words: &Words, shifts: &[(u32, u32)])
    requires table { levels.old.table ≡ words.now }
    requires may { MayPutAll levels.old (firsts shifts.now) }
    requires once { Distinct (firsts shifts.now) }
    requires turn { AreInTurn shifts.now }
    requires seconds { (w : ℕ) → member w (seconds shifts.now) ≡ true → w < size_of levels.old }
    requires level { (x w : ℕ) → member x (firsts shifts.now) ≡ true → member w (seconds shifts.now) ≡ true
        → slice_index levels.old.core x ≡ slice_index levels.old.core w }
    ensures { PutsAll levels.old levels.new (firsts shifts.now) (shifted shifts.now levels.old.order) levels.old.core }
{
    for (x, w) in shifts {
        levels.shift_after(words, *x, *w);
    }
}

/// The vertices get to the front of the next level, the last one first.
fn raise_each(levels: &mut Levels, words: &Words, rise: &[u32], level: u32)
    requires table { levels.old.table ≡ words.now }
    requires may { MayPutAll levels.old rise.now }
    requires once { Distinct rise.now }
    requires room { (v : ℕ) → member v rise.now ≡ true → level + 1 < size_of levels.old }
    ensures { PutsAll levels.old levels.new (backwards rise.now)
        (put_between (up_to levels.old.core level) rise.now levels.old.order) (renumbered rise.now (level + 1) levels.old.core) }
{
    let mut i = rise.len();
    while i > 0 {
        i -= 1;
        levels.to_front(words, rise[i], level + 1);
    }
}

/// The vertices get to the back of the level below, in turn.
fn lower_each(levels: &mut Levels, words: &Words, fall: &[u32], level: u32)
    requires table { levels.old.table ≡ words.now }
    requires may { MayPutAll levels.old fall.now }
    requires once { Distinct fall.now }
    requires room { (v : ℕ) → member v fall.now ≡ true → (0 < level) × (level < size_of levels.old) }
    ensures { PutsAll levels.old levels.new fall.now
        (put_between (under levels.old.core level) fall.now levels.old.order) (renumbered fall.now (level - 1) levels.old.core) }
{
    for v in fall {
        levels.to_back(words, *v, level - 1);
    }
}

/// The words of the vertices are stored, in turn.
fn seal_each(levels: &mut Levels, words: &Words, vertices: &[u32])
    requires table { levels.old.table ≡ words.now }
    requires are { AreLevels levels.old }
    requires open_ { levels.old.open_ ≡ true }
    requires once { Distinct vertices.now }
    requires moved { (v : ℕ) → member v vertices.now ≡ true → member v (unsealed_in levels.old) ≡ true }
    ensures { SealsAll levels.old levels.new vertices.now }
{
    for v in vertices {
        levels.seal(words, *v);
    }
}

/// The words of the shifted vertices are stored, in turn.
fn seal_shifted(levels: &mut Levels, words: &Words, shifts: &[(u32, u32)])
    requires table { levels.old.table ≡ words.now }
    requires are { AreLevels levels.old }
    requires open_ { levels.old.open_ ≡ true }
    requires once { Distinct (firsts shifts.now) }
    requires moved { (v : ℕ) → member v (firsts shifts.now) ≡ true → member v (unsealed_in levels.old) ≡ true }
    ensures { SealsAll levels.old levels.new (firsts shifts.now) }
{
    for (x, _) in shifts {
        levels.seal(words, *x);
    }
}
