//! Which of two ids stands first.
ghost use Rattle.std.specs.Prelude.{◌≡◌, ◌≤◌, ◌<◌, length, take};
ghost use Rattle.kc_answers.specs.Answers.{standing_by, standing_of};
ghost use Rattle.kc_stream.specs.Ids.{number_of};
ghost use Rattle.kc_tally.specs.Keys.{stands_before};

use crate::finding::known_number;
use kc_reply::Standing;
use kc_stream::Ids;

/// Whether the id at one place stands before that at another: by core number, then layer, then id.
fn stands_before(ids: &[u32], core: &[u32], layer: &[u32], v: usize, w: usize) -> bool
    requires named { length core.now ≤ length ids.now }
    requires layered { length layer.now ≡ length core.now }
    requires first { v < length core.now }
    requires second { w < length core.now }
    ensures { result ≡ stands_before core.now layer.now ids.now v w }
{
    core[v] < core[w]
        || (core[v] == core[w]
            && (layer[v] < layer[w] || (layer[v] == layer[w] && ids[v] < ids[w])))
}

/// Where the id at one place stands to that at another.
fn standing_of(ids: &[u32], core: &[u32], layer: &[u32], v: usize, w: usize) -> Standing
    requires named { length core.now ≤ length ids.now }
    requires layered { length layer.now ≡ length core.now }
    requires first { v < length core.now }
    requires second { w < length core.now }
    ensures { result ≡ standing_of ids.now core.now layer.now v w }
{
    if v == w {
        Standing::Same
    } else if stands_before(ids, core, layer, v, w) {
        Standing::Before
    } else {
        Standing::After
    }
}

/// Where one id stands to another, and none where one of them has no core number.
pub(crate) fn standing_by(
    ids: &Ids,
    core: &[u32],
    layer: &[u32],
    a: u32,
    b: u32,
) -> Option<Standing>
    requires known { length core.now ≤ length ids.now }
    requires layered { length layer.now ≡ length core.now }
    ensures { result ≡ standing_by (take (length core.now) ids.now) core.now layer.now
        (number_of (take (length core.now) ids.now) a) (number_of (take (length core.now) ids.now) b) }
{
    let known = core.len();
    let v = known_number(ids, known, a)?;
    let w = known_number(ids, known, b)?;
    Some(standing_of(&ids.names()[..known], core, layer, v as usize, w as usize))
}
