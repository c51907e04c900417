//! What the widths of the fields leave room for.
ghost use Rattle.std.specs.Prelude.{◌≡◌, ◌≤◌, ◌<◌, ◌+◌, ◌*◌, ◌^◌};
ghost use Rattle.kc_words.specs.declared.layout.TheConstants.{VERSION_BITS, GROUP_BITS, BOTTOM_BITS, TOP_BITS, INDEX_BITS, VERTEX_BITS, ITEM_BITS};
ghost use Rattle.kc_words.specs.declared.layout.TheConstants.{LAST_VERSION, ITEMS, VERTICES, INDICES, BOTTOM_ROOM, TOP_ROOM};

/// The limits are those of the widths, and the fields of an item's and of a group's word fill it.
pub fn the_limits_fit_their_fields()
    ensures item { VERSION_BITS + GROUP_BITS + BOTTOM_BITS ≡ 64 }
    ensures group { VERSION_BITS + TOP_BITS ≡ 64 }
    ensures version { LAST_VERSION + 1 ≡ 2 ^ VERSION_BITS }
    ensures bottom { BOTTOM_ROOM ≡ 2 ^ BOTTOM_BITS }
    ensures top { TOP_ROOM ≡ 2 ^ TOP_BITS }
    ensures groups { ITEMS + 1 < 2 ^ GROUP_BITS }
    ensures items { ITEMS ≤ 2 ^ ITEM_BITS }
    ensures vertices { VERTICES ≤ 2 ^ VERTEX_BITS }
    ensures indices { INDICES < 2 ^ INDEX_BITS }
{}

/// A fresh table has room for any update: each vertex that a graph may have can move once, which takes three versions of a word, and
/// each level that such a graph may have has a head of its own.
pub fn a_fresh_table_has_room_for_any_update()
    ensures versions { 3 * VERTICES ≤ LAST_VERSION }
    ensures heads { 2 * VERTICES + 1 ≤ ITEMS }
{}
