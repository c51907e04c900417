//! What the words of the contracts mean for calls one after the other, as laws over the definitions alone.
//!
//! Each function does nothing, and its contract is the law.
ghost use Rattle.std.specs.Prelude.{◌≡◌, ◌<◌, ◌≤◌, ◌+◌, ◌*◌, ℕ, List, length};
ghost use Rattle.kc_words.specs.declared.layout.TheConstants.{LAST_VERSION};
ghost use Rattle.kc_table.specs.Log.{Seen};
ghost use Rattle.kc_order.specs.Writers.{HasRoom, HasVersionsLeft, IsHighest, PutsEach};

/// Of puts one after the other the last needs room for three stores of each word, and each before it takes at most two. So where the
/// greatest version leaves three times as many as there are puts, each of them begins with room.
pub fn three_versions_a_put_are_enough()
    ensures run { (old new : Seen) (puts : List (ℕ × ℕ)) (room : ℕ) → PutsEach old puts new → HasRoom old.table old.log (2 * length puts + room)
        → HasRoom new.table new.log room }
    ensures highest { (old new : Seen) (puts : List (ℕ × ℕ)) (highest count : ℕ) → IsHighest old.table old.log highest
        → highest + 3 * count ≤ LAST_VERSION → length puts < count → PutsEach old puts new → HasVersionsLeft new.table new.log }
{}
