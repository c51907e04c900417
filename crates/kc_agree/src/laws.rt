//! What stamps tell, as laws over the definitions alone. A law is a function without a body, whose contract is the law.
//!
//! The head of them is `what_was_read_is_true_now`. Those before it say what one unchanged stamp means, those after it how answers come
//! to be what was read, and the last ones what the stamps are numbers of.
ghost use Rattle.std.specs.Prelude.{◌≡◌, ◌≢◌, ◌≤◌, ◌<◌, ◌+◌, ◌↔◌, ◌&&◌, ℕ, Bool, List, [], ◌∷◌, ◌++◌, true, false, slice_index, if◌then◌else◌};
ghost use mathlib.Core.List.{IsPrefix};
ghost use Rattle.kc_lists.specs.Lists.{member};
ghost use Rattle.kc_graph.specs.SimpleGraph.{SimpleGraph};
ghost use Rattle.kc_graph.specs.Lawful.{IsCertified, Ranked};
ghost use Rattle.kc_graph.specs.Neighbours.{AreNeighbours};
ghost use Rattle.kc_graph.specs.Plans.{state_after};
ghost use Rattle.kc_graph.specs.declared.plan.Plan.{Plan};
ghost use Rattle.kc_graph.specs.declared.used.UsedEdges.{UsedEdges};
ghost use Rattle.kc_graph.specs.declared.used.UsedPlace.{UsedPlace};
ghost use Rattle.kc_graph.specs.declared.used.UsedOrder.{UsedOrder};
ghost use Rattle.kc_cert.specs.Local.{IsLocal};
ghost use Rattle.kc_table.specs.declared.entry.Entry.{Entry};
ghost use Rattle.kc_table.specs.declared.view.Event.{Event};
ghost use Rattle.kc_table.specs.Edges.{after_entries, after_entry, edges_after};
ghost use Rattle.kc_table.specs.Legal.{Legal};
ghost use Rattle.kc_table.specs.Log.{TableName};
ghost use Rattle.kc_table.specs.Sections.{puts_in};
ghost use Rattle.kc_view.specs.Answers.{Agrees, Answers, answers_in, has_core, nothing_answered, with_list, with_order, with_place};
ghost use Rattle.kc_view.specs.Sure.{IsSparing, IsSure};
ghost use Rattle.kc_order.specs.Standing.{StandsBefore, list_after};
ghost use Rattle.kc_agree.specs.Moved.{StaysPut};
ghost use Rattle.kc_agree.specs.Reads.{From, IsTrueOrder, StoodSo, WasList, WasPlace, WereRead, place_after};
ghost use Rattle.kc_agree.specs.Sections.{SealedIn};
ghost use Rattle.kc_agree.specs.Stamps.{IsChangeOf, changes_graph, core_after, edge_stamp, made_by, names, number_of, place_stamp};
ghost use Rattle.kc_agree.specs.States.{AreCurrent, AreOwn, ArePresent, IsAtRest, IsStateOf};
ghost use Rattle.kc_agree.specs.Stale.{AllCurrent, IsFirstStale};
ghost use Rattle.kc_agree.specs.declared.stale.Stale.{Stale};

/// Where a vertex had a place stamp after some prefix of a log at rest that is no less than that of now, no store since then has put it,
/// its core number is what it was, and it was not left open there: a put before the prefix that is sealed behind it gives a greater stamp.
pub fn a_present_stamp_means_not_put_since()
    ensures still { (table : TableName) (first last : List Event) (v : ℕ) → v < table.shape.fixed → IsPrefix first last
        → IsAtRest table last → place_stamp table last v ≤ place_stamp table first v → StaysPut table first last v }
    ensures core { (table : TableName) (first last : List Event) (v : ℕ) → IsPrefix first last → Legal table.shape table.opening last
        → place_stamp table last v ≤ place_stamp table first v → core_after table last v ≡ core_after table first v }
    ensures sealed { (table : TableName) (first last : List Event) (v : ℕ) → v < table.shape.fixed → IsPrefix first last
        → IsAtRest table last → place_stamp table last v ≤ place_stamp table first v → member v (made_by table first).unsealed ≡ false }
{}

/// Two items that no store between two prefixes moves stand at the second as they did at the first. So two vertices whose place stamps
/// are those of now stand as they did at any moment since the stamps were read.
pub fn two_that_are_not_moved_stand_as_they_did()
    ensures still { (table : TableName) (first last : List Event) (x y : ℕ) → IsPrefix first last
        → StaysPut table first last x → StaysPut table first last y
        → StandsBefore x y (list_after table first) ↔ StandsBefore x y (list_after table last) }
    ensures stamps { (table : TableName) (first between last : List Event) (x y : ℕ) → x < table.shape.fixed → y < table.shape.fixed
        → IsPrefix first between → IsPrefix between last → IsAtRest table last
        → place_stamp table last x ≤ place_stamp table first x → place_stamp table last y ≤ place_stamp table first y
        → StandsBefore x y (list_after table between) ↔ StandsBefore x y (list_after table last) }
{}

/// The neighbours of a vertex after a number of entries that is no less than its edge stamp are those of now.
pub fn a_present_edge_stamp_means_the_same_neighbours()
    ensures { (table : TableName) (opened : SimpleGraph) (stamps : List ℕ) (log : List Event) (v at : ℕ) (list : List ℕ)
        → edge_stamp table opened stamps log v ≤ at
        → AreNeighbours (edges_after opened table.shape table.opening log at) v list
        ↔ AreNeighbours (after_entries opened (made_by table log).entries) v list }
{}

/// **The theorem of agreement.** Lists, core numbers and orders that were read at different moments are all true of the state now, where
/// no stamp with which they were read is less than that of now.
pub fn what_was_read_is_true_now()
    ensures { (table : TableName) (opened : SimpleGraph) (stamps : List ℕ) (seen log : List Event) (s : Ranked) (a : Answers)
        → IsAtRest table log → IsStateOf table opened log s
        → IsPrefix seen log → WereRead table opened seen a → AreCurrent table opened stamps log a
        → Agrees a s }
{}

/// So a plan that is sure, and that was made of such answers, is right in the state now, which stays certified after it.
pub fn a_sure_plan_of_present_stamps_is_right()
    ensures { (table : TableName) (opened : SimpleGraph) (stamps : List ℕ) (seen log : List Event) (s : Ranked) (plan : Plan)
        → IsAtRest table log → IsStateOf table opened log s → IsCertified s → plan.update.v < s.graph.size
        → IsPrefix seen log → From plan table opened seen → AreCurrent table opened stamps log (answers_in plan.used)
        → IsSure plan → IsLocal s plan × IsSparing s plan × IsCertified (state_after plan s) }
{}

/// What was read stays so as the log grows.
pub fn what_was_read_stays_so()
    ensures { (table : TableName) (opened : SimpleGraph) (before log : List Event) (a : Answers) → IsPrefix before log
        → WereRead table opened before a → WereRead table opened log a }
{}

/// One answer more. The core number of a vertex is read once. An order is that after a prefix which holds all that had been seen before.
pub fn one_answer_more()
    ensures none { (table : TableName) (opened : SimpleGraph) (log : List Event) → WereRead table opened log nothing_answered }
    ensures list { (table : TableName) (opened : SimpleGraph) (log : List Event) (a : Answers) (e : UsedEdges)
        → WereRead table opened log a → WasList table opened log e → WereRead table opened log (with_list a e) }
    ensures place { (table : TableName) (opened : SimpleGraph) (log : List Event) (a : Answers) (p : UsedPlace) → has_core a p.vertex ≡ false
        → WereRead table opened log a → WasPlace table log p → WereRead table opened log (with_place a p) }
    ensures order { (table : TableName) (opened : SimpleGraph) (old prefix new : List Event) (a : Answers) (o : UsedOrder)
        → IsPrefix old prefix → IsPrefix prefix new
        → o.x ≢ o.y → has_core a o.x ≡ true → has_core a o.y ≡ true → IsTrueOrder (list_after table prefix) o
        → WereRead table opened old a → WereRead table opened new (with_order a o) }
{}

/// Lists that may be told to others: the present neighbours of a vertex under the number of the last entry, and the opening neighbours
/// under any number up to that of the last entry before the table.
pub fn lists_that_may_be_told()
    ensures present { (table : TableName) (opened : SimpleGraph) (log : List Event) (e : UsedEdges)
        → e.vertex < table.shape.fixed → e.at ≡ number_of table log
        → AreNeighbours (after_entries opened (made_by table log).entries) e.vertex e.neighbours → WasList table opened log e }
    ensures opening { (table : TableName) (opened : SimpleGraph) (log : List Event) (e : UsedEdges)
        → e.vertex < table.shape.fixed → e.at ≤ table.shape.base
        → AreNeighbours opened e.vertex e.neighbours → WasList table opened log e }
{}

/// The place of a vertex as a load of its word finds it is a place that was read, and how a comparison found two vertices is an order
/// that was read.
pub fn loads_and_comparisons_are_answers()
    ensures load { (table : TableName) (opened : SimpleGraph) (old new : List Event) (a : Answers) (v : ℕ)
        → v < table.shape.fixed → IsPrefix old new → has_core a v ≡ false
        → WereRead table opened old a → WereRead table opened new (with_place a (place_after table new v)) }
    ensures order { (table : TableName) (opened : SimpleGraph) (old new : List Event) (a : Answers) (x y : ℕ) (before : Bool)
        → x ≢ y → has_core a x ≡ true → has_core a y ≡ true → StoodSo table old new x y before
        → WereRead table opened old a → WereRead table opened new (with_order a (record { x = x; y = y; before = before })) }
{}

/// The answers of one who holds the state, with its present stamps, were read of its own log, and are current.
pub fn own_answers_were_read()
    ensures { (table : TableName) (opened : SimpleGraph) (stamps : List ℕ) (log : List Event) (s : Ranked) (a : Answers)
        → IsAtRest table log → IsStateOf table opened log s
        → ((v : ℕ) → v < table.shape.fixed → slice_index stamps v ≤ table.shape.base)
        → AreOwn table opened stamps log s a → WereRead table opened log a × AreCurrent table opened stamps log a }
{}

/// What `first_stale` tells of a table whose present stamps it is given: nothing exactly where all stamps are current.
pub fn first_stale_tells_whether_all_are_current()
    ensures none { (table : TableName) (opened : SimpleGraph) (stamps : List ℕ) (log : List Event) (edge_stamps place_stamps : List ℕ)
        (a : Answers) → ArePresent table opened stamps log edge_stamps place_stamps → WereRead table opened log a
        → AllCurrent edge_stamps place_stamps a → AreCurrent table opened stamps log a }
    ensures some { (table : TableName) (opened : SimpleGraph) (stamps : List ℕ) (log : List Event) (edge_stamps place_stamps : List ℕ)
        (a : Answers) (s : Stale) → ArePresent table opened stamps log edge_stamps place_stamps → WereRead table opened log a
        → IsFirstStale edge_stamps place_stamps a s → AreCurrent table opened stamps log a → ⊥ }
{}

/// Before its first entry a table's edge stamps are those that it opened with. With one entry more the edge stamp of a vertex is the new
/// entry's number where the entry names it and changes the graph, and else as it was.
pub fn an_entry_changes_the_stamps_of_its_ends()
    ensures none { (table : TableName) (opened : SimpleGraph) (stamps : List ℕ) (log : List Event) (v : ℕ)
        → (made_by table log).entries ≡ [] → edge_stamp table opened stamps log v ≡ slice_index stamps v }
    ensures stamp { (table : TableName) (opened : SimpleGraph) (stamps : List ℕ) (old new : List Event) (e : Entry) (v : ℕ)
        → (made_by table new).entries ≡ (made_by table old).entries ++ e ∷ []
        → edge_stamp table opened stamps new v
        ≡ (if changes_graph e (after_entries opened (made_by table old).entries) && names e v
        then number_of table old + 1
        else edge_stamp table opened stamps old v) }
    ensures graph { (table : TableName) (opened : SimpleGraph) (old new : List Event) (e : Entry)
        → (made_by table new).entries ≡ (made_by table old).entries ++ e ∷ []
        → after_entries opened (made_by table new).entries ≡ after_entry (after_entries opened (made_by table old).entries) e }
    ensures kept { (g : SimpleGraph) (e : Entry) → e.u ≢ e.v → changes_graph e g ≡ false → after_entry g e ≡ g }
{}

/// A plan that passes the local test changes the graph as its entry does, also where it changes nothing.
pub fn a_local_plan_changes_the_graph_as_its_entry_does()
    ensures { (s : Ranked) (plan : Plan) (index : ℕ) → IsLocal s plan
        → (state_after plan s).graph
        ≡ after_entry s.graph (record { index = index; add = plan.update.add; u = plan.update.u; v = plan.update.v }) }
{}

/// An edge stamp is never above the number of the last entry. Where it is greater than the one that the table opened with, it is the
/// number of an entry that named the vertex and changed the graph.
pub fn an_edge_stamp_is_the_number_of_an_entry()
    ensures bound { (table : TableName) (opened : SimpleGraph) (stamps : List ℕ) (log : List Event) (v : ℕ)
        → slice_index stamps v ≤ table.shape.base → edge_stamp table opened stamps log v ≤ number_of table log }
    ensures entry { (table : TableName) (opened : SimpleGraph) (stamps : List ℕ) (log : List Event) (v : ℕ)
        → slice_index stamps v < edge_stamp table opened stamps log v
        → IsChangeOf opened (made_by table log).entries table.shape.base v (edge_stamp table opened stamps log v) }
{}

/// A place stamp that has risen between two prefixes is the number of the section in which the vertex's word was stored since, and which
/// has put it. After a log at rest no section that put the vertex has a greater number.
pub fn a_place_stamp_is_the_number_of_a_section()
    ensures sealed { (table : TableName) (first last : List Event) (v : ℕ) → IsPrefix first last → Legal table.shape table.opening last
        → place_stamp table first v < place_stamp table last v → SealedIn table first last v (place_stamp table last v) }
    ensures put { (table : TableName) (first last : List Event) (v : ℕ) → v < table.shape.fixed → IsPrefix first last
        → Legal table.shape table.opening last → place_stamp table first v < place_stamp table last v
        → member v (puts_in table.shape table.opening last (place_stamp table last v)) ≡ true }
    ensures last { (table : TableName) (log : List Event) (v number : ℕ) → v < table.shape.fixed → IsAtRest table log
        → member v (puts_in table.shape table.opening log number) ≡ true → number ≤ place_stamp table log v }
{}
