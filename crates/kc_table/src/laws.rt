//! What the definitions of a log mean, as laws over the definitions alone.
//!
//! Each function does nothing, and its contract is the law.
ghost use Rattle.std.specs.Prelude.{◌≡◌, ◌≢◌, ◌+◌, ◌<◌, ◌≤◌, ◌^◌, ◌⊎◌, ◌↔◌, ℕ, Bool, List, [], ◌∷◌, ◌++◌, length, true, false};
ghost use mathlib.Core.List.{IsPrefix};
ghost use Rattle.kc_lists.specs.Lists.{Distinct, member};
ghost use Rattle.kc_words.specs.NoteWord.{IsFitting, note_word};
ghost use Rattle.kc_words.specs.declared.layout.TheConstants.{INDEX_BITS};
ghost use Rattle.kc_words.specs.declared.note.NoteWord.TheVariants.{Enter, Put, Take};
ghost use Rattle.kc_words.specs.declared.shape.Shape.{Shape};
ghost use Rattle.kc_table.specs.declared.view.Event.{Event};
ghost use Rattle.kc_table.specs.Edges.{edges_after};
ghost use Rattle.kc_table.specs.Legal.{StateHolds, IsClosed, IsVersioned, Legal, MayStore, IsTableOpening};
ghost use Rattle.kc_table.specs.Log.{event, value_at};
ghost use Rattle.kc_table.specs.Samples as sample;
ghost use Rattle.kc_table.specs.Sections.{item_put, number_after, puts_in, stamp_after};
ghost use Rattle.kc_table.specs.TableState.{after_store, first_vertex, state_of};

/// A log is legal where the table was opened rightly, each store was one that might follow, and the rules held after it.
pub fn a_log_is_legal_store_by_store()
    ensures empty { (shape : Shape) (opening : List ℕ) → IsTableOpening shape opening → Legal shape opening [] }
    ensures longer { (shape : Shape) (opening : List ℕ) (log : List Event) (e : Event) → Legal shape opening log
        → MayStore shape (state_of shape opening log) e → StateHolds shape (state_of shape opening (log ++ e ∷ [])) → Legal shape opening (log ++ e ∷ []) }
    ensures prefix { (shape : Shape) (opening : List ℕ) (before log : List Event) → IsPrefix before log → Legal shape opening log → Legal shape opening before }
    ensures opening { (shape : Shape) (opening : List ℕ) (log : List Event) → Legal shape opening log → IsTableOpening shape opening }
    ensures last { (shape : Shape) (opening : List ℕ) (log : List Event) (e : Event) → Legal shape opening (log ++ e ∷ [])
        → MayStore shape (state_of shape opening log) e }
    ensures holds { (shape : Shape) (opening : List ℕ) (log : List Event) → Legal shape opening log → StateHolds shape (state_of shape opening log) }
{}

/// One more store changes what a log has made by `after_store`.
pub fn a_store_changes_the_state()
    ensures { (shape : Shape) (opening : List ℕ) (log : List Event) (e : Event) → state_of shape opening (log ++ e ∷ [])
        ≡ after_store shape (state_of shape opening log) e }
{}

/// Where an item's, a group's or a vertex's word has one value after two prefixes of a legal log, it has it after each between them.
pub fn no_value_comes_back()
    ensures versioned { (shape : Shape) (opening : List ℕ) (word : ℕ) (first between last : List Event) → IsVersioned shape word
        → IsPrefix first between → IsPrefix between last → Legal shape opening last
        → value_at opening first word ≡ value_at opening last word → value_at opening between word ≡ value_at opening first word }
    ensures vertex { (shape : Shape) (opening : List ℕ) (v : ℕ) (first between last : List Event)
        → IsPrefix first between → IsPrefix between last → Legal shape opening last
        → value_at opening first (first_vertex shape + v) ≡ value_at opening last (first_vertex shape + v)
        → value_at opening between (first_vertex shape + v) ≡ value_at opening first (first_vertex shape + v) }
{}

/// A store changes its word alone, which has its value then.
pub fn a_store_changes_its_word_alone()
    ensures others { (opening : List ℕ) (log : List Event) (e : Event) (word : ℕ) → word ≢ e.word
        → value_at opening (log ++ e ∷ []) word ≡ value_at opening log word }
    ensures stored { (shape : Shape) (opening : List ℕ) (log : List Event) (e : Event) → Legal shape opening (log ++ e ∷ [])
        → value_at opening (log ++ e ∷ []) e.word ≡ e.value }
{}

/// Of two prefixes of one log one begins the other.
pub fn of_two_prefixes_one_begins_the_other()
    ensures { (first second log : List Event) → IsPrefix first log → IsPrefix second log → IsPrefix first second ⊎ IsPrefix second first }
{}

/// The stamp of a vertex never falls along a legal log, and where it has not risen, the vertex's word is the same.
pub fn the_stamp_of_a_vertex_never_falls()
    ensures never_falls { (shape : Shape) (opening : List ℕ) (first last : List Event) (v : ℕ) → IsPrefix first last → Legal shape opening last
        → stamp_after shape opening first v ≤ stamp_after shape opening last v }
    ensures same { (shape : Shape) (opening : List ℕ) (first last : List Event) (v : ℕ) → IsPrefix first last → Legal shape opening last
        → stamp_after shape opening first v ≡ stamp_after shape opening last v
        → value_at opening first (first_vertex shape + v) ≡ value_at opening last (first_vertex shape + v) }
{}

/// A vertex that a store puts, behind some prefix of a legal log, is open at the log's end, or its stamp is greater than after the prefix.
pub fn a_vertex_that_was_put_is_open_or_has_a_greater_stamp()
    ensures { (shape : Shape) (opening : List ℕ) (first before log : List Event) (e : Event) (v : ℕ) → v < shape.fixed
        → IsPrefix first before → IsPrefix (before ++ e ∷ []) log → Legal shape opening log
        → member v (item_put (state_of shape opening before).note e.word) ≡ true
        → (member v (state_of shape opening log).unsealed ≡ true) ⊎ (stamp_after shape opening first v < stamp_after shape opening log v) }
{}

/// A section that is closed has put a vertex exactly where the vertex has the section's number as stamp. What stands before the note of
/// an entry is closed, so an earlier section has put a vertex exactly where it had that stamp there.
pub fn a_stamp_tells_whether_its_section_put_the_vertex()
    ensures last { (shape : Shape) (opening : List ℕ) (log : List Event) (v : ℕ) → v < shape.fixed → Legal shape opening log
        → IsClosed (state_of shape opening log) → 0 < length (state_of shape opening log).entries
        → (member v (puts_in shape opening log (number_after shape opening log)) ≡ true)
        ↔ (stamp_after shape opening log v ≡ number_after shape opening log) }
    ensures closed { (shape : Shape) (opening : List ℕ) (before : List Event) (e : Event) → Legal shape opening (before ++ e ∷ [])
        → number_after shape opening before < number_after shape opening (before ++ e ∷ []) → IsClosed (state_of shape opening before) }
    ensures earlier { (shape : Shape) (opening : List ℕ) (before log : List Event) (e : Event) (v : ℕ) → v < shape.fixed
        → Legal shape opening log → IsPrefix (before ++ e ∷ []) log → 0 < length (state_of shape opening before).entries
        → number_after shape opening before < number_after shape opening (before ++ e ∷ [])
        → (member v (puts_in shape opening log (number_after shape opening before)) ≡ true)
        ↔ (stamp_after shape opening before v ≡ number_after shape opening before) }
{}

/// An update is entered by two stores to the word of the note. Its index announces nothing, and leaves list and entries as they were. The
/// note then adds the entry with this index behind those before, and its section is open.
pub fn an_entry_has_the_index_that_was_stored_before_its_note()
    ensures index { (shape : Shape) (opening : List ℕ) (log : List Event) (index : ℕ) → index < 2 ^ INDEX_BITS
        → ((state_of shape opening (log ++ event 0 index ∷ [])).list ≡ (state_of shape opening log).list)
        × ((state_of shape opening (log ++ event 0 index ∷ [])).entries ≡ (state_of shape opening log).entries) }
    ensures entry { (shape : Shape) (opening : List ℕ) (log : List Event) (index u v : ℕ) (add : Bool) → Legal shape opening log
        → index < 2 ^ INDEX_BITS → IsFitting (Enter add u v)
        → (state_of shape opening ((log ++ event 0 index ∷ []) ++ event 0 (note_word (Enter add u v)) ∷ [])).entries
        ≡ (state_of shape opening log).entries ++ record { index = index; add = add; u = u; v = v } ∷ [] }
{}

/// The list of a legal log has distinct items of the table, and each vertex.
pub fn the_list_has_distinct_items_and_each_vertex()
    ensures distinct { (shape : Shape) (opening : List ℕ) (log : List Event) → Legal shape opening log → Distinct (state_of shape opening log).list }
    ensures items { (shape : Shape) (opening : List ℕ) (log : List Event) (x : ℕ) → Legal shape opening log
        → member x (state_of shape opening log).list ≡ true → x < shape.items }
    ensures vertices { (shape : Shape) (opening : List ℕ) (log : List Event) (v : ℕ) → Legal shape opening log
        → v < shape.fixed → member v (state_of shape opening log).list ≡ true }
{}

/// The list and the entries that the written-out logs of a small table make.
pub fn the_state_of_written_out_logs()
    ensures opening { (state_of sample.shape sample.opening []).list ≡ 0 ∷ 1 ∷ [] }
    ensures pair_put { (state_of sample.pair_shape sample.pair_opening sample.pair_put).list ≡ 0 ∷ 1 ∷ [] }
    ensures one_put { (state_of sample.shape sample.opening sample.one_put).list ≡ 0 ∷ 2 ∷ 1 ∷ [] }
    ensures put_and_take { (state_of sample.shape sample.opening sample.put_and_take).list ≡ 0 ∷ 2 ∷ [] }
    ensures open_section { (state_of sample.shape sample.opening sample.open_section).unsealed ≡ 0 ∷ [] }
    ensures two_entries_list { (state_of sample.shape sample.opening sample.two_entries).list ≡ 1 ∷ 0 ∷ [] }
    ensures two_entries { (state_of sample.shape sample.opening sample.two_entries).entries
        ≡ record { index = 7; add = true; u = 0; v = 1 } ∷ record { index = 8; add = false; u = 0; v = 1 } ∷ [] }
    ensures two_entries_sealed { (state_of sample.shape sample.opening sample.two_entries).unsealed ≡ [] }
    // What was put before the first entry of this table, in the section of its first entry, and in that of its second.
    ensures put_before { puts_in sample.shape sample.opening sample.put_and_take 1 ≡ 2 ∷ [] }
    ensures put_first { puts_in sample.shape sample.opening sample.two_entries 2 ≡ 0 ∷ [] }
    ensures put_second { puts_in sample.shape sample.opening sample.two_entries 3 ≡ [] }
{}

/// The edges after the entries of a written-out log: an edge comes with the first of two, and goes with the second. The table has one
/// entry before it, so the first of its own has number 2.
pub fn the_edges_of_a_written_out_log()
    ensures before { edges_after sample.no_edges sample.shape sample.opening sample.two_entries 1 ≡ sample.no_edges }
    ensures first { edges_after sample.no_edges sample.shape sample.opening sample.two_entries 2 ≡ sample.one_edge }
    ensures second { edges_after sample.no_edges sample.shape sample.opening sample.two_entries 3 ≡ sample.no_edges }
    ensures later { edges_after sample.no_edges sample.shape sample.opening sample.two_entries 9 ≡ sample.no_edges }
{}

/// What is known of entries stays: a longer log has the entries of a prefix, and some more behind them.
pub fn entries_stay()
    ensures { (shape : Shape) (opening : List ℕ) (before log : List Event) → IsPrefix before log
        → IsPrefix (state_of shape opening before).entries (state_of shape opening log).entries }
{}

/// The opening words of the small table open it, and its written-out logs are legal.
pub fn the_written_out_logs_are_legal()
    ensures opening { IsTableOpening sample.shape sample.opening }
    ensures none { Legal sample.shape sample.opening [] }
    ensures one_put { Legal sample.shape sample.opening sample.one_put }
    ensures put_and_take { Legal sample.shape sample.opening sample.put_and_take }
    ensures open_section { Legal sample.shape sample.opening sample.open_section }
    ensures sealed_section { Legal sample.shape sample.opening sample.sealed_section }
    ensures two_entries { Legal sample.shape sample.opening sample.two_entries }
{}

/// Opening words that break one condition each open no table.
pub fn each_condition_of_opening_words_counts()
    ensures one_each { IsTableOpening sample.shape sample.longer_opening → ⊥ }
    ensures no_note { IsTableOpening sample.shape sample.noted_opening → ⊥ }
    ensures versions { IsTableOpening sample.shape sample.ahead_opening → ⊥ }
    ensures vertices { IsTableOpening sample.shape sample.missing_opening → ⊥ }
    ensures ordered { IsTableOpening sample.shape sample.tied_opening → ⊥ }
    ensures stamps { IsTableOpening sample.shape sample.stamped_opening → ⊥ }
{}

/// Logs whose last store breaks a condition are not legal. Each condition has a log of its own. Without its last store each log is one
/// of those that are legal, or begins one.
pub fn each_condition_of_a_store_counts()
    // There is no word 9.
    ensures there { Legal sample.shape sample.opening (event 9 0 ∷ []) → ⊥ }
    // The value has 65 bits; what a word would hold of it is the index 1.
    ensures fits { Legal sample.shape sample.opening (event 0 18446744073709551617 ∷ []) → ⊥ }
    // After the note on item 2 the word of item 1 is stored.
    ensures follows { Legal sample.shape sample.opening (sample.note (Put 2 0) ∷ event 2 (sample.item 1 1 12) ∷ []) → ⊥ }
    // There is no item 3.
    ensures put_of_an_item { Legal sample.shape sample.opening (sample.note (Put 3 0) ∷ []) → ⊥ }
    // Item 2 is not in the list.
    ensures put_after_a_listed_item { Legal sample.shape sample.opening (sample.note (Put 1 2) ∷ []) → ⊥ }
    // An item is put after itself.
    ensures put_after_another { Legal sample.shape sample.opening (sample.note (Put 1 1) ∷ []) → ⊥ }
    // A vertex is put and nothing was entered.
    ensures put_in_a_section { Legal sample.shape sample.opening (sample.note (Put 0 1) ∷ []) → ⊥ }
    // A vertex is put again after its word was stored.
    ensures put_once { Legal sample.shape sample.opening (sample.sealed_section ++ sample.note (Put 0 1) ∷ []) → ⊥ }
    // Item 2 is not in the list.
    ensures take_of_a_listed_item { Legal sample.shape sample.opening (sample.note (Take 2) ∷ []) → ⊥ }
    // Item 0 is a vertex.
    ensures take_of_no_vertex { Legal sample.shape sample.opening (sample.note (Take 0) ∷ []) → ⊥ }
    // A section begins while a vertex of the one before is open.
    ensures closed { Legal sample.shape sample.opening (sample.open_section ++ sample.note (Enter false 0 1) ∷ []) → ⊥ }
    // The version of item 1 stays, or rises by two.
    ensures version_stays { Legal sample.shape sample.opening (event 2 (sample.item 0 1 25) ∷ []) → ⊥ }
    ensures version_leaps { Legal sample.shape sample.opening (event 2 (sample.item 2 1 25) ∷ []) → ⊥ }
    // A vertex word is stored and nothing was entered.
    ensures sealed_in_a_section { Legal sample.shape sample.opening (event 8 (sample.vertex 1 0) ∷ []) → ⊥ }
    // The stamp is that of the section before.
    ensures own_stamp { Legal sample.shape sample.opening (sample.open_section ++ event 8 (sample.vertex 1 0) ∷ []) → ⊥ }
    // The section has not put the vertex.
    ensures sealed_where_put { Legal sample.shape sample.opening sample.sealed_unmoved → ⊥ }
    // A vertex word is stored twice in a section.
    ensures sealed_once { Legal sample.shape sample.opening (sample.sealed_section ++ event 8 (sample.vertex 2 0) ∷ []) → ⊥ }
    // Items 0 and 1 have one pair.
    ensures ordered { Legal sample.shape sample.opening (event 2 (sample.item 1 1 10) ∷ []) → ⊥ }
    // Item 1 is in the list and has group 0.
    ensures inside { Legal sample.shape sample.opening (event 2 (sample.item 1 0 25) ∷ []) → ⊥ }
    // Item 0 is in the list and has group 5, of four.
    ensures inside_the_groups { Legal sample.shape sample.opening (event 1 (sample.item 1 5 10) ∷ []) → ⊥ }
    // Item 2 is out of the list and has a group.
    ensures outside { Legal sample.shape sample.opening (event 3 (sample.item 1 1 40) ∷ []) → ⊥ }
{}
