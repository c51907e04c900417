//! What whoever enters a batch in any order may rest on, as laws over the definitions alone. A law is a function without a body, whose
//! contract is the law.
ghost use Rattle.std.specs.Prelude.{◌≡◌, ◌≤◌, ◌<◌, ◌+◌, ◌++◌, ◌∷◌, ℕ, List, All, length, map, true};
ghost use Rattle.std.specs.FinSet.{FinSet};
ghost use Rattle.kc_lists.specs.Lists.{Distinct, member};
ghost use Rattle.kc_graph.specs.SimpleGraph.{SimpleGraph, pair_cmp};
ghost use Rattle.kc_graph.specs.declared.update.Update.{Update};
ghost use Rattle.kc_table.specs.declared.entry.Entry.{Entry};
ghost use Rattle.kc_table.specs.Edges.{after_entries};
ghost use Rattle.kc_text.specs.Inputs.{IsBatch, parts_of};
ghost use Rattle.kc_text.specs.LastUpdates.{last_of_edges};
ghost use Rattle.kc_agree.specs.Stamps.{changes_graph};
ghost use Rattle.kc_batch_effects.specs.Batches.{added, graph_after_batch, is_effective, kept, removed};
ghost use Rattle.kc_batch_effects.specs.Entered.{AreSomeOf, IsOrderOf, parts_of_entry, indices};
ghost use Rattle.kc_batch_effects.specs.Outcomes.{AreOutcomesOf, IsOutcomeIn, told_added, outcome_indices, told_kept, told_removed};
ghost use Rattle.kc_batch_effects.specs.Updates.{after_updates};
ghost use Rattle.kc_batch_effects.specs.declared.outcome.Outcome.{Outcome};

/// As many entries as a batch has updates, none twice, have each update.
pub fn an_order_has_each_update()
    ensures { (first : ℕ) (batch : List Update) (made : List Entry) (place : ℕ) → IsOrderOf first batch made → place < length batch
        → member (first + place) (indices made) ≡ true }
{}

/// In whatever order a batch is entered, the graph after it is the one that the set of its updates leaves: on its own, and behind the
/// entries of a run.
pub fn a_batch_in_any_order_leaves_its_graph()
    ensures alone { (g : SimpleGraph) (vertices first : ℕ) (batch : List Update) (made : List Entry) → IsBatch vertices batch
        → IsOrderOf first batch made → after_entries g made ≡ graph_after_batch g (map parts_of batch) }
    ensures in_a_run { (started : SimpleGraph) (before : List Entry) (vertices first : ℕ) (batch : List Update) (made : List Entry)
        → IsBatch vertices batch → IsOrderOf first batch made
        → after_entries started (before ++ made) ≡ graph_after_batch (after_entries started before) (map parts_of batch) }
{}

/// Whichever updates of its batch were entered before it, an entry changes the graph just where its update is effective on the edges before
/// the batch. The batch need not be whole.
pub fn an_entry_does_what_it_would_do_first()
    ensures { (started : SimpleGraph) (before made front back : List Entry) (e : Entry) (vertices first : ℕ) (batch : List Update)
        → IsBatch vertices batch → AreSomeOf first batch made → before ++ made ≡ front ++ e ∷ back → length before ≤ length front
        → changes_graph e (after_entries started front) ≡ is_effective (after_entries started before).edges (parts_of_entry e) }
{}

/// What is told of as many different entries of a batch as it has updates, in any order, is what became of each update.
pub fn what_entries_did_are_the_outcomes_of_their_batch()
    ensures { (started : SimpleGraph) (before made : List Entry) (vertices first : ℕ) (batch : List Update) (outcomes : List Outcome)
        → IsBatch vertices batch → AreSomeOf first batch made
        → All (IsOutcomeIn started (before ++ made) (length before)) outcomes → Distinct (outcome_indices outcomes)
        → length outcomes ≡ length batch → AreOutcomesOf (after_entries started before).edges first batch outcomes }
{}

/// The outcomes of the updates of a batch, in any order, count to what the batch added, removed and kept.
pub fn outcomes_tell_what_a_batch_did()
    ensures added { (edges : FinSet pair_cmp) (first : ℕ) (batch : List Update) (outcomes : List Outcome)
        → AreOutcomesOf edges first batch outcomes → told_added first batch outcomes ≡ added edges (map parts_of batch) }
    ensures removed { (edges : FinSet pair_cmp) (first : ℕ) (batch : List Update) (outcomes : List Outcome)
        → AreOutcomesOf edges first batch outcomes → told_removed first batch outcomes ≡ removed edges (map parts_of batch) }
    ensures kept { (edges : FinSet pair_cmp) (first : ℕ) (batch : List Update) (outcomes : List Outcome)
        → AreOutcomesOf edges first batch outcomes → told_kept outcomes ≡ kept edges (map parts_of batch) }
{}

/// What updates leave that are made one by one, in their order, the last update of each edge leaves: as a batch, and entered in any order.
pub fn the_last_updates_leave_what_all_leave()
    ensures as_a_batch { (g : SimpleGraph) (updates : List Update)
        → after_updates g updates ≡ graph_after_batch g (map parts_of (last_of_edges updates)) }
    ensures in_any_order { (g : SimpleGraph) (vertices first : ℕ) (updates : List Update) (made : List Entry)
        → All (λ update. update.v < vertices) updates → IsOrderOf first (last_of_edges updates) made
        → after_entries g made ≡ after_updates g updates }
{}
