//! The limits and the kinds of refusals, each as it is written, and what updates that decide are, as laws. A law is a function without
//! a body, whose contract is the law. What a text means cites the limits and kinds by their names, so another number of one of them is
//! refused here.
ghost use Rattle.std.specs.Prelude.{◌≡◌, ◌<◌, ◌^◌, ℕ, All, List, codes};
ghost use Rattle.std.specs.List.{list_any};
ghost use Rattle.kc_graph.specs.declared.update.Update.{Update};
ghost use Rattle.kc_text.specs.Inputs.{IsBatch};
ghost use Rattle.kc_text.specs.LastUpdates.{last_of_edges, same_edge};
ghost use Rattle.kc_text.specs.Kinds.{text_of};
ghost use Rattle.kc_text.specs.declared.kind.Kind.TheVariants.{EdgeLineInBatch, ExtraField, LoopInBatch, MissingField, NotANumber, NumberTooLarge};
ghost use Rattle.kc_text.specs.declared.kind.Kind.TheVariants.{TooLong, TooManyBatches, TooManyEdgeLines, TooManyUpdates, TooManyVertices};
ghost use Rattle.kc_text.specs.declared.kind.Kind.TheVariants.{UpdateOutsideBatch};
ghost use Rattle.kc_text.specs.declared.limits.TheConstants.Limits.{GRAPH, KCORE};

/// How much of each thing a text of the program `kcore` may have.
pub fn a_text_has_these_limits()
    ensures ids { KCORE.ids ≡ 524288 }
    ensures edge_lines { KCORE.edge_lines ≡ 4194304 }
    ensures updates { KCORE.updates ≡ 1048576 }
    ensures batches { KCORE.batches ≡ 4096 }
    ensures bytes { KCORE.bytes ≡ 67108864 }
{}

/// How much of each thing a text of a graph without batches may have.
pub fn a_graph_has_these_limits()
    ensures ids { GRAPH.ids ≡ 4294967294 }
    ensures edge_lines { GRAPH.edge_lines ≡ 2 ^ 40 }
    ensures updates { GRAPH.updates ≡ 0 }
    ensures batches { GRAPH.batches ≡ 0 }
    ensures bytes { GRAPH.bytes ≡ 9223372036854775807 }
{}

/// The number and the name of each kind of refusal, as a message has them. No kind has the number 6.
pub fn each_kind_has_this_number_and_name()
    ensures not_a_number { text_of NotANumber ≡ codes "1 NotANumber" }
    ensures missing_field { text_of MissingField ≡ codes "2 MissingField" }
    ensures extra_field { text_of ExtraField ≡ codes "3 ExtraField" }
    ensures number_too_large { text_of NumberTooLarge ≡ codes "4 NumberTooLarge" }
    ensures loop_in_batch { text_of LoopInBatch ≡ codes "5 LoopInBatch" }
    ensures update_outside_batch { text_of UpdateOutsideBatch ≡ codes "7 UpdateOutsideBatch" }
    ensures edge_line_in_batch { text_of EdgeLineInBatch ≡ codes "8 EdgeLineInBatch" }
    ensures too_many_vertices { text_of TooManyVertices ≡ codes "9 TooManyVertices" }
    ensures too_many_edge_lines { text_of TooManyEdgeLines ≡ codes "10 TooManyEdgeLines" }
    ensures too_many_updates { text_of TooManyUpdates ≡ codes "11 TooManyUpdates" }
    ensures too_many_batches { text_of TooManyBatches ≡ codes "12 TooManyBatches" }
    ensures too_long { text_of TooLong ≡ codes "13 TooLong" }
{}

/// The last updates of edges are of each edge that all updates name, and none is twice: they are a batch between as many vertices.
pub fn the_last_updates_of_edges_are_a_batch()
    ensures batch { (vertices : ℕ) (updates : List Update) → All (λ update. update.v < vertices) updates → IsBatch vertices (last_of_edges updates) }
    ensures each { (update : Update) (updates : List Update) → list_any (same_edge update) (last_of_edges updates) ≡ list_any (same_edge update) updates }
{}
