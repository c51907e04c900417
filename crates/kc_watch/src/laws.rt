//! What holds of the text that answers a stream, as laws over the definitions alone. A law is a function without a body, whose contract is
//! the law.
ghost use Rattle.std.specs.Prelude.{◌≡◌, ◌≤◌, ◌<◌, ◌↔◌, ◌++◌, ◌∷◌, [], AllPairs, List, None, ℕ, slice_index};
ghost use Rattle.kc_graph.specs.Certificate.{Certifies};
ghost use Rattle.kc_graph.specs.Core.{AreCoreNumbers, IsInCore};
ghost use Rattle.kc_graph.specs.SimpleGraph.{SimpleGraph};
ghost use Rattle.kc_tally.specs.Layers.{AreLayers};
ghost use Rattle.kc_text.specs.declared.change.ChangeLine.{ChangeLine};
ghost use Rattle.kc_reply.specs.Texts.{facts_text};
ghost use Rattle.kc_reply.specs.declared.reply_format.ReplyFormat.{ReplyFormat};
ghost use Rattle.kc_stream.specs.Hearing.{heard_at_end, heard_so_far};
ghost use Rattle.kc_stream.specs.declared.bad_lines.BadLines.TheVariants as on_bad;
ghost use Rattle.kc_watch.specs.Accounts.{account_of, core_numbers_of, layers_of, one_ended};
ghost use Rattle.kc_watch.specs.Text.{IsAnsweredBefore, facts_at_end, reply, reply_at_end, reply_facts};
ghost use Rattle.kc_watch.specs.declared.options.WatchOptions.{WatchOptions};

/// Each graph has its core numbers, and no other list of numbers is its core numbers.
pub fn every_graph_has_its_core_numbers()
    ensures has { (g : SimpleGraph) → AreCoreNumbers g (core_numbers_of g) }
    ensures alone { (g : SimpleGraph) (core : List ℕ) → AreCoreNumbers g core → core ≡ core_numbers_of g }
{}

/// Who has the core number K or a greater one is in the K-core, and nobody else: so these are whom the question for a core is answered.
pub fn the_core_has_who_has_its_number()
    ensures { (g : SimpleGraph) (k v : ℕ) → v < g.size → (k ≤ slice_index (core_numbers_of g) v) ↔ IsInCore g k v }
{}

/// Each graph has its layers, and no other list of numbers is its layers.
pub fn every_graph_has_its_layers()
    ensures has { (g : SimpleGraph) → AreLayers g (core_numbers_of g) (layers_of g) }
    ensures alone { (g : SimpleGraph) (core layer : List ℕ) → AreCoreNumbers g core → AreLayers g core layer → layer ≡ layers_of g }
{}

/// Behind any batches one order of the vertices certifies the core numbers in which each two stand as is answered of their ids.
pub fn the_order_that_is_answered_certifies()
    ensures { (edges : List (ℕ × ℕ)) (batches : List (List ChangeLine)) → let account = account_of edges batches in
        (order : List ℕ) × Certifies account.graph (core_numbers_of account.graph) order
        × AllPairs (λ v w. IsAnsweredBefore account (slice_index account.ids v) (slice_index account.ids w)) order }
{}

/// To no bytes nothing is answered.
pub fn nothing_is_answered_to_nothing()
    ensures { (options : WatchOptions) → reply options [] ≡ [] }
{}

/// A batch that is dropped stands among the batches as one without changes. So the ids and the graph behind it are those before it, and it is
/// counted.
pub fn a_dropped_batch_changes_nothing()
    ensures ids { (edges : List (ℕ × ℕ)) (earlier : List (List ChangeLine))
        → (account_of edges (earlier ++ [] ∷ [])).ids ≡ (account_of edges earlier).ids }
    ensures graph { (edges : List (ℕ × ℕ)) (earlier : List (List ChangeLine))
        → (account_of edges (earlier ++ [] ∷ [])).graph ≡ (account_of edges earlier).graph }
    ensures counted { (edges : List (ℕ × ℕ)) (earlier : List (List ChangeLine))
        → (account_of edges (earlier ++ [] ∷ [])).ended ≡ one_ended (account_of edges earlier).ended }
{}

/// Where bad lines end the reading, no batch is dropped.
pub fn where_bad_lines_stop_no_batch_is_dropped()
    ensures dropped { (bytes : List ℕ) → (heard_at_end on_bad.Stop bytes).dropped ≡ None }
    ensures count { (bytes : List ℕ) → (heard_at_end on_bad.Stop bytes).refused_batches ≡ 0 }
{}

/// As long as no line is refused, it is no matter what becomes of bad lines: the text is the same.
pub fn without_refused_lines_the_text_is_the_same()
    ensures so_far { (options : WatchOptions) (bytes : List ℕ) → (heard_so_far on_bad.Stop bytes).refusal ≡ None
        → reply (record options { bad_lines = on_bad.Stop }) bytes ≡ reply (record options { bad_lines = on_bad.Batch }) bytes }
    ensures at_end { (options : WatchOptions) (bytes : List ℕ) → (heard_at_end on_bad.Stop bytes).refusal ≡ None
        → reply_at_end (record options { bad_lines = on_bad.Stop }) bytes ≡ reply_at_end (record options { bad_lines = on_bad.Batch }) bytes }
{}

/// Whatever the format, the same is told. The answer has a line for each of these facts and no other line (`each_fact_is_one_line` of `kc_reply`),
/// so in two formats there are as many lines, and line by line they tell the same.
pub fn each_format_tells_the_same()
    ensures so_far { (options : WatchOptions) (format : ReplyFormat) (bytes : List ℕ)
        → reply (record options { format = format }) bytes ≡ facts_text format (reply_facts options bytes) }
    ensures at_end { (options : WatchOptions) (format : ReplyFormat) (bytes : List ℕ)
        → reply_at_end (record options { format = format }) bytes ≡ facts_text format (facts_at_end options bytes) }
{}

/// By however many workers batches may be made, the text is the same.
pub fn the_number_of_workers_changes_no_answer()
    ensures so_far { (options : WatchOptions) (workers : ℕ) (bytes : List ℕ)
        → reply (record options { workers = workers }) bytes ≡ reply options bytes }
    ensures at_end { (options : WatchOptions) (workers : ℕ) (bytes : List ℕ)
        → reply_at_end (record options { workers = workers }) bytes ≡ reply_at_end options bytes }
{}
