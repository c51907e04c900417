//! What a type parameter stands for: one table of one run.
use std::marker::Brand;

/// Names one table, and what is known of its run where a value that is shared by threads is made.
///
/// A value behind a lock is known by its type alone. So such a type has a parameter `K: Name`, and all that its value holds belongs to
/// the table that K names. A call with `Brand` for K picks the members from the parts that it is handed.
pub trait Name {
    ghost use Rattle.std.specs.Prelude.{ℕ, List};
    ghost use Rattle.kc_graph.specs.SimpleGraph.{SimpleGraph};
    ghost use Rattle.kc_table.specs.Log.{Opened};
    ghost use Rattle.kc_table.specs.declared.entry.Entry.{Entry};
    ghost use Rattle.kc_table.specs.declared.view.Event.{Event};

    /// The table, with the edges that it opened with, and for each vertex the number of the last entry before it that changed its edges,
    /// or 0.
    ghost opened: { Opened };

    /// The edges that the run started with, before all its entries.
    ghost start_edges: { SimpleGraph };

    /// The table's log at the moment when the shared value is made.
    ghost log: { List Event };

    /// The run's entries at that moment, those of earlier tables among them.
    ghost entries: { List Entry };
}

impl Name for Brand {
    ghost use Rattle.std.specs.Prelude.{[]};
    ghost use Rattle.kc_table.specs.Log.{no_table, no_graph, opened_with};

    ghost opened = { opened_with no_table no_graph [] };

    ghost start_edges = { no_graph };

    ghost log = { [] };

    ghost entries = { [] };
}
