//! What is written for the vertices of a graph.
ghost use Rattle.std.specs.Prelude.{◌≡◌, ◌<◌, length};
ghost use Rattle.kc_cores.specs.Answers.{label_at, labels_of};
ghost use Rattle.kc_lines.specs.Fields.{label_of};

use kc_lines::value::Value;
use kc_names::Names;
use std::marker::Model;

/// What is written for each vertex: its id, or the name for which the id stands.
///
/// Contracts see the list of them.
#[derive(Drop)]
pub(crate) struct Labels {
    /// The id of each vertex.
    ids: Vec<u32>,
    /// The names, where ids are names.
    names: Option<Names>,
}

impl Model for Labels {
    ghost use Rattle.std.specs.Prelude.{List};
    ghost use Rattle.kc_cores.specs.Answers.{labels_of};
    ghost use Rattle.kc_lines.specs.Fields.{Label};

    ghost Value = { List Label };

    ghost view = { λ labels. labels_of labels.names labels.ids.items };
}

impl Labels {
    /// The labels of vertices with these ids, which stand for these names if there are any.
    pub(crate) fn new(ids: Vec<u32>, names: Option<Names>) -> Labels
        ensures { result ≡ labels_of names ids.items }
    {
        Labels { ids, names }
    }

    /// How many vertices there are.
    pub(crate) fn len(&self) -> usize
        ensures { result ≡ length self.now }
    {
        self.ids.len()
    }

    /// What is written for a vertex.
    pub(crate) fn get(&self, v: usize) -> Value<'_>
        requires { v < length self.now }
        ensures { label_of result ≡ label_at self.now v }
    {
        let id = self.ids[v];
        match &self.names {
            None => Value::Number(u64::from(id)),
            Some(names) => Value::Name(names.get(id as usize)),
        }
    }
}
