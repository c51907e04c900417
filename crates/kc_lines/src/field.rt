//! A field of a line.
ghost use Rattle.std.specs.Prelude.{◌≡◌};
ghost use Rattle.kc_lines.specs.Fields.{labelled, label_of};

use crate::value::Value;
use std::marker::Model;

/// A number or a name of a line, and the key of it. The key is written as it is, so it has no quote, backslash or control character.
#[derive(Drop)]
pub struct Field<'a> {
    key: &'static str,
    value: Value<'a>,
}

impl<'a> Model for Field<'a> {
    ghost use Rattle.kc_lines.specs.Fields.{KeyedLabel, label_of, labelled};

    ghost Value = { KeyedLabel };

    ghost view = { λ f. labelled f.key.now (label_of f.value) };
}

impl<'a> Field<'a> {
    /// What the line has under this key.
    pub fn new(key: &'static str, value: Value<'a>) -> Field<'a>
        ensures { result ≡ labelled key.now (label_of value.entry) }
    {
        Field { key, value }
    }

    /// The key.
    pub(crate) fn key(&self) -> &'static str
        ensures { result.now ≡ self.now.key }
    {
        self.key
    }

    /// The number or the name.
    pub(crate) fn value(&self) -> Value<'a>
        ensures { label_of result ≡ self.now.label }
    {
        self.value
    }
}
