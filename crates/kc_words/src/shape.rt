//! Where the words of a table stand.
ghost use Rattle.std.specs.Prelude.{◌≡◌, ◌≤◌, ◌<◌, ◌+◌, ◌*◌};
ghost use Rattle.kc_words.specs.declared.layout.TheConstants.{ITEMS, LAST_VERSION};

/// How many words a table has of each kind. Word 0 is the note; then come a word for each item,
/// one for each group (there is one more group than items), and one for each vertex.
#[derive(Clone, Copy, Debug, Drop)]
pub struct Shape {
    /// The items of the list are the numbers below this.
    pub items: u32,
    /// The items below this are vertices: they are in the list from its opening on, and stay.
    pub fixed: u32,
    /// How many updates were entered before this table was opened.
    pub base: u32,
    /// The version that every item and group word opens with.
    pub version: u32,
    ghost some_items: { 1 ≤ items },
    ghost few_items: { items ≤ ITEMS },
    ghost fixed_in: { fixed ≤ items },
    ghost version_in: { version ≤ LAST_VERSION },
}

impl Shape {
    /// The number of the word of item `x`.
    pub fn item(&self, x: u32) -> u32
        requires { x < self.now.items }
        ensures { result ≡ 1 + x }
    {
        1 + x
    }

    /// The number of the word of group `g`. The groups are numbered from 1.
    pub fn group(&self, g: u32) -> u32
        requires low { 1 ≤ g }
        requires high { g ≤ self.now.items + 1 }
        ensures { result ≡ self.now.items + g }
    {
        self.items + g
    }

    /// The number of the word of vertex `v`.
    pub fn vertex(&self, v: u32) -> u32
        requires { v < self.now.fixed }
        ensures { result ≡ 2 * self.now.items + 2 + v }
    {
        2 * self.items + 2 + v
    }

    /// How many words the table has.
    pub fn words(&self) -> u32
        ensures { result ≡ 2 * self.now.items + 2 + self.now.fixed }
    {
        2 * self.items + 2 + self.fixed
    }
}
