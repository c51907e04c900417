//! The list with its labels: the neighbours of each item, the words that have the labels, and the sizes of the groups.
ghost use Rattle.std.specs.Prelude.{◌≡◌, ◌<◌, ◌≤◌, ◌+◌, length, slice_index, slice_set};
ghost use Rattle.kc_words.specs.ItemWord.{item_of, item_word, IsFitting};
ghost use Rattle.kc_words.specs.GroupWord.{group_of, group_word, IsFitting as IsFittingGroup};
ghost use Rattle.kc_list.specs.Places.{WordsKeepList};
ghost use Rattle.kc_list.specs.Sheets.{version};
ghost use Rattle.kc_list.specs.Soundness.{WordsKeepList-prop};
ghost use Rattle.kc_words.specs.declared.layout.TheConstants.{ITEMS};

use crate::groups::Groups;
use crate::sheet::Sheet;
use kc_links::Links;
use kc_words::{GroupWord, ItemWord};

/// The labels order the list, also between any two writes.
#[derive(Drop)]
pub struct LabelledList {
    pub links: Links,
    pub sheet: Sheet,
    pub groups: Groups,
    ghost sound: { WordsKeepList links.size sheet.words links.list } by { WordsKeepList-prop links.size sheet.words links.list },
    ghost small: { links.size ≤ ITEMS },
}

impl LabelledList {
    ghost use Rattle.kc_list.specs.Rewriting.{StoresWord};

    /// What the word of an item says.
    pub fn item(&self, x: u32) -> ItemWord
        requires { x < self.now.links.size }
        ensures { result ≡ item_of (slice_index self.now.sheet.words (1 + x)) }
    {
        ItemWord::of(self.sheet.word(1 + x))
    }

    /// What the word of a group says.
    pub fn group(&self, g: u32) -> GroupWord
        requires { g ≤ self.now.links.size + 1 }
        ensures { result ≡ group_of (slice_index self.now.sheet.words (self.now.links.size + g)) }
    {
        GroupWord::of(self.sheet.word(self.links.size() + g))
    }

    /// Writes the word of an item, by which the labels still order the list.
    pub fn store_item(&mut self, x: u32, word: ItemWord)
        requires x_in { x < self.old.links.size }
        requires fits { IsFitting word }
        requires rises { word.version ≡ version self.old.sheet.words (1 + x) + 1 }
        requires sound { WordsKeepList self.old.links.size (slice_set self.old.sheet.words (1 + x) (item_word word)) self.old.links.list }
        requires room { length self.old.sheet.writes < self.old.sheet.room }
        ensures words { self.new.sheet.words ≡ slice_set self.old.sheet.words (1 + x) (item_word word) }
        ensures stores { StoresWord (1 + x) self.old self.new }
    {
        self.sheet.store(1 + x, word.pack());
    }

    /// Writes the word of a group, by which the labels still order the list.
    pub fn store_group(&mut self, g: u32, word: GroupWord)
        requires low { 0 < g }
        requires within { g ≤ self.old.links.size + 1 }
        requires fits { IsFittingGroup word }
        requires rises { word.version ≡ version self.old.sheet.words (self.old.links.size + g) + 1 }
        requires sound { WordsKeepList self.old.links.size
            (slice_set self.old.sheet.words (self.old.links.size + g) (group_word word)) self.old.links.list }
        requires room { length self.old.sheet.writes < self.old.sheet.room }
        ensures words { self.new.sheet.words ≡ slice_set self.old.sheet.words (self.old.links.size + g) (group_word word) }
        ensures stores { StoresWord (self.old.links.size + g) self.old self.new }
    {
        let number = self.links.size() + g;
        self.sheet.store(number, word.pack());
    }
}
