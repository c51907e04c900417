//! The words of the list, and the writes that the last call made.
ghost use Rattle.std.specs.Prelude.{◌≡◌, ◌<◌, ◌+◌, ◌++◌, ◌∷◌, [], length, slice_index, slice_set, take, IfOk};
ghost use Rattle.kc_words.specs.ItemWord.{item_of};
ghost use Rattle.kc_list.specs.Sheets.{Paper, version, highest_of};

use crate::NoMemory;
use crate::write::Write;
use kc_words::ItemWord;
use std::alloc::Global;
use std::marker::Model;

#[derive(Drop)]
pub struct Sheet {
    words: Vec<u64>,
    buffer: Vec<Write>,
    count: usize,
    highest: u32,
}

impl Model for Sheet {
    ghost use Rattle.kc_list.specs.Sheets.{Paper};

    ghost Value = { Paper };

    ghost use Rattle.std.specs.Prelude.{take, length, ◌≤◌, ◌≡◌};
    ghost use Rattle.kc_list.specs.Sheets.{highest_of};

    ghost view = { λ a. record { words = a.words.items; writes = take a.count a.buffer.items; room = length a.buffer.items } };

    ghost invariant = { λ a. (a.count ≤ length a.buffer.items) × (a.highest ≡ highest_of a.words.items) };
}

impl Sheet {
    /// Words that open with a known greatest version, with room for the writes of one call.
    pub fn open(alloc: Global, words: Vec<u64>, highest: u32, room: usize) -> Result<Self, NoMemory>
        requires { highest ≡ highest_of words.items }
        ensures { IfOk result (λ a. a ≡ record { words = words.items; writes = []; room = room }) }
    {
        let blank = Write::new(0, 0);
        let buffer = vec![in alloc; blank; room]?;
        Ok(Sheet {
            words,
            buffer,
            count: 0,
            highest,
        })
    }

    pub fn word(&self, word: u32) -> u64
        requires { word < length self.now.words }
        ensures { result ≡ slice_index self.now.words word }
    {
        self.words[word as usize]
    }

    /// Writes a value, and notes the write.
    pub fn store(&mut self, word: u32, value: u64)
        requires low { 0 < word }
        requires word_in { word < length self.old.words }
        requires rises { (item_of value).version ≡ version self.old.words word + 1 }
        requires room { length self.old.writes < self.old.room }
        ensures words { self.new.words ≡ slice_set self.old.words word value }
        ensures writes { self.new.writes ≡ self.old.writes ++ record { word = word; value = value } ∷ [] }
        ensures room { self.new.room ≡ self.old.room }
    {
        self.words[word as usize] = value;
        self.buffer[self.count] = Write::new(word, value);
        self.count += 1;
        self.highest = self.highest.max(ItemWord::of(value).version);
    }

    /// The greatest version of any word.
    pub fn highest(&self) -> u32
        ensures { result ≡ highest_of self.now.words }
    {
        self.highest
    }

    /// Forgets the writes.
    pub fn clear(&mut self)
        ensures words { self.new.words ≡ self.old.words }
        ensures writes { self.new.writes ≡ [] }
        ensures room { self.new.room ≡ self.old.room }
    {
        self.count = 0;
    }

    pub fn writes(&self) -> &[Write]
        ensures { result.now ≡ self.now.writes }
    {
        &self.buffer[..self.count]
    }
}
