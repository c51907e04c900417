//! The double collect: the words of two items and of their groups, each loaded twice.
//!
//! Each call says which loads the caller's pass makes, in their order, and what they found. So an answer comes by the loads of this very
//! call, and `precedes` collects twice with that pass and no more. Loads of a pass that was split off are counted by no clause.
ghost use Rattle.std.specs.Prelude.{◌≡◌, ◌≢◌, ◌<◌, ◌≤◌, ◌+◌, ◌↔◌, IfErr, IfNone, IfOk, IfSome, IsTrue};
ghost use mathlib.Core.List.{IsPrefix};
ghost use Rattle.kc_table.specs.Legal.{Legal};
ghost use Rattle.kc_table.specs.TableState.{word_count};
ghost use Rattle.kc_words.specs.ItemWord.{item_of};
ghost use Rattle.kc_order.specs.Collected.{IsCollect, PairLess, words_of};
ghost use Rattle.kc_order.specs.Standing.{Compares, EndsCollect, EndsSecond, FindsOther, FindsSame, FoundOut, LoadsOther, LoadsWord, Steps};
ghost use Rattle.kc_order.specs.declared.answer.Answer.TheVariants as answer;

use crate::answer::Answer;
use kc_table::{Pass, Words, load, shape, split};
use kc_words::{Again, GroupWord, ItemWord, Shape};
use std::marker::Model;
use std::snapshot::Snapshot;

/// A word that was loaded, with its value and the moment of the load.
#[derive(Drop)]
struct LoadedWord {
    word: u32,
    value: u64,
    at: Snapshot<Pass>,
}

/// The words of two items and of their groups, as a first collect loaded them.
///
/// Contracts see the items, the four words with their values, and for each the prefix of the log after which it had that value. The
/// last of these prefixes is where a second collect that finds nothing changed says how the items stood; the collect's own pass has seen
/// it.
#[derive(Drop)]
pub struct Collect {
    x: u32,
    y: u32,
    item_x: LoadedWord,
    item_y: LoadedWord,
    group_x: LoadedWord,
    group_y: LoadedWord,
    pass: Pass,
}

impl Model for Collect {
    ghost use Rattle.std.specs.Prelude.{◌≡◌};
    ghost use Rattle.kc_order.specs.Collected.{Collected, IsCollect};

    ghost Value = { Collected };

    ghost view = { λ c. record {
      table = c.pass.table;
      seen = c.pass.log;
      x = c.x;
      y = c.y;
      item_x = record { word = c.item_x.word; value = c.item_x.value; prefix = c.item_x.at.value.log };
      item_y = record { word = c.item_y.word; value = c.item_y.value; prefix = c.item_y.at.value.log };
      group_x = record { word = c.group_x.word; value = c.group_x.value; prefix = c.group_x.at.value.log };
      group_y = record { word = c.group_y.word; value = c.group_y.value; prefix = c.group_y.at.value.log };
    } };

    ghost invariant = { λ c. IsCollect record {
      table = c.pass.table;
      seen = c.pass.log;
      x = c.x;
      y = c.y;
      item_x = record { word = c.item_x.word; value = c.item_x.value; prefix = c.item_x.at.value.log };
      item_y = record { word = c.item_y.word; value = c.item_y.value; prefix = c.item_y.at.value.log };
      group_x = record { word = c.group_x.word; value = c.group_x.value; prefix = c.group_x.at.value.log };
      group_y = record { word = c.group_y.word; value = c.group_y.value; prefix = c.group_y.at.value.log };
    } };
}

/// Loads a word, and keeps the moment.
fn load_word(words: &Words, pass: &mut Pass, word: u32) -> LoadedWord
    requires table { pass.old.table ≡ words.now }
    requires word { word < word_count words.now.shape }
    ensures table { pass.new.table ≡ pass.old.table }
    ensures longer { IsPrefix pass.old.log pass.new.log }
    ensures legal { Legal pass.new.table.shape pass.new.table.opening pass.new.log }
    ensures word { result.word ≡ word }
    ensures loaded { LoadsWord pass.old pass.new word result.value }
    ensures moment { result.at.value ≡ pass.new }
{
    let value = load(words, pass, word);
    LoadedWord {
        word,
        value,
        at: Snapshot::of(&*pass),
    }
}

/// Loads an item's word, and says where it names no group.
fn load_item(words: &Words, pass: &mut Pass, x: u32) -> Result<LoadedWord, Answer>
    requires table { pass.old.table ≡ words.now }
    requires item { x < words.now.shape.items }
    ensures table { pass.new.table ≡ pass.old.table }
    ensures longer { IsPrefix pass.old.log pass.new.log }
    ensures legal { Legal pass.new.table.shape pass.new.table.opening pass.new.log }
    ensures word { IfOk result (λ l. l.word ≡ 1 + x) }
    ensures loaded { IfOk result (λ l. LoadsWord pass.old pass.new (1 + x) l.value) }
    ensures moment { IfOk result (λ l. l.at.value ≡ pass.new) }
    ensures group { IfOk result (λ l. (0 < (item_of l.value).group) × ((item_of l.value).group ≤ words.now.shape.items + 1)) }
    ensures absent { IfErr result (λ a. (a ≡ answer.Absent x) × FoundOut pass.old pass.new x) }
{
    let loaded = load_word(words, pass, shape(words).item(x));
    if ItemWord::of(loaded.value).group == 0 {
        return Err(Answer::Absent { item: x });
    }
    Ok(loaded)
}

/// Loads the words of two items and then those of the groups that they name: four loads, and the split of the collect's own pass.
///
/// Where an item's word names no group, that item is absent; `x` is looked at before `y`, and no more is loaded. A vertex never is.
pub fn first_collect(words: &Words, pass: &mut Pass, x: u32, y: u32) -> Result<Collect, Answer>
    requires table { pass.old.table ≡ words.now }
    requires differ { x ≢ y }
    requires x_in { x < words.now.shape.items }
    requires y_in { y < words.now.shape.items }
    ensures table { pass.new.table ≡ pass.old.table }
    ensures longer { IsPrefix pass.old.log pass.new.log }
    ensures is { IfOk result IsCollect }
    ensures of { IfOk result (λ c. (c.table ≡ pass.old.table) × (c.x ≡ x) × (c.y ≡ y)) }
    ensures begins { IfOk result (λ c. IsPrefix pass.old.log c.item_x.prefix) }
    ensures ends { IfOk result (λ c. IsPrefix c.group_y.prefix pass.new.log) }
    ensures steps { IfOk result (λ c. Steps pass.old pass.new 4 1) }
    ensures absent { IfErr result (λ a. EndsCollect pass.old pass.new x y a) }
{
    let shape = shape(words);
    let item_x = load_item(words, pass, x)?;
    let item_y = match load_item(words, pass, y) {
        Ok(loaded) => loaded,
        Err(absent) => return Err(absent),
    };
    let group_x = load_word(words, pass, shape.group(ItemWord::of(item_x.value).group));
    let group_y = load_word(words, pass, shape.group(ItemWord::of(item_y.value).group));
    Ok(Collect {
        x,
        y,
        item_x,
        item_y,
        group_x,
        group_y,
        pass: split(words, pass),
    })
}

/// Loads a word once more, and gives both values where they differ.
fn load_again(words: &Words, pass: &mut Pass, loaded: &LoadedWord) -> Option<Again>
    requires table { pass.old.table ≡ words.now }
    requires word { loaded.now.word < word_count words.now.shape }
    ensures table { pass.new.table ≡ pass.old.table }
    ensures longer { IsPrefix pass.old.log pass.new.log }
    ensures legal { Legal pass.new.table.shape pass.new.table.opening pass.new.log }
    ensures same { IfNone result (LoadsWord pass.old pass.new loaded.now.word loaded.now.value) }
    ensures other { IfSome result (λ again. LoadsOther pass.old pass.new loaded.now.word loaded.now.value again) }
{
    let second = load(words, pass, loaded.word);
    if second == loaded.value {
        return None;
    }
    Some(Again {
        word: loaded.word,
        first: loaded.value,
        second,
    })
}

impl Collect {
    /// Loads the four words once more, in their order, up to the first whose value differs, and gives both of its values.
    fn load_again(&self, words: &Words, pass: &mut Pass) -> Option<Again>
        requires table { (pass.old.table ≡ words.now) × (self.now.table ≡ words.now) }
        ensures table { pass.new.table ≡ pass.old.table }
        ensures longer { IsPrefix pass.old.log pass.new.log }
        ensures legal { Legal pass.new.table.shape pass.new.table.opening pass.new.log }
        ensures same { IfNone result (FindsSame pass.old (words_of self.now) pass.new) }
        ensures other { IfSome result (FindsOther pass.old (words_of self.now) pass.new) }
    {
        if let Some(again) = load_again(words, pass, &self.item_x) {
            return Some(again);
        }
        if let Some(again) = load_again(words, pass, &self.item_y) {
            return Some(again);
        }
        if let Some(again) = load_again(words, pass, &self.group_x) {
            return Some(again);
        }
        load_again(words, pass, &self.group_y)
    }

    /// Whether the pair of `x` is less, by the values that were loaded.
    fn is_before(&self) -> bool
        ensures { IsTrue result ↔ PairLess self.now }
    {
        let (top_x, top_y) = (
            GroupWord::of(self.group_x.value).top,
            GroupWord::of(self.group_y.value).top,
        );
        let (bottom_x, bottom_y) = (
            ItemWord::of(self.item_x.value).bottom,
            ItemWord::of(self.item_y.value).bottom,
        );
        (top_x, bottom_x) < (top_y, bottom_y)
    }
}

/// Loads the same four words once more, in their order. Where none differs, the answer is how the items stood after the collect's last
/// prefix; else the first word that differs is named, and no more is loaded.
pub fn second_collect(words: &Words, pass: &mut Pass, collect: Collect) -> Answer
    requires table { (pass.old.table ≡ words.now) × (collect.table ≡ words.now) }
    requires last { IsPrefix collect.group_y.prefix pass.old.log }
    ensures table { pass.new.table ≡ pass.old.table }
    ensures longer { IsPrefix pass.old.log pass.new.log }
    ensures answer { EndsSecond collect pass.old pass.new result }
{
    if let Some(again) = collect.load_again(words, pass) {
        return Answer::Again(again);
    }
    if collect.is_before() {
        Answer::Before
    } else {
        Answer::After
    }
}

/// How two items stand in the list after one prefix of the log that extends what the pass had seen and that what it has seen now
/// extends. It takes no lock and no memory.
///
/// `Same` comes where they are one item, without a load. `Absent` comes where the word of one names no group, by the first load or the
/// second. Else the pass makes two collects: `Before` and `After` come where no word differs between its two loads, after eight loads, and
/// `Again` where one does, after four loads and those up to that word. All these are loads of the caller's pass.
///
/// # Example
///
/// ```rust
/// use kc_order::{Writer, precedes};
/// use kc_words::Shape;
///
/// let shape = Shape { items: 4, fixed: 0, base: 0, version: 0 };
/// let (words, writer, mut pass) = Writer::open(alloc, shape, &[0, 2, 1], &[])?;
/// let answer = precedes(&words, &mut pass, 0, 1); // Before
/// let turned = precedes(&words, &mut pass, 1, 2); // After
/// let absent = precedes(&words, &mut pass, 3, 0); // Absent { item: 3 }: it is not in the list
/// ```
pub fn precedes(words: &Words, pass: &mut Pass, x: u32, y: u32) -> Answer
    requires table { pass.old.table ≡ words.now }
    requires x_in { x < words.now.shape.items }
    requires y_in { y < words.now.shape.items }
    ensures table { pass.new.table ≡ pass.old.table }
    ensures longer { IsPrefix pass.old.log pass.new.log }
    ensures answer { Compares pass.old pass.new x y result }
{
    if x == y {
        return Answer::Same;
    }
    match first_collect(words, pass, x, y) {
        Err(absent) => absent,
        Ok(collect) => second_collect(words, pass, collect),
    }
}
