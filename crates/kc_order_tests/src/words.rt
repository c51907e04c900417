//! Words that are packed and read back, and versions at their end.
ghost use Rattle.kc_words.specs.NoteWord.{IsFitting};

use kc_words::{
    Again, GroupWord, INDICES, ItemWord, LAST_VERSION, NoteWord, Shape, VERTICES, VertexWord,
    next_version,
};
use std::process::Abort;

#[test]
fn the_words_have_their_layouts(rt: HostRuntime) {
    let item = ItemWord {
        version: 1,
        group: 2,
        bottom: 3,
    };
    let group = GroupWord { version: 1, top: 5 };
    let vertex = VertexWord { stamp: 7, core: 2 };
    let packed = [item.pack(), group.pack(), vertex.pack()];
    assert_eq!(rt; packed, [274_877_915_139, 274_877_906_949, 30_064_771_074]);
    let read = (
        ItemWord::of(274_877_915_139),
        GroupWord::of(274_877_906_949),
        VertexWord::of(30_064_771_074),
    );
    assert_eq!(rt; read, (item, group, vertex));
}

/// A note is packed to this word, and read back from it.
fn assert_note(rt: &impl Abort, note: NoteWord, word: u64)
    requires { IsFitting note }
{
    assert_eq!(rt; (note.pack(), NoteWord::of(word)), (word, note));
}

#[test]
fn the_notes_have_their_layouts(rt: HostRuntime) {
    let enter = NoteWord::Enter {
        add: true,
        u: 0,
        v: 2,
    };
    assert_note(&rt, enter, 6_917_529_027_641_081_858);
    assert_note(&rt, NoteWord::Put { x: 5, p: 3 }, 9_223_372_047_592_194_051);
    assert_note(&rt, NoteWord::Take { x: 5 }, 13_835_058_055_282_163_717);
    assert_note(&rt, NoteWord::Nothing, 0);
    assert_eq!(rt; NoteWord::of(u64::from(INDICES)), NoteWord::Nothing);
}

#[test]
fn a_table_of_two_items_has_seven_words(rt: HostRuntime) {
    let shape = Shape {
        items: 2,
        fixed: 1,
        base: 0,
        version: 0,
    };
    let places = [
        shape.item(1),
        shape.group(1),
        shape.group(3),
        shape.vertex(0),
    ];
    assert_eq!(rt; (places, shape.words()), ([2, 3, 5, 6], 7));
}

#[test]
fn the_last_version_has_none_after_it(rt: HostRuntime) {
    let next = [
        next_version(0),
        next_version(67_108_862),
        next_version(67_108_863),
    ];
    assert_eq!(rt; next, [Some(1), Some(67_108_863), None]);
    assert_eq!(rt; LAST_VERSION, 67_108_863);
}

#[test]
fn the_numbers_fit_their_fields(rt: HostRuntime) {
    assert_eq!(rt; VERTICES, 1 << 24);
    assert_eq!(rt; INDICES, u32::MAX - 1);
    let again = Again {
        word: 3,
        first: 1,
        second: 2,
    };
    assert_ne!(rt; again.first, again.second);
}
