//! Histories of a table of three vertices. The edge stamps are written by hand, the place stamps are loaded from the words.
ghost use Rattle.std.specs.Prelude.{◌≡◌, ◌≢◌, ◌+◌, ◌<◌, [], ◌∷◌, All, IfOk};
ghost use Rattle.kc_agree.specs.Stamps.{number_of, place_stamp};
ghost use Rattle.kc_order.specs.Writers.{unsealed_after};
ghost use Rattle.kc_view.specs.Answers.{answers_in, core_in};

use crate::stamps::{stale_list, stale_place};
use kc_agree::{NoMemory, Stale, first_stale, read_core, read_order};
use kc_graph::{Neighbours, Update, Used, UsedEdges};
use kc_order::Writer;
use kc_table::{Pass, Words, load, shape};
use kc_view::{Memo, Scratch};
use kc_words::{LAST_VERSION, Shape, VertexWord};
use std::alloc::Global;
use std::process::Abort;
use std::test::Fail;

/// The item before all vertices.
const HEAD: u32 = 3;

/// Three vertices behind a head, in the order of their numbers. Their core numbers and stamps are 0, and no entry was made.
fn open(alloc: Global) -> Result<(Words, Writer, Pass), NoMemory>
    ensures shape { IfOk result (λ r. (r.0.shape.items ≡ 4) × (r.0.shape.fixed ≡ 3) × (r.0.shape.base ≡ 0)) }
    ensures tables { IfOk result (λ r. (r.1.table ≡ r.0) × (r.2.table ≡ r.0)) }
    ensures number { IfOk result (λ r. number_of r.1.table r.1.log ≡ 0) }
    ensures closed { IfOk result (λ r. unsealed_after r.1 ≡ []) }
{
    let three = Shape {
        items: 4,
        fixed: 3,
        base: 0,
        version: 0,
    };
    let (words, writer, pass) = Writer::open(alloc, three, &[HEAD, 0, 1, 2], &[0, 0, 0])?;
    Ok((words, writer, pass))
}

/// The place stamps of the three, each by a load.
fn place_stamps(words: &Words, pass: &mut Pass) -> [u32; 3]
    requires table { pass.old.table ≡ words.now }
    requires shape { words.now.shape.fixed ≡ 3 }
    ensures { pass.new.table ≡ pass.old.table }
{
    let first = VertexWord::of(load(words, pass, shape(words).vertex(0)));
    let second = VertexWord::of(load(words, pass, shape(words).vertex(1)));
    let third = VertexWord::of(load(words, pass, shape(words).vertex(2)));
    [first.stamp, second.stamp, third.stamp]
}

/// The core numbers of 0 and 1, and whether 0 stands before 1. No store comes between.
fn read_two<R: Abort + AllocGlobal>(rt: &R, words: &Words, pass: &mut Pass) -> (Used, bool)
    requires table { pass.old.table ≡ words.now }
    requires shape { words.now.shape.fixed ≡ 3 }
    ensures table { pass.new.table ≡ pass.old.table }
    ensures edges { All (λ e. e.vertex < 3) result.0.edges.items }
    ensures places { All (λ p. p.vertex < 3) result.0.places.items }
{
    let Ok(scratch) = Scratch::new(rt.alloc(), 3) else {
        panic!(rt; "no memory");
    };
    let mut memo = Memo::new(rt.alloc(), scratch);
    let Ok(_) = read_core(words, pass, &mut memo, 0) else {
        panic!(rt; "no memory");
    };
    let Ok(_) = read_core(words, pass, &mut memo, 1) else {
        panic!(rt; "no memory");
    };
    let Ok(before) = read_order(words, pass, &mut memo, 0, 1) else {
        panic!(rt; "nothing was stored between");
    };
    (memo.hand_out(), before)
}

/// A list of no neighbours that a vertex had after so many entries.
fn read_list(alloc: Global, vertex: u32, at: u32) -> Result<Used, NoMemory>
    requires { vertex < 3 }
    ensures edges { IfOk result (λ used. All (λ e. e.vertex < 3) used.edges.items) }
    ensures places { IfOk result (λ used. All (λ p. p.vertex < 3) used.places.items) }
{
    let list = UsedEdges {
        vertex,
        at,
        neighbours: Neighbours::copy_of(alloc, &[])?,
    };
    Ok(Used {
        edges: vec![in alloc; list]?,
        places: Vec::new(alloc),
        orders: Vec::new(alloc),
    })
}

/// A section with one put: the entry with this number adds or removes the edge between 0 and 1, and `v` is put right after `p`.
#[derive(Clone, Copy, Drop)]
struct Section {
    number: u32,
    add: bool,
    v: u32,
    p: u32,
    ghost vertices: { (v < 3) × (p < 4) × (v ≢ p) },
}

/// The entry of a section, and its put.
fn enter_and_put<R: Abort>(rt: &R, words: &Words, writer: &mut Writer, section: Section)
    requires table { writer.old.table ≡ words.now }
    requires shape { (words.now.shape.items ≡ 4) × (words.now.shape.fixed ≡ 3) × (words.now.shape.base ≡ 0) }
    requires closed { unsealed_after writer.old ≡ [] }
    requires next { section.number ≡ number_of writer.old.table writer.old.log + 1 }
    ensures table { writer.new.table ≡ writer.old.table }
    ensures number { number_of writer.new.table writer.new.log ≡ section.number }
    ensures is_open { unsealed_after writer.new ≡ section.v ∷ [] }
    ensures stamp { place_stamp writer.new.table writer.new.log section.v < section.number }
{
    let Section { add, v, p, .. } = section;
    writer.note_enter(words, 0, Update { add, u: 0, v: 1 });
    assert!(rt; writer.present(p) && writer.highest() <= LAST_VERSION - 3);
    writer.put_after(words, v, p);
}

/// The end of a section: the word of its vertex with this core number. The pass is told all.
fn seal<R: Abort>(
    rt: &R,
    words: &Words,
    writer: &mut Writer,
    pass: &mut Pass,
    section: Section,
    core: u32,
)
    requires table { (writer.old.table ≡ words.now) × (pass.old.table ≡ words.now) }
    requires shape { (words.now.shape.items ≡ 4) × (words.now.shape.fixed ≡ 3) × (words.now.shape.base ≡ 0) }
    requires number { number_of writer.old.table writer.old.log ≡ section.number }
    requires is_open { unsealed_after writer.old ≡ section.v ∷ [] }
    requires stamp { place_stamp writer.old.table writer.old.log section.v < section.number }
    ensures table { (writer.new.table ≡ words.now) × (pass.new.table ≡ words.now) }
    ensures number { number_of writer.new.table writer.new.log ≡ section.number }
    ensures closed { unsealed_after writer.new ≡ [] }
{
    let Section { number, v, .. } = section;
    let word = VertexWord {
        stamp: number,
        core,
    }
    .pack();
    writer.store_vertex(words, v, number, core);
    writer.tell(words, pass);
    assert_eq!(rt; load(words, pass, shape(words).vertex(v)), word);
}

/// A whole section.
fn put_in_section<R: Abort>(
    rt: &R,
    words: &Words,
    writer: &mut Writer,
    pass: &mut Pass,
    section: Section,
)
    requires table { (writer.old.table ≡ words.now) × (pass.old.table ≡ words.now) }
    requires shape { (words.now.shape.items ≡ 4) × (words.now.shape.fixed ≡ 3) × (words.now.shape.base ≡ 0) }
    requires closed { unsealed_after writer.old ≡ [] }
    requires next { section.number ≡ number_of writer.old.table writer.old.log + 1 }
    ensures table { (writer.new.table ≡ words.now) × (pass.new.table ≡ words.now) }
    ensures number { number_of writer.new.table writer.new.log ≡ section.number }
    ensures closed { unsealed_after writer.new ≡ [] }
{
    enter_and_put(rt, words, writer, section);
    seal(rt, words, writer, pass, section, 1);
}

/// The first stale stamp of what was read, by these edge stamps and the place stamps of the words.
fn stale_now(words: &Words, pass: &mut Pass, used: &Used, edge_stamps: [u32; 3]) -> Option<Stale>
    requires table { pass.old.table ≡ words.now }
    requires shape { words.now.shape.fixed ≡ 3 }
    requires edges { All (λ e. e.vertex < 3) used.now.edges.items }
    requires places { All (λ p. p.vertex < 3) used.now.places.items }
    ensures { pass.new.table ≡ pass.old.table }
{
    let place_stamps = place_stamps(words, pass);
    first_stale(used, &edge_stamps, &place_stamps)
}

/// The vertex is put and not sealed when it is read: it stands where it will, and its word has the stamp from before.
#[test]
fn a_vertex_is_read_in_the_section_that_puts_it(rt: HostRuntime) -> Result<(), Fail> {
    let (words, mut writer, mut pass) = open(rt.alloc())?;
    let section = Section {
        number: 1,
        add: true,
        v: 0,
        p: 2,
    };
    enter_and_put(&rt, &words, &mut writer, section);
    let (early, stood) = read_two(&rt, &words, &mut pass);
    seal(&rt, &words, &mut writer, &mut pass, section, 1);
    let (late, stands) = read_two(&rt, &words, &mut pass);
    assert!(rt; stood == stands && !stands);
    let first = stale_now(&words, &mut pass, &early, [1, 1, 0]);
    let second = stale_now(&words, &mut pass, &late, [1, 1, 0]);
    assert_eq!(rt; (first, second), (stale_place(0, 0, 1), None));
    Ok(())
}

/// The order is as it was, and the stamp is not.
#[test]
fn a_vertex_is_put_and_put_back(rt: HostRuntime) -> Result<(), Fail> {
    let (words, mut writer, mut pass) = open(rt.alloc())?;
    let (early, stood) = read_two(&rt, &words, &mut pass);
    let put = Section {
        number: 1,
        add: true,
        v: 0,
        p: 2,
    };
    put_in_section(&rt, &words, &mut writer, &mut pass, put);
    let back = Section {
        number: 2,
        add: false,
        v: 0,
        p: HEAD,
    };
    put_in_section(&rt, &words, &mut writer, &mut pass, back);
    let (late, stands) = read_two(&rt, &words, &mut pass);
    assert!(rt; stood == stands && stands);
    let first = stale_now(&words, &mut pass, &early, [2, 2, 0]);
    let second = stale_now(&words, &mut pass, &late, [2, 2, 0]);
    assert_eq!(rt; (first, second), (stale_place(0, 0, 2), None));
    Ok(())
}

/// This is told of a list of no neighbours that a vertex had after so many entries, where the edge stamps are 2, 2 and 0.
fn assert_list_now<R: Abort + AllocGlobal>(
    rt: &R,
    words: &Words,
    pass: &mut Pass,
    vertex: u32,
    at: u32,
    wanted: Option<Stale>,
)
    requires table { pass.old.table ≡ words.now }
    requires shape { words.now.shape.fixed ≡ 3 }
    requires vertex { vertex < 3 }
    ensures { pass.new.table ≡ pass.old.table }
{
    let Ok(used) = read_list(rt.alloc(), vertex, at) else {
        panic!(rt; "no memory");
    };
    let stale = stale_now(words, pass, &used, [2, 2, 0]);
    assert_eq!(rt; stale, wanted);
}

/// Lists that were read before the first entry, between the first and the second, and behind the last that changes their edges.
fn lists_of_three_entries<R: Abort + AllocGlobal>(rt: &R, words: &Words, pass: &mut Pass)
    requires table { pass.old.table ≡ words.now }
    requires shape { words.now.shape.fixed ≡ 3 }
{
    assert_list_now(rt, words, pass, 0, 0, stale_list(0, 0, 2));
    assert_list_now(rt, words, pass, 1, 1, stale_list(1, 1, 2));
    assert_list_now(rt, words, pass, 0, 2, None);
    assert_list_now(rt, words, pass, 0, 3, None);
    assert_list_now(rt, words, pass, 2, 0, None);
}

/// The list is as it was, and the edge stamp is not. The third entry removes what is not there, so it is no vertex's stamp.
#[test]
fn an_edge_is_added_and_removed_again(rt: HostRuntime) -> Result<(), Fail> {
    let (words, mut writer, mut pass) = open(rt.alloc())?;
    let first = Section {
        number: 1,
        add: true,
        v: 2,
        p: 1,
    };
    put_in_section(&rt, &words, &mut writer, &mut pass, first);
    let second = Section {
        number: 2,
        add: false,
        v: 2,
        p: 1,
    };
    put_in_section(&rt, &words, &mut writer, &mut pass, second);
    let third = Section {
        number: 3,
        add: false,
        v: 2,
        p: 1,
    };
    put_in_section(&rt, &words, &mut writer, &mut pass, third);
    lists_of_three_entries(&rt, &words, &mut pass);
    Ok(())
}
