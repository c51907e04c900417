//! A board from its opening to its end, in one thread and in many.
ghost use Rattle.std.specs.Prelude.{◌≡◌, ◌<◌, ◌+◌, ◌≤◌, ◌∷◌, [], All, IfOk, length};
ghost use Rattle.kc_snapshot.specs.declared.publisher.TheConstants.{MOST_LISTS as MOST_PUBLISHED};
ghost use Rattle.kc_snapshot.specs.Histories.{member, width};

use kc_snapshot::{Blank, BoardName, Place, Publisher, Read, Reader, open};
use std::alloc::Global;
use std::marker::Brand;
use std::process::Abort;
use std::sync::Wait;
use std::test::Fail;
use std::thread;
use std::thread::Threads;

// The core numbers of a path of four vertices, and of the path with both its chords.
const PATH: [u32; 4] = [1, 1, 1, 1];

const CHORDS: [u32; 4] = [2, 2, 2, 2];

// How many lists are published while eight readers read, and how often each reads.
const LISTS: u32 = 1_000;

const READS: u32 = 10_000;

// One of these readers, which have seen a first list.
fn one_of<J: BoardName>(readers: &mut Vec<Reader<J>>, first: &[u32]) -> Result<Reader<J>, Fail>
    requires { All (λ reader. reader ≡ member first.now ∷ []) readers.old.items }
    ensures one { IfOk result (λ reader. reader ≡ member first.now ∷ []) }
    ensures rest { All (λ reader. reader ≡ member first.now ∷ []) readers.new.items }
{
    Ok(readers.pop().ok_or("there is no reader left")?)
}

// A reader finds this list under this number.
fn assert_cores<J: BoardName, R: Wait + Abort>(
    rt: &R,
    reader: &mut Reader<J>,
    number: u32,
    core: [u32; 4],
)
    requires { width reader.old ≡ 4 }
{
    let mut all = [0; 4];
    let found = reader.cores(rt, &mut all);
    assert_eq!(rt; (found, all), (number, core));
}

// A reader that is told what was published finds this list under this number.
fn assert_told<J: BoardName, R: Wait + Abort>(
    rt: &R,
    publisher: &Publisher<J, &R>,
    reader: &mut Reader<J>,
    number: u32,
    core: [u32; 4],
)
    requires { width reader.old ≡ 4 }
{
    reader.learn(rt, publisher.tell());
    assert_cores(rt, reader, number, core);
}

// A reader finds this core number of vertex 0, in the list with this number.
fn assert_read<J: BoardName, R: Wait + Abort>(rt: &R, reader: &mut Reader<J>, wanted: Read)
    requires { width reader.old ≡ 4 }
    ensures { width reader.new ≡ width reader.old }
{
    assert_eq!(rt; reader.read(rt, 0), wanted);
}

// A list that is published gets this number.
fn publish<J: BoardName, R: Wait + Abort>(
    rt: &R,
    publisher: &mut Publisher<J, &R>,
    core: [u32; 4],
    number: u32,
)
    requires publisher { (length publisher.old < MOST_PUBLISHED) × (width publisher.old ≡ 4) }
    ensures { width publisher.new ≡ width publisher.old }
{
    let published = publisher.publish(rt, &core).expect(rt, "no memory");
    assert_eq!(rt; published, number);
}

// What a board shows to one reader that is told, and to one that is not.
fn see_told_and_not<J: BoardName, R: Wait + Abort>(
    rt: &R,
    publisher: &mut Publisher<J, &R>,
    readers: &mut [Reader<J>],
) -> Result<(), Fail>
    requires publisher { (length publisher.old ≡ 1) × (width publisher.old ≡ 4) }
    requires readers { All (λ reader. width reader ≡ 4) readers.old }
{
    let [told, other] = readers else {
        return Err("there are no two readers".into());
    };
    assert_read(rt, told, Read { number: 0, core: 1 });
    publish(rt, publisher, CHORDS, 1);
    told.learn(rt, publisher.tell());
    assert_read(rt, told, Read { number: 1, core: 2 });
    assert_cores(rt, other, 1, CHORDS);
    publisher.covers(told);
    Ok(())
}

// Two places that change, one of them twice.
fn places(alloc: Global) -> Result<Vec<Place>, Fail> {
    let mut places = Vec::new(alloc);
    places.push(Place { at: 2, core: 1 })?;
    places.push(Place { at: 2, core: 0 })?;
    places.push(Place { at: 0, core: 1 })?;
    Ok(places)
}

// Places that change, and a list that changes nothing.
fn see_changes<J: BoardName, R: Wait + Abort>(
    rt: &R,
    alloc: Global,
    publisher: &mut Publisher<J, &R>,
    readers: &mut [Reader<J>],
) -> Result<(), Fail>
    requires publisher { (length publisher.old ≡ 1) × (width publisher.old ≡ 4) }
    requires readers { All (λ reader. width reader ≡ 4) readers.old }
{
    let [reader] = readers else {
        return Err("there is no reader".into());
    };
    let changed = publisher.publish_changes(rt, places(alloc)?)?;
    assert_eq!(rt; changed, 1);
    publish(rt, publisher, [1, 2, 0, 2], 2);
    assert_told(rt, publisher, reader, 2, [1, 2, 0, 2]);
    Ok(())
}

// Two vertices of a list where all numbers are new, and one that the board has not.
fn see_among<J: BoardName, R: Wait + Abort>(
    rt: &R,
    publisher: &mut Publisher<J, &R>,
    readers: &mut [Reader<J>],
) -> Result<(), Fail>
    requires publisher { (length publisher.old ≡ 1) × (width publisher.old ≡ 4) }
    requires readers { All (λ reader. width reader ≡ 4) readers.old }
{
    let [reader] = readers else {
        return Err("there is no reader".into());
    };
    let among = publisher.publish_among(rt, &CHORDS, &[3, 1, 4, 3])?;
    assert_eq!(rt; among, 1);
    assert_told(rt, publisher, reader, 1, [1, 2, 1, 2]);
    Ok(())
}

// Opens a board, and has one reader told and one not.
fn read_by_two<J: BoardName, R: Wait + Abort>(
    rt: &R,
    alloc: Global,
    blank: Blank,
) -> Result<(), Fail>
    requires { blank ≡ J.book }
{
    let (mut publisher, mut readers) = open::<J, &R>(rt, alloc, blank, &PATH, 2)?;
    let read = see_told_and_not(rt, &mut publisher, readers.as_mut_slice());
    publisher.end();
    read
}

// Opens a board for one reader, and changes places.
fn read_changes<J: BoardName, R: Wait + Abort>(
    rt: &R,
    alloc: Global,
    blank: Blank,
) -> Result<(), Fail>
    requires { blank ≡ J.book }
{
    let (mut publisher, mut readers) = open::<J, &R>(rt, alloc, blank, &CHORDS, 1)?;
    let read = see_changes(rt, alloc, &mut publisher, readers.as_mut_slice());
    publisher.end();
    read
}

// Opens a board for one reader, and names the vertices to be published.
fn read_among<J: BoardName, R: Wait + Abort>(
    rt: &R,
    alloc: Global,
    blank: Blank,
) -> Result<(), Fail>
    requires { blank ≡ J.book }
{
    let (mut publisher, mut readers) = open::<J, &R>(rt, alloc, blank, &PATH, 1)?;
    let read = see_among(rt, &mut publisher, readers.as_mut_slice());
    publisher.end();
    read
}

// The list that is published under a number.
fn list_of(number: u32) -> [u32; 4] {
    [number % 2, number % 3, number % 5, number % 7]
}

// A reader in a thread of its own, and whether all that it read was what was published.
#[derive(Drop)]
struct Watcher<J: BoardName> {
    reader: Reader<J>,
    right: bool,
    ghost wide: { width reader ≡ 4 },
}

impl<J: BoardName> Watcher<J> {
    // Reads, and compares each answer with the list of its number. The numbers never fall.
    fn watch<R: Wait>(&mut self, rt: &R) {
        let mut least = 0;
        let mut right = true;
        for turn in 0..READS {
            let v = turn % 4;
            let Read { number, core } = self.reader.read(rt, v);
            right = right
                && core == list_of(number)[v as usize]
                && least <= number
                && number <= LISTS;
            least = number;
        }
        self.right = right;
    }
}

// Publishes the lists in order.
fn publish_all<J: BoardName, R: Wait + Drop, W: Wait>(
    rt: &W,
    mut publisher: Publisher<J, R>,
) -> Result<Publisher<J, R>, Fail>
    requires { (length publisher ≡ 1) × (width publisher ≡ 4) }
{
    for number in 1..LISTS + 1 {
        publisher.publish(rt, &list_of(number))?;
    }
    Ok(publisher)
}

// Puts each of the readers, which have seen a first list, into a watcher.
fn watchers<J: BoardName>(
    alloc: Global,
    mut readers: Vec<Reader<J>>,
    first: &[u32],
) -> Result<Vec<Watcher<J>>, Fail>
    requires readers { All (λ reader. reader ≡ member first.now ∷ []) readers.items }
    requires wide { length first.now ≡ 4 }
{
    let mut watchers = Vec::new(alloc);
    for _ in 0..readers.len() {
        watchers.push(Watcher {
            reader: one_of(&mut readers, first)?,
            right: false,
        })?;
    }
    Ok(watchers)
}

// Eight readers read while one publisher publishes.
fn read_by_eight<J: BoardName + Send + Sync, R: Threads + Wait + Abort + Sync>(
    rt: &R,
    alloc: Global,
    blank: Blank,
) -> Result<(), Fail>
    requires { blank ≡ J.book }
{
    let first = list_of(0);
    let (publisher, readers) = open::<J, &R>(rt, alloc, blank, &first, 8)?;
    let mut watchers = watchers(alloc, readers, &first)?;
    let ((), published) = thread::join(
        rt,
        || thread::for_each_mut(
            rt,
            watchers.as_mut_slice(),
            8,
            &|_, watcher| watcher.watch(rt),
        ),
        || publish_all(rt, publisher),
    );
    let publisher = published?;
    assert!(rt; watchers.iter().all(|watcher| watcher.right));
    for watcher in watchers.iter_mut() {
        watcher.reader.learn(rt, publisher.tell());
        assert_eq!(rt; watcher.reader.read(rt, 1).number, LISTS);
    }
    publisher.end();
    Ok(())
}

#[test]
fn two_readers_read(rt: HostRuntime) -> Result<(), Fail> {
    read_by_two::<Brand, _>(&rt, rt.alloc(), Blank::new())
}

#[test]
fn changes_are_read(rt: HostRuntime) -> Result<(), Fail> {
    read_changes::<Brand, _>(&rt, rt.alloc(), Blank::new())
}

#[test]
fn of_a_list_the_vertices_that_are_named_are_published(rt: HostRuntime) -> Result<(), Fail> {
    read_among::<Brand, _>(&rt, rt.alloc(), Blank::new())
}

#[test]
fn eight_readers_read_what_was_published(rt: HostRuntime) -> Result<(), Fail> {
    read_by_eight::<Brand, _>(&rt, rt.alloc(), Blank::new())
}
