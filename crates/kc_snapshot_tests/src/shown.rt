//! A journal that is shown to a reader that is told, and to one in another thread.
ghost use Rattle.std.specs.Prelude.{◌≡◌, ◌<◌, All, IfOk, length};
ghost use Rattle.kc_snapshot.specs.Histories.{width};

use kc_graph::{Graph, Lawful, NoMemory, Update, decompose_owned};
use kc_journal::{Journal, plan_held};
use kc_published::Published;
use kc_snapshot::{Blank, BoardName, MOST_LISTS, Read, Reader};
use kc_table::{Pass, Words};
use kc_view::Scratch;
use kc_words::INDICES;
use std::alloc::Global;
use std::marker::Brand;
use std::process::Abort;
use std::sync::Wait;
use std::test::Fail;
use std::thread;
use std::thread::Threads;

/// Two edges among four vertices, whose core numbers are 1.
const START: [(u32, u32); 2] = [(0, 1), (2, 3)];

/// How many lists are published while another thread reads, and how often it reads.
const PUBLISHES: u32 = 1_000;

const READS: u32 = 10_000;

/// The edge that makes a path of the two edges.
const PATH: (u32, u32) = (0, 2);

/// The edge that makes a circle of the path, whose core numbers are 2.
const CIRCLE: (u32, u32) = (1, 3);

/// A journal that is shown, with the words of its table, a pass, and how many lists its board has.
#[derive(Drop)]
struct Run<J: BoardName, R: Wait + Drop> {
    words: Words,
    pass: Pass,
    shown: Published<J, R>,
    lists: u32,
    ghost told: { pass.table ≡ words },
    ghost table: { shown.journal.levels.table ≡ words },
    ghost count: { length shown.history ≡ lists },
}

/// A reader of four core numbers, and whether all that it watched was right.
#[derive(Drop)]
struct Watcher<J: BoardName> {
    reader: Reader<J>,
    right: bool,
    ghost wide: { width reader ≡ 4 },
}

/// What a run is watched for: entries that are told of, more moves than there are vertices, or publishes in another thread.
#[derive(Clone, Copy)]
enum Case {
    Told,
    ManyMoves,
    Beside,
}

/// The two edges, with their core numbers.
fn start(alloc: Global) -> Result<Lawful, NoMemory>
    ensures { IfOk result (λ lawful. lawful.graph.size ≡ 4) }
{
    let graph = Graph::from_pairs(alloc, 4, &START)?;
    decompose_owned(alloc, graph)
}

/// The run of the two edges, and the readers of its core numbers.
fn open_run<'a, J: BoardName, R: Wait + Abort + AllocGlobal>(
    rt: &'a R,
    blank: Blank,
) -> Result<(Run<J, &'a R>, Vec<Reader<J>>), Fail>
    requires { blank ≡ J.book }
    ensures { IfOk result (λ r. All (λ reader. width reader ≡ 4) r.1.items) }
{
    let (words, journal, pass) = Journal::open(rt.alloc(), start(rt.alloc())?, 0)?;
    assert!(rt; journal.core_numbers().len() == 4);
    let (shown, readers) = Published::<J, &'a R>::open(rt, rt.alloc(), blank, journal, 1)?;
    let run = Run {
        words,
        pass,
        shown,
        lists: 1,
    };
    Ok((run, readers))
}

/// A watcher by the one reader of a board.
fn only_watcher<J: BoardName>(mut readers: Vec<Reader<J>>) -> Result<Watcher<J>, Fail>
    requires { All (λ reader. width reader ≡ 4) readers.items }
{
    let reader = readers.pop().ok_or("there is no reader")?;
    Ok(Watcher {
        reader,
        right: false,
    })
}

impl<J: BoardName, R: Wait + Drop> Run<J, R> {
    /// Enters an update by its plan.
    fn enter<A: Abort + AllocGlobal>(
        &mut self,
        rt: &A,
        index: u32,
        add: bool,
        ends: (u32, u32),
    ) -> Result<(), Fail>
        requires index { index < INDICES }
        requires ends { ends.0 < ends.1 }
    {
        let vertices = self.shown.journal().vertices();
        assert!(rt; ends.1 < vertices);
        let update = Update {
            add,
            u: ends.0,
            v: ends.1,
        };
        let scratch = Scratch::new(rt.alloc(), vertices)?;
        let (planned, _) = plan_held(rt.alloc(), self.shown.journal(), scratch, update);
        self.shown
            .enter(&self.words, &mut self.pass, index, &planned?)?;
        Ok(())
    }

    /// Publishes, and answers the number of the list.
    fn publish<A: Wait + Abort>(&mut self, rt: &A) -> Result<u32, Fail> {
        assert!(rt; self.lists < MOST_LISTS);
        let number = self.shown.publish(rt)?;
        self.lists += 1;
        Ok(number)
    }

    /// Publishes again and again, and enters an update before each.
    fn publish_all<A: Wait + Abort + AllocGlobal>(&mut self, rt: &A) -> Result<(), Fail> {
        for index in 0..PUBLISHES {
            self.enter(rt, index, index % 2 == 0, PATH)?;
            self.publish(rt)?;
        }
        Ok(())
    }

    /// The circle comes and goes more often than there are vertices, and stays; then it is published, and an edge of it goes.
    fn enter_many<A: Wait + Abort + AllocGlobal>(&mut self, rt: &A) -> Result<(), Fail> {
        self.enter(rt, 0, true, PATH)?;
        for index in 1..10 {
            self.enter(rt, index, index % 2 == 1, CIRCLE)?;
        }
        assert_eq!(rt; self.publish(rt)?, 1);
        self.enter(rt, 10, false, (0, 1))
    }
}

impl<J: BoardName> Watcher<J> {
    /// Reads again and again: whether the numbers never fall, are of lists that are published, and each core number is 1.
    fn watch<A: Wait>(&mut self, rt: &A) {
        let mut least = 0;
        let mut right = true;
        for turn in 0..READS {
            let Read { number, core } = self.reader.read(rt, turn % 4);
            right = right && core == 1 && least <= number && number <= PUBLISHES;
            least = number;
        }
        self.right = right;
    }

    /// What is read while updates are entered and not published: the numbers from before.
    fn see_none_entered<R: Wait + Drop, A: Wait + Abort + AllocGlobal>(
        &mut self,
        rt: &A,
        run: &mut Run<J, R>,
    ) -> Result<(), Fail> {
        let before = self.reader.read(rt, 0);
        run.enter(rt, 0, true, PATH)?;
        run.enter(rt, 1, true, CIRCLE)?;
        let after = self.reader.read(rt, 0);
        assert_eq!(rt; [before, after], [Read { number: 0, core: 1 }; 2]);
        Ok(())
    }

    /// Is told of all that was published. The last list has this number, and this core number for each vertex.
    fn see<R: Wait + Drop, A: Wait + Abort>(
        &mut self,
        rt: &A,
        run: &Run<J, R>,
        number: u32,
        core: u32,
    ) {
        self.reader.learn(rt, run.shown.tell());
        let read = self.reader.read(rt, 0);
        let mut all = [0; 4];
        let found = self.reader.cores(rt, &mut all);
        let wanted = Read { number, core };
        assert_eq!(rt; (read, found, all), (wanted, number, [core; 4]));
    }

    /// What is seen by who is told: not the entries before they are published, and then all their core numbers.
    fn see_when_told<R: Wait + Drop, A: Wait + Abort + AllocGlobal>(
        &mut self,
        rt: &A,
        run: &mut Run<J, R>,
    ) -> Result<(), Fail> {
        self.see_none_entered(rt, run)?;
        assert_eq!(rt; run.publish(rt)?, 1);
        self.see(rt, run, 1, 2);
        Ok(())
    }

    /// What is seen where more vertices moved than there are: a list that was published as a whole, and the next one by its changes.
    fn see_after_many<R: Wait + Drop, A: Wait + Abort + AllocGlobal>(
        &mut self,
        rt: &A,
        run: &mut Run<J, R>,
    ) -> Result<(), Fail> {
        run.enter_many(rt)?;
        assert_eq!(rt; run.publish(rt)?, 2);
        self.see(rt, run, 2, 1);
        Ok(())
    }
}

/// One thread enters and publishes, and another watches.
fn see_beside_publishes<J: BoardName + Send + Sync, R: Threads + Wait + Abort + Sync + AllocGlobal>(
    rt: &R,
    run: &mut Run<J, &R>,
    watcher: &mut Watcher<J>,
) -> Result<(), Fail> {
    let (published, ()) = thread::join(rt, || run.publish_all(rt), || watcher.watch(rt));
    published?;
    assert!(rt; watcher.right);
    watcher.see(rt, run, PUBLISHES, 1);
    Ok(())
}

/// Watches a run by the one reader of its board.
fn watch_run<J: BoardName + Send + Sync, R: Threads + Wait + Abort + Sync + AllocGlobal>(
    rt: &R,
    run: &mut Run<J, &R>,
    readers: Vec<Reader<J>>,
    case: Case,
) -> Result<(), Fail>
    requires { All (λ reader. width reader ≡ 4) readers.items }
{
    let mut watcher = only_watcher(readers)?;
    match case {
        Case::Told => watcher.see_when_told(rt, run),
        Case::ManyMoves => watcher.see_after_many(rt, run),
        Case::Beside => see_beside_publishes(rt, run, &mut watcher),
    }
}

/// Opens a run, and watches it.
fn watch<J: BoardName + Send + Sync, R: Threads + Wait + Abort + Sync + AllocGlobal>(
    rt: &R,
    blank: Blank,
    case: Case,
) -> Result<(), Fail>
    requires { blank ≡ J.book }
{
    let (mut run, readers) = open_run::<J, R>(rt, blank)?;
    watch_run(rt, &mut run, readers, case)
}

#[test]
fn a_reader_that_is_told_sees_what_was_entered(rt: HostRuntime) -> Result<(), Fail> {
    watch::<Brand, _>(&rt, Blank::new(), Case::Told)
}

#[test]
fn more_moves_than_vertices_are_published(rt: HostRuntime) -> Result<(), Fail> {
    watch::<Brand, _>(&rt, Blank::new(), Case::ManyMoves)
}

#[test]
fn numbers_never_fall_while_another_thread_publishes(rt: HostRuntime) -> Result<(), Fail> {
    watch::<Brand, _>(&rt, Blank::new(), Case::Beside)
}
