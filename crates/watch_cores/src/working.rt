//! What works batches off, and publishes the core numbers after each.
ghost use Rattle.std.specs.Prelude.{◌≡◌, ◌≤◌, length};
ghost use Rattle.kc_snapshot.specs.Histories.{width};
ghost use Rattle.kc_text.specs.declared.limits.TheConstants.{MOST_BATCHES};

use kc_graph::{Graph, Update, core_numbers};
use kc_snapshot::{BoardName, NoMemory, Publisher, Reader};
use kc_text::Batch;
use std::alloc::Global;
use std::sync::Wait;

/// Makes an update. One that is of no vertices of the graph changes nothing; a text has none.
fn apply_one(graph: &mut Graph, update: Update) -> Result<(), NoMemory>
    ensures { graph.new.size ≡ graph.old.size }
{
    if update.v >= graph.vertices() {
        return Ok(());
    }
    if update.add {
        graph.add(update.u, update.v)?;
    } else {
        graph.remove(update.u, update.v);
    }
    Ok(())
}

/// Makes the updates of a batch.
fn apply(graph: &mut Graph, batch: &[Update]) -> Result<(), NoMemory>
    ensures { graph.new.size ≡ graph.old.size }
{
    for update in batch {
        apply_one(graph, *update)?;
    }
    Ok(())
}

/// All core numbers, as a reader sees them that is told what was published.
fn list_seen<J: BoardName, R: Wait + Drop, W: Wait>(
    rt: &W,
    alloc: Global,
    publisher: &Publisher<J, R>,
    told: &mut Reader<J>,
    vertices: u32,
) -> Result<Vec<u32>, NoMemory>
    requires { vertices ≡ width told.old }
    ensures { width told.new ≡ width told.old }
{
    let mut list = vec![in alloc; 0; vertices as usize]?;
    told.learn(rt, publisher.tell());
    told.cores(rt, &mut list);
    Ok(list)
}

/// Makes batch after batch in a graph whose core numbers were published, and publishes them after each. Answers the lists that a reader
/// saw who was told of each publish.
pub(crate) fn work<J: BoardName, R: Wait + Drop, W: Wait>(
    rt: &W,
    alloc: Global,
    graph: &mut Graph,
    publisher: &mut Publisher<J, R>,
    told: &mut Reader<J>,
    batches: &[Batch],
) -> Result<Vec<Vec<u32>>, NoMemory>
    requires opened { length publisher.old ≡ 1 }
    requires few { length batches.now ≤ MOST_BATCHES }
    requires vertices { (width publisher.old ≡ graph.old.size) × (width told.old ≡ graph.old.size) }
{
    let mut lists = Vec::new(alloc);
    lists.push(list_seen(rt, alloc, publisher, told, graph.vertices())?)?;
    for batch in batches {
        apply(graph, &batch.updates)?;
        publisher.publish(rt, &core_numbers(alloc, graph)?)?;
        lists.push(list_seen(rt, alloc, publisher, told, graph.vertices())?)?;
    }
    Ok(lists)
}
