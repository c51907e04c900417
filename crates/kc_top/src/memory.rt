//! The run over a source and sinks in memory.
ghost use Rattle.std.specs.Prelude.{◌≡◌, ◌⊎◌, ℕ, Some};
ghost use Rattle.kc_text.specs.declared.kind.Kind.{Kind};
ghost use Rattle.kc_text.specs.declared.limits.TheConstants.Limits.{KCORE};
ghost use Rattle.kc_text.specs.Meaning.{Means, Refuses, Told, meaning};
ghost use Rattle.kc_run.specs.Runs.{IsEmpty};
ghost use Rattle.kc_top.specs.EndedFor.{EndedFor, ToldEnd};
ghost use Rattle.kc_top.specs.Given.{given, input_bytes};
ghost use Rattle.kc_top.specs.Settings.{asked};
ghost use Rattle.kc_output.specs.declared.setting.Setting.{Setting};

use crate::run::run;
use crate::{Status, Streams};
use kc_io::mem_sink::MemSink;
use kc_io::mem_source::MemSource;
use kc_io::sink::Sink;
use kc_io::source::Source;
use kc_run::Ran;
use kc_workers::NoGate;
use std::alloc::Global;
use std::sync::Wait;
use std::thread::Threads;

/// A run from memory to memory. It is [`run`], and what is known of the streams are their bytes. So the clauses on the meaning of the
/// input are told once more, of the very bytes.
///
/// # Example
///
/// ```rust
/// use kc_io::mem_sink::MemSink;
/// use kc_io::mem_source::MemSource;
/// use kc_run::Ran;
/// use kc_top::Streams;
/// use kc_top::memory::run_in_memory;
///
/// let text = Vec::from_slice(alloc, b"1 2\n2 3\n3 4\nbatch\n+ 4 1\n")?;
/// let source = MemSource::new(text, 4096, Vec::new(alloc));
/// let out = MemSink::new(alloc, 4096, 4096, Vec::new(alloc))?;
/// let err = MemSink::new(alloc, 4096, 4096, Vec::new(alloc))?;
/// let mut streams = Streams { source, out, err };
/// let mut ran = Ran::new(alloc);
/// let status = run_in_memory(rt, alloc, &["--show", "summary"], &mut streams, &mut ran); // Done
/// let lines = streams.out.taken(); // the line of the graph, and the line of the batch:
/// // b"graph vertices 4 edges 3 top 1\nbatch 1 added 1 removed 0 kept 0 edges 4 top 2\n"
/// ```
pub fn run_in_memory<R: Threads + Wait + Sync>(
    rt: &R,
    alloc: Global,
    words: &[&str],
    streams: &mut Streams<MemSource, MemSink, MemSink>,
    ran: &mut Ran,
) -> Status
    requires empty { IsEmpty ran.old }
    ensures ended { EndedFor ⟦<MemSource as Source>⟧ ⟦<MemSink as Sink>⟧ (asked words.now) result streams.old.source streams.new.source
        streams.old.out streams.new.out ran.old ran.new }
    ensures line { ToldEnd ⟦<MemSink as Sink>⟧ (given (asked words.now) (Some streams.old.source.left)) result streams.old.err streams.new.err }
    ensures refused { result ≡ Status.Refused
        → (n : ℕ) × (kind : Kind) × (meaning KCORE (input_bytes (asked words.now) streams.old.source.left) ≡ Refuses n kind) }
    ensures refuses { (s : Setting) (n : ℕ) (kind : Kind) → asked words.now ≡ Some s
        → meaning KCORE (input_bytes (Some s) streams.old.source.left) ≡ Refuses n kind
        → (result ≡ Status.Refused) ⊎ (result ≡ Status.ReadFault) ⊎ (result ≡ Status.NoMemory) }
    ensures complete { (s : Setting) (told : Told) → asked words.now ≡ Some s → meaning KCORE (input_bytes (Some s) streams.old.source.left) ≡ Means told
        → (result ≡ Status.Done) ⊎ (result ≡ Status.ReadFault) ⊎ (result ≡ Status.WriteFault) ⊎ (result ≡ Status.NoMemory) }
{
    run(rt, alloc, words, streams, &NoGate, ran)
}
