//! The run over an input and sinks in memory.
ghost use Rattle.std.specs.Prelude.{◌≡◌, ◌++◌, ℕ, List, Option, Some, map};
ghost use Rattle.kc_files.specs.Folders.{held_in};
ghost use Rattle.kc_text.specs.Meaning.{Refuses};
ghost use Rattle.kc_text.specs.declared.kind.Kind.{Kind};
ghost use Rattle.kc_wishes.specs.Wishes.{Asks, Query, Saves, wish_of};
ghost use Rattle.kc_cores.specs.Answers.{IsTextFor, graph_meaning, graph_remark};
ghost use Rattle.kc_cores.specs.CoresEnded.{ToldLine};
ghost use Rattle.kc_cores.specs.Inputs.{bytes_behind, bytes_in};
ghost use Rattle.kc_cores.specs.Saved.{RunEnded};

use crate::answer::answer;
use crate::mem_input::MemInput;
use crate::mem_pipe::MemPipe;
use crate::{CoresStatus, CoresStreams};
use kc_files::mem_folder::MemFolder;
use kc_io::mem_sink::MemSink;
use kc_io::sink::Sink;
use kc_io::source::Source;
use kc_keeper::KeeperAlone;
use kc_threads::CallerAlone;
use kc_wire::mem_wire::MemWire;
use kc_wire::wire::Wire;
use std::alloc::Global;
use std::convert::AsStr;

/// A run from memory to memory. It is [`answer`], and what is known of the streams are their bytes. So the clauses on the bytes that
/// are read and taken are told once more, of the very bytes. The keeper makes all batches alone, and no
/// thread is started.
///
/// # Example
///
/// ```rust
/// use kc_cores::CoresStreams;
/// use kc_cores::mem_input::MemInput;
/// use kc_cores::mem_pipe::MemPipe;
/// use kc_cores::memory::answer_in_memory;
/// use kc_files::mem_folder::{MemFolder, Refusals};
/// use kc_io::mem_sink::MemSink;
/// use kc_io::mem_source::MemSource;
/// use kc_wire::hindrances::Hindrances;
/// use kc_wire::mem_wire::MemWire;
///
/// fn input_of(alloc: Global, text: &[u8]) -> Result<MemInput, NoMemory> {
///     let source = MemSource::new(Vec::from_slice(alloc, text)?, 4096, Vec::new(alloc));
///     let file = MemSource::new(Vec::new(alloc), 4096, Vec::new(alloc));
///     Ok(MemInput::new(source, String::new(alloc), file))
/// }
///
/// let (input, certificate) = (input_of(alloc, b"1 2\n2 3\n3 1\n3 4\n")?, input_of(alloc, b"")?);
/// let out = MemPipe::new(alloc, 4096, 4096, Vec::new(alloc))?;
/// let err = MemSink::new(alloc, 4096, 4096, Vec::new(alloc))?;
/// let none = Hindrances { cuts: Vec::new(alloc), reads: Vec::new(alloc), writes: Vec::new(alloc), room: 4096 };
/// let wire = MemWire::new(alloc, Vec::new(alloc), none);
/// let mut streams = CoresStreams { input, certificate, out, err, wire };
/// let part = MemSink::new(alloc, 4096, 4096, Vec::new(alloc))?;
/// let nothing = Refusals { unbegun: None, unplaced: None, sticks: false };
/// let mut folder = MemFolder::new(String::new(alloc), None, part, nothing);
/// let status = answer_in_memory(alloc, &["numbers"], &mut streams, &mut folder); // Done
/// let lines = streams.out.taken(); // b"1\t2\n2\t2\n3\t2\n4\t1\n"
/// ```
pub fn answer_in_memory<W: AsStr>(
    alloc: Global,
    words: &[W],
    streams: &mut CoresStreams<MemInput, MemInput, MemPipe, MemSink, MemWire>,
    folder: &mut MemFolder,
) -> CoresStatus
    ensures ended { (line : List ℕ)
        × RunEnded ⟦<MemInput as Source>⟧ bytes_behind ⟦<MemInput as Source>⟧ bytes_behind ⟦<MemPipe as Sink>⟧ (λ pipe. pipe.gone)
        ⟦<MemWire as Wire>⟧ held_in (λ f. f.failed) (wish_of (map W.text words.now)) result line
        streams.old.input streams.new.input streams.old.certificate streams.new.certificate streams.old.out streams.new.out
        streams.old.wire streams.new.wire folder.old folder.new × ToldLine ⟦<MemSink as Sink>⟧ line streams.old.err streams.new.err }
    ensures done { (query : Query) (bytes : List ℕ) → wish_of (map W.text words.now) ≡ Asks query
        → bytes_in streams.old.input query.graph.file ≡ Some bytes → result ≡ CoresStatus.Done
        → (text : List ℕ) × (summary : List ℕ) × IsTextFor query bytes (graph_remark query.graph.dialect bytes) text summary
        × (streams.new.out.sink.taken ≡ streams.old.out.sink.taken ++ text) }
    ensures saved { (name : List ℕ) (query : Query) (bytes : List ℕ) → wish_of (map W.text words.now) ≡ Saves name query
        → bytes_in streams.old.input query.graph.file ≡ Some bytes → result ≡ CoresStatus.Done
        → (text : List ℕ) × (summary : List ℕ) × IsTextFor query bytes (graph_remark query.graph.dialect bytes) text summary
        × (held_in folder.new name ≡ Some (Some text)) }
    ensures refused { (query : Query) (bytes : List ℕ) → wish_of (map W.text words.now) ≡ Asks query
        → bytes_in streams.old.input query.graph.file ≡ Some bytes → result ≡ CoresStatus.Refused
        → (n : ℕ) × (kind : Kind) × (graph_meaning query.graph.dialect bytes ≡ Refuses n kind) × (streams.new.out.sink.taken ≡ streams.old.out.sink.taken) }
{
    answer(alloc, &KeeperAlone, &CallerAlone, words, streams, folder)
}
