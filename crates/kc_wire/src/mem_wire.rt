//! A wire in memory, some of whose calls fail.
ghost use Rattle.std.specs.Prelude.{◌≡◌, ◌<◌, ◌++◌, ◌∷◌, Some, [], OnOk, OnErr, length, map};
ghost use Rattle.std.specs.Io.{ReadsAtMost};
ghost use Rattle.std.specs.Io.KnownBytes.{ReadConsumes};
ghost use Rattle.kc_wire.specs.Events.{TellsRead, TellsWrite, Read, wrote};
ghost use Rattle.kc_wire.specs.Faults.{after_read, after_write, no_fault};
ghost use Rattle.kc_wire.specs.State.{event_of};

use crate::event::MemEvent;
use crate::faults::{WireFaults, WriteFault};
use crate::hindrances::Hindrances;
use crate::wire::Wire;
use kc_io::{Failed, NoMemory};
use std::alloc::Global;
use std::marker::Model;

/// Bytes in memory that are read in order, and all that happened. It tells both.
///
/// A call fails where it is to be hindered, and where there is no memory to keep what happened.
#[derive(Drop)]
pub struct MemWire {
    alloc: Global,
    input: Vec<u8>,
    done: usize,
    hindrances: Hindrances,
    room: usize,
    reads: usize,
    writes: usize,
    events: Vec<MemEvent>,
    faults: WireFaults,
}

impl Model for MemWire {
    ghost use Rattle.std.specs.Prelude.{◌≤◌, drop, map, vec_len};
    ghost use Rattle.kc_wire.specs.State.{WireState, event_of};

    ghost Value = { WireState };

    ghost view = { λ s. record { history = map event_of s.events.items; left = drop s.done s.input.items; faults = s.faults } };

    ghost invariant = { λ s. s.done ≤ vec_len s.input };
}

/// Keeps that a read gave these bytes.
fn keep_read(alloc: Global, events: &mut Vec<MemEvent>, bytes: &[u8]) -> Result<(), NoMemory>
    ensures kept { OnOk result (map event_of events.new.items ≡ map event_of events.old.items ++ Read bytes.now ∷ []) }
    ensures same { OnErr result (events.new.items ≡ events.old.items) }
{
    let bytes = Vec::from_slice(alloc, bytes)?;
    events.push(MemEvent::Read(bytes))?;
    Ok(())
}

/// Keeps that a write took these bytes, where there are any.
fn keep_written(alloc: Global, events: &mut Vec<MemEvent>, bytes: &[u8]) -> Result<(), NoMemory>
    ensures kept { OnOk result (map event_of events.new.items ≡ map event_of events.old.items ++ wrote bytes.now) }
    ensures same { OnErr result (events.new.items ≡ events.old.items) }
{
    if bytes.is_empty() {
        return Ok(());
    }
    let bytes = Vec::from_slice(alloc, bytes)?;
    events.push(MemEvent::Wrote(bytes))?;
    Ok(())
}

impl MemWire {
    /// A wire of `input` that is hindered so.
    pub fn new(alloc: Global, input: Vec<u8>, hindrances: Hindrances) -> MemWire
        ensures { result ≡ record { history = []; left = input.items; faults = no_fault } }
    {
        let room = hindrances.room;
        MemWire {
            alloc,
            input,
            done: 0,
            hindrances,
            room,
            reads: 0,
            writes: 0,
            events: Vec::new(alloc),
            faults: WireFaults::NONE,
        }
    }

    /// All that happened.
    pub fn events(&self) -> &[MemEvent]
        ensures { map event_of result.now ≡ self.now.history }
    {
        &self.events
    }

    /// How many calls have failed.
    pub fn faults(&self) -> WireFaults
        ensures { result ≡ self.now.faults }
    {
        self.faults
    }
}

impl Wire for MemWire {
    ghost history = { λ s. Some s.history };

    ghost faults = { λ s. s.faults };

    fn read(&mut self, into: &mut [u8]) -> Result<usize, Failed>
        requires { 0 < length into.old }
        ensures bound { ReadsAtMost result into.new }
        ensures history { TellsRead (Some self.old.history) (Some self.new.history) result into.new }
        ensures cause { self.new.faults ≡ after_read self.old.faults result }
        ensures left { ReadConsumes (Some self.old.left) (Some self.new.left) result into.new }
    {
        let most = self.hindrances.most(self.reads).min(into.len());
        self.reads = self.reads.saturating_add(1);
        let left = &self.input[self.done..];
        let n = most.min(left.len());
        into[..n].copy_from_slice(&left[..n]);
        if self.hindrances.fails_read(self.reads)
            || keep_read(self.alloc, &mut self.events, &into[..n]).is_err()
        {
            self.faults.count_read();
            return Err(Failed);
        }
        self.done += n;
        Ok(n)
    }

    fn write_all(&mut self, text: &[u8]) -> Result<(), WriteFault>
        ensures history { TellsWrite (Some self.old.history) (Some self.new.history) result text.now }
        ensures cause { self.new.faults ≡ after_write self.old.faults result }
        ensures left { self.new.left ≡ self.old.left }
    {
        if text.is_empty() {
            return Ok(());
        }
        self.writes = self.writes.saturating_add(1);
        let (taken, outcome) = self.hindrances.outcome(self.writes, text.len(), self.room);
        match keep_written(self.alloc, &mut self.events, &text[..taken]) {
            Ok(()) => self.room -= taken,
            Err(_) => {
                self.faults.count_write(WriteFault::Failed);
                return Err(WriteFault::Failed);
            }
        }
        if let Err(fault) = outcome {
            self.faults.count_write(fault);
        }
        outcome
    }
}
