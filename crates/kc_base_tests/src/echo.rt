//! A replier that echoes.
ghost use Rattle.std.specs.Prelude.{◌≡◌, ◌++◌, ◌≤◌, ◌<◌, [], IfOk, List, OnErr, OnOk, false, length, take, true, ℕ};
ghost use Rattle.kc_base_tests.specs.Echoes.{has_stop, said, said_at_end};

use kc_dialogue::flow::Flow;
use kc_dialogue::replier::Replier;
use kc_io::NoMemory;
use std::alloc::Global;

/// Echoes each byte up to the first full stop, which ends the dialogue. Where the input ends before one, it adds a question mark.
#[derive(Drop)]
pub(crate) struct Echo {
    pub(crate) stopped: bool,
}

/// Where the first full stop stands, or the end.
fn front_len(bytes: &[u8]) -> usize
    ensures within { result ≤ length bytes.now }
    ensures said { take result bytes.now ≡ said bytes.now }
    ensures stops { result < length bytes.now → has_stop bytes.now ≡ true }
    ensures goes { result ≡ length bytes.now → has_stop bytes.now ≡ false }
{
    for (i, b) in bytes.iter().enumerate() {
        if *b == b'.' {
            return i;
        }
    }
    bytes.len()
}

/// Puts the bytes before the first full stop, or all of them, and tells whether there was one.
fn put_said(bytes: &[u8], out: &mut Vec<u8>) -> Result<bool, NoMemory>
    ensures put { OnOk result (out.new.items ≡ out.old.items ++ said bytes.now) }
    ensures none { OnErr result (out.new.items ≡ out.old.items) }
    ensures stops { IfOk result (λ stops. stops ≡ has_stop bytes.now) }
{
    let n = front_len(bytes);
    out.extend_from_slice(&bytes[..n])?;
    Ok(n < bytes.len())
}

impl Replier for Echo {
    type Settings = ();

    ghost settings = { λ _. tt };

    ghost reply = { λ _ bytes. said bytes };

    ghost reply_at_end = { λ _ bytes. said_at_end bytes };

    ghost was_fed = { λ s bytes. s.stopped ≡ has_stop bytes };

    ghost has_ended = { λ s bytes. s.stopped ≡ has_stop bytes };

    fn feed(&mut self, _alloc: Global, piece: &[u8], out: &mut Vec<u8>) -> Result<Flow, NoMemory> {
        if self.stopped {
            return Ok(Flow::Ended);
        }
        match put_said(piece, out) {
            Ok(true) => {
                self.stopped = true;
                Ok(Flow::Ended)
            }
            Ok(false) => Ok(Flow::Open),
            Err(error) => Err(error),
        }
    }

    fn end(&mut self, _alloc: Global, out: &mut Vec<u8>) -> Result<(), NoMemory> {
        if self.stopped {
            return Ok(());
        }
        match out.extend_from_slice(b"?") {
            Ok(()) => Ok(()),
            Err(error) => Err(error),
        }
    }
}
