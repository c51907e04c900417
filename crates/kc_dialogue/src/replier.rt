//! What answers bytes as they come.
ghost use Rattle.std.specs.Prelude.{◌≡◌, ◌++◌, ℕ, IfOk, List, OnErr, OnOk};
ghost use Rattle.kc_dialogue.specs.Replies.{IsPrefixOf, StaysFrom};
ghost use Rattle.kc_dialogue.specs.declared.flow.Flow.{Flow};

use crate::flow::Flow;
use kc_io::NoMemory;
use std::alloc::Global;

/// What answers bytes as they come.
pub trait Replier {
    /// How it is set up.
    type Settings;

    /// How it is set up, which no call changes.
    ghost settings: { Self → Self.Settings };

    /// What has to be written once just these bytes were read, and there may be more.
    ghost reply: { Self → List ℕ → List ℕ };

    /// What has to be written once these bytes were read and the input has ended.
    ghost reply_at_end: { Self → List ℕ → List ℕ };

    /// These are the bytes that were fed so far.
    ghost was_fed: { Self → List ℕ → Type 0 };

    /// These bytes were fed, and then the input has ended.
    ghost has_ended: { Self → List ℕ → Type 0 };

    /// Takes the next bytes, and puts what they add to the reply behind `out`.
    ///
    /// At `Ended` no more bytes change the reply, and the end of the input does not either. At an error there was no memory; what was put
    /// then begins what the bytes add.
    fn feed(&mut self, alloc: Global, piece: &[u8], out: &mut Vec<u8>) -> Result<Flow, NoMemory>
        requires { (fed : List ℕ) × was_fed self.old fed }
        ensures fed { OnOk result ((fed : List ℕ) → was_fed self.old fed → was_fed self.new (fed ++ piece.now)) }
        ensures put { (put : List ℕ) × (out.new.items ≡ out.old.items ++ put) × ((fed : List ℕ) → was_fed self.old fed
            → OnOk result (reply self.old (fed ++ piece.now) ≡ reply self.old fed ++ put)
            × OnErr result (IsPrefixOf (reply self.old (fed ++ piece.now)) (reply self.old fed ++ put))) }
        ensures ended { IfOk result (λ flow. flow ≡ Flow.Ended → (fed : List ℕ) → was_fed self.old fed
            → StaysFrom (reply self.old) (reply_at_end self.old) (fed ++ piece.now)) }
        ensures same { reply self.new ≡ reply self.old }
        ensures same_at_end { reply_at_end self.new ≡ reply_at_end self.old }
        ensures settings { settings self.new ≡ settings self.old };

    /// The input has ended: puts what that adds to the reply behind `out`.
    ///
    /// At an error there was no memory; what was put then begins what the end adds.
    fn end(&mut self, alloc: Global, out: &mut Vec<u8>) -> Result<(), NoMemory>
        requires { (fed : List ℕ) × was_fed self.old fed }
        ensures ended { OnOk result ((fed : List ℕ) → was_fed self.old fed → has_ended self.new fed) }
        ensures put { (put : List ℕ) × (out.new.items ≡ out.old.items ++ put) × ((fed : List ℕ) → was_fed self.old fed
            → OnOk result (reply_at_end self.old fed ≡ reply self.old fed ++ put)
            × OnErr result (IsPrefixOf (reply_at_end self.old fed) (reply self.old fed ++ put))) }
        ensures settings { settings self.new ≡ settings self.old };
}
