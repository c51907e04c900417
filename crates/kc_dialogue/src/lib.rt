//! Answers a wire as its bytes come.
//!
//! A [`replier::Replier`] says what has to be written once just some bytes were read, and puts what each further piece adds to that.
//! [`answer::answer_wire`] reads, feeds the replier, writes and flushes what it put, and only then reads again. A dialogue may begin behind a text:
//! [`open::open_with`] feeds a replier with all of a source, and [`answer::answer_opened`] writes what it says to that before it reads.
//!
//! Promised, over the history of the wire: at every moment at which more input is asked for, just the reply to the text in front and the bytes
//! read so far was taken, so no answer is held back and none is early ([`law::answers_follow_the_bytes`] draws what follows for two dialogues
//! whose input is cut otherwise). At the end of the input the whole was taken. Where a call of the wire fails or memory ends, a prefix of the
//! reply was.
//!
//! The crate knows nothing of what is asked and answered. It stands on `kc_io` and `kc_wire`.
#![tactic(auto)]

pub mod answer;
pub mod end;
pub mod flow;
pub mod law;
pub mod open;
pub mod opening;
pub mod opening_fault;
pub mod replier;
