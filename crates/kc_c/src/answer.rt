//! How a call ended, as the crate's own functions say it and as C is told.
ghost use Rattle.std.specs.Prelude.{◌≡◌};
ghost use Rattle.kc_c.specs.Answers.{answer_to};
ghost use Rattle.kc_c.specs.Rounding.{fault_answer};

use kc_shard::ShardFault;

/// How a call ended: a status, and a number that goes with it.
#[repr(C)]
#[derive(Clone, Copy, Debug, PartialEq, Eq)]
pub struct CallResult {
    pub status: u32,
    pub number: usize,
}

/// Why a call did not do what it is for.
#[derive(Clone, Copy, Debug, PartialEq, Eq)]
pub(crate) enum Refusal {
    /// `core` has not one place for each vertex.
    WrongCoreLength,
    /// `order` has not one place for each vertex.
    WrongOrderLength,
    /// `members` has not one place for each vertex.
    WrongMembersLength,
    /// An end of the edge at this place is no vertex, and of no edge before it.
    NotAVertex(usize),
    NoMemory,
    /// The order does not certify the numbers.
    NotCertified,
    /// `rank` has not one place for each vertex.
    WrongRankLength,
    /// `counts` has not two places for each vertex.
    WrongCountsLength,
    /// Both ends of the edge at this place are the same.
    Loop(usize),
    /// The greater end of the edge at this place stands first.
    GreaterFirst(usize),
    /// The edge at this place is not above the one before it.
    NotAbove(usize),
    /// The counts do not agree with the numbers.
    NotAgreed,
    /// No keeper lies at the place.
    NotOpen,
    /// There are more vertices than a keeper can have.
    TooManyVertices,
    /// There are more vertices than these already.
    TooFewVertices,
    /// There was no memory for the update at this place: those before it are made, and it and those behind it are not.
    Stopped(usize),
    /// This is wrong with the rows of a graph.
    WrongRows(ShardFault),
}

/// The answer that tells C what is wrong with rows, those of a graph or those of a shard.
pub(crate) fn fault_answer(fault: ShardFault) -> CallResult
    ensures { result ≡ fault_answer fault }
{
    let (status, number) = match fault {
        ShardFault::NotAVertex(place) => (4, place),
        ShardFault::WrongOffsetCount => (17, 0),
        ShardFault::FirstNotZero => (18, 0),
        ShardFault::Descending(place) => (19, place),
        ShardFault::LongRow(row) => (20, row),
        ShardFault::WrongLastOffset => (21, 0),
    };
    CallResult { status, number }
}

/// The answer that tells C how a call ended.
pub(crate) fn answer_to(outcome: Result<usize, Refusal>) -> CallResult
    ensures { result ≡ answer_to outcome }
{
    let (status, number) = match outcome {
        Ok(number) => (0, number),
        Err(Refusal::WrongCoreLength) => (1, 0),
        Err(Refusal::WrongOrderLength) => (2, 0),
        Err(Refusal::WrongMembersLength) => (3, 0),
        Err(Refusal::NotAVertex(place)) => (4, place),
        Err(Refusal::NoMemory) => (5, 0),
        Err(Refusal::NotCertified) => (6, 0),
        Err(Refusal::WrongRankLength) => (7, 0),
        Err(Refusal::WrongCountsLength) => (8, 0),
        Err(Refusal::Loop(place)) => (10, place),
        Err(Refusal::GreaterFirst(place)) => (11, place),
        Err(Refusal::NotAbove(place)) => (12, place),
        Err(Refusal::NotAgreed) => (13, 0),
        Err(Refusal::NotOpen) => (14, 0),
        Err(Refusal::TooManyVertices) => (15, 0),
        Err(Refusal::TooFewVertices) => (16, 0),
        Err(Refusal::Stopped(made)) => (5, made),
        Err(Refusal::WrongRows(fault)) => return fault_answer(fault),
    };
    CallResult { status, number }
}
