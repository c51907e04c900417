//! What is wrong with a text that is no state's.
ghost use Rattle.std.specs.Prelude.{◌≡◌};
ghost use Rattle.kc_state.specs.Sentences.{state_sentence};
ghost use Rattle.kc_state.specs.declared.fault.ReadFault.TheVariants as fault;

use crate::NoMemory;

/// What is wrong with a line of a text that is to be that of a state.
#[derive(Clone, Copy, Debug, Drop, PartialEq, Eq)]
pub enum StateKind {
    /// The first line is not that of a state.
    NotAState,
    /// The first line begins as that of a state: it is of another version of the format, or a carriage return stands at its end.
    OtherVersion,
    /// The line does not tell the count that is to stand there.
    NotACount,
    /// There are more vertices than a graph may have that is kept.
    TooManyVertices,
    /// The line is not that of a vertex, and the counts tell of one more.
    NotAVertex,
    /// The id stands in an earlier line.
    RepeatedId,
    /// No vertex has this place in the order, or an earlier line has it.
    WrongPlace,
    /// The line is not that of an edge, and the counts tell of one more.
    NotAnEdge,
    /// An end of the edge is the id of no vertex.
    UnknownId,
    /// The ends of the edge are one vertex.
    Loop,
    /// The edge does not ascend: the lines of its ends are not in this order, or an earlier line has it, or a greater one.
    NotAscending,
    /// The line is not the last one, and the counts tell of no other.
    NotTheEnd,
    /// The check sum is not that of the lines before it.
    WrongSum,
    /// There is something behind the last line.
    TextBehind,
    /// The text ends in this line, or before it.
    Cut,
    /// The order does not certify the core numbers. The line is that of the last vertex.
    NotCertified,
    /// The line tells what it is to tell, but not as it is written: a number begins with 0.
    OtherForm,
}

impl StateKind {
    /// What is wrong with the line.
    pub fn sentence(self) -> &'static str
        ensures { result.now ≡ state_sentence self }
    {
        match self {
            StateKind::NotAState => "this is not the first line of a saved state",
            StateKind::OtherVersion => {
                "the state is of another version of the format, or its line ends were changed"
            }
            StateKind::NotACount => "a count is missing here: a word and a number",
            StateKind::TooManyVertices => "there are more than 16,777,216 vertices",
            StateKind::NotAVertex => "the line of a vertex is missing here: ID CORE PLACE",
            StateKind::RepeatedId => "the id stands in an earlier line",
            StateKind::WrongPlace => "no vertex has this place, or an earlier line has it",
            StateKind::NotAnEdge => "the line of an edge is missing here: A B",
            StateKind::UnknownId => "an end of the edge is the id of no vertex",
            StateKind::Loop => "the edge joins an id with itself",
            StateKind::NotAscending => "the edge does not ascend",
            StateKind::NotTheEnd => "the line of the check sum is missing here",
            StateKind::WrongSum => "the check sum is not that of the lines before it",
            StateKind::TextBehind => "something stands behind the check sum",
            StateKind::Cut => "the state is cut off here",
            StateKind::NotCertified =>
                "the order of the lines so far does not certify their core numbers",
            StateKind::OtherForm => "a number begins with 0",
        }
    }
}

/// A line that is wrong.
#[derive(Clone, Copy, Debug, Drop, PartialEq, Eq)]
pub struct StateFault {
    /// The number of the line, from 1.
    pub line: u64,
    pub kind: StateKind,
}

/// Why no state was read.
#[derive(Clone, Copy, Debug, Drop, PartialEq, Eq)]
pub enum ReadFault {
    /// The text is no state's, and this is the first line that is wrong.
    Faulty(StateFault),
    /// There was no memory.
    NoMemory,
}

impl From<NoMemory> for ReadFault {
    ghost from_gives = { λ _ e. e ≡ fault.NoMemory };

    fn from(_: NoMemory) -> ReadFault {
        ReadFault::NoMemory
    }
}
