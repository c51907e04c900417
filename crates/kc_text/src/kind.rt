//! The kinds of refusals, each with its number and its name in messages. No kind has the number 6.
ghost use Rattle.std.specs.Prelude.{◌≡◌, Some};
ghost use Rattle.kc_text.specs.Kinds.{number_of, name_of, text_of};

use std::fmt;

/// Why a line is refused, by the first check that it fails.
#[derive(Clone, Copy, Debug, PartialEq, Eq)]
pub enum Kind {
    /// A field that has to be a number has a byte that is no decimal digit.
    NotANumber = 1,
    /// The line ends before its second number.
    MissingField = 2,
    /// A field follows where the line has to end.
    ExtraField = 3,
    /// A number is greater than the greatest id, 4,294,967,295.
    NumberTooLarge = 4,
    /// An add or remove line names one id twice.
    LoopInBatch = 5,
    /// An add or remove line stands before any batch line.
    UpdateOutsideBatch = 7,
    /// An edge line stands after a batch line.
    EdgeLineInBatch = 8,
    /// With this line there are more different ids than the [`Limits`](crate::Limits) have.
    TooManyVertices = 9,
    /// With this line there are more edge lines than the limits have.
    TooManyEdgeLines = 10,
    /// With this line there are more add and remove lines than the limits have.
    TooManyUpdates = 11,
    /// With this line there are more batch lines than the limits have.
    TooManyBatches = 12,
    /// There are more bytes than the limits have. No line is meant.
    TooLong = 13,
}

impl Kind {
    /// The number of the kind in messages.
    pub fn number(self) -> u32
        ensures { result ≡ number_of self }
    {
        self as u32
    }

    /// The name of the kind in messages.
    pub fn name(self) -> &'static str
        ensures { result.now ≡ name_of self }
    {
        match self {
            Kind::NotANumber => "NotANumber",
            Kind::MissingField => "MissingField",
            Kind::ExtraField => "ExtraField",
            Kind::NumberTooLarge => "NumberTooLarge",
            Kind::LoopInBatch => "LoopInBatch",
            Kind::UpdateOutsideBatch => "UpdateOutsideBatch",
            Kind::EdgeLineInBatch => "EdgeLineInBatch",
            Kind::TooManyVertices => "TooManyVertices",
            Kind::TooManyEdgeLines => "TooManyEdgeLines",
            Kind::TooManyUpdates => "TooManyUpdates",
            Kind::TooManyBatches => "TooManyBatches",
            Kind::TooLong => "TooLong",
        }
    }
}

/// Writes the number and the name, as in `3 ExtraField`.
impl fmt::Display for Kind {
    ghost output = { λ kind. Some (text_of kind) };

    fn fmt<W: fmt::Write>(&self, f: &mut fmt::Formatter<W>) -> fmt::Result {
        let number = self.number();
        let name = self.name();
        write!(f, "{number} {name}")
    }
}
