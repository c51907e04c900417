//! What is wrong with a line that is refused, and how it is mended.
ghost use Rattle.std.specs.Prelude.{◌≡◌};
ghost use Rattle.kc_cores.specs.Sentences.{column_sentence, foreign, foreign_sentence, format_sentence, sentence_for, sentence_of};
ghost use Rattle.kc_cores.specs.Sentences.{ids_sentence, name_sentence, stream_sentence, text_sentence};

use kc_dialect::{Dialect, Ids, Signature};
use kc_head::{Foreign, foreign_in};
use kc_text::Kind;

/// What was found wrong, and how it is mended.
pub(crate) fn sentence_of(kind: Kind) -> &'static str
    ensures { result.now ≡ sentence_of kind }
{
    match kind {
        Kind::NotANumber => {
            "a field is not a whole number; see --ids, --separator, --columns and --skip, make of a bar a blank by tr '|' ' ', or begin a comment with #"
        }
        Kind::MissingField => {
            "the second id is missing; write two ids with a blank or a tab between them, or name what parts them by --separator"
        }
        Kind::ExtraField => {
            "there are more than two fields; name the columns of the two ids, as by --columns 1,2, or write an adjacency list as edges, one a line"
        }
        Kind::NumberTooLarge => {
            "an id is greater than 4294967295; number the vertices anew with smaller ids"
        }
        Kind::LoopInBatch => "a change names one id twice; remove the line",
        Kind::UpdateOutsideBatch => {
            "this is a change of a graph; cores takes edges alone, and kcore takes changes after a line batch"
        }
        Kind::EdgeLineInBatch => {
            "an edge stands after a line batch; cores takes edges alone, and kcore takes them before the batches"
        }
        Kind::TooManyVertices => {
            "with this line there are more different ids than cores takes; split the graph"
        }
        Kind::TooManyEdgeLines => {
            "with this line there are more edges than cores takes; remove repeated edges or split the graph"
        }
        Kind::TooManyUpdates =>
            "with this line there are more changes than cores takes; split them",
        Kind::TooManyBatches => {
            "here a batch of changes begins; cores takes edges alone, and kcore takes batches"
        }
        Kind::TooLong => {
            "there are more bytes than cores takes; remove comments and repeated edges or split the graph"
        }
    }
}

/// What was found wrong in a column of a dialect, and how it is mended.
fn column_sentence(kind: Kind) -> &'static str
    ensures { result.now ≡ column_sentence kind }
{
    match kind {
        Kind::NotANumber => {
            "the field is not a whole number; pass over a head by --skip, bad lines by --bad-lines skip, or see --ids, --separator and --columns"
        }
        Kind::MissingField => {
            "a column is missing; name the columns of the two ids by --columns, what parts them by --separator, or see --bad-lines skip"
        }
        kind => sentence_of(kind),
    }
}

/// What was found wrong in a column of a dialect of names, and how it is mended.
fn name_sentence(kind: Kind) -> &'static str
    ensures { result.now ≡ name_sentence kind }
{
    match kind {
        Kind::NotANumber => {
            "the field is no name: it is empty, is not UTF-8, or has a blank or a control character; see --separator, --columns and --bad-lines skip"
        }
        kind => column_sentence(kind),
    }
}

/// What was found wrong in a column, by what the ids are.
fn ids_sentence(ids: Ids, kind: Kind) -> &'static str
    ensures { result.now ≡ ids_sentence ids kind }
{
    match ids {
        Ids::Numbers => column_sentence(kind),
        Ids::Names => name_sentence(kind),
    }
}

/// What was found wrong in a text that is in a dialect, or in none, and how it is mended.
fn text_sentence(dialect: Option<Dialect>, kind: Kind) -> &'static str
    ensures { result.now ≡ text_sentence dialect kind }
{
    match dialect {
        Some(dialect) => ids_sentence(dialect.ids, kind),
        None => sentence_of(kind),
    }
}

/// What is told of a file of another format, and how edges are made of it.
fn format_sentence(signature: Signature) -> &'static str
    ensures { result.now ≡ format_sentence signature }
{
    match signature {
        Signature::Gzip => "this is gzip; unpack it, as by zcat FILE | cores numbers",
        Signature::Bzip2 => "this is bzip2; unpack it, as by bzcat FILE | cores numbers",
        Signature::Xz => "this is xz; unpack it, as by xzcat FILE | cores numbers",
        Signature::Zstd => "this is zstd; unpack it, as by zstdcat FILE | cores numbers",
        Signature::Utf16Le | Signature::Utf16Be => {
            "this is UTF-16; make it UTF-8, as by iconv -f UTF-16 -t UTF-8 FILE | cores numbers"
        }
        Signature::MatrixMarket => {
            "this is MatrixMarket; pass over its lines up to that of the sizes by --skip, and name the columns of the two ids by --columns 1,2"
        }
    }
}

/// What is told of a text that is no lines of a graph, and how edges are made of it.
pub(crate) fn foreign_sentence(foreign: Foreign) -> &'static str
    ensures { result.now ≡ foreign_sentence foreign }
{
    match foreign {
        Foreign::Marked(signature) => format_sentence(signature),
        Foreign::Json => {
            "this is JSON; make two columns of it, as by jq -r '[.source,.target]|@tsv' FILE | cores numbers"
        }
        Foreign::BareReturns => {
            "the lines end in CR alone; make them newlines, as by tr '\\r' '\\n' < FILE | cores numbers"
        }
        Foreign::SizesFirst => {
            "the first line of two ids may tell how many vertices and edges there are, and was read as an edge; pass over it by --skip, as by --skip 1"
        }
    }
}

/// What a text is that is no lines of a graph, as its head tells. Where lines at the top are passed over, that is not asked.
pub(crate) fn foreign(dialect: Option<Dialect>, head: &[u8]) -> Option<Foreign>
    ensures { result ≡ foreign dialect head.now }
{
    match dialect {
        None => foreign_in(head),
        Some(dialect) => {
            if dialect.skip == 0 {
                foreign_in(head)
            } else {
                None
            }
        }
    }
}

/// What was found wrong in a text with this head, and how it is mended.
pub(crate) fn refusal_sentence(dialect: Option<Dialect>, head: &[u8], kind: Kind) -> &'static str
    ensures { result.now ≡ sentence_for (foreign dialect head.now) dialect kind }
{
    match foreign(dialect, head) {
        Some(what) => foreign_sentence(what),
        None => text_sentence(dialect, kind),
    }
}

/// What was found wrong with a line of a stream, and how it is mended.
pub(crate) fn stream_sentence(kind: Kind) -> &'static str
    ensures { result.now ≡ stream_sentence kind }
{
    match kind {
        Kind::NotANumber => {
            "a field is not a whole number; write ids of decimal digits, or begin the line with # if it is a comment"
        }
        Kind::MissingField => {
            "a number is missing; write two ids with a blank or a tab between them, or in a question ? ID, ? core K or ? order A B"
        }
        Kind::ExtraField =>
            "there are too many fields; write two ids, batch alone, or in a question ? ID, ? core K, ? sizes or ? order A B",
        Kind::UpdateOutsideBatch => {
            "a change or a question stands before any line batch; write a line batch before it"
        }
        Kind::EdgeLineInBatch => { "an edge stands after a line batch; begin the line with + or -" }
        kind => sentence_of(kind),
    }
}
