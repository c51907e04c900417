//! Requests: what words ask for, in a form that can be followed.
ghost use Rattle.std.specs.Prelude.{◌≡◌, option_map};
ghost use Rattle.kc_wishes.specs.Requests.{start_of};
ghost use Rattle.kc_wishes.specs.Wishes.{file_of};

use kc_dialect::Dialect;
use kc_lines::format::Format;
use kc_watch::WatchOptions;

/// What is asked of a graph. Each task is a command of the program, but `Members` and `Edges`, which are both `members`.
#[derive(Clone, Copy, Debug, PartialEq, Eq)]
pub enum Task {
    /// The core number of each vertex.
    Numbers,
    /// How many vertices and edges each k-core has.
    Sizes,
    /// The vertices of the k-core for this k, and else of the innermost core: that of the greatest core number.
    Members(Option<u32>),
    /// The edges of the k-core for this k, and else of the innermost core.
    Edges(Option<u32>),
    /// The core number of each vertex, and its onion layer.
    Layers,
    /// The core number of each vertex, in an order that certifies the core numbers.
    Order,
}

/// The text of a graph that words name.
#[derive(Clone, Copy, Debug)]
pub struct NamedText<'a> {
    /// The name of the file that has the text, as the words have it; `None` is standard input.
    pub file: Option<&'a str>,
    /// The dialect of the text, where words or the name of the file tell one. Without one the text is plain: two ids a line.
    pub dialect: Option<Dialect>,
    /// By how many threads the text is read and its graph made, from 1 to 64; by as many as there are processors where words tell none.
    pub threads: Option<u32>,
}

/// The check of a certificate, for the graph of a text.
#[derive(Clone, Copy, Debug)]
pub struct CheckRequest<'a> {
    /// The name of the file of the certificate.
    pub certificate: &'a str,
    /// The text of the graph that it is to certify.
    pub graph: NamedText<'a>,
}

/// The check of a certificate for an ascending stream, of which no graph is made.
#[derive(Drop)]
pub struct StreamRequest<'a> {
    /// The name of the file of the certificate.
    pub certificate: &'a str,
    /// The names of the files that have the stream, one after another. Where there is none it is standard input.
    pub files: Vec<&'a str>,
}

/// What stands in front of a stream.
#[derive(Clone, Copy, Debug)]
pub enum StreamStart<'a> {
    /// No text: the stream begins the graph.
    Nothing,
    /// The text of the file of this name.
    From(&'a str),
    /// The graph of the state in the file of this name.
    Load(&'a str),
}

impl<'a> StreamStart<'a> {
    /// The name of the file in front, if there is one.
    pub fn file(self) -> Option<&'a str>
        ensures { option_map (λ t. t.now) result ≡ file_of (start_of self.entry) }
    {
        match self {
            StreamStart::Nothing => None,
            StreamStart::From(name) | StreamStart::Load(name) => Some(name),
        }
    }
}

/// The file that the state of a stream is saved to, and how often that is done.
#[derive(Clone, Copy, Debug)]
pub struct SavePlan<'a> {
    /// The name of the file.
    pub file: &'a str,
    /// Behind how many batches the state is saved anew, from 1: at the end alone where it is not said.
    pub every: Option<u32>,
}

/// The answer to a stream.
#[derive(Clone, Copy, Debug)]
pub struct WatchRequest<'a> {
    /// What it is answered.
    pub options: WatchOptions,
    /// What stands in front of it.
    pub start: StreamStart<'a>,
    /// Where its state is saved, if it is.
    pub save: Option<SavePlan<'a>>,
}

/// A task whose lines become a file.
#[derive(Clone, Copy, Debug)]
pub struct SaveRequest<'a> {
    /// The name of the file.
    pub file: &'a str,
    /// The task, with all that is asked of its lines.
    pub lines: Request<'a>,
}

/// What words ask for. The names in it are borrowed from the words.
#[derive(Drop)]
pub enum Wanted<'a> {
    /// The lines of a task on standard output.
    Lines(Request<'a>),
    /// The lines of a task as a file.
    Save(SaveRequest<'a>),
    /// The check of a certificate.
    Check(CheckRequest<'a>),
    /// The check of a certificate for an ascending stream.
    CheckStream(StreamRequest<'a>),
    /// The answer to a stream.
    Watch(WatchRequest<'a>),
}

/// A task for the graph of a text.
#[derive(Clone, Copy, Debug)]
pub struct Request<'a> {
    /// Which lines are asked for.
    pub task: Task,
    /// The text of the graph.
    pub graph: NamedText<'a>,
    /// How its lines are written.
    pub format: Format,
    /// Whether the run tells nothing of itself once it is done.
    pub quiet: bool,
}
