//! A sink that knows whether its reader went away.
ghost use Rattle.std.specs.Prelude.{◌≡◌, Bool};

use kc_io::sink::Sink;

/// A sink whose reader may go away, as that of a pipe does.
pub trait PipeSink: Sink {
    /// Whether the last call that failed did so since the reader went away.
    ghost gone: { Self → Bool };

    /// Whether the last call that failed did so since the reader went away. It is false where none has failed.
    fn is_reader_gone(&self) -> bool
        ensures { result ≡ gone self.now };
}
