//! The line that a run writes about itself.
ghost use Rattle.std.specs.Prelude.{◌≡◌};
ghost use Rattle.kc_cores.specs.Endings.{message_text};

/// A line about a run. Where it has no bytes there is nothing to say.
#[derive(Drop)]
pub(crate) enum Message {
    Fixed(&'static str),
    Made(String),
    Bytes(Vec<u8>),
}

impl Message {
    /// The bytes of the line, with its end.
    pub(crate) fn text(&self) -> &[u8]
        ensures { result.now ≡ message_text self.now }
    {
        match self {
            Message::Fixed(text) => text.as_bytes(),
            Message::Made(text) => text.as_bytes(),
            Message::Bytes(text) => text.as_slice(),
        }
    }
}
