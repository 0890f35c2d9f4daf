//! What bytes look like that are no descriptor set.

ghost use Rattle.std.specs.Prelude.{◌≡◌};
ghost use Rattle.descriptor_check.specs.Guises as spec;

/// What bytes look like that are no descriptor set.
#[derive(Clone, Copy, PartialEq, Debug)]
pub enum Guise {
    /// A file that gzip compressed.
    Gzip,
    Json,
    /// A `.proto` file, or any other text.
    Source,
}

impl Guise {
    /// What some bytes look like, by the first of them.
    pub(crate) fn of_bytes(bytes: &[u8]) -> Option<Guise>
        ensures { result ≡ spec.guise_of bytes.now }
    {
        match bytes {
            [0x1f, 0x8b, ..] => Some(Guise::Gzip),
            [b'{', ..] => Some(Guise::Json),
            [b'a'..=b'z' | b'/', ..] => Some(Guise::Source),
            _ => None,
        }
    }

    /// The words for it.
    pub(crate) fn words(self) -> &'static str
        ensures { result.now ≡ spec.guise_words self }
    {
        match self {
            Guise::Gzip => "a file that gzip compressed",
            Guise::Json => "JSON",
            Guise::Source => "a source",
        }
    }
}
