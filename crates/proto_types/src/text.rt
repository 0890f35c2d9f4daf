ghost use Rattle.std.specs.Prelude.{◌≡◌};
ghost use Rattle.proto_types.specs.Readers.{text_of};

use plain_data::Text;

/// A text that may be missing, read as the empty text where it is (descriptor.proto's default).
pub fn or_empty(text: &Option<Text>) -> &str
    ensures { result.now ≡ text_of text.now }
{
    match text {
        Some(text) => text.as_str(),
        None => "",
    }
}
