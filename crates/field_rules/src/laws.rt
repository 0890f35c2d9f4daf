//! Laws on texts with escapes. A call does nothing: its contract is the law, and is proved of all
//! texts.
ghost use Rattle.field_rules.specs.Escapes.{UnescapedIsEscaped, EscapedIsOne, RefusedIsOne};

/// The bytes of a text, or its leftmost fault, as a function: it gives bytes exactly where the text
/// stands for them, and a fault exactly where the text is refused so.
pub fn unescaped_is_escaped()
    ensures { UnescapedIsEscaped }
{}

/// A text that stands for bytes stands for no others, and is not refused.
pub fn escaped_is_one()
    ensures { EscapedIsOne }
{}

/// A text that is refused is refused with one fault, and not for want of memory.
pub fn refused_is_one()
    ensures { RefusedIsOne }
{}
