// A text's fields: the parts between the places of a separator. A text with no separator is one field.
ghost use Rattle.std.specs.Prelude.{◌≡◌, ◌≢◌, ◌∷◌, ◌++◌, EachIndex, IfNone, IfSome, slice_index};

pub fn count(text: &[u8], separator: u8) -> usize {
    text.split(|byte| *byte == separator).count()
}

// The field of that number, from 0 on, or an empty part where the text has fewer.
pub fn field(text: &[u8], separator: u8, number: usize) -> &[u8] {
    text.split(|byte| *byte == separator)
        .nth(number)
        .unwrap_or(b"")
}

// What stands before the first separator, and what stands behind it.
pub fn cut(text: &[u8], separator: u8) -> Option<(&[u8], &[u8])>
    ensures whole { IfSome result (λ parts. text.now ≡ parts.0.now ++ separator ∷ parts.1.now) }
    ensures first { IfSome result (λ parts. EachIndex parts.0.now (λ k. slice_index parts.0.now k ≢ separator)) }
    ensures none { IfNone result (EachIndex text.now (λ k. slice_index text.now k ≢ separator)) }
{
    let place = text.iter().position(|byte| *byte == separator)?;
    Some((&text[..place], &text[place + 1..]))
}
