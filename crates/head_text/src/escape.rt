// Bytes as text: `%` and two hex digits write any byte, and every other byte writes itself.
ghost use Rattle.std.specs.Prelude.{◌≡◌, ◌∷◌, IfOk, vec_items, MatchOption};
ghost use Rattle.std.specs.Option.{option_map};
ghost use Rattle.head_text.specs.Texts.{Digit, NoDigit, Hex, NoHex, First, NoFirst, Spelled};

use std::alloc::{AllocError, Global};

// The value of a hex digit.
fn hex_digit(b: u8) -> Option<u8>
    ensures { MatchOption result (NoDigit b) (λ d. Digit b d) }
{
    match b {
        b'0'..=b'9' => Some(b - b'0'),
        b'A'..=b'F' => Some(b - b'A' + 10),
        b'a'..=b'f' => Some(b - b'a' + 10),
        _ => None,
    }
}

// The byte that two hex digits write.
fn hex_byte(high: u8, low: u8) -> Option<u8>
    ensures { MatchOption result (NoHex high low) (λ b. Hex high low b) }
{
    let h = hex_digit(high)?;
    let l = hex_digit(low)?;
    Some(16 * h + l)
}

// The byte that a text writes first, and the text behind it.
fn first_byte(first: u8, rest: &[u8]) -> Option<(u8, &[u8])>
    ensures { MatchOption result (NoFirst (first ∷ rest.now)) (λ x. First (first ∷ rest.now) x.0 x.1.now) }
{
    if first != b'%' {
        return Some((first, rest));
    }
    let [high, low, more @ ..] = rest else {
        return None;
    };
    Some((hex_byte(*high, *low)?, more))
}

// The bytes that a text writes, where it writes some.
pub fn unescaped(heap: Global, text: &[u8]) -> Result<Option<Vec<u8>>, AllocError>
    ensures { IfOk result (λ o. Spelled text.now (option_map vec_items o)) }
{
    let mut bytes = Vec::new(heap);
    let mut left = text;
    while let [first, rest @ ..] = left {
        // `?` would leave the Result with it
        let Some((b, more)) = first_byte(*first, rest) else {
            return Ok(None);
        };
        bytes.push(b)?;
        left = more;
    }
    Ok(Some(bytes))
}
