// A text cut at a byte.
ghost use Rattle.std.specs.Prelude.{◌≡◌};
ghost use Rattle.std.specs.Option.{option_map};
ghost use Rattle.fields.specs.Cuts.{cut as cutting};

use memchr::memchr;

// What stands before the first byte `mark`, and what after it.
pub fn cut(text: &[u8], mark: u8) -> Option<(&[u8], &[u8])>
    ensures { option_map (λ p. (p.0.now, p.1.now)) result ≡ cutting mark text.now }
{
    let i = memchr(mark, text)?;
    Some((&text[..i], &text[i + 1..]))
}
