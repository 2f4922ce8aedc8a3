//! Texts that are cut at a byte.
ghost use Rattle.std.specs.Prelude.{◌≡◌, ◌∷◌, ◌++◌, IfSome, IfNone};
ghost use Rattle.hx_units.specs.Cuts.{Lacks};

use memchr::memchr;

/// What comes before the first such byte, and after it; or none if the text does not have it.
pub fn split_once(text: &[u8], byte: u8) -> Option<(&[u8], &[u8])>
    ensures some { IfSome result (λ p.
        (text.now ≡ p.0.now ++ byte ∷ p.1.now) × Lacks byte p.0.now) }
    ensures none { IfNone result (Lacks byte text.now) }
{
    let at = memchr(byte, text)?;
    Some((&text[..at], &text[at + 1..]))
}
