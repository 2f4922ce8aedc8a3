//! Texts that are cut at a mark.
ghost use Rattle.std.specs.Prelude.{◌≡◌, ◌∷◌, [], true, false, IfSome, IfNone};
ghost use Rattle.std.specs.List.{before_first, after_first};
ghost use Rattle.hx_operator.specs.Marks.{is_quote, is_hash, has_quote, has_word, words_of};

use hx_units::split_once;

/// The first word of a text, and the text after it.
pub(crate) fn next_word(text: &[u8]) -> Option<(&[u8], &[u8])>
    ensures some { IfSome result (λ p. words_of text.now ≡ p.0.now ∷ words_of p.1.now) }
    ensures none { IfNone result (words_of text.now ≡ []) }
{
    let mut rest = text;
    while let Some((word, others)) = split_once(rest, b' ') {
        if !word.is_empty() {
            return Some((word, others));
        }
        rest = others;
    }
    if rest.is_empty() {
        return None;
    }
    Some((rest, b""))
}

/// Whether a text has a word.
pub(crate) fn has_word(text: &[u8]) -> bool
    ensures { result ≡ has_word text.now }
{
    next_word(text).is_some()
}

/// What stands in front of the first double quote, and after it.
pub(crate) fn split_at_quote(text: &[u8]) -> Option<(&[u8], &[u8])>
    ensures some { IfSome result (λ p. (has_quote text.now ≡ true)
        × (p.0.now ≡ before_first is_quote text.now)
        × (p.1.now ≡ after_first is_quote text.now)) }
    ensures none { IfNone result (has_quote text.now ≡ false) }
{
    split_once(text, b'"')
}

/// What stands in front of a comment.
pub(crate) fn before_comment(text: &[u8]) -> &[u8]
    ensures { result.now ≡ before_first is_hash text.now }
{
    match split_once(text, b'#') {
        Some((said, _)) => said,
        None => text,
    }
}
