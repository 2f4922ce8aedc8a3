//! Texts that are filled with spaces.
ghost use Rattle.std.specs.Prelude.{◌≡◌};
ghost use Rattle.hx_units.specs.Spaces.{without_front, without_back, trimmed};

/// A text without the spaces on both sides.
pub fn trimmed(text: &[u8]) -> &[u8]
    ensures { result.now ≡ trimmed text.now }
{
    without_back(without_front(text))
}

// A text without the spaces in front.
fn without_front(text: &[u8]) -> &[u8]
    ensures { result.now ≡ without_front text.now }
{
    let mut rest = text;
    while let Some((first, others)) = rest.split_first()
        && *first == b' '
    {
        rest = others;
    }
    rest
}

// A text without the spaces at its end.
fn without_back(text: &[u8]) -> &[u8]
    ensures { result.now ≡ without_back text.now }
{
    let mut rest = text;
    while let Some((last, others)) = rest.split_last()
        && *last == b' '
    {
        rest = others;
    }
    rest
}
