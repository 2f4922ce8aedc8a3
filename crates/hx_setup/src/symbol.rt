//! Names of stocks in one word.
ghost use Rattle.std.specs.Prelude.{◌≡◌};
ghost use Rattle.std.specs.Int.{w64, from_le_bytes};
ghost use Rattle.hx_units.specs.Names.{is_symbol};

use hx_units::Symbol;

/// A name in one word: its eight letters, the first in the lowest byte.
#[inline(always)]
pub(crate) fn symbol_word(symbol: Symbol) -> u64
    ensures { result ≡ from_le_bytes w64 symbol.0 }
{
    u64::from_le_bytes(symbol.0)
}

/// Whether two names are the same. They are compared as words, and not byte by byte.
#[inline(always)]
pub(crate) fn is_same_symbol(a: Symbol, b: Symbol) -> bool
    ensures { result ≡ is_symbol a b }
{
    symbol_word(a) == symbol_word(b)
}
