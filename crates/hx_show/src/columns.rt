//! Columns of a line of words.
ghost use Rattle.std.specs.Prelude.{◌≡◌, ◌++◌, OnOk, replicate};
ghost use Rattle.hx_show.specs.Columns.{column};

use std::alloc::AllocError;

/// The width of a time of the day: `hh:mm:ss.nnnnnnnnn`.
pub const TIME_WIDTH: usize = 18;

/// The width of the sender or receiver: `member 4095 reply 1000000`.
pub const WHO_WIDTH: usize = 25;

/// The width of a message's name: `Add Order with Attribution`.
pub const NAME_WIDTH: usize = 26;

/// Appends a byte `count` times.
pub fn put_repeated(out: &mut Vec<u8>, byte: u8, count: usize) -> Result<(), AllocError>
    ensures { OnOk result (out.new.items ≡ out.old.items ++ replicate count byte) }
{
    for _ in 0..count {
        out.push(byte)?;
    }
    Ok(())
}

/// Appends a text in a column of this width, and the gap after it.
pub fn put_column(out: &mut Vec<u8>, width: usize, text: &[u8]) -> Result<(), AllocError>
    ensures { OnOk result (out.new.items ≡ out.old.items ++ column width text.now) }
{
    out.extend_from_slice(text)?;
    put_repeated(out, b' ', width.saturating_sub(text.len()))?;
    out.extend_from_slice(b"  ")
}
