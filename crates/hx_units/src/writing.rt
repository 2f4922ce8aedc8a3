//! Bytes that are written whole.
ghost use Rattle.std.specs.Prelude.{ℕ, List, OnOk, OnErr};
ghost use Rattle.std.specs.Io.KnownBytes.{Appends};
ghost use Rattle.hx_units.specs.Writing.{Writes};

use std::io::{ErrorKind, Write};

/// The writer failed.
#[derive(Drop)]
pub struct WriteFailed;

/// Writes the bytes. If it fails, a front of them was written.
pub fn write_whole<W: Write>(writer: &mut W, bytes: &[u8]) -> Result<(), WriteFailed>
    ensures ok { OnOk result (Appends (W.contents writer.old) (W.contents writer.new) bytes.now) }
    ensures err { OnErr result (
        (rest : List ℕ) × Writes (W.contents writer.old) (W.contents writer.new) bytes.now rest) }
{
    let mut rest = bytes;
    for _ in 0..u64::MAX {
        if rest.is_empty() {
            return Ok(());
        }
        match writer.write(rest) {
            Ok(0) => return Err(WriteFailed),
            Ok(count) => rest = &rest[count..],
            Err(e) => {
                if e.kind() != ErrorKind::Interrupted {
                    return Err(WriteFailed);
                }
            }
        }
    }
    Err(WriteFailed)
}
