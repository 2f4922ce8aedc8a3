//! What holds of the words of the log, whatever the code does.
ghost use Rattle.hx_blog.specs.Packed.{DeleteIsPacked};

/// An Order Delete (ITCH 5.0) as the words of the log, worked out by hand: its length, its bytes, and zeros.
pub fn one_delete()
    ensures { DeleteIsPacked }
{}
