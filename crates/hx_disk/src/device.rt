//! A file as the journal sees it: what it has, and what a crash may leave of it.
ghost use Rattle.std.specs.Prelude.{◌≡◌, ◌≤◌, List, ℕ, length, take, OnOk};
ghost use Rattle.hx_disk.specs.declared.device.DeviceError.TheVariants.{Memory};
ghost use Rattle.hx_disk.specs.Device.{Only, Follows, Mixed, Cut, Holds, Elapses, HasCause};

use std::alloc::{AllocError, AllocFailed};

/// Why a call of a device did nothing, or not all that it was asked for.
#[derive(Clone, Copy, Debug, PartialEq, Eq, Drop)]
pub enum DeviceError {
    Memory,
    /// The disk is full, or the user's part of it.
    NoRoom,
    /// Anything else: nothing is known of what was done.
    Failed,
}

impl From<AllocError> for DeviceError {
    ghost from_gives = { λ _ e. e ≡ Memory };

    fn from(_error: AllocError) -> Self {
        DeviceError::Memory
    }
}

impl<T: Drop> From<AllocFailed<T>> for DeviceError {
    ghost from_gives = { λ _ e. e ≡ Memory };

    fn from(_error: AllocFailed<T>) -> Self {
        DeviceError::Memory
    }
}

/// A file that was opened, of which all is on the disk, and what a crash may do to it: see the
/// crate's own page. Once a call has failed, `written`, `cut` and `durable` promise nothing any
/// more: a sync that is tried again may answer Ok with nothing of it on the disk. What a crash may
/// leave is said of failed calls too.
pub trait Device {
    /// The bytes of the file, as its reader sees them.
    ghost seen: { Self → List ℕ };

    /// What a crash at this moment may leave.
    ghost may_leave: { Self → List ℕ → Type 0 };

    /// The moment, as a number that doesn't fall.
    ghost moment: { Self → ℕ };

    /// What a crash at some moment from that one on might have left, during a call or between two.
    ghost left_since: { Self → ℕ → List ℕ → Type 0 };

    /// How many calls have failed.
    ghost faults: { Self → ℕ };

    /// Writes over what is there, and past the end. Until a sync, each byte of the range may be the
    /// old one or the new one, in any mixture; past the old end, the new one, zero or not there.
    fn write_at(&mut self, at: usize, bytes: &[u8]) -> Result<(), DeviceError>
        requires { at ≤ length (seen self.old) }
        ensures written { OnOk result
            (faults self.old ≡ 0 → Holds (seen self.old) at bytes.now (seen self.new)) }
        ensures crash { Follows (Mixed at bytes.now) (may_leave self.old) (may_leave self.new) }
        ensures time { Elapses (moment self.old) (moment self.new)
            (left_since self.old) (left_since self.new) (may_leave self.new) }
        ensures cause { HasCause (faults self.old) (faults self.new) result };

    /// Cuts the file to a length. Until a sync, some of the bytes after it may be there, each the
    /// old one or zero.
    fn cut(&mut self, len: usize) -> Result<(), DeviceError>
        requires { len ≤ length (seen self.old) }
        ensures cut { OnOk result (faults self.old ≡ 0 → seen self.new ≡ take len (seen self.old)) }
        ensures crash { Follows (Cut len) (may_leave self.old) (may_leave self.new) }
        ensures time { Elapses (moment self.old) (moment self.new)
            (left_since self.old) (left_since self.new) (may_leave self.new) }
        ensures cause { HasCause (faults self.old) (faults self.new) result };

    /// After it, a crash leaves what its reader sees.
    fn sync(&mut self) -> Result<(), DeviceError>
        ensures durable { OnOk result
            (faults self.old ≡ 0 → Only (seen self.old) (may_leave self.new)) }
        ensures same { OnOk result (seen self.new ≡ seen self.old) }
        ensures crash { (c : List ℕ) → may_leave self.new c → may_leave self.old c }
        ensures time { Elapses (moment self.old) (moment self.new)
            (left_since self.old) (left_since self.new) (may_leave self.new) }
        ensures cause { HasCause (faults self.old) (faults self.new) result };

    /// This moment is one of those since an earlier one.
    ghost counts_now: { (file : Self) (t : ℕ) (c : List ℕ)
        → t ≤ moment file → may_leave file c → left_since file t c };

    /// Since this moment there is no other.
    ghost only_now: { (file : Self) (c : List ℕ)
        → left_since file (moment file) c → may_leave file c };
}
