//! A cut of what stands after the blocks that a survey found.
ghost use Rattle.std.specs.Prelude.{◌≡◌, ◌<◌, ◌≤◌, length, take, OnOk, IsErrOf};
ghost use mathlib.Core.List.{IsPrefix};
ghost use Rattle.hx_disk.specs.Device.{Only, LeavesOnly};
ghost use Rattle.hx_journal.specs.Lines.{text_of, lines_of};
ghost use Rattle.hx_journal.specs.Records.{sealed, recovered};
ghost use Rattle.hx_journal.specs.Surveys.{before_damage};

use crate::line_file::repair;
use crate::{Device, DeviceError, Survey};

/// Cuts off what stands after the blocks that a survey of a file found, and syncs the cut. All of the file is on the
/// disk before. A crash at any moment of the call leaves these blocks.
pub fn cut_off<D: Device>(file: &mut D, text: &[u8], survey: &Survey<'_>) -> Result<(), DeviceError>
    requires read { text.now ≡ D.seen file.old }
    requires inside { survey.now.end ≤ length text.now }
    requires front { take survey.now.end text.now
        ≡ text_of (sealed (lines_of (before_damage text.now survey.now.damage))) }
    requires durable { Only (D.seen file.old) (D.may_leave file.old) }
    requires well { D.faults file.old ≡ 0 }

    ensures cut { OnOk result (D.seen file.new ≡ take survey.now.end text.now) }
    ensures retained { OnOk result (recovered (D.seen file.new)
        ≡ recovered (before_damage text.now survey.now.damage)) }
    ensures durable { OnOk result (Only (D.seen file.new) (D.may_leave file.new)) }
    ensures any_moment { LeavesOnly D.moment D.left_since file.old file.new (λ c.
        IsPrefix (recovered (before_damage text.now survey.now.damage)) (recovered c)) }
    ensures failed { IsErrOf result DeviceError.Failed → D.faults file.old < D.faults file.new }
    ensures no_room { IsErrOf result DeviceError.NoRoom → D.faults file.old < D.faults file.new }
{
    repair(file, survey.end)
}
