//! The seats' pass: a seat is split off, or joined into another.
ghost use Rattle.std.specs.Prelude.{◌≡◌, ◌⊎◌, ◌+◌, ◌*◌, [], false};
ghost use mathlib.Core.List.{IsPrefix};
ghost use Rattle.hx_blog.specs.Views.{reading, IsReading, IsWriting};
ghost use Rattle.hx_blog.specs.Steps.{newcomer};

use crate::rule::{LogSeat, LogTable};
use crate::view::View;
use atomic_table::{Join, Play, Split};

struct SplitOff;

impl<E> Split<View<E>> for SplitOff {
    ghost use Rattle.hx_blog.specs.Steps.{newcomer};

    ghost left = { λ v. v };

    ghost right = { newcomer };
}

struct Tell;

impl<E> Join<View<E>> for Tell {
    ghost use Rattle.hx_blog.specs.Steps.{with_received};
    ghost use Rattle.hx_blog.specs.Views.{spent};

    ghost both = { with_received };

    ghost spent = { spent };
}

struct Learn;

impl<E> Play<(), View<E>> for Learn {
    ghost use Rattle.hx_blog.specs.Steps.{Learns};

    ghost then = { Learns };
}

struct Confirm;

impl<E> Play<(), View<E>> for Confirm {
    ghost use Rattle.hx_blog.specs.Steps.{Confirms};

    ghost then = { Confirms };
}

/// Splits off a seat that knows what this one knows, and has read nothing.
pub(crate) fn split_off<E>(table: &LogTable<E>, seat: &mut LogSeat<E>) -> LogSeat<E>
    requires log { seat.old.table_id ≡ table.now.shared.table_id }
    requires sized { table.now.shared.table_id.words ≡ 6 * table.now.shared.key + 1 }
    requires live { seat.old.me.0.gone ≡ false }
    ensures same { (seat.new.table_id ≡ seat.old.table_id) × (seat.new.me ≡ seat.old.me) }
    ensures log { result.table_id ≡ seat.old.table_id }
    ensures knows { result.me ≡ (newcomer seat.old.me.0, []) }
{
    table.shared.split_seat::<SplitOff>(seat)
}

/// Joins a reader's or a receipt's seat into another one's, which knows from then on what either knew.
pub(crate) fn tell_reader<E>(table: &LogTable<E>, seat: &mut LogSeat<E>, other: LogSeat<E>)
    requires log { (seat.old.table_id ≡ table.now.shared.table_id)
        × (other.table_id ≡ table.now.shared.table_id) }
    requires sized { table.now.shared.table_id.words ≡ 6 * table.now.shared.key + 1 }
    requires reading { IsReading seat.old.me × IsReading other.me }
    ensures log { seat.new.table_id ≡ seat.old.table_id }
    ensures same { seat.new.me
        ≡ (reading seat.old.me.0.room seat.new.me.0.known seat.old.me.0.read seat.old.me.0.loads, []) }
    ensures known { IsPrefix seat.old.me.0.known seat.new.me.0.known }
    ensures received { IsPrefix other.me.0.known seat.new.me.0.known }
    ensures longer { (seat.new.me.0.known ≡ seat.old.me.0.known)
        ⊎ (seat.new.me.0.known ≡ other.me.0.known) }
{
    table.shared.join_seat::<Tell>(seat, other);
    table.shared.load::<Learn>(seat, 0);
}

/// Joins a reader's or a receipt's seat into the writer's. What it knew is a beginning of what is published.
pub(crate) fn tell_writer<E>(table: &LogTable<E>, seat: &mut LogSeat<E>, other: LogSeat<E>)
    requires log { (seat.old.table_id ≡ table.now.shared.table_id)
        × (other.table_id ≡ table.now.shared.table_id) }
    requires sized { table.now.shared.table_id.words ≡ 6 * table.now.shared.key + 1 }
    requires writing { IsWriting seat.old.me }
    requires reading { IsReading other.me }
    ensures same { (seat.new.table_id ≡ seat.old.table_id) × (seat.new.me ≡ seat.old.me) }
    ensures beginning { IsPrefix other.me.0.known seat.old.me.0.known }
{
    table.shared.join_seat::<Tell>(seat, other);
    table.shared.load::<Confirm>(seat, 0);
}
