//! Reference numbers and match numbers, as they are drawn.
ghost use Rattle.std.specs.Prelude.{◌≡◌, IfOk};

use crate::tests::equal;
use hx_refs::Refs;
use hx_units::MemberNo;
use std::test::Fail;

fn member(number: u16) -> Result<MemberNo, Fail>
    ensures { IfOk result (λ member. member ≡ number) }
{
    Ok(MemberNo::of(number).ok_or("no member")?)
}

#[test]
fn numbers_are_drawn_in_turn(rt: HostRuntime) -> Result<(), Fail> {
    let mut refs = Refs::new(rt.alloc())?;
    equal(&rt, refs.public(), 1);
    equal(&rt, refs.public(), 2);
    let member = member(1)?;
    equal(&rt, refs.private(member), 9_223_373_136_366_403_585);
    equal(&rt, refs.matched(), 1);
    equal(&rt, refs.matched(), 2);
    Ok(())
}
