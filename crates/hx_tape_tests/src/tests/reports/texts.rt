//! Texts that are compared.

use hx_report::{Look, Sieve, compare};
use hx_units::MemberNo;
use std::process::Abort;
use std::test::Fail;

// Whether everybody but member 1 gets the same of both.
fn expect<R: AllocGlobal + Abort>(
    rt: &R,
    day: &[u8],
    struck: &[u8],
    same: bool,
) -> Result<(), Fail> {
    let member = MemberNo::of(1).ok_or("no number of a member")?;
    let sieve = Sieve::of(rt.alloc(), Look::AllBut(member))?;
    let comparison = compare(&sieve, day, struck);
    assert_eq!(rt; comparison.same, same);
    assert_eq!(rt; comparison.day == comparison.struck, same);
    Ok(())
}

// The replies to the member itself may differ; those to one whose number begins alike may not.
#[test]
fn his_own_replies(rt: HostRuntime) -> Result<(), Fail> {
    expect(
        &rt,
        b"F 1 aa\nM 1 1 bb\nM 2 1 cc\n",
        b"F 1 aa\nM 2 1 cc\n",
        true,
    )?;
    expect(
        &rt,
        b"M 1 1 bb\nF 1 aa\n",
        b"F 1 aa\nM 1 1 cc\nM 1 2 dd\n",
        true,
    )?;
    expect(&rt, b"M 11 1 bb\nF 1 aa\n", b"F 1 aa\n", false)
}

// A text differs that is shorter, longer, or of another line.
#[test]
fn texts_that_differ(rt: HostRuntime) -> Result<(), Fail> {
    expect(&rt, b"F 1 aa\nF 2 bb\n", b"F 1 aa\n", false)?;
    expect(&rt, b"F 1 aa\n", b"F 1 aa\nF 2 bb\n", false)?;
    expect(&rt, b"F 1 aa\n", b"F 1 ab\n", false)?;
    expect(&rt, b"F 1 aa\n", b"F 1 aa", false)?;
    expect(&rt, b"", b"", true)
}
