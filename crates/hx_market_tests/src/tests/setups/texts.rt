use super::super::{equal, holds};
use super::*;
use hx_testing::setups::{CLOSED, STANDARD, setup_of, widest};

const TWO_LINES: &[u8] = b"session HX00000002
start closed
";

const THREE_LINES: &[u8] = b"session HX00000002
start closed
stock ABCD 5120000000644e435a20502020314e000000004e
";

const SHORT_TAIL: &[u8] = b"session HX00000002
start closed
stock ABCD 5120000000644e435a20502020314e00000000
member 1 FMA1 ALPHA PWALPHA 1000
member 2 FMB2 BRAVO PWBRAVO 1000
";

const OTHER_ORDER: &[u8] = b"session HX00000002
start closed
stock ABCD 5120000000644e435a20502020314e000000004e
member 2 FMB2 BRAVO PWBRAVO 1000
member 1 FMA1 ALPHA PWALPHA 1000
";

const SAME_USER: &[u8] = b"session HX00000002
start closed
stock ABCD 5120000000644e435a20502020314e000000004e
member 1 FMA1 ALPHA PWALPHA 1000
member 2 FMB2 alpha PWBRAVO 1000
";

// The number of the bad line, if there is one.
fn bad_line(rt: &impl Abort, alloc: Global, text: &[u8]) -> Option<u64> {
    match Setup::read(alloc, text) {
        Ok(_) => None,
        Err(SetupError::Bad { line }) => Some(line),
        Err(SetupError::NoMemory) => panic!(rt; "no memory"),
    }
}

#[test]
fn bad_setups(rt: HostRuntime) {
    let alloc = rt.alloc();
    equal(&rt, bad_line(&rt, alloc, b""), Some(1));
    equal(&rt, bad_line(&rt, alloc, TWO_LINES), Some(3));
    equal(&rt, bad_line(&rt, alloc, THREE_LINES), Some(4));
    equal(&rt, bad_line(&rt, alloc, SHORT_TAIL), Some(3));
    equal(&rt, bad_line(&rt, alloc, OTHER_ORDER), Some(5));
    equal(
        &rt,
        bad_line(&rt, alloc, &CLOSED[..CLOSED.len() - 1]),
        Some(5),
    );
    equal(&rt, bad_line(&rt, alloc, CLOSED), None);
}

#[test]
fn a_user_in_another_case(rt: HostRuntime) {
    equal(&rt, bad_line(&rt, rt.alloc(), SAME_USER), Some(5));
}

#[test]
fn standard_text(rt: HostRuntime) -> Result<(), Fail> {
    let setup = setup_of(rt.alloc(), STANDARD)?;
    expect_day(&rt, &setup);
    expect_locates(&rt, &setup);
    expect_stocks(&rt, &setup);
    expect_members(&rt, &setup);
    expect_login(&rt, &setup, b"bravo ", b"pwBravo   ");
    Ok(())
}

fn expect_closed<R: Abort>(rt: &R, setup: &Setup) {
    equal(rt, setup.session(), b"HX00000002");
    holds(rt, !setup.start_open());
    equal(rt, setup.stocks().len(), 1);
    equal(rt, setup.members().len(), 2);
}

#[test]
fn closed_text(rt: HostRuntime) -> Result<(), Fail> {
    let setup = setup_of(rt.alloc(), CLOSED)?;
    expect_closed(&rt, &setup);
    Ok(())
}

fn expect_widest<R: Abort>(rt: &R, setup: &Setup) {
    equal(rt, setup.locate(Symbol(*b"S1000   ")), Some(1000));
    equal(
        rt,
        setup.login(b"u4095 ", b"p         "),
        Some(number(rt, 4095)),
    );
}

#[test]
fn widest_text(rt: HostRuntime) -> Result<(), Fail> {
    let alloc = rt.alloc();
    let mut text = widest(alloc).expect(&rt, "memory");
    let setup = setup_of(alloc, &text)?;
    expect_widest(&rt, &setup);
    text.extend_from_slice(b"member 4096 FMA1 U4096 P 1\n")
        .expect(&rt, "memory");
    equal(&rt, bad_line(&rt, alloc, &text), Some(5098));
    Ok(())
}

#[test]
fn texts_of_errors(rt: HostRuntime) {
    let bad = SetupError::Bad { line: 3 };
    let text = format!(in rt.alloc(); "{bad}").expect(&rt, "memory");
    equal(&rt, text.as_str(), "setup line 3: bad line");
    let want = SetupError::from(NoMemory);
    let text = format!(in rt.alloc(); "{want}").expect(&rt, "memory");
    equal(&rt, text.as_str(), "no memory");
}
