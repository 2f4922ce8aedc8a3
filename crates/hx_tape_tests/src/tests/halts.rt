//! Worked days of trading halts and broken trades, in words: each event, and below it its output, worked out by hand
//! from the rules of the market.

use super::equal;
use super::replaying::{expect_bad, expect_day, expect_output, replayed};
use super::striking::{expect_retained, struck};
use hx_replay::Kind;
use hx_testing::Day;
use hx_testing::halts::{BREAK_OF_BOTH_SIDES, HALTS_AND_BREAKS, HALTS_AT_THEIR_EDGES};
use std::test::Fail;

/// The same without what the second member enters in the halt: nothing else differs but the numbers of its replies.
const HALTS_AND_BREAKS_STRUCK: &str = "\
10 1 enter T1 buy 100 ABCD 10.0000 day shown
  F 1 add 1 buy 100 ABCD 10.0000
  M 1 1 accepted 1
20 2 enter H1 buy 50 ABCD 10.0000 day hidden
  M 2 1 accepted 2.1
30 0 halt ABCD T1
  F 2 halted ABCD T1
50 1 replace T1 T2 200 10.0000 day shown
60 1 cancel T1 60
  F 3 cancel 1 40
  M 1 2 canceled T1 40 user
70 0 resume ABCD T1
  F 4 trading ABCD T1
80 2 enter S2 sell 80 ABCD 10.0000 now hidden
  F 5 executed 1 60 match 1
  F 6 trade 20 ABCD 10.0000 match 2
  M 2 2 accepted 2.2
  M 1 3 executed T1 60 10.0000 added match 1
  M 2 3 executed S2 60 10.0000 removed match 1
  M 2 4 executed H1 20 10.0000 hidden match 2
  M 2 5 executed S2 20 10.0000 removed match 2
90 0 break 1
  F 7 broken 1
  M 1 4 broken T1 match 1
  M 2 6 broken S2 match 1
100 0 break 1
110 0 break 9
115 0 break 2
  F 8 broken 2
  M 2 7 broken H1 match 2
  M 2 8 broken S2 match 2
120 1 enter T2 buy 100 ABCD 9.9900 day shown
  F 9 add 2 buy 100 ABCD 9.9900
  M 1 5 accepted 2
";

#[test]
fn halts_and_breaks_over_both_books(rt: HostRuntime) -> Result<(), Fail> {
    for words in [HALTS_AND_BREAKS, HALTS_AT_THEIR_EDGES, BREAK_OF_BOTH_SIDES] {
        expect_day(&rt, &Day::of(rt.alloc(), words)?);
    }
    Ok(())
}

#[test]
fn an_order_rejected_in_a_halt_is_struck(rt: HostRuntime) -> Result<(), Fail> {
    let day = Day::of(rt.alloc(), HALTS_AND_BREAKS)?;
    let left = Day::of(rt.alloc(), HALTS_AND_BREAKS_STRUCK)?;
    expect_retained(&rt, struck(rt.alloc(), &day.tape, 2), &left.tape, 12);
    expect_output(&rt, &left, replayed(rt.alloc(), &left.tape));
    Ok(())
}

// A halt and a break in bytes, and payloads that are none: of another length, or of another letter.
#[test]
fn operator_payloads(rt: HostRuntime) -> Result<(), Fail> {
    let day = Day::of(rt.alloc(), "30 0 halt ABCD T1\n90 0 break 1\n")?;
    let bytes = b"30 0 4841424344202020204854312020\n90 0 420000000000000001\n";
    equal(&rt, day.tape.as_slice(), bytes.as_slice());
    let cases: [&[u8]; 6] = [
        b"30 0 48414243442020202048543120\n",
        b"30 0 484142434420202020485431202020\n",
        b"90 0 4200000000000001\n",
        b"90 0 42000000000000000100\n",
        b"90 0 42\n",
        b"90 0 580000000000000001\n",
    ];
    for text in cases {
        expect_bad(&rt, text, Kind::Bad)?;
    }
    Ok(())
}
