//! Worked days of trading halts and broken trades, in words, worked out by hand from the rules of the market.

/// A halt, its end, and executions that are broken.
pub const HALTS_AND_BREAKS: &str = "\
10 1 enter T1 buy 100 ABCD 10.0000 day shown
  F 1 add 1 buy 100 ABCD 10.0000
  M 1 1 accepted 1
20 2 enter H1 buy 50 ABCD 10.0000 day hidden
  M 2 1 accepted 2.1
30 0 halt ABCD T1
  F 2 halted ABCD T1
40 2 enter S1 sell 50 ABCD 10.0000 now hidden
  M 2 2 rejected H
50 1 replace T1 T2 200 10.0000 day shown
60 1 cancel T1 60
  F 3 cancel 1 40
  M 1 2 canceled T1 40 user
70 0 resume ABCD T1
  F 4 trading ABCD T1
80 2 enter S2 sell 80 ABCD 10.0000 now hidden
  F 5 executed 1 60 match 1
  F 6 trade 20 ABCD 10.0000 match 2
  M 2 3 accepted 2.2
  M 1 3 executed T1 60 10.0000 added match 1
  M 2 4 executed S2 60 10.0000 removed match 1
  M 2 5 executed H1 20 10.0000 hidden match 2
  M 2 6 executed S2 20 10.0000 removed match 2
90 0 break 1
  F 7 broken 1
  M 1 4 broken T1 match 1
  M 2 7 broken S2 match 1
100 0 break 1
110 0 break 9
115 0 break 2
  F 8 broken 2
  M 2 8 broken H1 match 2
  M 2 9 broken S2 match 2
120 1 enter T2 buy 100 ABCD 9.9900 day shown
  F 9 add 2 buy 100 ABCD 9.9900
  M 1 5 accepted 2
";

/// A halt is published also if the state stays; one of no stock of the setup, or to no state, does nothing. It comes
/// after the stock and before the side among the reasons to reject, is of one stock alone, and stops neither ticks nor
/// hours. A Replace that would fail is ignored in it, and uses up nothing.
pub const HALTS_AT_THEIR_EDGES: &str = "\
10 0 halt ABCD T1
  F 1 halted ABCD T1
20 0 halt ABCD T2
  F 2 halted ABCD T2
30 0 halt NONE T1
40 0 bytes 4841424344202020205854312020
50 1 enter A1 Q 100 ABCD 10.0000 day shown
  M 1 1 rejected H
60 1 enter A2 Q 100 NONE 10.0000 day shown
  M 1 2 rejected S
70 1 enter W1 buy 100 WXYZ 10.0000 5 shown
  F 3 add 1 buy 100 WXYZ 10.0000
  M 1 3 accepted 1
80 0 break 1
90 0 break 0
100 0 resume ABCD T3
  F 4 trading ABCD T3
110 1 enter A3 buy 100 ABCD 10.0000 30 shown
  F 5 add 2 buy 100 ABCD 10.0000
  M 1 4 accepted 2
120 0 halt ABCD T1
  F 6 halted ABCD T1
130 1 replace A3 A4 100 10.0001 day shown
140 1 replace W1 W2 100 10.0100 5 shown
  F 7 replace 1 3 100 10.0100 WXYZ
  M 1 5 replaced buy 100 3 stock WXYZ
30000000110 0 tick
  F 8 delete 2
  F 9 delete 3 WXYZ
  M 1 6 canceled A3 100 timeout
  M 1 7 canceled W2 100 timeout
30000000120 1 enter A4 buy 100 ABCD 10.0000 day shown
  M 1 8 rejected H
30000000130 0 hours Q
  F 10 system Q
";

/// An execution of the second stock, of two orders of one member, is broken.
pub const BREAK_OF_BOTH_SIDES: &str = "\
10 3 enter W1 sell 100 WXYZ 20.0000 day attributed
  F 1 add 1 sell 100 WXYZ 20.0000 FMC3
  M 3 1 accepted 1
20 3 enter W2 buy 40 WXYZ 20.0000 now hidden
  F 2 executed 1 40 match 1 WXYZ
  M 3 2 accepted 3.1
  M 3 3 executed W1 40 20.0000 added match 1
  M 3 4 executed W2 40 20.0000 removed match 1
30 0 break 1
  F 3 broken 1 WXYZ
  M 3 5 broken W1 match 1
  M 3 6 broken W2 match 1
40 3 cancel W1 0
  F 4 delete 1 WXYZ
  M 3 7 canceled W1 60 user
";
