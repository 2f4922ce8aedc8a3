//! Worked days in words: each event, and below it its output, worked out by hand from the rules of the market.

/// One displayed order.
pub const ONE_DISPLAYED_ORDER: &str = "\
1000 1 enter T1 buy 100 ABCD 10.0000 day shown
  F 1 add 1 buy 100 ABCD 10.0000
  M 1 1 accepted 1
";

/// A hidden order, then a displayed one.
pub const HIDDEN_THEN_DISPLAYED: &str = "\
10 1 enter H1 buy 100 ABCD 10.0000 day hidden
  M 1 1 accepted 1.1
20 2 enter T1 buy 200 ABCD 10.0000 day shown
  F 1 add 1 buy 200 ABCD 10.0000
  M 2 1 accepted 1
";

/// A displayed order goes before an earlier hidden one.
pub const DISPLAY_BEATS_TIME: &str = "\
10 1 enter H1 buy 100 ABCD 10.0000 day hidden
  M 1 1 accepted 1.1
20 2 enter T1 buy 100 ABCD 10.0000 day shown
  F 1 add 1 buy 100 ABCD 10.0000
  M 2 1 accepted 1
30 3 enter S1 sell 100 ABCD 10.0000 day shown
  F 2 executed 1 100 match 1
  M 3 1 accepted 2
  M 2 2 executed T1 100 10.0000 added match 1
  M 3 2 executed S1 100 10.0000 removed match 1
";

/// Hidden executions on both sides.
pub const HIDDEN_EXECUTIONS_ON_BOTH_SIDES: &str = "\
10 1 enter H1 buy 100 ABCD 10.0000 day hidden
  M 1 1 accepted 1.1
20 2 enter S1 sell 60 ABCD 9.9900 now hidden
  F 1 trade 60 ABCD 10.0000 match 1
  M 2 1 accepted 2.1
  M 1 2 executed H1 60 10.0000 hidden match 1
  M 2 2 executed S1 60 10.0000 removed match 1
30 1 enter H2 sell 50 ABCD 10.0500 day hidden
  M 1 3 accepted 1.2
40 2 enter B1 buy 50 ABCD 10.0500 now hidden
  F 2 trade 50 ABCD 10.0500 match 2
  M 2 3 accepted 2.2
  M 1 4 executed H2 50 10.0500 hidden match 2
  M 2 4 executed B1 50 10.0500 removed match 2
";

/// The first order has fewer shares than the minimum of the incoming one, and is passed over.
pub const MINIMUM_PASSED_OVER: &str = "\
10 1 enter H1 buy 200 ABCD 10.0000 day hidden
  M 1 1 accepted 1.1
20 2 enter G1 buy 500 ABCD 10.0000 day hidden minimum 500
  M 2 1 accepted 2.1
30 3 enter S1 sell 500 ABCD 10.0000 day hidden minimum 500
  F 1 trade 500 ABCD 10.0000 match 1
  M 3 1 accepted 3.1
  M 2 2 executed G1 500 10.0000 hidden match 1
  M 3 2 executed S1 500 10.0000 removed match 1
";

/// What is left of an order has the same minimum.
pub const MINIMUM_STAYS: &str = "\
10 1 enter H1 buy 600 ABCD 10.0000 day hidden
  M 1 1 accepted 1.1
20 2 enter H2 buy 300 ABCD 10.0000 day hidden
  M 2 1 accepted 2.1
30 3 enter S1 sell 1000 ABCD 10.0000 day hidden minimum 500
  F 1 trade 600 ABCD 10.0000 match 1
  M 3 1 accepted 3.1
  M 1 2 executed H1 600 10.0000 hidden match 1
  M 3 2 executed S1 600 10.0000 removed match 1
40 1 enter B1 buy 300 ABCD 10.0000 now hidden
  M 1 3 accepted 1.2
  M 1 4 canceled B1 300 immediate
50 1 enter B2 buy 400 ABCD 10.0000 now hidden
  F 2 trade 400 ABCD 10.0000 match 2
  M 1 5 accepted 1.3
  M 3 3 executed S1 400 10.0000 hidden match 2
  M 1 6 executed B2 400 10.0000 removed match 2
";

/// An immediate order asks to be displayed, and is not.
pub const DISPLAYED_IMMEDIATE_OR_CANCEL: &str = "\
10 1 enter I1 buy 100 ABCD 10.0000 now shown
  M 1 1 accepted 1.1
  M 1 2 canceled I1 100 immediate
";

/// An order takes two levels, and its rest is published.
pub const TWO_LEVELS_TAKEN: &str = "\
10 1 enter T1 buy 100 ABCD 10.0000 day shown
  F 1 add 1 buy 100 ABCD 10.0000
  M 1 1 accepted 1
20 2 enter T1 buy 200 ABCD 10.0100 day attributed
  F 2 add 2 buy 200 ABCD 10.0100 FMB2
  M 2 1 accepted 2
30 3 enter S1 sell 350 ABCD 10.0000 day shown
  F 3 executed 2 200 match 1
  F 4 executed 1 100 match 2
  F 5 add 3 sell 50 ABCD 10.0000
  M 3 1 accepted 3
  M 2 2 executed T1 200 10.0100 added match 1
  M 3 2 executed S1 200 10.0100 removed match 1
  M 1 2 executed T1 100 10.0000 added match 2
  M 3 3 executed S1 100 10.0000 removed match 2
40 3 enter S1 buy 100 ABCD 10.0000 day shown
";

/// Each output carries the time of its own event, also if times go back.
pub const TIMES_GOING_BACK: &str = "\
500 1 enter T1 buy 100 ABCD 10.0000 day shown
  F 1 add 1 buy 100 ABCD 10.0000
  M 1 1 accepted 1
100 2 enter S1 sell 100 ABCD 10.0000 now hidden
  F 2 executed 1 100 match 1
  M 2 1 accepted 2.1
  M 1 2 executed T1 100 10.0000 added match 1
  M 2 2 executed S1 100 10.0000 removed match 1
";

/// The limits of each field, and a token that was used by an order that was rejected.
pub const LIMITS_OF_FIELDS: &str = "\
10 1 enter A1 buy 999999 ABCD 199999.9900 day shown
  F 1 add 1 buy 999999 ABCD 199999.9900
  M 1 1 accepted 1
20 1 enter A2 buy 1000000 ABCD 10.0000 day shown
  M 1 2 rejected Z
30 1 enter A3 buy 100 ABCD 200000.0000 day shown
  M 1 3 rejected X
40 1 enter A4 buy 100 ABCD 1.0001 day shown
  M 1 4 rejected X
50 1 enter A5 buy 100 ABCD 0.9999 day shown
  F 2 add 2 buy 100 ABCD 0.9999
  M 1 5 accepted 2
60 1 enter A6 buy 100 ABCD 10.0000 day shown minimum 1
  M 1 6 rejected N
70 1 enter A7 buy 100 ABCD 10.0000 day hidden minimum 101
  M 1 7 rejected N
80 1 enter A8 buy 100 ABCD 10.0000 day P
  M 1 8 rejected D
90 1 enter A2 buy 100 ABCD 10.0000 day shown
";

/// A Replace fails, and its token stays used.
pub const FAILED_REPLACE: &str = "\
10 1 enter T1 buy 100 ABCD 10.0000 day shown
  F 1 add 1 buy 100 ABCD 10.0000
  M 1 1 accepted 1
20 1 replace T1 T2 100 1.0001 day shown
  F 2 delete 1
  M 1 2 canceled T1 100 user
30 1 enter T2 buy 100 ABCD 10.0000 day shown
";

/// A chain of Replaces trades once; a Replace to what it has executed fails.
pub const CHAIN_THAT_TRADED: &str = "\
10 1 enter H1 buy 100 ABCD 10.0000 day hidden
  M 1 1 accepted 1.1
20 1 replace H1 H2 100 10.0100 day hidden
  M 1 2 replaced buy 100 1.2
30 1 replace H2 H3 100 10.0200 day hidden
  M 1 3 replaced buy 100 1.3
40 1 replace H3 H4 100 10.0300 day hidden
  M 1 4 replaced buy 100 1.4
50 2 enter S1 sell 1 ABCD 10.0300 now hidden
  F 1 trade 1 ABCD 10.0300 match 1
  M 2 1 accepted 2.1
  M 1 5 executed H4 1 10.0300 hidden match 1
  M 2 2 executed S1 1 10.0300 removed match 1
60 1 replace H4 H5 1 10.0300 day hidden
  M 1 6 canceled H4 99 user
";

/// Replaces change the display: one message of the feed if both orders are displayed alike, else two.
pub const DISPLAY_CHANGES: &str = "\
10 1 enter T1 buy 100 ABCD 10.0000 day shown
  F 1 add 1 buy 100 ABCD 10.0000
  M 1 1 accepted 1
20 1 replace T1 T2 100 10.0000 day hidden
  F 2 delete 1
  M 1 2 replaced buy 100 1.1
30 1 replace T2 T3 150 10.0000 day shown
  F 3 add 2 buy 150 ABCD 10.0000
  M 1 3 replaced buy 150 2
40 1 replace T3 T4 150 10.0100 day shown
  F 4 replace 2 3 150 10.0100
  M 1 4 replaced buy 150 3
50 1 replace T4 T5 150 10.0100 day attributed
  F 5 delete 3
  F 6 add 4 buy 150 ABCD 10.0100 FMA1
  M 1 5 replaced buy 150 4
";

/// Cancels count what was executed: one that changes nothing, one in part, one whole, and one of an order that is gone.
pub const CANCELS: &str = "\
10 1 enter T1 buy 100 ABCD 10.0000 day shown
  F 1 add 1 buy 100 ABCD 10.0000
  M 1 1 accepted 1
20 2 enter S1 sell 30 ABCD 10.0000 now hidden
  F 2 executed 1 30 match 1
  M 2 1 accepted 2.1
  M 1 2 executed T1 30 10.0000 added match 1
  M 2 2 executed S1 30 10.0000 removed match 1
30 1 cancel T1 100
40 1 cancel T1 99
  F 3 cancel 1 1
  M 1 3 canceled T1 1 user
50 1 cancel T1 0
  F 4 delete 1
  M 1 4 canceled T1 69 user
60 1 cancel T1 0
";

/// Replaces after executions, Replaces that trade, and three messages that name no live order or a used token.
pub const REPLACES_THAT_TRADE: &str = "\
10 1 enter T1 buy 100 ABCD 10.0000 day shown
  F 1 add 1 buy 100 ABCD 10.0000
  M 1 1 accepted 1
20 2 enter S1 sell 30 ABCD 10.0000 now hidden
  F 2 executed 1 30 match 1
  M 2 1 accepted 2.1
  M 1 2 executed T1 30 10.0000 added match 1
  M 2 2 executed S1 30 10.0000 removed match 1
30 1 replace T1 T2 150 10.0100 day shown
  F 3 replace 1 2 120 10.0100
  M 1 3 replaced buy 120 2
40 2 enter S2 sell 200 ABCD 10.0200 day shown
  F 4 add 3 sell 200 ABCD 10.0200
  M 2 3 accepted 3
50 1 replace T2 T3 100 10.0200 day shown
  F 5 delete 2
  F 6 executed 3 70 match 2
  M 1 4 replaced buy 70 4
  M 2 4 executed S2 70 10.0200 added match 2
  M 1 5 executed T3 70 10.0200 removed match 2
60 1 replace T2 T4 100 10.0000 day shown
70 2 replace S2 S1 300 10.0200 day shown
80 1 cancel T2 0
";

/// Seconds run out at ticks only.
pub const TICKS: &str = "\
1000 1 enter H1 buy 100 ABCD 10.0000 1 hidden
  M 1 1 accepted 1.1
2000 2 enter T1 buy 100 ABCD 10.0000 1 shown
  F 1 add 1 buy 100 ABCD 10.0000
  M 2 1 accepted 1
1000001500 3 cancel T9 0
1000001999 0 tick
  M 1 2 canceled H1 100 timeout
1000002000 0 tick
  F 2 delete 1
  M 2 2 canceled T1 100 timeout
";

/// The hours of a day that begins closed, with one stock and two members.
pub const HOURS_OF_A_DAY: &str = "\
1 0 hours O
  F 1 system O
  F 2 directory ABCD
2 1 enter T0 buy 100 ABCD 10.0000 day shown
  M 1 1 rejected C
3 0 hours S
  F 3 system S
  M 1 2 system S
  M 2 1 system S
4 1 enter T1 buy 100 ABCD 10.0000 market shown
  F 4 add 1 buy 100 ABCD 10.0000
  M 1 3 accepted 1
5 2 enter H1 buy 100 ABCD 10.0000 day hidden
  M 2 2 accepted 2.1
6 0 hours M
7 0 hours Q
  F 5 system Q
8 0 hours M
  F 6 system M
  F 7 delete 1
  M 1 4 canceled T1 100 timeout
9 1 enter T2 buy 100 ABCD 10.0000 market shown
  M 1 5 rejected C
10 0 hours E
  F 8 system E
  M 1 6 system E
  M 2 3 system E
  M 2 4 canceled H1 100 timeout
11 0 hours C
  F 9 system C
";

// What the days above do not reach.

/// Each reason to reject, and of two reasons the first.
pub const REASONS: &str = "\
10 1 enter R1 buy 100 NONE 10.0000 day shown
  M 1 1 rejected S
20 1 enter R2 Q 100 ABCD 10.0000 day shown
  M 1 2 rejected O
30 1 enter R3 buy 100 ABCD 10.0000 day shown cross O
  M 1 3 rejected O
40 1 enter R4 Q 100 NONE 10.0000 day P
  M 1 4 rejected S
50 1 enter R5 buy 0 ABCD 1.0001 day P
  M 1 5 rejected D
60 1 enter R6 buy 0 ABCD 1.0001 day shown
  M 1 6 rejected Z
70 1 enter R7 buy 100 ABCD 0.0000 day hidden minimum 101
  M 1 7 rejected X
";

/// Short sales are published as sells and echoed as they are; the second stock has its own book; a firm that is not
/// blank is published; an order with attribution carries it.
pub const SIDES_STOCKS_FIRMS: &str = "\
10 1 enter T1 short 100 WXYZ 20.0000 day shown
  F 1 add 1 sell 100 WXYZ 20.0000
  M 1 1 accepted 1
20 2 enter E1 exempt 50 WXYZ 20.0000 day attributed firm GIVE
  F 2 add 2 sell 50 WXYZ 20.0000 GIVE
  M 2 1 accepted 2
30 3 enter B1 buy 100 ABCD 20.0000 day shown
  F 3 add 3 buy 100 ABCD 20.0000
  M 3 1 accepted 3
40 3 enter B2 buy 120 WXYZ 20.0000 now hidden
  F 4 executed 1 100 match 1 WXYZ
  F 5 executed 2 20 match 2 WXYZ
  M 3 2 accepted 3.1
  M 1 2 executed T1 100 20.0000 added match 1
  M 3 3 executed B2 100 20.0000 removed match 1
  M 2 2 executed E1 20 20.0000 added match 2
  M 3 4 executed B2 20 20.0000 removed match 2
50 2 cancel E1 30
  F 6 cancel 2 20 WXYZ
  M 2 3 canceled E1 20 user
60 2 replace E1 E2 60 20.0100 day attributed
  F 7 replace 2 4 40 20.0100 WXYZ
  M 2 4 replaced exempt 40 4 stock WXYZ firm GIVE
70 2 cancel E2 0
  F 8 delete 4 WXYZ
  M 2 5 canceled E2 40 user
";

/// 86,400 seconds are the longest life in seconds; 86,401 is the system hours. The first ends at no tick of its day.
pub const LONGEST_LIVES: &str = "\
10 1 enter L1 buy 100 ABCD 10.0000 86400 hidden
  M 1 1 accepted 1.1
20 1 enter L2 buy 100 ABCD 10.0000 86401 hidden
  M 1 2 accepted 1.2
30 1 enter L3 buy 100 ABCD 10.0000 86399 hidden
  M 1 3 accepted 1.3
86399000000030 0 tick
  M 1 4 canceled L3 100 timeout
86399999999999 0 tick
";

/// A Replace with a minimum above what is left open, one that is immediate, and one to the market hours in time.
pub const REPLACES_OF_LIFE_AND_MINIMUM: &str = "\
10 1 enter H1 buy 100 ABCD 10.0000 day hidden
  M 1 1 accepted 1.1
20 2 enter S1 sell 40 ABCD 10.0000 now hidden
  F 1 trade 40 ABCD 10.0000 match 1
  M 2 1 accepted 2.1
  M 1 2 executed H1 40 10.0000 hidden match 1
  M 2 2 executed S1 40 10.0000 removed match 1
30 1 replace H1 H2 100 10.0000 day hidden minimum 90
  M 1 3 replaced buy 60 1.2 minimum 60
40 2 enter S2 sell 50 ABCD 10.0000 day hidden
  M 2 3 accepted 2.2
50 1 replace H2 H3 140 10.0000 market hidden
  F 2 trade 50 ABCD 10.0000 match 2
  M 1 4 replaced buy 100 1.3
  M 2 4 executed S2 50 10.0000 hidden match 2
  M 1 5 executed H3 50 10.0000 removed match 2
60 1 replace H3 H4 140 10.0000 now shown
  M 1 6 replaced buy 50 1.4
  M 1 7 canceled H4 50 immediate
70 1 enter H5 buy 10 ABCD 10.0000 day hidden
  M 1 8 accepted 1.5
80 1 replace H5 H6 10 10.0000 day shown minimum 1
  M 1 9 canceled H5 10 user
";

/// Once the market hours are over: a Replace for them fails, with what it names cancelled; other lives go on.
pub const AFTER_THE_MARKET_HOURS: &str = "\
1 0 hours O
  F 1 system O
  F 2 directory ABCD
2 0 hours S
  F 3 system S
  M 1 1 system S
  M 2 1 system S
3 0 hours Q
  F 4 system Q
4 0 hours M
  F 5 system M
5 1 enter T1 buy 100 ABCD 10.0000 day shown
  F 6 add 1 buy 100 ABCD 10.0000
  M 1 2 accepted 1
6 1 replace T1 T2 100 10.0000 market shown
  F 7 delete 1
  M 1 3 canceled T1 100 user
7 2 enter T1 buy 100 ABCD 10.0000 day shown
  F 8 add 2 buy 100 ABCD 10.0000
  M 2 2 accepted 2
8 2 replace T1 T2 100 10.0100 day shown
  F 9 replace 2 3 100 10.0100
  M 2 3 replaced buy 100 3
";

/// Two orders end at one tick, in the order of their entry; a hidden order is cancelled in part, and retains its time
/// priority.
pub const TWO_END_AT_ONE_TICK: &str = "\
10 2 enter H1 buy 100 ABCD 10.0000 2 hidden
  M 2 1 accepted 2.1
20 1 enter T1 buy 70 ABCD 10.0000 2 shown
  F 1 add 1 buy 70 ABCD 10.0000
  M 1 1 accepted 1
30 2 cancel H1 60
  M 2 2 canceled H1 40 user
2000000020 0 tick
  F 2 delete 1
  M 2 3 canceled H1 60 timeout
  M 1 2 canceled T1 70 timeout
";

/// A member that may send two messages: an unreadable one counts, and the third is refused.
pub const LIMIT_OF_TWO_MESSAGES: &str = "\
10 1 bytes 00
20 1 enter T1 buy 100 ABCD 10.0000 day shown
  F 1 add 1 buy 100 ABCD 10.0000
  M 1 1 accepted 1
30 1 cancel T1 0
";
