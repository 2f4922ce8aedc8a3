//! A day of five records in three blocks, and its tape.

/// The file of its journal: a head and three blocks. The sums are zlib's.
pub const DAY: &[u8] = b"#hx1 HX00000006 20260711 9fc2
one
two
#1 8 81178952 609977658
three
#3 6 609977658 141501702
four
five
#4 10 141501702 707532057
";

/// Its records.
pub const TAPE: &[u8] = b"one\ntwo\nthree\nfour\nfive\n";

/// Where the head ends.
pub const HEAD_END: usize = 30;

/// Where the first block ends.
pub const FIRST_END: usize = 62;

/// Where the second one ends.
pub const SECOND_END: usize = 93;

/// Where the third one ends.
pub const DAY_END: usize = 129;
