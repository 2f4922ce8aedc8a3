//! The output of a line goes out before the next one is waited for, also through a buffer.

use crate::tests::equal;
use hx_replay::replay;
use hx_testing::Day;
use hx_testing::memory::{After, Input, Output};
use hx_testing::setups::standard;
use hx_testing::worked::ONE_DISPLAYED_ORDER;
use std::io::BufWriter;
use std::sync::atomic::AtomicU64;
use std::test::Fail;

// The second line comes only once the output of the first is out.
#[test]
fn line_by_line(rt: HostRuntime) -> Result<(), Fail> {
    let alloc = rt.alloc();
    let day = Day::of(alloc, ONE_DISPLAYED_ORDER)?;
    let setup = standard(alloc).expect(&rt, "a setup");
    let count = AtomicU64::new(0);
    let mut input = Input {
        after: After::Waits {
            count: &count,
            wanted: day.output.len() as u64,
            last: b"2000 1 00\n",
        },
        ..Input::new(&day.tape)
    };
    let mut output = BufWriter::new(alloc, Output::new(alloc, &count)).expect(&rt, "a buffer");
    let counts = replay(alloc, &setup, &mut input, &mut output).expect(&rt, "a day");
    equal(&rt, (counts.events, counts.feed, counts.replies), (2, 1, 1));
    Ok(())
}
