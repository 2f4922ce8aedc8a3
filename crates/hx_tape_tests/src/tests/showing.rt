//! Lines and their words, worked by hand from the layouts of the standards.

use super::equal;
use hx_show::{Choice, ShowError, show};
use hx_units::MemberNo;
use std::alloc::Global;
use std::process::Abort;

// The words of a text's chosen lines.
fn words(alloc: Global, text: &[u8], choice: Choice) -> Result<Vec<u8>, ShowError> {
    let mut output = Vec::new(alloc);
    let mut reader = text;
    show(alloc, &mut reader, &mut output, choice)?;
    Ok(output)
}

// Whether each line has these words.
fn expect_words<R: AllocGlobal + Abort>(rt: &R, rows: &[(&str, &str)]) {
    for (line, want) in rows {
        let got = words(rt.alloc(), line.as_bytes(), Choice::All).expect(rt, "words");
        equal(rt, got.as_slice(), want.as_bytes());
    }
}

const ENTERED: &str =
    "10 1 4f483120202020202020202020202042000000644142434420202020000186a00001869f202020204e4f4e0\
     00000004e52\n";

const REPLIED: &str =
    "M 1 1 41000000000000000a483120202020202020202020202042000000644142434420202020000186a0000186\
     9f464d41314e80000100000000014f4e000000004e4c20\n";

const ADDED: &str =
    "F 1 4100010000000000000014000000000000000142000000c84142434420202020000186a0\n";

#[test]
fn lines_of_a_tape(rt: HostRuntime) {
    expect_words(
        &rt,
        &[
            (
                ENTERED,
                "00:00:00.000000010  member 1                   Enter Order                 \
                 token H1, buy, 100 shares, stock ABCD, 10.0000 dollars, hidden, system \
                 hours, minimum 0 shares, firm blank, capacity O, intermarket sweep N, cross \
                 type N, customer type R\n",
            ),
            // A cancel at 09:30 of all that is open.
            (
                "34200000000000 4095 58543120202020202020202020202000000000\n",
                "09:30:00.000000000  member 4095                Cancel Order                \
                 token T1, in all 0 shares\n",
            ),
            (
                "5 0 4b\n",
                "00:00:00.000000005  operator                   Tick\n",
            ),
            (
                "5 0 51\n",
                "00:00:00.000000005  operator                   Hours                       \
                 start of market hours\n",
            ),
            (
                "6 0 420000000000000007\n",
                "00:00:00.000000006  operator                   Break                       \
                 match number 7\n",
            ),
        ],
    );
}

#[test]
fn lines_of_an_output(rt: HostRuntime) {
    expect_words(
        &rt,
        &[
            (
                REPLIED,
                "00:00:00.000000010  member 1 reply 1           Accepted                    \
                 token H1, buy, 100 shares, stock ABCD, 10.0000 dollars, hidden, system \
                 hours, minimum 0 shares, firm FMA1, reference 9223373136366403585, capacity \
                 O, intermarket sweep N, cross type N, order state L\n",
            ),
            (
                ADDED,
                "00:00:00.000000020  feed 1                     Add Order                   \
                 reference 1, buy, 200 shares, stock ABCD, 10.0000 dollars, locate 1\n",
            ),
        ],
    );
}

#[test]
fn what_cannot_be_read(rt: HostRuntime) {
    expect_words(
        &rt,
        &[
            ("\n", "unreadable line\n"),
            ("20 1 zz\n", "unreadable line\n"),
            ("20 1 4F\n", "unreadable line\n"),
            ("020 1 4f\n", "unreadable line\n"),
            ("F 1 ", "unreadable line\n"),
            (
                "20 1 4f",
                "00:00:00.000000020  member 1                   unreadable message\n",
            ),
            (
                "F 7 41\n",
                "                    feed 7                     unreadable message\n",
            ),
        ],
    );
}

#[test]
fn chosen_lines(rt: HostRuntime) {
    let alloc = rt.alloc();
    let text = b"no line\n5 1 00\n6 2 00\nM 2 1 00\nF 1 00\n";
    let feed = words(alloc, text, Choice::Feed).expect(&rt, "words");
    equal(
        &rt,
        feed.as_slice(),
        "                    feed 1                     unreadable message\n".as_bytes(),
    );
    let member = words(
        alloc,
        text,
        Choice::Member(MemberNo::of(2).expect(&rt, "a member")),
    )
    .expect(&rt, "words");
    equal(
        &rt,
        member.as_slice(),
        "00:00:00.000000006  member 2                   unreadable message\n\
         \x20                   member 2 reply 1           unreadable message\n"
            .as_bytes(),
    );
}
