//! Texts that are cut at a byte, and numbers in decimal.
use super::equal;
use hx_units::{read_number, split_once};

#[test]
fn cut_at_the_first_space(rt: HostRuntime) {
    let cut = split_once(b"10 1 XT1", b' ');
    equal(&rt, cut, Some((b"10".as_slice(), b"1 XT1".as_slice())));
    equal(&rt, split_once(b"10", b' '), None);
}

#[test]
fn numbers_in_decimal(rt: HostRuntime) {
    let numbers: [(&[u8], Option<u64>); 7] = [
        (b"0", Some(0)),
        (b"42", Some(42)),
        (b"99999999999999", Some(99_999_999_999_999)),
        (b"100000000000000", None),
        (b"042", None),
        (b"+42", None),
        (b"", None),
    ];
    for (text, number) in numbers {
        equal(&rt, read_number(text), number);
    }
}
