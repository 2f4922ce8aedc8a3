//! The ends of each range, as the public standards and the rules of the exchange give them.
use super::{equal, holds};
use hx_units::{MemberNo, Nanos, NoMemory, Price, Shares, Side, fields, is_heartbeat_due};
use std::alloc::AllocError;

#[test]
fn prices_and_shares(rt: HostRuntime) {
    equal(&rt, Price::of(0), None);
    equal(&rt, Price::of(1).map(Price::get), Some(1));
    equal(
        &rt,
        Price::of(1_999_999_900).map(Price::get),
        Some(1_999_999_900),
    );
    equal(&rt, Price::of(1_999_999_901), None);
    equal(&rt, Shares::of(0), None);
    equal(&rt, Shares::of(1).map(Shares::get), Some(1));
    equal(&rt, Shares::of(999_999).map(Shares::get), Some(999_999));
    equal(&rt, Shares::of(1_000_000), None);
}

#[test]
fn times_and_members(rt: HostRuntime) {
    equal(&rt, Nanos::of(0).map(Nanos::get), Some(0));
    equal(
        &rt,
        Nanos::of(86_399_999_999_999).map(Nanos::get),
        Some(86_399_999_999_999),
    );
    equal(&rt, Nanos::of(86_400_000_000_000), None);
    equal(&rt, MemberNo::of(0), None);
    equal(&rt, MemberNo::of(1).map(MemberNo::get), Some(1));
    equal(&rt, MemberNo::of(4_095).map(MemberNo::get), Some(4_095));
    equal(&rt, MemberNo::of(4_096), None);
}

#[test]
fn sides(rt: HostRuntime) {
    for letter in *b"BSTE" {
        equal(&rt, Side::of(letter).map(Side::get), Some(letter));
        equal(
            &rt,
            Side::of(letter).map(Side::is_buy),
            Some(letter == b'B'),
        );
    }
    equal(&rt, Side::of(b'b'), None);
}

#[test]
fn heartbeats_after_a_second(rt: HostRuntime) {
    holds(&rt, !is_heartbeat_due(5, 1_000_000_004));
    holds(&rt, is_heartbeat_due(5, 1_000_000_005));
    holds(&rt, is_heartbeat_due(5, 4));
}

#[test]
fn want_of_memory(rt: HostRuntime) {
    equal(&rt, NoMemory::from(AllocError), NoMemory);
    let text = format!(in rt.alloc(); "{NoMemory}").expect(&rt, "memory");
    equal(&rt, text.as_str(), "no memory");
}

// The shares and the price of the order of 100 shares at 10 dollars, as they stand in its bytes.
#[test]
fn fields_of_a_message(rt: HostRuntime) {
    let bytes = b"\x00\x00\x00\x00\x00\x64\x00\x01\x86\xa0";
    equal(&rt, fields::array_at(bytes, 5), [100, 0]);
    equal(&rt, fields::u16_at(bytes, 4), 100);
    equal(&rt, fields::u32_at(bytes, 6), 100_000);
    equal(&rt, fields::u48_at(bytes, 0), 100);
    equal(&rt, fields::u64_at(bytes, 2), 429_496_829_600);
    equal(&rt, fields::u16_bytes(100), [0, 100]);
    equal(&rt, fields::u32_bytes(100_000), [0, 1, 0x86, 0xa0]);
    equal(&rt, fields::u48_bytes(100), [0, 0, 0, 0, 0, 100]);
    equal(
        &rt,
        fields::u64_bytes(100_000),
        [0, 0, 0, 0, 0, 1, 0x86, 0xa0],
    );
}
