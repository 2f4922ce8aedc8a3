//! Packets of messages 1 to 40, under the session HX00000001 (MoldUDP64 1.00).

use arrayvec::ArrayVec;
use hx_units::NoMemory;
use std::alloc::Global;

/// The session of the day.
pub const SESSION: [u8; 10] = *b"HX00000001";

/// Messages of 36 bytes and of type A, with these numbers as their last bytes.
pub fn numbered(alloc: Global, from: u8, to: u8) -> Result<Vec<ArrayVec<u8, 44>>, NoMemory> {
    let mut messages = Vec::new(alloc);
    for i in from..to {
        let mut message = ArrayVec::new();
        let _ = message.try_extend_from_slice(&[b'A'; 35]);
        let _ = message.try_push(i);
        messages.push(message)?;
    }
    Ok(messages)
}

/// A header, then each of the messages after its length, 36.
pub fn spelled(
    alloc: Global,
    header: &[u8],
    messages: &[ArrayVec<u8, 44>],
) -> Result<Vec<u8>, NoMemory> {
    let mut bytes = Vec::new(alloc);
    bytes.extend_from_slice(header)?;
    for message in messages {
        bytes.extend_from_slice(b"\x00\x24")?;
        bytes.extend_from_slice(message.as_slice())?;
    }
    Ok(bytes)
}

/// The packet of messages 1 to 36 of forty, which is full.
pub fn first_packet(alloc: Global) -> Result<Vec<u8>, NoMemory> {
    let header = b"HX00000001\0\0\0\0\0\0\0\x01\0\x24";
    spelled(alloc, header, &numbered(alloc, 0, 36)?)
}

/// The packet of the last four.
pub fn last_packet(alloc: Global) -> Result<Vec<u8>, NoMemory> {
    let header = b"HX00000001\0\0\0\0\0\0\0\x25\0\x04";
    spelled(alloc, header, &numbered(alloc, 36, 40)?)
}
