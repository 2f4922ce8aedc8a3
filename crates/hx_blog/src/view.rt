//! What a seat of the log knows.
use std::collections::LinkedList;

/// What a seat of the log knows. It exists for contracts alone: no value of it is ever made.
pub struct View<E> {
    /// The seat was joined into another one.
    pub gone: bool,
    /// The seat is the writer's.
    pub writes: bool,
    /// The number of messages for which the log has room.
    pub room: u64,
    /// The entries that it knows, each an event with its messages.
    pub known: LinkedList<(E, LinkedList<LinkedList<u8>>)>,
    /// The entries known by the seat that was just joined into this one.
    pub received: LinkedList<(E, LinkedList<LinkedList<u8>>)>,
    /// The writer's messages above the count.
    pub staged: LinkedList<LinkedList<u8>>,
    /// The words so far of the message that the writer has begun to store.
    pub begun: LinkedList<u64>,
    /// The number of messages that it has read.
    pub read: u64,
    /// The number of times that it has loaded the count.
    pub loads: u64,
}
