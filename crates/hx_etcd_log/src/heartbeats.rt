//! The heartbeats of a log's writers, in an etcd.
use crate::turns::ask_in_turn;
use crate::{AskError, Nodes};
use hx_etcd::{heartbeat_question, heartbeat_request, read_heartbeat_answer};
use std::alloc::Global;

/// The heartbeats that writers write to an etcd of these nodes. Nothing is promised of them: by them a standby only
/// decides when it takes over. The log says which writer is active.
#[derive(Drop)]
pub struct Heartbeats<N> {
    alloc: Global,
    nodes: N,
    // The node that is asked next.
    turn: usize,
}

impl<N: Nodes> Heartbeats<N> {
    /// No node was asked yet.
    pub fn new(alloc: Global, nodes: N) -> Heartbeats<N> {
        Heartbeats {
            alloc,
            nodes,
            turn: 0,
        }
    }

    /// Writes this heartbeat of a writer over its last one, and returns whether a node took it.
    pub fn show(&mut self, writer: u64, heartbeat: &[u8]) -> bool {
        match heartbeat_request(self.alloc, writer, heartbeat) {
            Ok(request) => ask_in_turn(&mut self.nodes, &mut self.turn, &request).is_ok(),
            Err(_) => false,
        }
    }

    /// The heartbeat that a writer has written last; none if it has written none.
    ///
    /// Errors: no node gave an answer that reports it.
    pub fn seen(&mut self, writer: u64) -> Result<Option<Vec<u8>>, AskError> {
        let Ok(question) = heartbeat_question(self.alloc, writer) else {
            return Err(AskError::Unsent);
        };
        let answer = ask_in_turn(&mut self.nodes, &mut self.turn, &question)?;
        read_heartbeat_answer(self.alloc, &answer).map_err(|_| AskError::Lost)
    }
}
