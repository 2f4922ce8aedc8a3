//! A question to any node of an etcd.
use crate::{AskError, Nodes};
use hx_etcd::Answer;

/// The first answer of status 200, of the nodes from the one whose turn it is on, each asked once. The next turn begins
/// with the node that gave it.
pub(crate) fn ask_in_turn<N: Nodes>(
    nodes: &mut N,
    turn: &mut usize,
    request: &[u8],
) -> Result<Answer, AskError> {
    let mut error = AskError::Unsent;
    for _ in 0..nodes.count() {
        match nodes.ask(*turn, request) {
            Ok(answer) if answer.status == 200 => return Ok(answer),
            Ok(_) => error = AskError::Lost,
            Err(other) => error = other,
        }
        *turn = match turn.checked_add(1) {
            Some(next) if next < nodes.count() => next,
            _ => 0,
        };
    }
    Err(error)
}
