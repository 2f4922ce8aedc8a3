//! The nodes of an etcd.
use hx_etcd::Answer;

/// Why a node gives no answer.
#[derive(Clone, Copy, Debug, PartialEq, Eq, Drop)]
pub enum AskError {
    /// No byte of the request was sent.
    Unsent,
    /// Some of the request may have been sent, and no whole answer came, or there was no memory for it.
    Lost,
}

/// The nodes of an etcd, as they answer: nothing is promised. `EtcdLog` notes each ask.
pub trait Nodes {
    /// How many there are.
    fn count(&self) -> usize;

    /// Sends a node, counted from 0, a whole request, and reads its answer.
    fn ask(&mut self, node: usize, request: &[u8]) -> Result<Answer, AskError>;
}
