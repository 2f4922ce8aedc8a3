//! Resignation by the operator's word: what says so, and that the writer sends nothing to the log then.

use hx_etcd::Answer;
use hx_etcd_log::{AskError, Heartbeats, Nodes, TcpNodes};
use std::alloc::Global;
use std::net::{Net, TcpStream};
use std::sync::atomic::{AtomicBool, Ordering};

/// The number under which the operator says which writer resigns. No writer has it.
pub const OPERATOR: u64 = 0;

/// Whether the operator's word names this writer. It does not if no node answers.
pub fn is_named<N: Nodes>(alloc: Global, heartbeats: &mut Heartbeats<N>, writer: u64) -> bool {
    let Ok(Some(word)) = heartbeats.seen(OPERATOR) else {
        return false;
    };
    match format!(in alloc; "{writer}") {
        Ok(number) => word.as_slice() == number.as_bytes(),
        Err(_) => false,
    }
}

/// The nodes of a log over TCP for a writer that may resign: none of them is asked anything once it has.
#[derive(Drop)]
pub struct WriterNodes<'x, R> {
    /// The nodes.
    pub nodes: TcpNodes<'x, R>,
    /// Whether the writer has resigned.
    pub has_left: &'x AtomicBool,
}

impl<'x, R: Net<Stream = TcpStream>> Nodes for WriterNodes<'x, R> {
    fn count(&self) -> usize {
        self.nodes.count()
    }

    fn ask(&mut self, node: usize, request: &[u8]) -> Result<Answer, AskError> {
        if self.has_left.load(Ordering::SeqCst) {
            return Err(AskError::Unsent);
        }
        self.nodes.ask(node, request)
    }
}
