//! The nodes of an etcd over TCP.
use crate::{AskError, Nodes};
use hx_etcd::{Answer, Connection};
use hx_units::NoMemory;
use std::alloc::Global;
use std::io;
use std::net::{Net, SocketAddr, TcpStream};
use std::time::Duration;

// A node, and the connection to it that goes on, if there is one.
#[derive(Drop)]
struct Node {
    address: SocketAddr,
    line: Option<Connection<TcpStream, TcpStream>>,
}

/// The nodes of an etcd over TCP, without encryption. A connection is opened when a node is asked, and stays open until
/// a call over it fails.
#[derive(Drop)]
pub struct TcpNodes<'a, R> {
    net: &'a R,
    alloc: Global,
    nodes: Vec<Node>,
    patience: Duration,
}

impl<'a, R: Net<Stream = TcpStream>> TcpNodes<'a, R> {
    /// The nodes with these client addresses. The opening of a connection, each read and each write wait so long at
    /// most. No connection is opened yet.
    pub fn new(
        net: &'a R,
        alloc: Global,
        addresses: &[SocketAddr],
        patience: Duration,
    ) -> Result<TcpNodes<'a, R>, NoMemory> {
        let mut nodes = Vec::with_capacity(alloc, addresses.len())?;
        for address in addresses {
            nodes.push(Node {
                address: *address,
                line: None,
            })?;
        }
        Ok(TcpNodes {
            net,
            alloc,
            nodes,
            patience,
        })
    }
}

impl<'a, R: Net<Stream = TcpStream>> Nodes for TcpNodes<'a, R> {
    fn count(&self) -> usize {
        self.nodes.len()
    }

    fn ask(&mut self, node: usize, request: &[u8]) -> Result<Answer, AskError> {
        let Some(node) = self.nodes.get_mut(node) else {
            return Err(AskError::Unsent);
        };
        let mut line = match node.line.take() {
            Some(line) => line,
            None => match open(self.net, self.alloc, &node.address, self.patience) {
                Ok(line) => line,
                Err(_) => return Err(AskError::Unsent),
            },
        };
        let Ok(answer) = line.call(request) else {
            return Err(AskError::Lost);
        };
        if !line.is_over() {
            node.line = Some(line);
        }
        Ok(answer)
    }
}

// A connection to a node.
fn open<R: Net<Stream = TcpStream>>(
    net: &R,
    alloc: Global,
    address: &SocketAddr,
    patience: Duration,
) -> io::Result<Connection<TcpStream, TcpStream>> {
    let stream = TcpStream::connect_timeout(net, address, patience)?;
    stream.set_nodelay(true)?;
    stream.set_read_timeout(Some(patience))?;
    stream.set_write_timeout(Some(patience))?;
    let writer = stream.try_clone()?;
    Ok(Connection::new(alloc, stream, writer))
}
