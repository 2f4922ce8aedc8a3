use super::record;
use crate::tests::equal;
use hx_etcd_log::{EtcdLog, TcpNodes};
use hx_fenced_log::Log;
use std::alloc::Global;
use std::io;
use std::io::{Read, Write};
use std::net::{Ipv4Addr, Net, SocketAddr, TcpListener, TcpStream};
use std::process::Abort;
use std::thread::join;
use std::time::Duration;

// A listener on a free port, and its address.
fn listen<R: Net<Listener = TcpListener, Stream = TcpStream> + Abort>(
    rt: &R,
) -> (TcpListener, SocketAddr) {
    let listener = TcpListener::bind(rt, (Ipv4Addr::new(127, 0, 0, 1), 0)).expect(rt, "a listener");
    let address = listener.local_addr().expect(rt, "an address");
    (listener, address)
}

// What a node says to each of two requests.
const SAYS: &[u8] = b"HTTP/1.1 200 OK\r\nContent-Length: 18\r\n\r\n{\"succeeded\":true}";

// A node that answers two requests over one connection, each of which comes in one piece.
fn answer_two(listener: TcpListener) -> io::Result<()> {
    let (mut stream, _from) = listener.accept()?;
    stream.set_read_timeout(Some(Duration::from_secs(10)))?;
    for _ in 0..2 {
        let mut request = [0; 4096];
        let _count = stream.read(&mut request)?;
        stream.write_all(SAYS)?;
    }
    Ok(())
}

// Appends two records over a node that is gone and one that is there.
fn append_two<R: Net<Stream = TcpStream> + Abort>(rt: &R, alloc: Global, addresses: &[SocketAddr]) {
    let nodes = TcpNodes::new(rt, alloc, addresses, Duration::from_secs(10)).expect(rt, "nodes");
    let mut log = EtcdLog::new(alloc, nodes);
    equal(rt, log.append(&record(rt, alloc, 1, 7)), Ok(()));
    equal(rt, log.append(&record(rt, alloc, 2, 7)), Ok(()));
}

#[test]
fn a_node_on_loopback_answers(rt: HostRuntime) {
    let alloc = rt.alloc();
    let (gone, first) = listen(&rt);
    drop(gone);
    let (listener, second) = listen(&rt);
    let (answered, _) = join(
        &rt,
        || answer_two(listener),
        || append_two(&rt, alloc, &[first, second]),
    );
    answered.expect(&rt, "two requests that are answered");
}
