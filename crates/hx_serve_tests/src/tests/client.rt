//! A member's client (SoupBinTCP 3.00), and what it sends (OUCH 4.2), spelled out.

use super::{equal, holds};
use std::alloc::Global;
use std::io::{Read, Write};
use std::net::{Ipv4Addr, Net, TcpListener, TcpStream, UdpSocket};
use std::process::Abort;
use std::thread;
use std::time::{Clock, Duration};

/// An order to buy 100 shares of ABCD at 10.0000, displayed, under the token T1: an Enter Order message.
pub const BUY: &[u8; 49] =
    b"OT1            B\0\0\0\x64ABCD    \0\x01\x86\xa0\0\x01\x86\x9f    YON\0\0\0\0NR";

/// The first member's reply to it, after the time: an Accepted message with reference 1.
pub const BOUGHT: &[u8; 57] = b"T1            B\0\0\0\x64ABCD    \
     \0\x01\x86\xa0\0\x01\x86\x9fFMA1Y\0\0\0\0\0\0\0\x01ON\0\0\0\0NL ";

/// A hidden one under the token H1.
pub const HIDDEN: &[u8; 49] =
    b"OH1            B\0\0\0\x64ABCD    \0\x01\x86\xa0\0\x01\x86\x9f    NON\0\0\0\0NR";

/// The second member's reply to it, after the time: an Accepted message with that member's first private reference.
pub const HID: &[u8; 57] = b"H1            B\0\0\0\x64ABCD    \
     \0\x01\x86\xa0\0\x01\x86\x9fFMB2N\x80\0\x02\0\0\0\0\x01ON\0\0\0\0NL ";

/// The login of ALPHA, member 1, from the first reply on: a Login Request Packet's payload.
pub const ALPHA: &[u8; 46] = b"ALPHA PWALPHA                               1 ";

/// The login of BRAVO, member 2, in small letters.
pub const BRAVO: &[u8; 46] = b"bravo pwbravo                               1 ";

/// The answer to a login: session HX00000001, next reply 1.
pub const WELCOME: &[u8; 30] = b"HX00000001                   1";

/// A packet from the server: its type and its payload.
#[derive(Drop)]
pub struct Packet {
    pub kind: u8,
    pub payload: Vec<u8>,
}

/// A member's connection.
#[derive(Drop)]
pub struct Client {
    stream: TcpStream,
}

impl Client {
    /// Connects, as soon as the server listens.
    pub fn connect<R: Net<Listener = TcpListener, Stream = TcpStream> + Clock + Abort>(
        rt: &R,
        port: u16,
    ) -> Client {
        for _ in 0..1000 {
            if let Ok(stream) = TcpStream::connect(rt, (Ipv4Addr::new(127, 0, 0, 1), port)) {
                return Client::over(rt, stream);
            }
            thread::sleep(rt, Duration::from_millis(5));
        }
        panic!(rt; "nobody listens")
    }

    // Over a stream that sends at once, and waits for ten seconds.
    fn over<R: Abort>(rt: &R, stream: TcpStream) -> Client {
        stream.set_nodelay(true).expect(rt, "no delay");
        let limit = Some(Duration::from_secs(10));
        stream.set_read_timeout(limit).expect(rt, "a limit");
        Client { stream }
    }

    /// Sends a packet of at most 200 bytes.
    pub fn send<R: Abort>(&mut self, rt: &R, kind: u8, payload: &[u8]) {
        let count = payload.len().min(200);
        self.send_bytes(rt, &[0, count as u8 + 1, kind]);
        self.send_bytes(rt, &payload[..count]);
    }

    /// Sends bytes as they are.
    pub fn send_bytes<R: Abort>(&mut self, rt: &R, bytes: &[u8]) {
        self.stream
            .write_all(bytes)
            .expect(rt, "a line that is open");
    }

    /// The next packet; none if the server has closed the line.
    pub fn receive<R: Abort>(&mut self, rt: &R, alloc: Global) -> Option<Packet> {
        let mut head = [0; 3];
        if self.stream.read(&mut head[..1]).expect(rt, "a packet") == 0 {
            return None;
        }
        self.stream.read_exact(&mut head[1..]).expect(rt, "a head");
        let size = usize::from(u16::from_be_bytes([head[0], head[1]]));
        let payload = self.receive_bytes(rt, alloc, size.max(1) - 1);
        Some(Packet {
            kind: head[2],
            payload,
        })
    }

    // The next bytes.
    fn receive_bytes<R: Abort>(&mut self, rt: &R, alloc: Global, count: usize) -> Vec<u8> {
        let mut bytes = vec![in alloc; 0; count].expect(rt, "memory");
        self.stream.read_exact(&mut bytes).expect(rt, "a payload");
        bytes
    }

    /// The next packet that is no heartbeat.
    pub fn receive_other<R: Abort>(&mut self, rt: &R, alloc: Global) -> Option<Packet> {
        for _ in 0..100 {
            match self.receive(rt, alloc) {
                Some(packet) if packet.kind == b'H' => {}
                other => return other,
            }
        }
        panic!(rt; "only heartbeats")
    }

    /// The next packet that is no heartbeat: there is one.
    pub fn reply<R: Abort>(&mut self, rt: &R, alloc: Global) -> Packet {
        self.receive_other(rt, alloc).expect(rt, "a reply")
    }

    /// The next packet is of this kind.
    pub fn expect_kind<R: Abort>(&mut self, rt: &R, alloc: Global, kind: u8) {
        let packet = self.receive(rt, alloc).expect(rt, "a packet");
        equal(rt, packet.kind, kind);
    }

    /// The server has closed the line, and no packet came before.
    pub fn expect_no_packet<R: Abort>(&mut self, rt: &R, alloc: Global) {
        holds(rt, self.receive(rt, alloc).is_none());
    }

    /// The server has closed the line, and at most heartbeats came before.
    pub fn expect_no_reply<R: Abort>(&mut self, rt: &R, alloc: Global) {
        holds(rt, self.receive_other(rt, alloc).is_none());
    }
}

/// Ports that are free: for sessions and for requests.
pub fn free_ports<R: Net<Listener = TcpListener, Stream = TcpStream> + Abort>(
    rt: &R,
) -> (u16, u16) {
    let any = (Ipv4Addr::new(127, 0, 0, 1), 0);
    let sessions = TcpListener::bind(rt, any).expect(rt, "a listener");
    let requests = UdpSocket::bind(rt, any).expect(rt, "a socket");
    let (first, second) = (sessions.local_addr(), requests.local_addr());
    (
        first.expect(rt, "an address").port(),
        second.expect(rt, "an address").port(),
    )
}
