//! A vendor, who listens to the feed and asks for messages again (MoldUDP64 1.00).

use super::equal;
use std::alloc::Global;
use std::net::{Ipv4Addr, Net, TcpListener, TcpStream, UdpSocket};
use std::process::Abort;
use std::time::Duration;

/// The count of a packet that ends the session.
pub const END: u64 = 65_535;

/// A packet of the feed: the number of its first message, how many there are, and their blocks.
#[derive(Drop)]
pub struct FeedPacket {
    pub sequence: u64,
    pub count: u64,
    pub blocks: Vec<u8>,
}

/// The first message of the feed but its time: stock 1, order 1 to buy 100 shares of ABCD at 10.0000.
pub const ADDED: &[u8; 25] = b"\0\0\0\0\0\0\0\x01B\0\0\0\x64ABCD    \0\x01\x86\xa0";

#[derive(Drop)]
pub struct Vendor {
    socket: UdpSocket,
}

// The number that these bytes are, the most significant first.
fn number(bytes: &[u8]) -> u64 {
    let mut number = 0u64;
    for byte in bytes {
        number = number.wrapping_mul(256).wrapping_add(u64::from(*byte));
    }
    number
}

// A packet from its bytes.
fn packet_of<R: Abort>(rt: &R, alloc: Global, bytes: &[u8]) -> FeedPacket {
    if bytes.len() < 20 {
        panic!(rt; "a short packet");
    }
    FeedPacket {
        sequence: number(&bytes[10..18]),
        count: number(&bytes[18..20]),
        blocks: Vec::from_slice(alloc, &bytes[20..]).expect(rt, "memory"),
    }
}

impl Vendor {
    /// Listens on a free port.
    pub fn listen<R: Net<Listener = TcpListener, Stream = TcpStream> + Abort>(rt: &R) -> Vendor {
        let any = (Ipv4Addr::new(127, 0, 0, 1), 0);
        let socket = UdpSocket::bind(rt, any).expect(rt, "a socket");
        let vendor = Vendor { socket };
        vendor.wait_for(rt, Duration::from_secs(10));
        vendor
    }

    // From now on a packet is waited for so long.
    fn wait_for<R: Abort>(&self, rt: &R, limit: Duration) {
        self.socket
            .set_read_timeout(Some(limit))
            .expect(rt, "a limit");
    }

    pub fn port<R: Abort>(&self, rt: &R) -> u16 {
        self.socket.local_addr().expect(rt, "an address").port()
    }

    /// The next packet.
    pub fn receive<R: Abort>(&self, rt: &R, alloc: Global) -> FeedPacket {
        let mut buffer = [0; 1500];
        let (count, _) = self.socket.recv_from(&mut buffer).expect(rt, "a packet");
        packet_of(rt, alloc, &buffer[..count])
    }

    /// The next packet that is no heartbeat.
    pub fn receive_other<R: Abort>(&self, rt: &R, alloc: Global) -> FeedPacket {
        for _ in 0..100 {
            let packet = self.receive(rt, alloc);
            if packet.count != 0 {
                return packet;
            }
        }
        panic!(rt; "only heartbeats")
    }

    /// Expects that the next packet with messages begins at this number, and holds `count` of them.
    pub fn expect_packet<R: Abort>(&self, rt: &R, alloc: Global, sequence: u64, count: u64) {
        let packet = self.receive_other(rt, alloc);
        equal(rt, (packet.sequence, packet.count), (sequence, count));
    }

    /// Listens to the end of the session, and returns how many messages came before it.
    pub fn hear_all<R: Abort>(&self, rt: &R, alloc: Global) -> u64 {
        let mut next = 1;
        for _ in 0..1000 {
            let packet = self.receive_other(rt, alloc);
            equal(rt, packet.sequence, next);
            if packet.count == END {
                return next.saturating_sub(1);
            }
            next = next.saturating_add(packet.count);
        }
        panic!(rt; "no end")
    }

    /// Whether nothing more comes for a while.
    pub fn hears_no_more<R: Abort>(&self, rt: &R) -> bool {
        let mut buffer = [0; 1500];
        self.wait_for(rt, Duration::from_millis(200));
        self.socket.recv_from(&mut buffer).is_err()
    }

    /// Whether the end of the session is among the packets that come until none comes for a while.
    pub fn hears_the_end<R: Abort>(&self, rt: &R) -> bool {
        let mut buffer = [0; 1500];
        self.wait_for(rt, Duration::from_millis(200));
        for _ in 0..1000 {
            let Ok((count, _)) = self.socket.recv_from(&mut buffer) else {
                return false;
            };
            if count >= 20 && number(&buffer[18..20]) == END {
                return true;
            }
        }
        false
    }

    /// Asks for the message of this number, at most 255.
    pub fn ask<R: Abort>(&self, rt: &R, requests: u16, message: u8) {
        let mut request = *b"HX00000001\0\0\0\0\0\0\0\0\0\x01";
        request[17] = message;
        let to = (Ipv4Addr::new(127, 0, 0, 1), requests);
        self.socket.send_to(&request, to).expect(rt, "a request");
    }
}
