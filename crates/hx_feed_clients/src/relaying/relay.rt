//! What a relay knows of a feed.
ghost use Rattle.std.specs.Prelude.{◌≡◌, List, ℕ, [], None, IfOk, OnOk, option_map};
ghost use Rattle.hx_reader.specs.Readings.{is_whole, ready, request_of};
ghost use Rattle.hx_reader.specs.Runs.{Step};
ghost use Rattle.hx_retransmit.specs.Turns.{Serves};
ghost use Rattle.hx_feed_clients.specs.Relays.{HasRead, HasTaken};

use arrayvec::ArrayVec;
use hx_mold::Request;
use hx_reader::FeedReader;
use hx_retransmit::{ListMessages, Server};
use hx_units::NoMemory;
use std::alloc::Global;
use std::slice;

/// A relay of the feed of one session. What its reader has handed out is what its server answers from.
#[derive(Drop)]
pub struct Relay {
    reader: FeedReader,
    server: Server<ListMessages>,
}

impl Relay {
    /// A relay of this session that knows no message, with `indices` slots for messages from the next one on.
    pub fn new(alloc: Global, session: [u8; 10], indices: usize) -> Result<Relay, NoMemory>
        ensures { IfOk result (HasRead session indices []) }
    {
        Ok(Relay {
            reader: FeedReader::new(alloc, session, indices)?,
            server: Server::new(session, ListMessages::new(alloc)),
        })
    }

    /// Takes a datagram, whatever its bytes: retains all messages that are next in order then. After `NoMemory` some of
    /// them are retained, and the next datagram brings the others.
    pub fn receive(&mut self, datagram: &[u8]) -> Result<(), NoMemory>
        ensures taken { (session : List ℕ) (indices : ℕ) (steps : List Step)
            → HasRead session indices steps self.old
            → HasTaken session indices steps datagram.now self.new }
        ensures all { OnOk result (ready self.new.reader ≡ None) }
    {
        self.reader.receive(datagram);
        while let Some(message) = self.reader.peek() {
            self.server.append(slice::from_ref(message))?;
            let _ = self.reader.hand_out();
        }
        Ok(())
    }

    /// The answer to the bytes of a request packet (MoldUDP64 1.00, Request Packet), from the messages that are
    /// retained, as `Server::answer` gives it.
    pub fn answer(&mut self, request: &[u8]) -> Option<ArrayVec<u8, 1400>>
        ensures reader { self.new.reader ≡ self.old.reader }
        ensures same { self.new.server ≡ self.old.server }
        ensures serves { Serves self.old.server.session request.now self.old.server.messages
            (option_map (λ p. p.items) result) }
    {
        self.server.answer(request)
    }

    /// The request for the messages that are missing, as `FeedReader::request` gives it.
    pub fn request(&self) -> Option<Request>
        ensures { result ≡ request_of self.now.reader }
    {
        self.reader.request()
    }

    /// Whether the session has ended and all its messages are retained.
    pub fn is_whole(&self) -> bool
        ensures { result ≡ is_whole self.now.reader }
    {
        self.reader.is_whole()
    }
}
