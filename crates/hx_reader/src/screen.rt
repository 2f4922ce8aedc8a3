//! A reader of the feed's datagrams, with the book of what it hands out.
ghost use Rattle.std.specs.Prelude.{◌≡◌, ◌≢◌, [], IfOk};
ghost use Rattle.hx_reader.specs.declared.fault.ApplyError.TheVariants as errors;
ghost use Rattle.hx_reader.specs.Readings.{opening, received, ready, handed};
ghost use Rattle.hx_reader.specs.Screens.{StepGives};

use crate::book::FeedBook;
use crate::fault::{ApplyError, ScreenError};
use crate::reader::FeedReader;
use hx_itch::{Feed, decode};
use hx_units::NoMemory;
use std::alloc::Global;

/// A reader of the feed's datagrams, and the book of the messages that it has handed out.
#[derive(Drop)]
pub struct Screen {
    /// What has come, and what is missing.
    pub reader: FeedReader,
    /// The book of all messages that were handed out.
    pub book: FeedBook,
}

impl Screen {
    /// A screen of a session that has seen nothing, whose reader has `indices` slots. It takes memory; its only error
    /// is that there is none.
    pub fn new(alloc: Global, session: [u8; 10], indices: usize) -> Result<Screen, NoMemory>
        ensures reader { IfOk result (λ s. s.reader ≡ opening session indices) }
        ensures book { IfOk result (λ s. s.book ≡ []) }
    {
        Ok(Screen {
            reader: FeedReader::new(alloc, session, indices)?,
            book: FeedBook::new(alloc),
        })
    }

    /// Takes a datagram, as the reader does. It takes no memory.
    pub fn receive(&mut self, datagram: &[u8])
        ensures reader { self.new.reader ≡ received self.old.reader datagram.now }
        ensures book { self.new.book ≡ self.old.book }
    {
        self.reader.receive(datagram);
    }

    /// Hands out the next message, applied to the book, or none if it has not come. Bytes that are no message, and a
    /// message that is none of a feed with this book, are gone with their error, and the book is as it was. If there is
    /// no memory for the order that the message adds, nothing changes: the next step hands out the same message.
    pub fn step(&mut self) -> Result<Option<Feed>, ScreenError>
        ensures { StepGives self.old self.new result }
    {
        let Some(bytes) = self.reader.peek() else {
            return Ok(None);
        };
        let Some(message) = decode(bytes.as_slice()) else {
            let _ = self.reader.hand_out();
            return Err(ScreenError::Unreadable);
        };
        match self.book.apply(&message) {
            Ok(()) => {
                let _ = self.reader.hand_out();
                Ok(Some(message))
            }
            Err(error) => {
                self.pass(error);
                Err(ScreenError::Apply(error))
            }
        }
    }

    // Passes the next message, which was not applied. If memory was wanted it stays.
    fn pass(&mut self, error: ApplyError)
        ensures retained { error ≡ errors.NoMemory → self.new.reader ≡ self.old.reader }
        ensures gone { error ≢ errors.NoMemory → self.new.reader
            ≡ handed self.old.reader (ready self.old.reader) }
        ensures book { self.new.book ≡ self.old.book }
    {
        match error {
            ApplyError::NoMemory => {}
            ApplyError::Unknown | ApplyError::Known | ApplyError::TooMany => {
                let _ = self.reader.hand_out();
            }
        }
    }
}
