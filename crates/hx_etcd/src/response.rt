//! Answers as they come over a connection (HTTP/1.1, RFC 9112).
ghost use Rattle.std.specs.Prelude.{◌≡◌, IfOk, IfErr};
ghost use Rattle.http1.specs.Decoder.{decoder_for};
ghost use Rattle.hx_etcd.specs.Pieces.{FindsHead, HasBadHead, IsPieceOf, HasBadPiece};
ghost use Rattle.hx_etcd.specs.Responses.{limits};
ghost use Rattle.hx_etcd.specs.declared.response.CallError.TheVariants.{Http, NoMemory, Stream};

use http1::decode::{Decoded, Decoder};
use http1::fields::KnownFields;
use http1::framing::{Framing, MethodKind, response_framing};
use http1::{Limits, ReadError};
use httparse::Status;
use httparse::spans::{EMPTY_HEADER_SPAN, parse_response};
use std::alloc::AllocError;
use std::io;

// The most bytes of a head.
const MOST_HEAD: usize = 16 * 1024;

// The most fields of a head; of the fields after chunks, too.
const MOST_FIELDS: usize = 64;

/// Why a call has no answer.
#[derive(Debug, Drop)]
pub enum CallError {
    /// The connection is over: an earlier call had no answer, or the answer to it was the last one.
    Over,
    /// The stream failed.
    Stream(io::Error),
    /// The stream ended before the answer did.
    Ended,
    /// What came is no answer of HTTP/1.1, or passes a limit: a head of 16 KiB, 64 fields.
    Http(ReadError),
    /// What came has no length, and goes on to the end of the stream.
    NoLength,
    /// More than 2 GiB came of a body, and it has not ended.
    TooLong,
    /// A growth was refused.
    NoMemory,
}

impl From<AllocError> for CallError {
    ghost from_gives = { λ _ e. e ≡ NoMemory };

    fn from(_error: AllocError) -> CallError {
        CallError::NoMemory
    }
}

impl From<io::Error> for CallError {
    ghost from_gives = { λ error e. e ≡ Stream error };

    fn from(error: io::Error) -> CallError {
        CallError::Stream(error)
    }
}

impl From<ReadError> for CallError {
    ghost from_gives = { λ error e. e ≡ Http error };

    fn from(error: ReadError) -> CallError {
        CallError::Http(error)
    }
}

// The head of an answer.
#[derive(Clone, Copy, Drop)]
pub(crate) struct Head {
    // Its status.
    pub(crate) status: u16,
    // Where its body ends.
    pub(crate) framing: Framing,
    // Whether the connection goes on after it.
    pub(crate) is_persistent: bool,
    // How many bytes it has.
    pub(crate) len: usize,
}

// The head at the front of the bytes that have come; none if it is not whole yet.
pub(crate) fn read_head(input: &[u8]) -> Result<Option<Head>, CallError>
    ensures ok { IfOk result (FindsHead input.now) }
    ensures err { IfErr result (HasBadHead input.now) }
{
    let mut fields = [EMPTY_HEADER_SPAN; MOST_FIELDS];
    match parse_response(input, &mut fields) {
        Ok(Status::Complete(head)) if head.len > MOST_HEAD => {
            Err(CallError::Http(ReadError::TooLarge))
        }
        Ok(Status::Complete(head)) => {
            let known = KnownFields::from_spans(input, &fields[..head.headers]);
            match response_framing(MethodKind::Other, head.code, head.version, &known) {
                Ok(Framing::UntilClose) => Err(CallError::NoLength),
                Ok(framing) => Ok(Some(Head {
                    status: head.code,
                    framing,
                    is_persistent: head.version > 0 && head.code >= 200 && !known.close,
                    len: head.len,
                })),
                Err(error) => Err(CallError::Http(ReadError::Framing(error))),
            }
        }
        Ok(Status::Partial) if input.len() >= MOST_HEAD => {
            Err(CallError::Http(ReadError::TooLarge))
        }
        Ok(Status::Partial) => Ok(None),
        Err(error) => Err(CallError::Http(ReadError::Parse(error))),
    }
}

// How far a body was read.
#[derive(Clone, Copy, Drop)]
pub(crate) struct Piece {
    // How many bytes of the input are done with.
    pub(crate) len: usize,
    // Whether the body ends there.
    pub(crate) is_last: bool,
}

// Adds to a body what has come of it.
pub(crate) fn read_piece(
    decoder: &mut Decoder,
    input: &[u8],
    body: &mut Vec<u8>,
) -> Result<Piece, CallError>
    ensures ok { IfOk result (λ piece.
        IsPieceOf decoder.old input.now decoder.new body.old.items body.new.items piece) }
    ensures err { IfErr result (HasBadPiece decoder.old input.now) }
{
    let mut trailers = [EMPTY_HEADER_SPAN; MOST_FIELDS];
    let mut at = 0;
    'parts: loop {
        let rest = &input[at..];
        match decoder.decode(rest, &mut trailers)? {
            Decoded::NeedMore(len) => {
                return Ok(Piece {
                    len: at + len,
                    is_last: false,
                });
            }
            Decoded::Data(span) => {
                body.extend_from_slice(span.of(rest))?;
                at += span.end;
            }
            Decoded::End { len, .. } => {
                return Ok(Piece {
                    len: at + len,
                    is_last: true,
                });
            }
        }
    }
}

// The decoder of a body.
pub(crate) fn decoder_of(head: &Head) -> Decoder
    ensures { result ≡ decoder_for limits head.now.framing }
{
    let most = Limits {
        max_head_len: MOST_HEAD,
        max_extensions_len: MOST_HEAD,
        max_trailers_len: MOST_HEAD,
    };
    Decoder::new(head.framing, &most)
}
