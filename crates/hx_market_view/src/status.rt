//! What the web page shows of the feed, as JSON.
ghost use Rattle.std.specs.Prelude.{◌≡◌, IfOk, option_to_list};
ghost use Rattle.json.specs.Print.{print};
ghost use Rattle.hx_market_view.specs.Texts.{Adds, status_tokens};

use crate::text::{write_flag, write_name, write_number};
use bytes::{ByteStr, Bytes};
use json::Writer;
use std::alloc::{AllocError, Global};

/// How far a feed is.
#[derive(Clone, Copy, Debug, PartialEq, Eq)]
pub struct Status {
    /// Its session.
    pub session: [u8; 10],
    /// The last code of the hours; none before the first.
    pub hours: Option<u8>,
    /// The time of its last message, in nanoseconds since midnight.
    pub time: u64,
    /// How many messages were handed out.
    pub messages: u64,
    /// How many more were announced, and have not come.
    pub missing: u64,
    /// How many were asked for so far.
    pub asked: u64,
    /// Whether nothing more comes.
    pub is_over: bool,
}

/// The text of a feed.
pub fn feed_text(alloc: Global, status: &Status) -> Result<ByteStr, AllocError>
    ensures { IfOk result (λ t. t ≡ print (status_tokens status.now)) }
{
    let mut writer = Writer::new(Vec::new(alloc));
    writer.begin_object()?;
    write_name(&mut writer, "session", &status.session)?;
    write_name(&mut writer, "hours", status.hours.as_slice())?;
    write_number(&mut writer, "time", status.time)?;
    write_number(&mut writer, "messages", status.messages)?;
    write_number(&mut writer, "missing", status.missing)?;
    write_number(&mut writer, "asked", status.asked)?;
    write_flag(&mut writer, "over", status.is_over)?;
    writer.end_object()?;
    Ok(ByteStr::from_known_utf8(Bytes::from_vec(writer.into_inner())?))
}
