//! A client's side of etcd's JSON gateway (etcd 3.4, `/v3/kv/txn`, `/v3/kv/range`, `/v3/kv/put` and
//! `/v3/kv/compaction`), for a log of records that several append to and that is trimmed up to what its copies have,
//! and for the heartbeats of its writers: the requests as texts, and what their answers say. There is no socket here.
#![tactic(auto)]

mod append;
mod connection;
mod copies;
mod documents;
mod heartbeats;
mod inlet;
mod keys;
mod parts;
mod range;
mod reported;
mod requests;
mod response;
mod trims;

pub use append::{Appended, read_append_answer};
pub use connection::Connection;
pub use copies::{copy_question, copy_request};
pub use heartbeats::{heartbeat_question, heartbeat_request, read_heartbeat_answer};
pub use keys::key;
pub use range::read_range_answer;
pub use reported::{Answer, AnswerError, Field};
pub use requests::{append_request, range_request};
pub use response::CallError;
pub use trims::{
    Trimmed, compaction_request, read_compaction_answer, read_trim_answer, trim_request,
};
