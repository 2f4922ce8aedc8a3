//! The commands over the log of a day in an etcd: its tape and a copy of it are written, it is trimmed after its
//! copies, and the standby takes over by a handover; and what a server needs of that log: its nodes, its contenders,
//! and the heartbeat of the active writer.
#![tactic(auto)]

mod contender;
mod copy;
mod copy_file;
mod fault;
mod follow;
mod handover;
mod heartbeats;
mod leaving;
mod nodes;
mod trim;

pub use contender::{ActiveJournal, Contender, active_log_of, is_deposed};
pub use copy::copy_log;
pub use fault::LogCommandError;
pub use follow::follow_log;
pub use handover::hand_over;
pub use heartbeats::{Heartbeat, HeartbeatWatch};
pub use leaving::WriterNodes;
pub use nodes::{FileLog, heartbeats_of, nodes_of};
pub use trim::trim_log;
