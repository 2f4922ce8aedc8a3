//! What the copies of a log show in an etcd, and how the log is trimmed.
ghost use Rattle.std.specs.Prelude.{◌≡◌, ◌<◌, ◌≤◌, ◌+◌, ℕ, [], IfSome, IfNone};
ghost use Rattle.std.specs.List.{AllByRecursion};
ghost use Rattle.hx_etcd_log.specs.Trims.{HasAfter, IsLeast, lesser};

use crate::turns::ask_in_turn;
use crate::{AskError, Nodes};
use hx_etcd::{
    AnswerError, Trimmed, compaction_request, copy_question, copy_request, range_request,
    read_compaction_answer, read_heartbeat_answer, read_range_answer, read_trim_answer,
    trim_request,
};
use hx_fenced_log::LogRecord;
use hx_units::read_number;
use std::alloc::Global;

/// The copies of a log, as they show in an etcd of these nodes how much they have, and the trimming of the log.
#[derive(Drop)]
pub struct Copies<N> {
    alloc: Global,
    nodes: N,
    // The node that is asked next.
    turn: usize,
}

impl<N: Nodes> Copies<N> {
    /// No node was asked yet.
    pub fn new(alloc: Global, nodes: N) -> Copies<N> {
        Copies {
            alloc,
            nodes,
            turn: 0,
        }
    }

    /// Shows that a copy surely has `count` records, and returns whether a node took it.
    pub fn show(&mut self, copy: u64, count: u64) -> bool {
        match copy_request(self.alloc, copy, count) {
            Ok(request) => ask_in_turn(&mut self.nodes, &mut self.turn, &request).is_ok(),
            Err(_) => false,
        }
    }

    /// How many records a copy has shown last; none if it has shown none.
    ///
    /// Errors: no node gave an answer that reports it.
    pub fn seen(&mut self, copy: u64) -> Result<Option<u64>, AskError> {
        let Ok(question) = copy_question(self.alloc, copy) else {
            return Err(AskError::Unsent);
        };
        let answer = ask_in_turn(&mut self.nodes, &mut self.turn, &question)?;
        match read_heartbeat_answer(self.alloc, &answer) {
            Ok(Some(text)) => Ok(read_number(&text)),
            Ok(None) => Ok(None),
            Err(_) => Err(AskError::Lost),
        }
    }

    /// The record of this number, if it stands; none if it does not.
    ///
    /// Errors: no node gave an answer that reports it.
    pub fn stands(&mut self, number: u64) -> Result<Option<LogRecord>, AskError> {
        let Ok(request) = range_request(self.alloc, number, 1) else {
            return Err(AskError::Unsent);
        };
        let answer = ask_in_turn(&mut self.nodes, &mut self.turn, &request)?;
        match read_range_answer(self.alloc, number, &answer) {
            Ok(mut found) => Ok(found.pop()),
            Err(AnswerError::NoKey { .. }) => Ok(None),
            Err(_) => Err(AskError::Lost),
        }
    }

    /// Deletes the records in front of the one of this number, if that stands. The answer says what became of it.
    ///
    /// Errors: no node gave an answer that reports it. They may be deleted.
    pub fn trim(&mut self, number: u64) -> Result<Trimmed, AskError> {
        let Ok(request) = trim_request(self.alloc, number) else {
            return Err(AskError::Unsent);
        };
        let answer = ask_in_turn(&mut self.nodes, &mut self.turn, &request)?;
        read_trim_answer(self.alloc, &answer).map_err(|_| AskError::Lost)
    }

    /// Frees what was deleted before a revision, and returns whether a node has done so.
    pub fn compact(&mut self, revision: u64) -> bool {
        let Ok(request) = compaction_request(self.alloc, revision) else {
            return false;
        };
        match ask_in_turn(&mut self.nodes, &mut self.turn, &request) {
            Ok(answer) => read_compaction_answer(self.alloc, &answer).is_ok(),
            Err(_) => false,
        }
    }
}

/// The record in front of which a log may be trimmed, if its copies have these numbers of records: the last one that
/// each of them has, with `stay` records after it. None if a copy has shown nothing, or too few.
pub fn trim_index(counts: &[Option<u64>], stay: u64) -> Option<u64>
    ensures some { IfSome result (λ n. (1 < n) × AllByRecursion (HasAfter n stay) counts.now) }
    ensures last { IfSome result (λ n. (m : ℕ) → AllByRecursion (HasAfter m stay) counts.now → m ≤ n) }
    ensures none { IfNone result ((n : ℕ) → 1 < n → AllByRecursion (HasAfter n stay) counts.now
        → counts.now ≡ []) }
{
    let least = least_of(counts)?;
    if least <= stay {
        return None;
    }
    let index = least - stay;
    if index > 1 { Some(index) } else { None }
}

// The least of what copies have shown; none if one of them has shown nothing, or there is none.
fn least_of(counts: &[Option<u64>]) -> Option<u64>
    ensures some { IfSome result (IsLeast counts.now) }
    ensures none { IfNone result ((n stay : ℕ) → AllByRecursion (HasAfter n stay) counts.now
        → counts.now ≡ []) }
{
    let mut least = None;
    for count in counts {
        let Some(count) = *count else {
            return None;
        };
        least = lesser(least, count);
    }
    least
}

// The lesser of two numbers, of which the first may not be there.
fn lesser(one: Option<u64>, other: u64) -> Option<u64>
    ensures { result ≡ lesser one other }
{
    match one {
        Some(one) => Some(one.min(other)),
        None => Some(other),
    }
}
