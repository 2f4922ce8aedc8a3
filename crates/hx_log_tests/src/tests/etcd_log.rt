//! A log in an etcd whose nodes answer, or do not.

mod appends;
mod copied;
mod reads;
mod sockets;

use hx_etcd::Answer;
use hx_etcd_log::{AskError, EtcdLog, Nodes};
use hx_fenced_log::{Head, LogRecord};
use std::alloc::Global;
use std::process::Abort;
use std::sync::atomic::{AtomicU64, Ordering};

// What becomes of an ask.
#[derive(Clone, Copy)]
enum Turn {
    // This is answered.
    Says(&'static str),
    // The node has no leader, and answers that.
    Refuses,
    // The node is gone.
    Gone,
    // The node may do what it is asked. Its answer does not come.
    Loses,
}

// Which nodes were asked, in order: a digit each, 1 for the first node.
#[derive(Drop)]
struct Asked {
    nodes: AtomicU64,
}

impl Asked {
    fn new() -> Asked {
        Asked {
            nodes: AtomicU64::new(0),
        }
    }

    fn nodes(&self) -> u64 {
        self.nodes.load(Ordering::SeqCst)
    }

    fn note(&self, node: usize) {
        let digit = (node as u64).saturating_add(1);
        let nodes = self.nodes().saturating_mul(10).saturating_add(digit);
        self.nodes.store(nodes, Ordering::SeqCst);
    }
}

// Three nodes whose turns are these. After them all nodes are gone.
#[derive(Drop)]
struct Script<'a> {
    alloc: Global,
    turns: &'static [Turn],
    next: usize,
    asked: &'a Asked,
}

impl<'a> Script<'a> {
    fn of(alloc: Global, turns: &'static [Turn], asked: &'a Asked) -> Script<'a> {
        Script {
            alloc,
            turns,
            next: 0,
            asked,
        }
    }

    fn answer(&self, status: u16, text: &str) -> Result<Answer, AskError> {
        match Vec::from_slice(self.alloc, text.as_bytes()) {
            Ok(body) => Ok(Answer { status, body }),
            Err(_) => Err(AskError::Lost),
        }
    }
}

impl Nodes for Script<'_> {
    fn count(&self) -> usize {
        3
    }

    fn ask(&mut self, node: usize, _request: &[u8]) -> Result<Answer, AskError> {
        let turn = self.turns.get(self.next);
        self.next = self.next.saturating_add(1);
        self.asked.note(node);
        match turn {
            Some(Turn::Says(text)) => self.answer(200, text),
            Some(Turn::Refuses) => self.answer(503, "{}"),
            Some(Turn::Loses) => Err(AskError::Lost),
            Some(Turn::Gone) | None => Err(AskError::Unsent),
        }
    }
}

fn new_log<'a>(alloc: Global, turns: &'static [Turn], asked: &'a Asked) -> EtcdLog<Script<'a>> {
    EtcdLog::new(alloc, Script::of(alloc, turns, asked))
}

// The record `#NUMBER 1 WRITER 1`, without lines.
fn record(rt: &impl Abort, alloc: Global, number: u64, writer: u64) -> LogRecord {
    let head = Head {
        number,
        term: 1,
        writer,
        index: 1,
    };
    LogRecord::new(head, Vec::new(alloc)).expect(rt, "a record")
}

// An append is made.
const MADE: &str = r#"{"succeeded":true}"#;
