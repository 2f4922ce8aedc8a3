//! Nodes are asked for records.
ghost use Rattle.std.specs.Prelude.{◌≡◌, ◌+◌, length, IfOk, IfErr, IfSome, OnOk};
ghost use Rattle.hx_etcd_log.specs.Asks.{OneSince, Tells, IsMissed, IsNotReported};
ghost use Rattle.hx_etcd_log.specs.EtcdLogs.{asks_of};
ghost use Rattle.hx_etcd_log.specs.Reads.{asking_from, IsFaultFound, IsFoundIn, IsFetched, IsFetchFault};

use crate::asking::{error_of, lost_after};
use crate::{AskError, EtcdLog, Nodes};
use hx_etcd::{Answer, AnswerError, range_request, read_range_answer};
use hx_fenced_log::{LogError, LogRecord};
use std::alloc::Global;

// The number of records that are asked for at once.
const MOST_RECORDS: u64 = 100;

// What an answer says of the next records.
#[derive(Drop)]
pub(crate) enum Found {
    // Some of them, or none if none stands there.
    Page(Vec<LogRecord>),
    // The first of them is not there, and later ones are.
    Gone,
    // What stands at this number is no record of it.
    Bad(u64),
}

impl<N: Nodes> EtcdLog<N> {
    // Asks for the next records, and retains them.
    pub(crate) fn fetch(&mut self) -> Result<(), LogError>
        ensures ok { OnOk result (IsFetched self.old self.new) }
        ensures err { IfErr result (IsFetchFault self.old self.new) }
    {
        let from = self.reported.len() + 1;
        match self.ask_for_records(from)? {
            Found::Page(page) => {
                self.reported.add_page(page);
                Ok(())
            }
            Found::Gone => Err(LogError::Trimmed { number: from }),
            Found::Bad(number) => Err(LogError::NoRecord { number }),
        }
    }

    // Asks the nodes in turn for the records from a number on, until an answer says what stands there.
    fn ask_for_records(&mut self, from: u64) -> Result<Found, LogError>
        ensures known { self.new.reported ≡ self.old.reported }
        ensures ok { IfOk result (λ found. OneSince
            (Tells (asking_from from) (λ answer. IsFoundIn from answer found))
            (asks_of self.old) (asks_of self.new)) }
        ensures err { IfErr result (IsNotReported (asks_of self.old) (asks_of self.new)) }
    {
        let request = range_request(self.alloc, from, MOST_RECORDS)?;
        let mut is_lost = false;
        for _ in 0..self.tries() {
            match self.try_to_read(&request, from) {
                Ok(found) => return Ok(found),
                Err(error) => is_lost = lost_after(is_lost, error),
            }
        }
        Err(error_of(is_lost))
    }

    // Asks one node for the records from a number on.
    fn try_to_read(&mut self, request: &[u8], from: u64) -> Result<Found, AskError>
        ensures known { self.new.reported ≡ self.old.reported }
        ensures ok { IfOk result (λ found. OneSince
            (Tells request.now (λ answer. IsFoundIn from answer found))
            (asks_of self.old) (asks_of self.new)) }
        ensures err { IfErr result (IsMissed (asks_of self.old) (asks_of self.new)) }
    {
        match self.ask(request) {
            Ok(answer) => {
                if let Some(found) = read_found(self.alloc, from, &answer) {
                    return Ok(found);
                }
                self.turn();
                Err(AskError::Lost)
            }
            Err(error) => {
                self.turn();
                Err(error)
            }
        }
    }
}

// What an answer says of the records from a number on.
fn read_found(alloc: Global, from: u64, answer: &Answer) -> Option<Found>
    ensures { IfSome result (IsFoundIn from answer.now) }
{
    match read_range_answer(alloc, from, answer) {
        Ok(page) => Some(Found::Page(page)),
        Err(error) => fault_found(from, &error),
    }
}

// What an answer that is wrong says of the records from a number on.
fn fault_found(from: u64, error: &AnswerError) -> Option<Found>
    ensures { IfSome result (IsFaultFound from error.now) }
{
    match *error {
        AnswerError::NoKey { number } if number == from => Some(Found::Gone),
        AnswerError::NoKey { number }
        | AnswerError::OtherNumber { number }
        | AnswerError::NoRecord { number, .. } => Some(Found::Bad(number)),
        _ => None,
    }
}
