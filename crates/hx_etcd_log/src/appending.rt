//! Nodes are asked to append a record.
ghost use Rattle.std.specs.Prelude.{◌≡◌, IfOk, IfErr};
ghost use Rattle.hx_etcd.specs.Answers.{IsAppended};
ghost use Rattle.hx_etcd_log.specs.Asks.{OneSince, Tells, IsMissed, IsNotReported};
ghost use Rattle.hx_etcd_log.specs.EtcdLogs.{asks_of};
ghost use Rattle.hx_etcd_log.specs.Appends.{appending};

use crate::asking::{error_of, lost_after};
use crate::{AskError, EtcdLog, Nodes};
use hx_etcd::{Appended, append_request, read_append_answer};
use hx_fenced_log::{LogError, LogRecord};

impl<N: Nodes> EtcdLog<N> {
    // Asks the nodes in turn to append a record, until an answer says what stands at its number.
    pub(crate) fn ask_to_append(&mut self, next: &LogRecord) -> Result<Appended, LogError>
        ensures known { self.new.reported ≡ self.old.reported }
        ensures ok { IfOk result (λ said. OneSince
            (Tells (appending next.now) (λ answer. IsAppended next.now.head.number answer said))
            (asks_of self.old) (asks_of self.new)) }
        ensures err { IfErr result (IsNotReported (asks_of self.old) (asks_of self.new)) }
    {
        let number = next.head().number;
        let request = append_request(self.alloc, next)?;
        let mut is_lost = false;
        for _ in 0..self.tries() {
            match self.try_to_append(&request, number) {
                Ok(said) => return Ok(said),
                Err(error) => is_lost = lost_after(is_lost, error),
            }
        }
        Err(error_of(is_lost))
    }

    // Asks one node to append a record of this number.
    fn try_to_append(&mut self, request: &[u8], number: u64) -> Result<Appended, AskError>
        ensures known { self.new.reported ≡ self.old.reported }
        ensures ok { IfOk result (λ said. OneSince
            (Tells request.now (λ answer. IsAppended number answer said))
            (asks_of self.old) (asks_of self.new)) }
        ensures err { IfErr result (IsMissed (asks_of self.old) (asks_of self.new)) }
    {
        match self.ask(request) {
            Ok(answer) => {
                if let Ok(said) = read_append_answer(self.alloc, number, &answer) {
                    return Ok(said);
                }
                self.turn();
                Err(AskError::Lost)
            }
            Err(error) => {
                self.turn();
                Err(error)
            }
        }
    }
}
