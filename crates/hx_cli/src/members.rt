//! How far an audit is.

use crate::progress::ProgressLine;
use hx_report::Progress;

/// Shows how many members are done.
#[derive(Drop)]
pub(crate) struct Members<'a, R> {
    progress_line: ProgressLine<'a, R>,
}

impl<'a, R: Eprint> Members<'a, R> {
    /// None yet.
    pub(crate) fn new(rt: &'a R) -> Members<'a, R> {
        Members {
            progress_line: ProgressLine::new(rt),
        }
    }
}

impl<R: Eprint> Progress for Members<'_, R> {
    fn tell(&mut self, done: usize, of: usize) {
        self.progress_line.tell("members", done as u64, of as u64);
        if done == of {
            self.progress_line.end();
        }
    }
}
