//! What became of events that were handed in at once.
ghost use Rattle.std.specs.Prelude.{◌≡◌, Some, None};

use crate::answers::SubmitError;
use hx_blog::Receipt;
use hx_desk::{Done, Entry};

/// The number of events that were admitted, the answer for the last of them, and why the next one was refused.
#[derive(Drop)]
pub struct Entered {
    pub count: usize,
    pub last: Done,
    pub refused: Option<SubmitError>,
    /// The number of orders that the market passed over for them.
    pub passed: u64,
    /// A receipt for all that is published, if they were published at once.
    pub published_end: Option<Receipt<Entry>>,
}

impl Entered {
    /// The first `count` events were admitted, the last of them with this answer, and none was refused.
    pub fn up_to(count: usize, last: Done, passed: u64) -> Entered
        ensures { result ≡ record {
          count = count;
          last = last;
          refused = None;
          passed = passed;
          published_end = None;
        } }
    {
        Entered {
            count,
            last,
            refused: None,
            passed,
            published_end: None,
        }
    }

    /// The first `count` events were admitted, the last of them with this answer; the next one was refused.
    pub fn but_for(count: usize, last: Done, error: SubmitError, passed: u64) -> Entered
        ensures { result ≡ record {
          count = count;
          last = last;
          refused = Some error;
          passed = passed;
          published_end = None;
        } }
    {
        Entered {
            count,
            last,
            refused: Some(error),
            passed,
            published_end: None,
        }
    }

    /// None, since the first of them was refused.
    pub fn none(error: SubmitError) -> Entered
        ensures { result ≡ record {
          count = 0;
          last = record { place = 0; first = 0; count = 0 };
          refused = Some error;
          passed = 0;
          published_end = None;
        } }
    {
        Entered {
            count: 0,
            last: Done {
                place: 0,
                first: 0,
                count: 0,
            },
            refused: Some(error),
            passed: 0,
            published_end: None,
        }
    }
}
