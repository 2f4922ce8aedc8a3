//! What only contracts know.
ghost use Rattle.std.specs.Prelude.{◌≡◌, List, [], ◌∷◌};
ghost use Rattle.std.specs.Borrow.{ftrue};
ghost use Rattle.hx_etcd_log.specs.Notes.{Note};

use std::marker::{Model, PhantomData};

/// A list of notes, the newest first. It has no bytes.
#[derive(Drop)]
pub struct Noted {
    marker: PhantomData<u8>,
    pub ghost notes: { List Note },
}

impl Model for Noted {
    ghost also_owns = { λ _. ftrue };
}

impl Noted {
    /// No note.
    pub fn new() -> Noted
        ensures { result.notes ≡ [] }
    {
        Noted {
            marker: PhantomData,
        }
    }

    /// Notes numbers and two texts.
    pub fn note(&mut self, _numbers: &[u64], _text: &[u8], _answer: &[u8])
        ensures { self.new.notes ≡ (_numbers.now, _text.now, _answer.now) ∷ self.old.notes }
    {}
}
