//! What an exchange asks of a journal.
ghost use Rattle.std.specs.Prelude.{◌≡◌, ℕ, Bool, true, false, List, [], ◌∷◌, ◌++◌, OnOk, OnErr, IfErr, IsErrOf};
ghost use Rattle.hx_journal.specs.Errors.{IsCause};
ghost use Rattle.hx_journal.specs.Records.{IsRecord};
ghost use Rattle.hx_journal.specs.Crashes.{Leaves, IsBetween};

use crate::JournalError;

/// A list of records that outlives a crash. What recovery reads after one is between what is
/// durable and what was appended: it begins with the one, and is a beginning of the other.
pub trait Journal {
    /// The records that were appended.
    ghost appended: { Self → List (List ℕ) };

    /// The first of them, which are synced: each crash leaves these.
    ghost durable: { Self → List (List ℕ) };

    /// Whether no sync has failed. A journal that is closed promises nothing but that it does
    /// nothing.
    ghost is_open: { Self → Bool };

    /// How many calls of what is below have failed.
    ghost faults: { Self → ℕ };

    /// The moment, as a number that does not fall.
    ghost moment: { Self → ℕ };

    /// What recovery reads after a crash at some moment from that one on, during a call or between
    /// two.
    ghost left_since: { Self → ℕ → List (List ℕ) → Type 0 };

    /// Appends a record. No crash loses it once `sync` has answered Ok. After `Memory` and `Full`
    /// the journal is as it was.
    fn append(&mut self, bytes: &[u8]) -> Result<(), JournalError>
        requires record_is { IsRecord bytes.now }

        ensures appended { OnOk result (appended self.new ≡ appended self.old ++ bytes.now ∷ []) }
        ensures refused { OnErr result (appended self.new ≡ appended self.old) }
        ensures durable { durable self.new ≡ durable self.old }
        ensures still { is_open self.new ≡ is_open self.old }
        ensures was_open { OnOk result (is_open self.old ≡ true) }
        ensures closed { IsErrOf result JournalError.Closed → is_open self.old ≡ false }
        ensures cause { IfErr result (λ e. IsCause (faults self.old) (faults self.new) e) }

        // A crash at any moment of the call leaves all that was durable, and nothing that was not
        // appended.
        ensures any_moment { is_open self.old ≡ true → Leaves (moment self.old) (moment self.new)
            (left_since self.old) (left_since self.new)
            (durable self.old) (appended self.old ++ bytes.now ∷ []) };

    /// Makes all that was appended durable. After an `Err` of what is below the journal is closed:
    /// a sync that failed is not tried again. After `Memory` it may be as it was.
    fn sync(&mut self) -> Result<(), JournalError>
        ensures durable { OnOk result (durable self.new ≡ appended self.old) }
        ensures appended { OnOk result (appended self.new ≡ appended self.old) }
        ensures still { OnOk result (is_open self.new ≡ true) }
        ensures was_open { OnOk result (is_open self.old ≡ true) }
        ensures refused { OnErr result (is_open self.new ≡ true
            → (appended self.new ≡ appended self.old) × (durable self.new ≡ durable self.old)) }
        ensures closed { IsErrOf result JournalError.Closed → is_open self.old ≡ false }
        ensures cause { IfErr result (λ e. IsCause (faults self.old) (faults self.new) e) }

        // The same, also of a call that fails, and after it for as long as nothing is called.
        ensures any_moment { is_open self.old ≡ true → Leaves (moment self.old) (moment self.new)
            (left_since self.old) (left_since self.new) (durable self.old) (appended self.old) };

    /// Whether its calls touch no disk: then they may be made while others wait for a lock.
    fn is_quick(&self) -> bool;

    /// After a crash now, recovery reads what is durable, and nothing that was not appended. It
    /// does nothing.
    fn stands(&self)
        ensures { is_open self.now ≡ true → (records : List (List ℕ))
            → left_since self.now (moment self.now) records
            → IsBetween (durable self.now) records (appended self.now) };
}
