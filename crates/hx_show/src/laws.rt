//! What holds of every line.
ghost use Rattle.std.specs.Prelude.{◌≡◌, ◌++◌, ◌∷◌, [], List, ℕ, if◌then◌else◌};
ghost use Rattle.hx_units.specs.Letters.{line_feed};
ghost use Rattle.hx_show.specs.declared.choice.Choice.{Choice};
ghost use Rattle.hx_show.specs.declared.line.Head.{Head};
ghost use Rattle.hx_show.specs.Lines.{is_chosen, line_words, shown_line};
ghost use Rattle.hx_show.specs.Spelling.{IsHead, IsMessage, spelling};

/// The one line that is spelled for a message, on a tape or in an output, is shown as what it says; no other words are
/// written for it, and none if it is not chosen.
#[tactic(auto, using(crate::proofs::Spelled::shown_as_said))]
pub fn lines_are_read()
    ensures { (choice : Choice) (h : Head) (bytes : List ℕ) → IsHead h → IsMessage bytes
        → shown_line choice (spelling h bytes)
        ≡ (if is_chosen choice h then line_words h bytes ++ line_feed ∷ [] else []) }
{}
