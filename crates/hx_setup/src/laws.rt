//! What holds of every text of a setup.
ghost use Rattle.std.specs.Prelude.{◌≡◌, ℕ, List};
ghost use Rattle.hx_setup.specs.Setups.{Setup};
ghost use Rattle.hx_setup.specs.SetupText.{HasText, setup_text, IsBadLine};

/// Two setups of one text are the same.
pub fn one_setup()
    ensures { (a b : Setup) → HasText a → HasText b → setup_text a ≡ setup_text b → a ≡ b }
{}

/// A text has one first line that does not fit, at most. By what a bad line is, a setup's text has none.
pub fn one_bad_line()
    ensures { (m n : ℕ) (text : List ℕ) → IsBadLine m text → IsBadLine n text → m ≡ n }
{}
