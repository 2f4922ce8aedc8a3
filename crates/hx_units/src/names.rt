//! Names: of stocks, orders and firms. Each is bytes of its length, and any bytes are one.
ghost use Rattle.std.specs.Prelude.{[], ◌∷◌};
ghost use Rattle.std.specs.Cmp.Rules.{hashing};
ghost use Rattle.std.proofs.Common.{rules};

use std::hash::{Hash, Hasher};

/// The name of a stock: 8 bytes, filled with spaces on the right (OUCH 4.2, ITCH 5.0: field Stock).
#[derive(Clone, Copy, Debug, PartialEq, Eq, PartialOrd, Ord)]
pub struct Symbol(pub [u8; 8]);

// By hand, so that a name is hashed as one word, and not byte by byte.
impl Hash for Symbol {
    ghost hash_input = { λ symbol. symbol.0 ∷ [] };

    ghost respects_eq = { Prim.search (hashing, rules) };

    fn hash<H: Hasher>(&self, state: &mut H) {
        state.write(&self.0);
    }
}

/// A member's own name of an order: any 14 bytes (OUCH 4.2: Order Token).
#[derive(Clone, Copy, Debug, PartialEq, Eq, PartialOrd, Ord, Hash)]
pub struct Token(pub [u8; 14]);

/// The name of a firm: 4 bytes, filled with spaces on the right (OUCH 4.2: Firm; ITCH 5.0: Attribution).
#[derive(Clone, Copy, Debug, PartialEq, Eq, PartialOrd, Ord, Hash)]
pub struct Firm(pub [u8; 4]);
