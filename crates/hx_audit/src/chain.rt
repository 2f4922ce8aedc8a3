//! A chain of a member.
ghost use Rattle.std.specs.Prelude.{◌≡◌, ◌++◌, ◌∷◌, [], OnOk, IfOk};

use hx_members::ChainFacts;
use hx_units::{NoMemory, Token};
use std::alloc::Global;
use std::marker::Model;

/// The tokens of a chain, in order of use. Contracts see the list of them.
#[derive(Drop)]
pub struct ChainTokens {
    items: Vec<Token>,
}

impl Model for ChainTokens {
    ghost use Rattle.std.specs.Prelude.{List};
    ghost use Rattle.hx_units.specs.declared.names.Token.{Token as TokenName};

    ghost Value = { List TokenName };

    ghost view = { λ t. t.items.items };
}

impl ChainTokens {
    /// The one token of a chain that begins.
    pub(crate) fn of(alloc: Global, token: Token) -> Result<ChainTokens, NoMemory>
        ensures { IfOk result (λ tokens. tokens ≡ token ∷ []) }
    {
        Ok(ChainTokens {
            items: vec![in alloc; token]?,
        })
    }

    /// One more token.
    pub(crate) fn push(&mut self, token: Token) -> Result<(), NoMemory>
        ensures { OnOk result (self.new ≡ self.old ++ token ∷ []) }
    {
        self.items.push(token)?;
        Ok(())
    }

    /// The tokens, as a slice.
    pub fn as_slice(&self) -> &[Token]
        ensures { result.now ≡ self.now }
    {
        &self.items
    }

    /// The tokens, given out.
    pub fn into_vec(self) -> Vec<Token>
        ensures { result.items ≡ self }
    {
        let ChainTokens { items } = self;
        items
    }
}

/// A chain of a member: an entered token, and all tokens that were used to replace it, also by a replace that failed.
#[derive(Drop)]
pub struct Chain {
    /// Its tokens, in order of use.
    pub tokens: ChainTokens,
    /// What it has done.
    pub facts: ChainFacts,
}
