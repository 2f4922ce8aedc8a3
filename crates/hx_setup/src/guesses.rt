//! Guesses of a stock's locate.

use crate::stock::Stock;
use crate::symbol::symbol_word;
use hx_units::{NoMemory, Symbol};
use std::alloc::Global;

/// How many hashes there are.
const HASHES: usize = 4096;

// An odd number by which names are spread over the hashes.
const SPREAD: u64 = 0x9e37_79b9_7f4a_7c15;

/// For each of 4,096 hashes of a stock's name the locate of a stock that has it, or 0. It is a guess: stocks may share
/// a hash, so the user of a guess checks whether the stock of that locate has the name. The guess is unspecified.
#[derive(Drop)]
pub(crate) struct Guesses {
    locates: Vec<u16>,
}

/// The hash of a name: the upper twelve bits of a product.
#[inline(always)]
fn hash(symbol: Symbol) -> usize {
    (symbol_word(symbol).wrapping_mul(SPREAD) / 0x10_0000_0000_0000) as usize
}

impl Guesses {
    /// The guesses of these stocks, whose locates count from 1. It fails only for want of memory.
    pub(crate) fn of(alloc: Global, stocks: &[Stock]) -> Result<Guesses, NoMemory> {
        let mut locates = Vec::new(alloc);
        locates.resize(HASHES, 0)?;
        for (stock, locate) in stocks.iter().zip(1..=u16::MAX) {
            if let Some(guess) = locates.get_mut(hash(stock.symbol)) {
                *guess = locate;
            }
        }
        Ok(Guesses { locates })
    }

    /// The guess of a stock's locate, or 0.
    #[inline(always)]
    pub(crate) fn locate(&self, symbol: Symbol) -> u16 {
        match self.locates.get(hash(symbol)) {
            Some(locate) => *locate,
            None => 0,
        }
    }
}
