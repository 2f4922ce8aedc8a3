//! Hints by which used tokens are found without a hash.

use crate::packed::PackedName;
use hx_units::{NoMemory, reserve_ahead};
use std::alloc::Global;

/// A series gets at least this number of cells when it grows.
const CELLS: usize = 64;

/// So far from its first number a series reaches, however few indices it holds.
const AHEAD: usize = 4_096;

/// A series may reach this factor times as far as it holds indices.
const AHEAD_OF_USED: usize = 8;

/// The series of a member: from its first number on, a cell for each number, with one more than the index of a token whose
/// name has this number, or 0.
#[derive(Drop)]
pub(crate) struct Series {
    from: u64,
    // How many cells have an index.
    used: usize,
    cells: Vec<u32>,
}

/// The series of all members, by their numbers. Members count their orders, so the numbers of their tokens go up by small
/// steps, and coming tokens lie side by side. Any name has a number, and several names may have the same one: a cell is a
/// hint, and whether it leads to the token of a name is for the caller to see. Nothing is promised of it.
#[derive(Drop)]
pub(crate) struct AllSeries {
    members: Vec<Series>,
}

impl Series {
    // A member's series without cells.
    fn new(alloc: Global) -> Series {
        Series {
            from: 0,
            used: 0,
            cells: Vec::new(alloc),
        }
    }

    // The cell of a number. It is beyond all cells if the number is before the first.
    #[inline(always)]
    fn cell(&self, number: u64) -> usize {
        number.wrapping_sub(self.from) as usize
    }

    // What is in the cell of a number, and 0 if it has none.
    #[inline(always)]
    fn content(&self, number: u64) -> u32 {
        match self.cells.get(self.cell(number)) {
            Some(index) => *index,
            None => 0,
        }
    }

    // Makes cells up to that of a number, and some more. It does not if the number is before the first, or too far
    // ahead. The first number of a series is the one for which it gets cells first.
    #[inline(never)]
    fn grow(&mut self, number: u64) -> Result<(), NoMemory> {
        if self.cells.is_empty() {
            self.from = number;
        }
        let at = self.cell(number);
        if number < self.from || (at >= AHEAD && at / AHEAD_OF_USED >= self.used) {
            return Ok(());
        }
        let len = self.cells.len();
        let cells = at.saturating_add(CELLS).max(len);
        reserve_ahead(&mut self.cells, cells - len)?;
        self.cells.resize(cells, 0)?;
        Ok(())
    }
}

impl AllSeries {
    /// No series. It takes no memory.
    pub(crate) fn new(alloc: Global) -> AllSeries {
        AllSeries {
            members: Vec::new(alloc),
        }
    }

    /// What is in the cell of a name: one more than the index that was noted there last, or 0.
    #[inline(always)]
    pub(crate) fn content(&self, name: PackedName) -> u32 {
        match self.members.get(name.member()) {
            Some(series) => series.content(name.number()),
            None => 0,
        }
    }

    /// Makes a cell for a name, if it has none and its number is not too far from the others of its member.
    #[inline(always)]
    pub(crate) fn make_cell(&mut self, alloc: Global, name: PackedName) -> Result<(), NoMemory> {
        match self.members.get(name.member()) {
            Some(series) if series.cell(name.number()) < series.cells.len() => Ok(()),
            _ => self.extend(alloc, name),
        }
    }

    // The same, for a name that has none.
    #[inline(never)]
    fn extend(&mut self, alloc: Global, name: PackedName) -> Result<(), NoMemory> {
        let member = name.member();
        while self.members.len() <= member {
            self.members.push(Series::new(alloc))?;
        }
        match self.members.get_mut(member) {
            Some(series) => series.grow(name.number()),
            None => Ok(()),
        }
    }

    /// Writes an index into the cell of a name, if it has one.
    #[inline(always)]
    pub(crate) fn note(&mut self, name: PackedName, index: usize) {
        let Some(series) = self.members.get_mut(name.member()) else {
            return;
        };
        let at = series.cell(name.number());
        if let Some(cell) = series.cells.get_mut(at) {
            if *cell == 0 {
                series.used = series.used.wrapping_add(1);
            }
            *cell = u32::try_from(index.wrapping_add(1)).unwrap_or(0);
        }
    }

    /// The content of the cell to which a hint leads, as `prefetch_hint` makes it, or 0.
    #[inline(always)]
    pub(crate) fn guess(&self, hint: u64) -> u32 {
        match self.members.get((hint / 0x1_0000_0000) as usize) {
            Some(series) => series.content(hint % 0x1_0000_0000),
            None => 0,
        }
    }
}
