//! Want of memory, and room ahead of it.
ghost use Rattle.std.specs.Prelude.{◌≡◌, ◌+◌, ◌≤◌, vec_len, vec_capacity, IsOk, OnOk};

use std::alloc::{AllocError, AllocFailed};
use thiserror::Error;

/// A growth was refused: the error of a call that names no other.
#[derive(Clone, Copy, Debug, PartialEq, Eq, Drop, Error)]
#[error("no memory")]
pub struct NoMemory;

impl From<AllocError> for NoMemory {
    fn from(_error: AllocError) -> NoMemory {
        NoMemory
    }
}

impl<T: Drop> From<AllocFailed<T>> for NoMemory {
    fn from(_error: AllocFailed<T>) -> NoMemory {
        NoMemory
    }
}

/// A list of at least this number of elements is long.
const MANY: usize = 2_000;

/// How many slots more a full list of `len` elements gets beside those that it needs: none if it is short, and fifteen
/// times its length if it is long. To move a list costs every thread of the program, and slots that nobody has touched
/// yet cost nothing.
pub fn indices_ahead(len: usize) -> usize {
    if len < MANY {
        return 0;
    }
    len.saturating_mul(15)
}

/// Makes room for `count` elements more after those of a list. One that is full gets the slots ahead, too, if there is
/// memory for these. After `NoMemory` the list has the same elements.
#[inline(always)]
pub fn reserve_ahead<T>(list: &mut Vec<T>, more: usize) -> Result<(), NoMemory>
    ensures items { list.new.items ≡ list.old.items }
    ensures room { OnOk result (vec_len list.new + more ≤ vec_capacity list.new) }
    ensures capacity { vec_capacity list.old ≤ vec_capacity list.new }
    ensures succeeds { vec_len list.old + more ≤ vec_capacity list.old → IsOk result }
    ensures had_room { vec_len list.old + more ≤ vec_capacity list.old
        → vec_capacity list.new ≡ vec_capacity list.old }
{
    if list.capacity() - list.len() < more {
        return grow_ahead(list, more);
    }
    Ok(())
}

// Grows a list that is full.
#[inline(never)]
fn grow_ahead<T>(list: &mut Vec<T>, more: usize) -> Result<(), NoMemory>
    ensures items { list.new.items ≡ list.old.items }
    ensures room { OnOk result (vec_len list.new + more ≤ vec_capacity list.new) }
    ensures capacity { vec_capacity list.old ≤ vec_capacity list.new }
{
    let _refused = list.reserve(indices_ahead(list.len()));
    list.reserve(more)?;
    Ok(())
}
