//! The replies that were sent to each member.
ghost use Rattle.std.specs.Prelude.{◌≡◌, ℕ, ◌+◌, ◌<◌, ◌≤◌, ◌^◌, map, length, slice_index, IfOk, IfErr, OnOk, replicate};
ghost use Rattle.hx_units.specs.Fields.{texts};
ghost use Rattle.hx_desk.specs.Rows.{AreZeroAt, AreRaised, HasUntold, published_row, row_texts, row_spare, row_of, row_count, no_rows, members_of, times, with_replies, HasRoomFor, from_number, page};

use arrayvec::ArrayVec;
use hx_ouch::{Outbound, encode_out};
use hx_units::{MemberNo, NoMemory};
use std::alloc::Global;
use std::marker::Model;

// The replies to one member.
type Row = Vec<ArrayVec<u8, 80>>;

/// The replies to each member, in bytes, a row for each member number; the first ones of each row are published.
/// Contracts see the replies, the number of further replies for which each row has room, and the number of published
/// replies of each row.
#[derive(Drop)]
pub struct Rows {
    rows: Vec<Row>,
    // For `reserve` alone: the number of replies that it has counted for a member.
    counts: Vec<usize>,
    // The number of published replies of each row.
    published_end: Vec<usize>,
    alloc: Global,
}

impl Model for Rows {
    ghost use Rattle.std.specs.Prelude.{◌≡◌, map, length};
    ghost use Rattle.hx_desk.specs.Rows.{RoomyRows, row_texts, row_spare, row_count};

    ghost Value = { RoomyRows };

    ghost view = { λ r. record {
      rows = map row_texts r.rows.items;
      spare = map row_spare r.rows.items;
      published_end = r.published_end.items;
    } };

    ghost invariant = { λ r.
        (length r.rows.items ≡ row_count)
        × (length r.counts.items ≡ row_count)
        × (length r.published_end.items ≡ row_count) };
}

// Sets the counts of these members to 0.
fn clear(counts: &mut Vec<usize>, members: &[MemberNo])
    requires { length counts.old.items ≡ row_count }
    ensures sized { length counts.new.items ≡ row_count }
    ensures zero { AreZeroAt counts.new.items members.now }
{
    for member in members {
        counts[member.get() as usize] = 0;
    }
}

// Makes room for the replies to these members, once it has counted them. What is counted for other members has no
// effect.
fn make_room(
    rows: &mut Vec<Row>,
    counts: &mut Vec<usize>,
    members: &[MemberNo],
) -> Result<(), NoMemory>
    requires rows { length rows.old.items ≡ row_count }
    requires counts { length counts.old.items ≡ row_count }
    ensures same { map row_texts rows.new.items ≡ map row_texts rows.old.items }
    ensures counts { length counts.new.items ≡ row_count }
    ensures room { OnOk result (HasRoomFor (map row_spare rows.new.items) members.now) }
{
    clear(counts, members);
    for member in members {
        let row_index = member.get() as usize;
        let count = counts[row_index] + 1;
        counts[row_index] = count;
        let row = &mut rows[row_index];
        row.reserve(count)?;
    }
    Ok(())
}

// Adds replies, for which there is room.
fn add_all(rows: &mut Vec<Row>, replies: &[(MemberNo, Outbound)])
    requires sized { length rows.old.items ≡ row_count }
    requires room { HasRoomFor (map row_spare rows.old.items) (members_of replies.now) }
    ensures sized { length rows.new.items ≡ row_count }
    ensures rows { map row_texts rows.new.items
        ≡ with_replies (map row_texts rows.old.items) replies.now }
{
    for (member, reply) in replies {
        let row = &mut rows[member.get() as usize];
        row.push_reserved(encode_out(reply));
    }
}

// An empty row for each member number.
fn empty_rows(alloc: Global) -> Result<Vec<Row>, NoMemory>
    ensures rows { IfOk result (λ rows. map row_texts rows.items ≡ no_rows) }
    ensures sized { IfOk result (λ rows. length rows.items ≡ row_count) }
{
    let mut rows = Vec::new(alloc);
    for _number in 0..=MemberNo::MAX {
        rows.push(Vec::new(alloc))?;
    }
    Ok(rows)
}

// A copy of replies.
fn copy_of(alloc: Global, replies: &[ArrayVec<u8, 80>]) -> Result<Row, NoMemory>
    ensures ok { IfOk result (λ row. texts row.items ≡ texts replies.now) }
    ensures memory { IfErr result (λ _. 0 < length (texts replies.now)) }
{
    let mut row = Vec::new(alloc);
    if replies.is_empty() {
        return Ok(row);
    }
    row.extend_from_slice(replies)?;
    Ok(row)
}

// Raises the count of each of these members by the number of times that the member is among them.
fn raise(counts: &mut Vec<usize>, rows: &[Row], members: &[MemberNo])
    requires counts { length counts.old.items ≡ row_count }
    requires rows { length rows.now ≡ row_count }
    requires untold { (m : ℕ) → m < row_count → slice_index counts.old.items m
        + times m members.now ≤ length (row_of (map row_texts rows.now) m) }
    ensures counts { length counts.new.items ≡ row_count }
    ensures raised { AreRaised counts.old.items counts.new.items members.now }
{
    for member in members {
        let row_index = member.get() as usize;
        let most = rows[row_index].len();
        let count = counts[row_index];
        prove!(count < most);
        counts[row_index] = count + 1;
    }
}

impl Rows {
    /// No reply to anybody. Fails with `NoMemory` if there is no memory for the rows.
    pub fn new(alloc: Global) -> Result<Rows, NoMemory>
        ensures rows { IfOk result (λ rows. rows.rows ≡ no_rows) }
        ensures published_end { IfOk result (λ rows. rows.published_end ≡ replicate row_count 0) }
    {
        Ok(Rows {
            rows: empty_rows(alloc)?,
            counts: vec![in alloc; 0; 4096]?,
            published_end: vec![in alloc; 0; 4096]?,
            alloc,
        })
    }

    /// Makes room for the replies to these members.
    pub fn reserve(&mut self, members: &[MemberNo]) -> Result<(), NoMemory>
        ensures same { self.new.rows ≡ self.old.rows }
        ensures published_end { self.new.published_end ≡ self.old.published_end }
        ensures room { OnOk result (HasRoomFor self.new.spare members.now) }
    {
        make_room(&mut self.rows, &mut self.counts, members)
    }

    /// Adds replies, for which there is room. They are not published yet.
    pub fn add(&mut self, replies: &[(MemberNo, Outbound)])
        requires { HasRoomFor self.old.spare (members_of replies.now) }
        ensures rows { self.new.rows ≡ with_replies self.old.rows replies.now }
        ensures published_end { self.new.published_end ≡ self.old.published_end }
    {
        add_all(&mut self.rows, replies);
    }

    /// Publishes the next reply to each of these members, once for each time that the member is among them.
    pub fn tell(&mut self, members: &[MemberNo])
        requires { HasUntold self.old members.now }
        ensures rows { self.new.rows ≡ self.old.rows }
        ensures published_end { AreRaised self.old.published_end self.new.published_end members.now }
        ensures sized { length self.new.published_end ≡ row_count }
    {
        raise(&mut self.published_end, &self.rows, members);
    }

    // The published replies to a member.
    fn row(&self, member: MemberNo) -> &[ArrayVec<u8, 80>]
        ensures replies { texts result.now ≡ published_row self.now member }
        ensures few { length (published_row self.now member) < 2 ^ 63 }
        ensures range { member < 4096 }
    {
        let row_index = member.get() as usize;
        let row = &self.rows[row_index];
        let published_end = self.published_end[row_index].min(row.len());
        &row[..published_end]
    }

    /// The number of published replies to a member.
    pub fn count(&self, member: MemberNo) -> u64
        ensures count { result ≡ length (published_row self.now member) }
        ensures few { result < 2 ^ 63 }
        ensures range { member < 4096 }
    {
        self.row(member).len() as u64
    }

    // The replies to a member from this number on, as a part of its row.
    fn end(&self, member: MemberNo, from: u64) -> &[ArrayVec<u8, 80>]
        ensures replies { texts result.now ≡ from_number from (published_row self.now member) }
        ensures few { length (published_row self.now member) < 2 ^ 63 }
        ensures range { member < 4096 }
    {
        let row = self.row(member);
        let first = (from.saturating_sub(1) as usize).min(row.len());
        &row[first..]
    }

    /// The replies to a member from this number on, which counts from 1; 0 is read as 1. The call takes memory only if
    /// there are replies.
    pub fn from(&self, member: MemberNo, from: u64) -> Result<Vec<ArrayVec<u8, 80>>, NoMemory>
        ensures replies { IfOk result (λ rows.
            texts rows.items ≡ from_number from (published_row self.now member)) }
        ensures memory { IfErr result (λ _.
            0 < length (from_number from (published_row self.now member))) }
        ensures few { length (published_row self.now member) < 2 ^ 63 }
        ensures range { member < 4096 }
    {
        copy_of(self.alloc, self.end(member, from))
    }

    /// At most `most` replies to a member, from this number on. The call takes memory only if there are replies.
    pub fn page(
        &self,
        member: MemberNo,
        from: u64,
        most: u64,
    ) -> Result<Vec<ArrayVec<u8, 80>>, NoMemory>
        ensures replies { IfOk result (λ rows.
            texts rows.items ≡ page from most (published_row self.now member)) }
        ensures memory { IfErr result (λ _.
            0 < length (page from most (published_row self.now member))) }
        ensures few { length (published_row self.now member) < 2 ^ 63 }
        ensures range { member < 4096 }
    {
        let end = self.end(member, from);
        let count = (most as usize).min(end.len());
        copy_of(self.alloc, &end[..count])
    }
}
