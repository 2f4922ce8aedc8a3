//! Before a walk that passes over small orders, the bounds of the levels that it would reach are made tight: a level
//! that lost its large orders still allows for them, and each walk would read all its orders in vain.
ghost use Rattle.std.specs.Prelude.{◌≡◌, ◌<◌, Option, Bool, IfSome, IfOk, true};
ghost use Rattle.std.specs.List.{find};
ghost use Rattle.hx_book.specs.Lists.{head_of, after_first};
ghost use Rattle.hx_book.specs.Book.{is_under, has_key, KeysDiffer};
ghost use Rattle.hx_levels.specs.LevelBook.{keys_of, line, HaveAtMost};

use crate::level_book::LevelBook;
use crate::level_book::level_key::LevelKey;
use crate::level_book::link::Link;
use crate::level_book::walking::contra_of;
use hx_book::Terms;

// More than a side has levels: a walk along them ends before.
const LEVELS: usize = 1 << 32;

impl LevelBook {
    // The first order of a queue.
    fn first_in_line(&self, at: LevelKey, shown: bool) -> Link
        ensures first { result ≡ head_of (keys_of (line at shown self.now.orders)) }
        ensures keys { KeysDiffer (line at shown self.now.orders) }
    {
        let _ = &self.linked_orders;
        self.sides.ends_at(at, shown).first
    }

    // The open shares of an order of a queue, and the next order of the queue.
    fn step_in_line(&self, at: LevelKey, shown: bool, key: usize) -> (u32, Link)
        requires { has_key key (line at shown self.now.orders) ≡ true }
        ensures shares { IfSome (find (is_under key) (line at shown self.now.orders))
            (λ live. result.0 ≡ live.order.shares) }
        ensures next { result.1
            ≡ head_of (keys_of (after_first (is_under key) (line at shown self.now.orders))) }
    {
        let _ = &self.sides;
        let shares = self.linked_orders.order(key).unwrap().shares;
        (shares, self.linked_orders.links(key).queue.after)
    }
}

impl LevelBook {
    // The most shares of the orders of a queue; the shares of the first order that has the minimum, if one has.
    fn most_in_line(&self, at: LevelKey, shown: bool, minimum: u32) -> Result<u32, u32>
        ensures { IfOk result (λ most. HaveAtMost most (line at shown self.now.orders)) }
    {
        let mut most = 0;
        let mut next = self.first_in_line(at, shown);
        'line: while let Some(key) = next.get() {
            let (shares, after) = self.step_in_line(at, shown, key);
            if minimum <= shares {
                return Err(shares);
            }
            self.note_passed(1);
            most = most.max(shares);
            next = after;
        }
        Ok(most)
    }

    // The most shares of the orders of a level, or one; the shares of the first order that has the minimum, if one has.
    fn most_at(&self, at: LevelKey, minimum: u32) -> Result<u32, u32>
        ensures most { IfOk result (λ most. (shown : Bool)
            → HaveAtMost most (line at shown self.now.orders)) }
        ensures some { IfOk result (λ most. 0 < most) }
    {
        self.note_reached(minimum);
        let shown = self.most_in_line(at, true, minimum)?;
        let hidden = self.most_in_line(at, false, minimum)?;
        Ok(shown.max(hidden).max(1))
    }

    // Makes the bound of the next level tight that allows an order of the minimum, unless there is such an order. It
    // gives the level key at which the next search begins, and the shares of that order, 0 if there is none. None if no
    // level is left.
    fn tighten_next(&mut self, from: LevelKey, limit: u32, minimum: u32) -> Option<(LevelKey, u32)>
        ensures orders { self.new.orders ≡ self.old.orders }
        ensures reserved { self.new.reserved ≡ self.old.reserved }
    {
        let Some(at) = self.sides.next_claim(from, limit, minimum) else {
            return None;
        };
        match self.most_at(at, minimum) {
            Ok(most) => {
                self.sides.lower(at, most);
                Some((at, 0))
            }
            Err(shares) => Some((at.at(at.distance().saturating_add(1)), shares)),
        }
    }

    /// Makes the bounds of the levels tight that a walk of these terms would reach, with `left` shares left and this
    /// minimum: it ends where the orders that have the minimum, one of each level, would take too many of the shares.
    /// The order of a level is read once: the level is then passed over by the block, until a large order has come and
    /// gone.
    pub fn tighten(&mut self, terms: &Terms, left: u32, minimum: u32)
        ensures orders { self.new.orders ≡ self.old.orders }
        ensures reserved { self.new.reserved ≡ self.old.reserved }
    {
        let (mut from, limit) = contra_of(terms);
        let mut rest = left;
        'levels: for _ in 0..LEVELS {
            let Some((next, shares)) = self.tighten_next(from, limit, minimum) else {
                return;
            };
            rest = rest.saturating_sub(shares);
            if rest < minimum {
                return;
            }
            from = next;
        }
    }
}
