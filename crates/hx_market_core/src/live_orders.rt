//! A look at the market between its steps: the live orders, listed.
ghost use Rattle.std.specs.Prelude.{◌≡◌, IfOk};
ghost use Rattle.hx_book.specs.Book.{lives};

use hx_book::{Book, Order};
use hx_units::NoMemory;
use std::alloc::Global;

/// The orders of a book, the earlier ones first. `NoMemory` if the list cannot grow.
pub fn list_orders<B: Book>(alloc: Global, book: &B) -> Result<Vec<Order>, NoMemory>
    ensures { IfOk result (λ orders. orders.items ≡ lives (B.orders book.now)) }
{
    let mut orders = Vec::new(alloc);
    let mut after = None;
    'walk: while let Some(key) = book.next_in_time(after) {
        if let Some(order) = book.get(key) {
            orders.push(*order)?;
        }
        after = Some(key);
    }
    Ok(orders)
}
