//! What a message does to the orders of a book. Each call leaves the book as it was if it returns an error.
ghost use Rattle.std.specs.Prelude.{◌≡◌, ◌++◌, [], ◌∷◌, Some, None, OnOk, OnErr, IfErr, option_copied, nat_eq, ◌⊎◌, false};
ghost use Rattle.indexmap.specs.IndexMap.{get};
ghost use Rattle.hx_itch.specs.Books.{taken_from, without, book_after};
ghost use Rattle.hx_itch.specs.declared.message.Feed.TheVariants as variant;
ghost use Rattle.hx_reader.specs.Faults.{order_of, fault_of, if_known, if_unknown, if_short, is_clash, IsCause};
ghost use Rattle.hx_reader.specs.declared.fault.ApplyError.TheVariants as errors;
ghost use Rattle.hx_reader.specs.Tables.{book_in, IsFound, IsTable};

use crate::fault::ApplyError;
use crate::table::{Table, push, take_off, take_out};
use hx_itch::{OrderReplace, ShownOrder};

// The number of the order of a reference.
fn number_of(table: &Table, reference: u64) -> Option<u64>
    requires { IsTable table.now }
    ensures slot { get nat_eq table.now.indices reference ≡ result }
    ensures found { IsFound table.now.orders.entries reference result }
{
    match table.indices.get(&reference) {
        Some(number) => Some(*number),
        None => None,
    }
}

/// The order of a reference.
pub fn order(table: &Table, reference: u64) -> Option<&ShownOrder>
    requires { IsTable table.now }
    ensures { option_copied result ≡ order_of reference (book_in table.now) }
{
    match number_of(table, reference) {
        Some(number) => table.orders.get(&number),
        None => None,
    }
}

// An order comes last.
fn append(table: &mut Table, order: ShownOrder) -> Result<(), ApplyError>
    requires table { IsTable table.old }
    requires free { get nat_eq table.old.indices order.reference ≡ None }
    ensures table { IsTable table.new }
    ensures ok { OnOk result (book_in table.new ≡ book_in table.old ++ order ∷ []) }
    ensures err { OnErr result (book_in table.new ≡ book_in table.old) }
    ensures cause { IfErr result (λ e. e ≡ errors.NoMemory) }
{
    let last = table.next;
    let Some(next) = last.checked_add(1) else {
        return Err(ApplyError::NoMemory);
    };
    table.indices.reserve(1)?;
    push(&mut table.orders, &mut table.levels, last, order)?;
    table.next = next;
    match table.indices.insert(order.reference, last) {
        Ok(_) => Ok(()),
        Err(_) => unreachable!(),
    }
}

/// An order comes last.
pub fn add(table: &mut Table, order: ShownOrder) -> Result<(), ApplyError>
    requires { IsTable table.old }
    ensures table { IsTable table.new }
    ensures ok { OnOk result (book_in table.new ≡ book_in table.old ++ order ∷ []) }
    ensures fits { OnOk result (if_known order.reference (book_in table.old) ≡ None) }
    ensures err { OnErr result (book_in table.new ≡ book_in table.old) }
    ensures cause { IfErr result (λ e. IsCause e
        (if_known order.reference (book_in table.old))) }
{
    if number_of(table, order.reference).is_some() {
        return Err(ApplyError::Known);
    }
    append(table, order)
}

// The order that a reference leads to leaves.
fn remove(table: &mut Table, reference: u64, number: u64)
    requires table { IsTable table.old }
    requires slot { get nat_eq table.old.indices reference ≡ Some number }
    ensures table { IsTable table.new }
    ensures book { book_in table.new ≡ without reference (book_in table.old) }
{
    let _ = take_out(&mut table.orders, &mut table.levels, number);
    table.indices.swap_remove(&reference);
}

/// An order leaves. It takes no memory.
pub fn delete(table: &mut Table, reference: u64) -> Result<(), ApplyError>
    requires { IsTable table.old }
    ensures table { IsTable table.new }
    ensures ok { OnOk result (book_in table.new ≡ without reference (book_in table.old)) }
    ensures fits { OnOk result (if_unknown reference (book_in table.old) ≡ None) }
    ensures err { OnErr result (book_in table.new ≡ book_in table.old) }
    ensures cause { IfErr result (λ e. if_unknown reference (book_in table.old) ≡ Some e) }
{
    let Some(number) = number_of(table, reference) else {
        return Err(ApplyError::Unknown);
    };
    remove(table, reference, number);
    Ok(())
}

/// Shares are taken off an order, which leaves if none are left. It takes no memory.
pub fn take(table: &mut Table, reference: u64, shares: u32) -> Result<(), ApplyError>
    requires { IsTable table.old }
    ensures table { IsTable table.new }
    ensures ok { OnOk result (book_in table.new ≡ taken_from reference shares (book_in table.old)) }
    ensures fits { OnOk result (if_short shares (order_of reference (book_in table.old)) ≡ None) }
    ensures err { OnErr result (book_in table.new ≡ book_in table.old) }
    ensures cause { IfErr result (λ e.
        if_short shares (order_of reference (book_in table.old)) ≡ Some e) }
{
    let Some(number) = number_of(table, reference) else {
        return Err(ApplyError::Unknown);
    };
    let was = take_off(&mut table.orders, &mut table.levels, number, shares);
    if was.shares < shares {
        return Err(ApplyError::TooMany);
    }
    if was.shares == shares {
        remove(table, reference, number);
    }
    Ok(())
}

// Whether an order other than the original has this reference.
fn is_taken(table: &Table, reference: u64, original: u64) -> bool
    requires { IsTable table.now }
    ensures clash { result ≡ is_clash reference original (book_in table.now) }
    ensures free { result ≡ false → (reference ≡ original)
        ⊎ (get nat_eq table.now.indices reference ≡ None) }
{
    if reference == original {
        return false;
    }
    number_of(table, reference).is_some()
}

// An order comes last, and the one that a reference leads to leaves.
fn exchange(
    table: &mut Table,
    original: u64,
    number: u64,
    order: ShownOrder,
) -> Result<(), ApplyError>
    requires table { IsTable table.old }
    requires slot { get nat_eq table.old.indices original ≡ Some number }
    requires free { (order.reference ≡ original)
        ⊎ (get nat_eq table.old.indices order.reference ≡ None) }
    ensures table { IsTable table.new }
    ensures ok { OnOk result (book_in table.new
        ≡ without original (book_in table.old) ++ order ∷ []) }
    ensures err { OnErr result (book_in table.new ≡ book_in table.old) }
    ensures cause { IfErr result (λ e. e ≡ errors.NoMemory) }
{
    let last = table.next;
    let Some(next) = last.checked_add(1) else {
        return Err(ApplyError::NoMemory);
    };
    table.indices.reserve(1)?;
    push(&mut table.orders, &mut table.levels, last, order)?;
    let _ = take_out(&mut table.orders, &mut table.levels, number);
    table.indices.swap_remove(&original);
    table.next = next;
    match table.indices.insert(order.reference, last) {
        Ok(_) => Ok(()),
        Err(_) => unreachable!(),
    }
}

/// An order gives way to another, which comes last.
pub fn replace(table: &mut Table, message: &OrderReplace) -> Result<(), ApplyError>
    requires { IsTable table.old }
    ensures table { IsTable table.new }
    ensures ok { OnOk result (book_in table.new
        ≡ book_after (book_in table.old) (variant.OrderReplace message.now)) }
    ensures fits { OnOk result (fault_of (book_in table.old) (variant.OrderReplace message.now)
        ≡ None) }
    ensures err { OnErr result (book_in table.new ≡ book_in table.old) }
    ensures cause { IfErr result (λ e. IsCause e
        (fault_of (book_in table.old) (variant.OrderReplace message.now))) }
{
    let original = message.original_reference;
    let Some(number) = number_of(table, original) else {
        return Err(ApplyError::Unknown);
    };
    if is_taken(table, message.reference, original) {
        return Err(ApplyError::Known);
    }
    let order = *table.orders.get(&number).unwrap();
    let order = ShownOrder {
        reference: message.reference,
        shares: message.shares,
        price: message.price,
        ..order
    };
    exchange(table, original, number, order)
}
