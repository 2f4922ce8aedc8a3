//! What contracts alone know.
ghost use Rattle.std.specs.Prelude.{◌≡◌};
ghost use Rattle.std.specs.Borrow.{ftrue};

use std::marker::{Model, PhantomData};

/// A value as contracts see it. It has no bytes, and unlike a snapshot it goes to another thread within any struct.
#[derive(Drop)]
pub struct Known<T> {
    marker: PhantomData<T>,
    pub ghost value: { T },
}

impl<T> Model for Known<T> {
    ghost also_owns = { λ _. ftrue };
}

impl<T> Known<T> {
    /// What contracts see of a value.
    pub fn of(x: &T) -> Known<T>
        ensures { result.value ≡ x.now }
    {
        let _ = x;
        Known {
            marker: PhantomData,
        }
    }
}
