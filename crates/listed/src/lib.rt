//! A vector that contracts see as the list of its items.
#![tactic(auto)]

ghost use Rattle.std.specs.Prelude.{◌≡◌, ◌<◌, length, slice_set, IfOk};

mod bytes;

pub use bytes::Bytes;
use std::alloc::{AllocError, Global};
use std::marker::Model;

/// A list of items.
#[derive(Drop)]
pub struct Listed<T> {
    items: Vec<T>,
}

impl<T> Model for Listed<T> {
    ghost use Rattle.std.specs.Prelude.{List};

    ghost Value = { List T };

    ghost view = { λ l. l.items.items };
}

impl<T> Listed<T> {
    pub fn new(items: Vec<T>) -> Self
        ensures { result ≡ items.items }
    {
        Listed { items }
    }

    pub fn as_slice(&self) -> &[T]
        ensures { result.now ≡ self.now }
    {
        self.items.as_slice()
    }

    /// Gives the vector back.
    pub fn into_vec(self) -> Vec<T>
        ensures { result.items ≡ self }
    {
        self.items
    }
}

impl<T: Copy> Listed<T> {
    /// A copy of these items.
    pub fn from_slice(alloc: Global, items: &[T]) -> Result<Self, AllocError>
        ensures { IfOk result (λ made. made ≡ items.now) }
    {
        Ok(Listed::new(Vec::from_slice(alloc, items)?))
    }

    /// Puts another item in one place.
    pub fn set(&mut self, place: usize, item: T)
        requires { place < length self.old }
        ensures { self.new ≡ slice_set self.old place item }
    {
        self.items[place] = item;
    }

    /// Puts as many other items in the place of these.
    pub fn write(&mut self, items: &[T])
        requires { length items.now ≡ length self.old }
        ensures { self.new ≡ items.now }
    {
        self.items.copy_from_slice(items);
    }
}
