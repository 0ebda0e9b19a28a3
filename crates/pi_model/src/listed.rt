// A list of values that contracts see as the list alone, and never as a buffer with a capacity.

ghost use Rattle.std.specs.Bool.{Decides};
ghost use Rattle.std.specs.Prelude.{◌≡◌, ◌<◌, ◌++◌, ◌∷◌, [], ◌==◌, length, take, vec_len, slice_get, option_copied, IfOk, OnOk, OnErr, IfNone, IfSome, IsTrue, ◌↔◌};

use crate::numbers::NameNo;
use std::alloc::{AllocError, Global};
use std::marker::Model;

/// A list of values in order.
#[derive(Debug, Drop)]
pub struct Listed<T> {
    items: Vec<T>,
}

impl<T> Model for Listed<T> {
    ghost use Rattle.std.specs.Prelude.{List};

    ghost Value = { List T };

    ghost view = { λ it. it.items.items };
}

/// The 16-bit units of a text.
pub type Units = Listed<u16>;

/// Names by their numbers.
pub type Names = Listed<NameNo>;

/// Texts by their units.
pub type Texts = Listed<Units>;

/// The arguments of a program.
pub type Args = Listed<Units>;

impl<T> Listed<T> {
    /// The empty list, which takes no memory until it grows.
    pub fn new(alloc: Global) -> Listed<T>
        ensures { result ≡ [] }
    {
        Listed {
            items: Vec::new(alloc),
        }
    }

    /// The list of a vector's elements; takes no memory.
    pub fn from_vec(items: Vec<T>) -> Listed<T>
        ensures { result ≡ items.items }
    {
        Listed { items }
    }

    /// The elements as a vector; takes no memory.
    pub fn into_vec(self) -> Vec<T>
        ensures { result.items ≡ self }
    {
        self.items
    }

    /// The elements in order.
    pub fn as_slice(&self) -> &[T]
        ensures { result.now ≡ self.now }
    {
        self.items.as_slice()
    }

    /// The number of elements.
    pub fn len(&self) -> usize
        ensures { result ≡ length self.now }
    {
        self.items.len()
    }

    /// Whether there is no element.
    pub fn is_empty(&self) -> bool
        ensures { IsTrue result ↔ (length self.now ≡ 0) }
    {
        self.items.is_empty()
    }

    /// The element at a place.
    pub fn at(&self, place: usize) -> &T
        requires { place < length self.now }
        ensures { slice_get self.now place ≡ Some result.now }
    {
        &self.items[place]
    }

    /// The element at a place, None where the list is no longer than that.
    pub fn get(&self, place: usize) -> Option<&T>
        ensures { option_copied result ≡ slice_get self.now place }
    {
        self.items.get(place)
    }

    /// Adds an element behind the others.
    pub fn push(&mut self, item: T) -> Result<(), AllocError>
    where
        T: Drop,
        ensures ok { OnOk result (self.new ≡ self.old ++ item ∷ []) }
        ensures err { OnErr result (self.new ≡ self.old) }
    {
        self.items.push(item)?;
        Ok(())
    }

    /// Moves the elements of another list behind those of this one; after a refusal they are dropped.
    pub fn append(&mut self, other: Listed<T>) -> Result<(), AllocError>
    where
        T: Drop,
        ensures ok { OnOk result (self.new ≡ self.old ++ other) }
        ensures err { OnErr result (self.new ≡ self.old) }
    {
        let mut items = other.items;
        self.items.append(&mut items)
    }

    /// Keeps the first elements, all of them where there are no more than that.
    pub fn truncate(&mut self, len: usize)
    where
        T: Drop,
        ensures { self.new ≡ take len self.old }
    {
        self.items.truncate(len);
    }

    /// A list of the same elements.
    pub fn copy(&self) -> Result<Listed<T>, AllocError>
    where
        T: Clone + Drop,
        requires { (x y : T) → T.is_clone x y → y ≡ x }
        ensures { IfOk result (λ list. list ≡ self.now) }
    {
        let items = Vec::from_clones(*self.items.allocator(), self.items.as_slice())?;
        Ok(Listed { items })
    }

    /// Whether another list has the same elements in the same order.
    pub fn same(&self, other: &Listed<T>) -> bool
    where
        T: PartialEq,
        requires { (x y : T) → Decides (T.eq x y) (x ≡ y) }
        ensures { IsTrue result ↔ (self.now ≡ other.now) }
    {
        self.items.as_slice() == other.items.as_slice()
    }
}

impl<T: Copy> Listed<T> {
    /// The list of a slice's elements.
    pub fn from_slice(alloc: Global, items: &[T]) -> Result<Listed<T>, AllocError>
        ensures { IfOk result (λ list. list ≡ items.now) }
    {
        let items = Vec::from_slice(alloc, items)?;
        Ok(Listed { items })
    }

    /// Adds the elements of a slice behind the others.
    pub fn extend_from_slice(&mut self, other: &[T]) -> Result<(), AllocError>
        ensures ok { OnOk result (self.new ≡ self.old ++ other.now) }
        ensures err { OnErr result (self.new ≡ self.old) }
    {
        self.items.extend_from_slice(other)
    }
}
