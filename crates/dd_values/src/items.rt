//! A `Vec` for public fields. Contracts see its items, and not its capacity.
ghost use Rattle.std.specs.Prelude.{◌≡◌, [], ◌∷◌, ◌++◌, ◌<◌, length, slice_get, slice_index_or, ◌↔◌, IsTrue, IfOk, OnOk, OnErr, MatchOption};
ghost use Rattle.std.specs.Option.{option_copied};
ghost use Rattle.std.specs.Cmp.Lexicographic.{pointwise, lists_per};

use std::alloc::{AllocError, Global};
use std::marker::Model;
use std::ops::Index;

/// A growable list. Contracts don't distinguish two lists with the same items.
#[derive(Debug, Drop)]
pub struct Items<T> {
    vec: Vec<T>,
}

impl<T> Model for Items<T> {
    ghost use Rattle.std.specs.Prelude.{List};
    ghost use Rattle.std.specs.Coded.{coded_list};

    ghost Value = { List T };

    ghost coded = { coded_list T.code };

    ghost view = { λ list. list.vec.items };
}

impl<T> Items<T> {
    /// Returns the empty list. This allocates nothing.
    pub fn new(alloc: Global) -> Items<T>
        ensures { result ≡ [] }
    {
        Items {
            vec: Vec::new(alloc),
        }
    }

    /// Wraps a `Vec`. This allocates nothing.
    pub fn from_vec(vec: Vec<T>) -> Items<T>
        ensures { result ≡ vec.items }
    {
        Items { vec }
    }

    /// Returns the `Vec`. This allocates nothing.
    pub fn into_vec(self) -> Vec<T>
        ensures { result.items ≡ self }
    {
        let Items { vec } = self;
        vec
    }

    /// The items, in order.
    pub fn as_slice(&self) -> &[T]
        ensures { result.now ≡ self.now }
    {
        self.vec.as_slice()
    }

    /// The number of items.
    pub fn len(&self) -> usize
        ensures { result ≡ length self.now }
    {
        self.vec.len()
    }

    /// Whether the list is empty.
    pub fn is_empty(&self) -> bool
        ensures { IsTrue result ↔ (self.now ≡ []) }
    {
        self.vec.is_empty()
    }

    /// The item at an index, counted from 0, or `None` past the end.
    pub fn get(&self, at: usize) -> Option<&T>
        ensures { option_copied result ≡ slice_get self.now at }
    {
        self.vec.get(at)
    }

    /// Removes the last item and returns it, or `None` if the list is empty.
    pub fn pop(&mut self) -> Option<T>
        ensures { MatchOption result ((self.old ≡ []) × (self.new ≡ [])) (λ last. self.old ≡ self.new ++ last ∷ []) }
    {
        self.vec.pop()
    }
}

impl<T: Drop> Items<T> {
    /// Adds an item at the end. If memory runs out, the list is unchanged.
    pub fn push(&mut self, item: T) -> Result<(), AllocError>
        ensures ok { OnOk result (self.new ≡ self.old ++ item ∷ []) }
        ensures err { OnErr result (self.new ≡ self.old) }
    {
        self.vec.push(item)?;
        Ok(())
    }
}

impl<T: Copy> Items<T> {
    /// Returns a list of the slice's items, or `AllocError` if memory runs out.
    pub fn from_slice(alloc: Global, items: &[T]) -> Result<Items<T>, AllocError>
        ensures { IfOk result (λ list. list ≡ items.now) }
    {
        let vec = Vec::from_slice(alloc, items)?;
        Ok(Items { vec })
    }
}

impl<T> Index<usize> for Items<T> {
    type Output = T;

    ghost can_index = { λ list at. at < length list };

    ghost index_gives = { λ list at item. item ≡ slice_index_or list at item };

    fn index(&self, at: usize) -> &T
        requires { at < length self.now }
        ensures { result.now ≡ slice_index_or self.now at result.now }
    {
        &self.vec[at]
    }
}

impl<T: PartialEq> PartialEq for Items<T> {
    ghost eq = { λ x y. pointwise T.eq x y };

    ghost laws = { lists_per T.laws };

    fn eq(&self, other: &Items<T>) -> bool {
        self.vec == other.vec
    }
}
