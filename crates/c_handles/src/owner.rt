//! What each handle is made of: a box as a pointer, or nothing.

ghost use Rattle.std.specs.Coded.{coded_option};
ghost use Rattle.std.specs.Prelude.{◌≡◌, ◌<◌, MatchOption, None, Option, Some};
ghost use Rattle.c_handles.specs.Owned.{mark};

use crate::parts::Parts;
use std::alloc::Global;
use std::marker::Model;

/// A pointer that owns the box of a value, or nothing.
#[derive(Drop)]
pub struct Owner<T> {
    pub at: *mut T,
    pub ghost value: { Option T } by { coded_option T.code },
}

impl<T> Model for Owner<T> {
    ghost use Rattle.c_handles.specs.Owned.{owned};

    ghost also_owns = { λ o. owned T.row o.at o.value };
}

impl<T> Owner<T> {
    /// An owner of nothing.
    pub fn none() -> Owner<T>
        ensures { result.value ≡ None }
    {
        Owner {
            at: std::ptr::null_mut(),
        }
    }

    fn of_parts(parts: Parts<T, Global>) -> Owner<T>
        ensures { result.value ≡ Some parts.value }
    {
        let Parts { ptr, alloc: _ } = parts;
        Owner { at: ptr }
    }

    fn into_parts(self, alloc: Global) -> Parts<T, Global>
        requires { 0 < mark self.value }
        ensures { self.value ≡ Some result.value }
    {
        let Owner { at } = self;
        Parts { ptr: at, alloc }
    }

    /// The owner of a box.
    pub fn of(owned: Box<T>) -> Owner<T>
    where
        T: Drop,
        ensures { result.value ≡ Some owned.value }
    {
        Owner::of_parts(Parts::of(owned))
    }

    /// The box, where the mark says that there is one.
    #[tactic(auto, using(crate::proofs::Marks::none_of))]
    pub fn into_box(self, alloc: Global, live: u32) -> Option<Box<T>>
        requires { live ≡ mark self.value }
        ensures { MatchOption result (self.value ≡ None) (λ b. self.value ≡ Some b.value) }
    {
        if live == 0 {
            return None;
        }
        Some(self.into_parts(alloc).into_box())
    }
}
