//! A list of at most two values.

ghost use Rattle.std.specs.Prelude.{◌≡◌, ◌≤◌, ◌↔◌, [], ◌∷◌, drop, length, slice_get, IsNone, IsTrue, MatchOption};

use std::marker::Model;

/// At most two values, first to last.
#[derive(Clone, Copy, Debug, PartialEq, Eq)]
pub struct AtMostTwo<T> {
    left: Left<T>,
}

#[derive(Clone, Copy, Debug, PartialEq, Eq)]
enum Left<T> {
    Nothing,
    One(T),
    Two(T, T),
}

impl<T> Model for AtMostTwo<T> {
    ghost use Rattle.std.specs.Prelude.{List};
    ghost use Rattle.std.specs.Coded.{coded_list};

    ghost Value = { List T };

    ghost coded = { coded_list T.code };

    ghost use Rattle.completions.specs.Items.{items_of, left_of, left_of-items_of};

    ghost view = { λ c. items_of c.left };

    ghost inverse = { λ items. record { left = left_of items } };

    ghost inverse_ok = { λ c _. left_of-items_of c };
}

impl<T: Copy> AtMostTwo<T> {
    /// No value.
    pub fn none() -> AtMostTwo<T>
        ensures value { result ≡ [] }
    {
        AtMostTwo {
            left: Left::Nothing,
        }
    }

    /// This value alone.
    pub fn one(item: T) -> AtMostTwo<T>
        ensures value { result ≡ item ∷ [] }
    {
        AtMostTwo {
            left: Left::One(item),
        }
    }

    /// These two.
    pub fn two(first: T, second: T) -> AtMostTwo<T>
        ensures value { result ≡ first ∷ second ∷ [] }
    {
        AtMostTwo {
            left: Left::Two(first, second),
        }
    }

    /// The first value.
    pub fn front(&self) -> Option<T>
        ensures value { result ≡ slice_get self.now 0 }
        ensures none { IsNone result ↔ (self.now ≡ []) }
    {
        self.get(0)
    }

    /// Takes the first value, where there is one.
    pub fn pop(&mut self) -> Option<T>
        ensures front { MatchOption result (self.old ≡ []) (λ item. self.old ≡ item ∷ self.new) }
        ensures rest { self.new ≡ drop 1 self.old }
    {
        let left = self.left;
        match left {
            Left::Nothing => None,
            Left::One(item) => {
                self.left = Left::Nothing;
                Some(item)
            }
            Left::Two(first, second) => {
                self.left = Left::One(second);
                Some(first)
            }
        }
    }

    /// The value at that place, from 0.
    pub fn get(&self, place: usize) -> Option<T>
        ensures value { result ≡ slice_get self.now place }
        ensures none { IsNone result ↔ (length self.now ≤ place) }
    {
        match (self.left, place) {
            (Left::One(item), 0) => Some(item),
            (Left::Two(first, _), 0) => Some(first),
            (Left::Two(_, second), 1) => Some(second),
            (Left::Nothing | Left::One(_) | Left::Two(_, _), _) => None,
        }
    }

    /// How many values there are.
    pub fn len(&self) -> usize
        ensures value { result ≡ length self.now }
        ensures most { length self.now ≤ 2 }
    {
        match self.left {
            Left::Nothing => 0,
            Left::One(_) => 1,
            Left::Two(_, _) => 2,
        }
    }

    /// Whether there is none.
    pub fn is_empty(&self) -> bool
        ensures value { IsTrue result ↔ (self.now ≡ []) }
    {
        matches!(self.left, Left::Nothing)
    }
}
