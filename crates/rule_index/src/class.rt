//! Classes, the numbers by which rows are sorted.

ghost use Rattle.std.specs.Prelude.{◌≡◌, ◌<◌, ◌^◌};

use std::marker::Model;

/// The bound of both parts of a class: the part for its key and the part for its last item are less.
pub(crate) const PARTS: u64 = 2_097_152;
/// The part of the first key code. The characters that a key produces have smaller parts.
pub(crate) const FIRST_CODE: u64 = 65_537;
/// The part of the first mark (a deadkey in the item list). The characters of a text have smaller parts.
pub(crate) const FIRST_MARK: u64 = 1_114_113;

/// What a record can match, or what an element is, as one number by which rows are sorted.
#[derive(Clone, Copy, Drop)]
pub struct Class {
    number: u64,
}

impl Model for Class {
    ghost use Rattle.std.specs.Prelude.{ℕ, ◌<◌, ◌^◌};

    ghost Value = { ℕ };

    ghost view = { λ class. class.number };

    ghost inverse = { λ n. record { number = n } };

    ghost invariant = { λ class. class.number < 2 ^ 42 };
}

impl Class {
    /// Returns the class with a number.
    pub fn of(number: u64) -> Class
        requires { number < 2 ^ 42 }
        ensures { result ≡ number }
    {
        Class { number }
    }

    /// Returns the number of a class.
    pub fn number(self) -> u64
        ensures value { result ≡ self }
        ensures small { result < 2 ^ 42 }
    {
        self.number
    }
}
