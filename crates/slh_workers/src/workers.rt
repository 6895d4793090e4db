//! The number of workers.
ghost use Rattle.std.specs.Prelude.{◌≡◌, ℕ, ◌≤◌, ◌↔◌, IsSome, IfSome};

use std::marker::Model;

/// A number of workers, from 1 to 64. Contracts see the number.
#[derive(Clone, Copy, PartialEq, Eq, Debug)]
pub struct Workers {
    number: u8,
}

impl Model for Workers {
    ghost Value = { ℕ };

    ghost view = { λ workers. workers.number };

    ghost invariant = { λ workers. (1 ≤ workers.number) × (workers.number ≤ 64) };

    ghost inverse = { λ number. record { number = number } };
}

impl Workers {
    /// That many workers. `None` exactly if the number is not from 1 to 64.
    pub fn new(number: u8) -> Option<Workers>
        ensures accepted { IsSome result ↔ ((1 ≤ number) × (number ≤ 64)) }
        ensures value { IfSome result (λ workers. workers ≡ number) }
    {
        if (1..=64).contains(&number) {
            Some(Workers { number })
        } else {
            None
        }
    }

    /// The number of workers.
    pub fn number(self) -> u8
        ensures value { result ≡ self }
        ensures within { (1 ≤ result) × (result ≤ 64) }
    {
        self.number
    }
}
