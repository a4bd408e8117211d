//! Which call of a memory form comes next, and whether it is one of those that fail.
ghost use Rattle.std.specs.Prelude.{◌≡◌, ◌↔◌, Contains, IsTrue};
ghost use Rattle.log_seams.specs.Memory.{CalledOnce};

use std::marker::Model;

/// The number of the next call, from 0, and the numbers of the calls that fail.
///
/// The number stays at the last value of u64 once it is there.
#[derive(Debug, Drop)]
pub struct Calls {
    made: u64,
    fails: Vec<u64>,
}

impl Model for Calls {
    ghost use Rattle.log_seams.specs.Memory.{CallState};

    ghost Value = { CallState };

    ghost view = { λ c. record { made = c.made; fails = c.fails.items } };
}

impl Calls {
    /// No call was made; those with a number in `fails` will fail.
    pub fn new(fails: Vec<u64>) -> Calls
        ensures made { result.made ≡ 0 }
        ensures fails { result.fails ≡ fails.items }
    {
        Calls { made: 0, fails }
    }

    /// Counts a call, and answers whether it fails.
    pub fn next_fails(&mut self) -> bool
        ensures listed { IsTrue result ↔ Contains self.old.fails self.old.made }
        ensures called { CalledOnce self.old self.new }
    {
        let number = self.made;
        self.made = number.saturating_add(1);
        self.fails.as_slice().contains(&number)
    }
}
