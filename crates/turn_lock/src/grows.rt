//! What a value under the lock is to a contract.
ghost use Rattle.std.specs.Prelude.{◌≡◌, ℕ, List, length};

/// A value that holds a list of entries, to which each turn may only add.
pub trait Grows {
    /// What the list holds.
    type Entry;

    /// What of the value stays the same as long as the lock lives.
    type Fixed;

    // The list.
    ghost entries: { Self → List Self.Entry };

    // Which entries a pass of this number may add.
    ghost may_add: { ℕ → Self.Entry → Type 0 };

    // The part that stays the same.
    ghost fixed: { Self → Self.Fixed };

    /// The length of the list.
    fn count(&self) -> u64
        ensures { result ≡ length (entries self.now) };
}
