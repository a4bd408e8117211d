//! Which lines begin a message.
ghost use Rattle.std.specs.Prelude.{◌↔◌, List, ℕ, IsTrue};

/// Tells of a line whether it begins a message, as one with a stamp does.
pub trait Heads {
    /// The lines that begin a message.
    ghost starts: { Self → List ℕ → Type 0 };

    /// Whether this line, which is without its newline, begins a message.
    fn begins(&self, line: &[u8]) -> bool
        ensures { IsTrue result ↔ starts self.now line.now };
}
