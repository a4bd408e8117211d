//! What opens the source of a job once its turn has come, and takes it back.
ghost use Rattle.std.specs.Prelude.{◌≡◌, ℕ, List, Option};

use log_seams::Source;

/// Opens the sources of jobs, one at a time. A job holds the thing that its source is opened for,
/// which tells what the source will tell; once the job is done it has the thing back, as far as it was
/// read.
pub trait Opens<T> {
    /// What a job is read from.
    type Src: Source;

    /// The bytes that are left of a thing, where it tells them.
    ghost left: { T → Option (List ℕ) };

    /// The name of a thing, where it tells it.
    ghost name: { T → Option (List ℕ) };

    /// How often reading a thing has failed.
    ghost faults: { T → ℕ };

    /// No source is open.
    ghost idle: { Self → Type 0 };

    /// A source of this name is open for the thing.
    ghost lends: { Self → T → Option (List ℕ) → Type 0 };

    /// What became of it: it opened and closed sources, and nothing else.
    ghost goes: { Self → Self → Type 0 };

    /// What it knows of a thing that it gave back.
    ghost knows: { Self → T → Type 0 };

    /// Opens a source for a thing. There is always one: what is not to be read is a source that fails
    /// at once, of which the file gets no message.
    fn open(&mut self, asked: T) -> Self::Src
        requires { idle self.old }
        ensures left { Self.Src.left result ≡ left asked }
        ensures faults { Self.Src.faults result ≡ faults asked }
        ensures lends { lends self.new asked (Self.Src.name result) }
        ensures goes { goes self.old self.new };

    /// Ends the source that is open, which it knows by its name, and gives the thing back.
    fn close(&mut self, source: Self::Src) -> T
        requires { (asked : T) × lends self.old asked (Self.Src.name source) }
        ensures left { left result ≡ Self.Src.left source }
        ensures faults { faults result ≡ Self.Src.faults source }
        ensures name { (asked : T) → lends self.old asked (Self.Src.name source)
            → name result ≡ name asked }
        ensures knows { knows self.new result }
        ensures idle { idle self.new }
        ensures goes { goes self.old self.new };

    // Laws. Nothing became of it.
    ghost rests: { (o : Self) → goes o o };

    // What became of it goes together.
    ghost goes_on: { (a b c : Self) → goes a b → goes b c → goes a c };

    // What it knows it knows later.
    ghost knows_on: { (a b : Self) (t : T) → goes a b → knows a t → knows b t };
}

/// Opens logs that are open already: the thing is the source itself.
#[derive(Clone, Copy, Debug)]
pub struct AsIs;

impl<S: Source> Opens<S> for AsIs {
    type Src = S;

    ghost left = { S.left };

    ghost name = { S.name };

    ghost faults = { S.faults };

    ghost idle = { λ _. Unit {0} };

    ghost lends = { λ _ asked name. name ≡ S.name asked };

    ghost goes = { λ _ _. Unit {0} };

    ghost knows = { λ _ _. Unit {0} };

    fn open(&mut self, asked: S) -> S {
        asked
    }

    fn close(&mut self, source: S) -> S {
        source
    }

    ghost rests = { λ o. tt };

    ghost goes_on = { λ a b c one two. tt };

    ghost knows_on = { λ a b t one known. tt };
}
