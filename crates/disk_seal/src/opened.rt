//! A value as it was at a moment, for contracts alone.
ghost use Rattle.std.specs.Prelude.{◌≡◌};
ghost use base.Fml.{ftrue};

use std::marker::{Model, PhantomData, Send};

/// A value as it was when this was made. It has no bytes and owns nothing. Unlike std's `Snapshot` it may
/// go to another thread.
pub struct Opened<T> {
    marker: PhantomData<T>,
    pub ghost value: { T },
}

impl<T> Model for Opened<T> {
    ghost also_owns = { λ _. ftrue };
}

impl<T> Opened<T> {
    /// The value as it is now.
    pub fn of(x: &T) -> Opened<T>
        ensures { result.value ≡ x.now }
    {
        let _ = x;
        Opened {
            marker: PhantomData,
        }
    }
}

unsafe impl<T> Send for Opened<T> {}

impl<T> Drop for Opened<T> {
    fn drop(self) {
        let Self { marker: _ } = self;
    }
}
