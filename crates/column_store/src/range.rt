//! The moments that a search asks for.

ghost use Rattle.std.specs.Prelude.{◌↔◌, IsTrue};
ghost use Rattle.column_store.specs.Range.{Holds};

/// The moments from one bound to another, both within. A bound that is not given bounds nothing.
#[derive(Clone, Copy, Debug, PartialEq, Eq)]
pub struct Range {
    /// The least moment.
    pub from: Option<i64>,
    /// The greatest moment.
    pub to: Option<i64>,
}

impl Range {
    /// Whether a message with this pattern and moment lies in the range. One without stamp, whose
    /// pattern is 0, does where no bound is given.
    pub fn holds(&self, pattern: u8, moment: i64) -> bool
        ensures { IsTrue result ↔ Holds self.now pattern moment }
    {
        match (self.from, self.to) {
            (None, None) => true,
            (from, to) => {
                pattern != 0
                    && from.is_none_or(|least| least <= moment)
                    && to.is_none_or(|greatest| moment <= greatest)
            }
        }
    }
}
