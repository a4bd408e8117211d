//! The text that was written out and not given yet.
ghost use Rattle.std.specs.Prelude.{◌≡◌, ◌++◌, ◌≤◌, ◌+◌, ◌-◌, ℕ, List, [], drop, false, length, min, take, true, IfOk, IsFalse, IsTrue, OnErr, OnOk};
ghost use Rattle.column_store.specs.Row.{row_of};
ghost use Rattle.row_codec.specs.Laid.{AreCut};
ghost use Rattle.row_codec.specs.Means.{HasSpelling, IsSpelling};
ghost use Rattle.archive_text.specs.Newlines.{behind, ending, separator};

use column_store::RowRef;
use row_codec::{Names, RowWriter};
use std::alloc::AllocError;

/// The text that was written out and not given yet, with a newline between each two messages.
#[derive(Debug, Drop)]
pub(crate) struct Lines {
    /// The bytes that were written out since all was given.
    pub(crate) gathered: Vec<u8>,
    /// How many of these were given.
    pub(crate) sent: usize,
    /// How many bytes were given in all.
    pub(crate) given: u64,
    /// Whether there was a message.
    pub(crate) begun: bool,
}

impl Lines {
    /// No message yet, where so many bytes count as given. The buffer lends its memory, and what it
    /// had is lost.
    pub(crate) fn new(mut gathered: Vec<u8>, given: u64) -> Lines
        ensures nothing { result.gathered.items ≡ [] }
        ensures sent { result.sent ≡ 0 }
        ensures given { result.given ≡ given }
        ensures begun { result.begun ≡ false }
    {
        gathered.clear();
        Lines {
            gathered,
            sent: 0,
            given,
            begun: false,
        }
    }

    /// Adds the newline behind the message before, where there is one.
    fn separate(&mut self) -> Result<(), AllocError>
        ensures newline { OnOk result (self.new.gathered.items
            ≡ self.old.gathered.items ++ separator self.old.begun) }
        ensures begun { self.new.begun ≡ self.old.begun }
        ensures sent { self.new.sent ≡ self.old.sent }
        ensures given { self.new.given ≡ self.old.given }
    {
        if self.begun {
            self.gathered.push(b'\n')?;
        }
        Ok(())
    }

    /// Adds the newline behind the last message, where there is one and its end is not open.
    pub(crate) fn end(&mut self, open_end: bool) -> Result<(), AllocError>
        ensures newline { OnOk result (self.new.gathered.items
            ≡ self.old.gathered.items ++ ending open_end self.old.begun) }
        ensures begun { self.new.begun ≡ self.old.begun }
        ensures sent { self.new.sent ≡ self.old.sent }
        ensures given { self.new.given ≡ self.old.given }
    {
        if self.begun && !open_end {
            self.gathered.push(b'\n')?;
        }
        Ok(())
    }

    /// Adds what a row is written as, where it can be written, and tells whether it can be. The
    /// lines serve no more where it cannot.
    pub(crate) fn push<N: Names>(
        &mut self,
        row: RowRef<'_>,
        names: &N,
        writer: &mut RowWriter<'_>,
    ) -> Result<bool, AllocError>
        requires types { AreCut writer.old (N.types names.now) }

        // what stays
        ensures types { writer.new ≡ writer.old }
        ensures sent { self.new.sent ≡ self.old.sent }
        ensures given { self.new.given ≡ self.old.given }

        // by the answer
        ensures begun { IfOk result (λ fits. IsTrue fits → self.new.begun ≡ true) }
        ensures ok { IfOk result (λ fits. IsTrue fits → ((text : List ℕ)
            × IsSpelling (row_of row.entry) (N.types names.now) (N.words names.now) text
            × (self.new.gathered.items
            ≡ self.old.gathered.items ++ behind self.old.begun text))) }
        ensures misfit { IfOk result (λ fits. IsFalse fits
            → ¬ HasSpelling (row_of row.entry) (N.types names.now) (N.words names.now)) }
    {
        self.separate()?;
        if !writer.write_fitting(row, names, &mut self.gathered)? {
            return Ok(false);
        }
        self.begun = true;
        Ok(true)
    }

    /// Begins anew with nothing written out, once all was given.
    pub(crate) fn restart(&mut self)
        ensures nothing { self.new.gathered.items ≡ [] }
        ensures sent { self.new.sent ≡ 0 }
        ensures given { self.new.given ≡ self.old.given }
        ensures begun { self.new.begun ≡ self.old.begun }
    {
        self.gathered.clear();
        self.sent = 0;
    }

    /// Whether all that was written out was given.
    pub(crate) fn is_spent(&self) -> bool
        ensures yes { IsTrue result → length self.now.gathered.items ≤ self.now.sent }
        ensures no { IsFalse result → self.now.sent + 1 ≤ length self.now.gathered.items }
    {
        self.sent >= self.gathered.len()
    }

    /// Gives as much of it as there is, and room for, to the front of a buffer. Where the count of
    /// all given bytes is at its end, it is as if there were no memory.
    pub(crate) fn give(&mut self, buf: &mut [u8]) -> Result<usize, AllocError>
        requires { self.old.sent ≤ length self.old.gathered.items }

        // what stays
        ensures gathered { self.new.gathered ≡ self.old.gathered }
        ensures begun { self.new.begun ≡ self.old.begun }
        ensures kept { OnErr result (self.new.given ≡ self.old.given) }

        // by the answer
        ensures sent { IfOk result (λ n. self.new.sent ≡ self.old.sent + n) }
        ensures given { IfOk result (λ n. self.new.given ≡ self.old.given + n) }
        ensures most { IfOk result (λ n.
            n ≡ min (length self.old.gathered.items - self.old.sent) (length buf.old)) }
        ensures these { IfOk result (λ n.
            take n buf.new ≡ take n (drop self.old.sent self.old.gathered.items)) }
    {
        let left = &self.gathered[self.sent..];
        let count = left.len().min(buf.len());
        let Some(given) = self.given.checked_add(count as u64) else {
            return Err(AllocError);
        };
        buf[..count].copy_from_slice(&left[..count]);
        self.sent += count;
        self.given = given;
        Ok(count)
    }
}
