//! A file on its way into an archive.
ghost use Rattle.std.specs.Prelude.{◌≡◌, false, true, Some, IsSome};
ghost use Rattle.ingest_workers.specs.Outcome.{nothing_done};

use crate::outcome::Outcome;

/// A log that is to become a file of an archive, and what came of that.
#[derive(Drop)]
pub struct Job<S> {
    pub(crate) file: u32,
    // None while a worker reads it.
    pub(crate) source: Option<S>,
    // Where not, no worker reads it.
    pub(crate) is_open: bool,
    // Where so, the file is not marked whole.
    pub(crate) is_part: bool,
    pub(crate) outcome: Outcome,
    ghost full: { IsSome source },
}

impl<S> Job<S> {
    /// The source is to become the file with this number, which is new in the archive.
    pub fn new(file: u32, source: S) -> Job<S>
        ensures file { result.file ≡ file }
        ensures source { result.source ≡ Some source }
        ensures opened { result.is_open ≡ true }
        ensures part { result.is_part ≡ false }
        ensures outcome { result.outcome ≡ nothing_done }
    {
        Job {
            file,
            source: Some(source),
            is_open: true,
            is_part: false,
            outcome: Outcome {
                messages: 0,
                whole: false,
                cause: None,
            },
        }
    }

    /// A job of a source that is not the whole file: its rest is sealed as a segment that is not
    /// marked last. Its outcome is not whole, and has no cause where all its messages were sealed.
    pub fn part_of(file: u32, source: S) -> Job<S>
        ensures file { result.file ≡ file }
        ensures source { result.source ≡ Some source }
        ensures opened { result.is_open ≡ true }
        ensures part { result.is_part ≡ true }
        ensures outcome { result.outcome ≡ nothing_done }
    {
        Job {
            file,
            source: Some(source),
            is_open: true,
            is_part: true,
            outcome: Outcome {
                messages: 0,
                whole: false,
                cause: None,
            },
        }
    }

    /// A job of a source that was not opened: it is not read, and the file gets no message.
    pub fn unopened(file: u32, source: S) -> Job<S>
        ensures file { result.file ≡ file }
        ensures source { result.source ≡ Some source }
        ensures opened { result.is_open ≡ false }
        ensures part { result.is_part ≡ false }
        ensures outcome { result.outcome ≡ nothing_done }
    {
        Job {
            file,
            source: Some(source),
            is_open: false,
            is_part: false,
            outcome: Outcome {
                messages: 0,
                whole: false,
                cause: None,
            },
        }
    }

    /// A job of a source that was opened and is the whole file or a part of it.
    pub(crate) fn with_source(file: u32, is_part: bool, source: S) -> Job<S>
        ensures file { result.file ≡ file }
        ensures source { result.source ≡ Some source }
        ensures opened { result.is_open ≡ true }
        ensures part { result.is_part ≡ is_part }
        ensures outcome { result.outcome ≡ nothing_done }
    {
        Job {
            file,
            source: Some(source),
            is_open: true,
            is_part,
            outcome: Outcome {
                messages: 0,
                whole: false,
                cause: None,
            },
        }
    }

    /// The source, as far as it was read, and what came of it.
    pub(crate) fn into_parts(self) -> (S, Outcome)
        ensures source { self.source ≡ Some result.0 }
        ensures outcome { result.1 ≡ self.outcome }
    {
        let Job {
            file: _,
            source,
            is_open: _,
            is_part: _,
            outcome,
        } = self;
        let Some(source) = source else { unreachable!() };
        (source, outcome)
    }

    /// What came of it; before any work no message, not whole, and no cause. So it stays where the
    /// source was not opened.
    pub fn outcome(&self) -> Outcome
        ensures { result ≡ self.now.outcome }
    {
        self.outcome
    }

    /// The source, as far as it was read.
    pub fn into_source(self) -> S
        ensures { self.source ≡ Some result }
    {
        let Job {
            file: _,
            source,
            is_open: _,
            is_part: _,
            outcome: _,
        } = self;
        let Some(source) = source else { unreachable!() };
        source
    }
}
