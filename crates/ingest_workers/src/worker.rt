//! A worker with its passes of the two books.
ghost use Rattle.std.specs.Prelude.{IsSome};

use dict_core::Book;
use dict_lock::CachedPass;
use std::alloc::Global;
use turn_lock::Pass;

/// A worker's passes of the two books, with the texts that they named.
#[derive(Drop)]
pub(crate) struct BookPasses<'b> {
    pub(crate) types: CachedPass<'b>,
    pub(crate) words: CachedPass<'b>,
}

impl<'b> BookPasses<'b> {
    ghost use Rattle.std.specs.Prelude.{◌≡◌};
    ghost use Rattle.turn_lock.specs.Words.{IsReady};
    ghost use Rattle.dict_lock.specs.Cached.{pass_in};

    /// Two passes that have named nothing yet. Takes no memory.
    pub(crate) fn new(alloc: Global, types: Pass<'b, Book>, words: Pass<'b, Book>) -> BookPasses<'b>
        requires types { IsReady types }
        requires words { IsReady words }
        ensures types { pass_in result.types ≡ types.entry }
        ensures words { pass_in result.words ≡ words.entry }
    {
        BookPasses {
            types: CachedPass::new(alloc, types),
            words: CachedPass::new(alloc, words),
        }
    }

    /// The two passes alone.
    pub(crate) fn into_both(self) -> (Pass<'b, Book>, Pass<'b, Book>)
        ensures types { result.0 ≡ pass_in self.entry.types }
        ensures words { result.1 ≡ pass_in self.entry.words }
    {
        let BookPasses { types, words } = self;
        (types.into_pass(), words.into_pass())
    }
}

/// How files are cut into segments, and for which version of the format.
#[derive(Clone, Copy)]
pub(crate) struct Plan {
    pub(crate) rows: u32,
    pub(crate) version: u32,
}

/// A worker, which does one job after the other. What it named in one job it knows in the next.
#[derive(Drop)]
pub(crate) struct Worker<'b> {
    pub(crate) alloc: Global,
    pub(crate) plan: Plan,
    // None while it does a job.
    pub(crate) passes: Option<BookPasses<'b>>,
    ghost full: { IsSome passes },
}

impl<'b> Worker<'b> {
    ghost use Rattle.std.specs.Prelude.{◌≡◌, Some};

    pub(crate) fn new(alloc: Global, plan: Plan, passes: BookPasses<'b>) -> Worker<'b>
        ensures plan { result.plan ≡ plan }
        ensures passes { result.passes ≡ Some passes.entry }
    {
        Worker {
            alloc,
            plan,
            passes: Some(passes),
        }
    }

    /// Its passes, at its end.
    pub(crate) fn into_passes(self) -> BookPasses<'b>
        ensures { self.entry.passes ≡ Some result }
    {
        let Worker {
            alloc: _,
            plan: _,
            passes,
        } = self;
        let Some(passes) = passes else { unreachable!() };
        passes
    }
}
