//! What takes rows over.
ghost use Rattle.std.specs.Prelude.{◌≡◌, IfOk};
ghost use Rattle.archive_merge.specs.Taken.{Books, Serves, texts_by};

use archive_core::RowJudge;
use column_store::Columns;
use row_codec::Names;
use row_rename::Tables;
use std::alloc::{AllocError, Global};

/// What takes rows of the second archive over: it decides over them, keeps the numbers that their
/// texts have in the first archive, and has memory that serves all pages.
#[derive(Drop)]
pub struct Taker {
    pub(crate) alloc: Global,
    pub(crate) version: u32,
    pub(crate) judge: RowJudge,
    pub(crate) tables: Tables,
    // The bytes of a page, and its rows.
    pub(crate) bytes: Vec<u8>,
    pub(crate) columns: Columns,
}

impl Taker {
    /// It takes over rows of an archive of this version with these texts. No number is known yet.
    pub fn of<M: Names>(alloc: Global, version: u32, names: &M) -> Result<Taker, AllocError>
        requires { version ≡ M.version names.now }
        ensures { IfOk result (λ taker. (books : Books)
            → Serves (M.version names.now) (texts_by M.types M.words names.now) books taker) }
    {
        let judge = RowJudge::of(alloc, names)?;
        Ok(Taker {
            alloc,
            version,
            judge,
            tables: Tables::new(alloc),
            bytes: Vec::new(alloc),
            columns: Columns::new(alloc),
        })
    }
}
