//! The segment of a file that a worker adds messages to.
ghost use Rattle.std.specs.Prelude.{◌≡◌, ◌≤◌, ◌↔◌, length, IsTrue};
ghost use Rattle.row_codec.specs.declared.TheConstants.{MAX_MESSAGE_LEN};
ghost use Rattle.column_store.specs.Columns.{IsFull};
ghost use Rattle.ingest_workers.specs.Adding.{AddsMessage, KnowsMore};
ghost use Rattle.ingest_workers.specs.OpenSegment.{HasRoom, IsEmptySegment};
ghost use Rattle.ingest_workers.specs.Turns.{MayAsk, stop_in};

use crate::file_end::FileEnd;
use column_store::Columns;
use disk_seal::Draft;
use plain_list::NumberList;
use row_codec::{Encoder, Namer};
use std::alloc::Global;

/// The messages of a file that are not sealed, as the draft of its next segment. Its buffers are
/// filled again, so that a message costs no allocation once they have grown.
#[derive(Drop)]
pub(crate) struct OpenSegment {
    /// The next segment of the file, but for its words.
    pub(crate) draft: Draft,
    /// The numbers of dictionary words that its rows have, from the first row on.
    pub(crate) used: Vec<u32>,
    encoder: Encoder,
}

impl OpenSegment {
    /// The first segment of a file, without messages. Takes no memory.
    pub(crate) fn new(alloc: Global, file: u32) -> OpenSegment
        ensures { IsEmptySegment file 0 result }
    {
        OpenSegment {
            draft: Draft {
                file,
                first: 0,
                last: false,
                ended: false,
                columns: Columns::new(alloc),
                words: NumberList::new(Vec::new(alloc)),
            },
            used: Vec::new(alloc),
            encoder: Encoder::new(alloc),
        }
    }

    /// Adds a message: names its texts and adds its row.
    ///
    /// # Errors
    ///
    /// `Part` where a dictionary is full; the rows are then as they were. `Lost` where memory
    /// ended.
    pub(crate) fn add<N: Namer>(&mut self, line: &[u8], namer: &mut N) -> Result<(), FileEnd>
        requires short { length line.now ≤ MAX_MESSAGE_LEN }
        requires room { HasRoom self.old }

        // what stays of the namer, and what it has learned
        ensures version { N.version namer.new ≡ N.version namer.old }
        ensures known { KnowsMore (N.version namer.old) line.now
            (record { types = N.types namer.old; words = N.words namer.old })
            (record { types = N.types namer.new; words = N.words namer.new }) }
        ensures asked { MayAsk N.naming (N.version namer.old) line.now (stop_in result)
            namer.old namer.new }

        // what came of the segment
        ensures added { AddsMessage (N.version namer.old) line.now
            (record { types = N.types namer.old; words = N.words namer.old })
            (record { types = N.types namer.new; words = N.words namer.new })
            self.old self.new result }
    {
        self.encoder.read(namer.micro(), line)?;
        self.encoder.name(line, namer)?;
        self.used.extend_from_slice(self.encoder.used())?;
        self.draft
            .columns
            .push(self.encoder.row(), line.len() as u64)?;
        Ok(())
    }

    /// Whether the file is cut behind its messages, where a segment has so many rows at most.
    pub(crate) fn is_full(&self, rows: u32) -> bool
        ensures { IsTrue result ↔ IsFull self.now.draft.columns rows }
    {
        self.draft.columns.full(rows)
    }
}
