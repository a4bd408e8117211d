//! An opened archive.
ghost use Rattle.std.specs.Prelude.{◌≡◌, ◌-◌};
ghost use Rattle.archive_open.specs.Archive.{shown};

use crate::files::FileList;
use crate::grown::Grown;
use crate::keeps::KeepsTexts;
use crate::segments::SegmentList;
use record_format::Header;

/// What [`open_archive`](crate::open_archive) found: texts, files and the heads of segments.
#[derive(Drop)]
pub struct Archive<K: KeepsTexts> {
    pub(crate) header: Header,
    pub(crate) names: K,
    pub(crate) files: FileList,
    pub(crate) segments: SegmentList,
    pub(crate) entries: u64,
    pub(crate) end: u64,
}

impl<K: KeepsTexts + Drop> Archive<K> {
    /// The header.
    pub fn header(&self) -> &Header
        ensures { result.now ≡ (shown K.kept self.now).header }
    {
        &self.header
    }

    /// The texts of both dictionaries.
    pub fn names(&self) -> &K
        ensures { K.kept result.now ≡ (shown K.kept self.now).kept }
    {
        &self.names
    }

    /// The texts of both dictionaries, for use beyond the archive. Takes no memory.
    pub fn into_books(self) -> K
        ensures { K.kept result ≡ (shown K.kept self).kept }
    {
        self.names
    }

    /// The texts and the files, for use beyond the archive. Takes no memory.
    pub fn into_grown(self) -> Grown<K>
        ensures texts { K.kept result.names ≡ (shown K.kept self).kept }
        ensures files { result.files.items ≡ (shown K.kept self).files }
    {
        Grown {
            names: self.names,
            files: self.files.into_vec(),
        }
    }

    /// The files, each at its number.
    pub fn files(&self) -> &FileList
        ensures { result.now ≡ (shown K.kept self.now).files }
    {
        &self.files
    }

    /// The segments, sorted by file and first message.
    pub fn segments(&self) -> &SegmentList
        ensures { result.now ≡ (shown K.kept self.now).segments }
    {
        &self.segments
    }

    /// How many records the archive has.
    pub fn entries(&self) -> u64
        ensures { result ≡ (shown K.kept self.now).entries }
    {
        self.entries
    }

    /// How many bytes the archive has, up to and with the closed gate.
    pub fn end(&self) -> u64
        ensures { result ≡ (shown K.kept self.now).end }
    {
        self.end
    }

    /// The place of the closed gate, which is the last of these bytes.
    pub fn last_gate(&self) -> u64
        ensures { result ≡ (shown K.kept self.now).end - 1 }
    {
        self.end.saturating_sub(1)
    }
}
