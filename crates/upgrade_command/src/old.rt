//! The archive that is upgraded.
ghost use Rattle.std.specs.Prelude.{◌≡◌, ◌≢◌, ◌≤◌, ℕ, length, All, IfErr, IfOk, IsErrOf, IsFalse, IsTrue};
ghost use Rattle.log_seams.specs.Disk.{KeepsBytes};
ghost use Rattle.log_seams.specs.Outside.{CountsOf};
ghost use Rattle.record_format.specs.Header.{IsHeader};
ghost use Rattle.record_format.specs.declared.header.TheConstants.{LAST_VERSION};
ghost use Rattle.archive_meaning.specs.declared.TheConstants.{MAX_NAME_LEN};
ghost use Rattle.archive_open.specs.Archive.{shown};
ghost use Rattle.archive_open.specs.Shown.{HasLastGate, Opens, RefusedAt};
ghost use Rattle.archive_open.specs.declared.files.FileEntry.{FileEntry};
ghost use Rattle.upgrade_command.specs.Old.{IsOld, MayBeNamed, RefusesOld, RefusesOpened};

use archive_meaning::{MAX_FILES, MAX_NAME_LEN};
use archive_open::{Archive, ArchiveRefusal, FileEntry, KeepsTexts, open_for_append};
use command_refusals::UpgradeRefusal;
use disk_journal::{Journal, start};
use log_seams::Disk;
use record_format::LAST_VERSION;
use row_codec::Layouts;
use std::alloc::Global;

/// An archive of an earlier version, opened for its upgrade.
#[derive(Drop)]
pub(crate) struct OldArchive<N: KeepsTexts> {
    /// The archive.
    pub(crate) archive: Archive<N>,
    /// Its log types, each cut once for all files.
    pub(crate) layouts: Layouts,
}

/// Opens the archive of a disk, as `open_archive` does. Its header is one that an archive may have.
fn open_headed<D: Disk, N: KeepsTexts + Drop>(
    alloc: Global,
    disk: &mut D,
) -> Result<Archive<N>, ArchiveRefusal>
    ensures keeps { KeepsBytes (D.state disk.old) (D.state disk.new) }

    // by the answer, and causes
    ensures opened { IfOk result (λ a. Opens (D.state disk.old).seen (shown N.kept a)) }
    ensures last { IfOk result (λ a. HasLastGate (D.state disk.old).seen (shown N.kept a)) }
    ensures header { IfOk result (λ a. IsHeader (shown N.kept a).header) }
    ensures damaged { (at : ℕ) → IsErrOf result (ArchiveRefusal.Damaged at)
        → RefusedAt at (D.state disk.old).seen }
    ensures counts { CountsOf ArchiveRefusal.DiskFault
        (D.state disk.old).faults (D.state disk.new).faults result }
{
    let header = start(disk)?;
    let mut journal = Journal::begin(disk, header);
    open_for_append(alloc, &mut journal)
}

/// Whether no file has a name that is longer than an archive's may be.
fn are_short(files: &[FileEntry]) -> bool
    ensures yes { IsTrue result → All (λ (f : FileEntry). length f.name ≤ MAX_NAME_LEN) files.now }
    ensures no { IsFalse result
        → ¬ All (λ (f : FileEntry). length f.name ≤ MAX_NAME_LEN) files.now }
{
    files
        .iter()
        .all(|file| file.name.as_slice().len() <= MAX_NAME_LEN)
}

/// Whether an archive may have so many files with such names. Over a disk that does not tell its bytes
/// it is not known of those that were found.
fn may_be_named(files: &[FileEntry]) -> bool
    ensures yes { IsTrue result → MayBeNamed files.now }
    ensures no { IsFalse result → ¬ MayBeNamed files.now }
{
    files.len() <= MAX_FILES && are_short(files)
}

/// An archive that was opened, where it is of an earlier version.
fn of_earlier<N: KeepsTexts + Drop>(
    alloc: Global,
    archive: Archive<N>,
) -> Result<OldArchive<N>, UpgradeRefusal>
    ensures kept { IfOk result (λ o. o.archive ≡ archive) }
    ensures layouts { IfOk result (λ o. o.layouts ≡ (shown N.kept archive).kept.types) }
    ensures older { IfOk result (λ o. (shown N.kept archive).header.version ≢ LAST_VERSION) }
    ensures named { IfOk result (λ o. MayBeNamed (shown N.kept archive).files) }
    ensures refused { IfErr result (RefusesOpened (shown N.kept archive)) }
{
    if !may_be_named(archive.files().as_slice()) {
        return Err(UpgradeRefusal::Damaged {
            at: archive.last_gate(),
        });
    }
    if archive.header().version == LAST_VERSION {
        return Err(UpgradeRefusal::AlreadyNewest {
            version: LAST_VERSION,
        });
    }
    let layouts = Layouts::of(alloc, archive.names())?;
    Ok(OldArchive { archive, layouts })
}

/// Opens the archive of a disk, which is of an earlier version than the last.
///
/// # Errors
///
/// The archive could not be opened, or is of the last version.
pub(crate) fn open_old<D: Disk, N: KeepsTexts + Drop>(
    alloc: Global,
    disk: &mut D,
) -> Result<OldArchive<N>, UpgradeRefusal>
    ensures keeps { KeepsBytes (D.state disk.old) (D.state disk.new) }
    ensures later { (D.state disk.old).faults ≤ (D.state disk.new).faults }

    // by the answer
    ensures old { IfOk result (λ o.
        IsOld (D.state disk.old).seen (shown N.kept o.archive) o.layouts) }
    ensures steady { IfOk result (λ o. (D.state disk.new).faults ≡ (D.state disk.old).faults) }
    ensures refused { IfErr result (RefusesOld (D.state disk.old) (D.state disk.new)) }
{
    match open_headed(alloc, disk) {
        Ok(archive) => of_earlier(alloc, archive),
        Err(refusal) => Err(UpgradeRefusal::from(refusal)),
    }
}
