//! Naming the files that are added to an archive.
ghost use Rattle.std.specs.Prelude.{◌≡◌, length, map, IfErr, IfOk, OnErr, OnOk};
ghost use Rattle.disk_journal.specs.Journal.{state_of};
ghost use Rattle.command_refusals.specs.GoesOn.{DiskGoesOn};
ghost use Rattle.command_answers.specs.Ingested.{FromArchive, HasCallCause, TakesNothing};
ghost use Rattle.file_outcomes.specs.JournalLeft.{AddsNamesTo};
ghost use Rattle.file_outcomes.specs.Naming.{HasNamesMore, IsHeldBy, IsNamed};
ghost use Rattle.write_commands.specs.StepsAdding.{AreAccepted};
ghost use Rattle.file_outcomes.specs.StepsKnown.{IsNoDamage};
ghost use Rattle.log_sources.specs.Sources.{str_bytes};

use crate::names::refuse_more;
use command_refusals::AddRefusal;
use dict_core::Book;
use disk_journal::Journal;
use disk_seal::register;
use file_outcomes::Holding;
use log_seams::Disk;
use plain_list::{Text, TextList};
use std::alloc::{AllocError, Global};

/// An archive that was opened, and in which new files have their names.
#[derive(Drop)]
pub(crate) struct Named {
    /// The texts of log types.
    pub(crate) types: Book,
    /// The words of variables.
    pub(crate) words: Book,
    /// The number of the first new file.
    pub(crate) first: u32,
}

/// The names as texts.
fn texts_of(alloc: Global, names: &[&str]) -> Result<TextList, AllocError>
    ensures { IfOk result (λ texts. texts ≡ map str_bytes names.now) }
{
    let mut texts = Vec::with_capacity(alloc, names.len())?;
    for name in names {
        let bytes = Vec::from_slice(alloc, name.as_bytes())?;
        texts.push_reserved(Text::new(bytes));
    }
    Ok(TextList::new(texts))
}

/// Appends the names of new files to the journal of an archive that was opened.
pub(crate) fn name_files<D: Disk>(
    alloc: Global,
    journal: &mut Journal<'_, D>,
    holding: Holding,
    names: &[&str],
) -> Result<Named, AddRefusal>
    requires held { IsHeldBy (state_of journal.old) holding.types holding.words holding.files }
    requires names { AreAccepted (map str_bytes names.now) }

    // the journal
    ensures name { journal.new.disk.ghost_name ≡ journal.old.disk.ghost_name }
    ensures goes_on { DiskGoesOn (D.state journal.old.disk.now) (D.state journal.new.disk.now) }
    ensures more { OnOk result (HasNamesMore (map str_bytes names.now)
        (state_of journal.old) (state_of journal.new)) }

    // named
    ensures named { IfOk result (λ n.
        IsNamed (state_of journal.new) n.types n.words n.first (length names.now)) }
    ensures names { IfOk result (λ n. FromArchive (D.state journal.old.disk.now)
        (λ h before bytes stood. AddsNamesTo h before stood (map str_bytes names.now) n.first
        (D.state journal.old.disk.now) (state_of journal.new))) }

    // refused
    ensures nothing { OnErr result (FromArchive (D.state journal.old.disk.now)
        (λ h before bytes stood. TakesNothing h before
        (D.state journal.old.disk.now) (D.state journal.new.disk.now))) }
    ensures cause { IfErr result (HasCallCause (map str_bytes names.now)
        (D.state journal.old.disk.now) (D.state journal.new.disk.now)) }
    ensures undamaged { IfErr result IsNoDamage }
{
    let Holding {
        types,
        words,
        files,
    } = holding;
    if let Some(refusal) = refuse_more(files, names.len() as u64) {
        return Err(refusal);
    }
    let texts = texts_of(alloc, names)?;
    let first = register(alloc, journal, files as u32, &texts)?;
    Ok(Named {
        types,
        words,
        first,
    })
}
