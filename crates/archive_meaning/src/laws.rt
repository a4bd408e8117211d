//! What holds of every journal: each law is the contract of a function that does nothing.
ghost use Rattle.std.specs.Prelude.{◌≡◌};
ghost use Rattle.archive_meaning.specs.declared.TheConstants.{MAX_FILES, MAX_MESSAGES, MAX_NAMES, MAX_NAME_LEN, MAX_ROWS};
ghost use Rattle.logtype_text.specs.declared.TheConstants.{MAX_TYPE_LEN, MAX_WORD_LEN};
ghost use Rattle.record_format.specs.declared.header.TheConstants.{MAX_ARCHIVE_LEN, MAX_TYPES, MAX_WORDS, MIN_ARCHIVE_LEN};
ghost use Rattle.row_codec.specs.declared.TheConstants.{MAX_MESSAGE_LEN};
ghost use Rattle.archive_meaning.specs.Laws.{DamageIsBehind, EntriesReadBack, JournalsAreWhole, OneBeginning, OneDamage, OneHeld, OneJournal, RunsGoOn, RunsSplit};
ghost use Rattle.archive_meaning.specs.Sums.{AdmittedAreSums, LegalIsAdmitted};

/// What entries hold is told part by part.
pub fn runs_go_on()
    ensures joined { RunsGoOn }
    ensures split { RunsSplit }
{}

/// Entries hold one thing.
pub fn entries_hold_one()
    ensures { OneHeld }
{}

/// The entries of a legal journal are read back from their records.
pub fn entries_read_back()
    ensures { EntriesReadBack }
{}

/// Bytes stand for one journal at most. Of the journals that they begin with each is the front of the
/// next.
pub fn bytes_stand_for_one()
    ensures stands { OneJournal }
    ensures begins { OneBeginning }
{}

/// Bytes have one first damage at most, and none where they stand for a journal; no journal that they
/// begin with ends behind it.
pub fn damage_is_one()
    ensures one { OneDamage }
    ensures whole { JournalsAreWhole }
    ensures behind { DamageIsBehind }
{}

/// A judge that keeps sums in place of entries admits exactly what may legally follow.
pub fn sums_decide()
    ensures admitted { AdmittedAreSums }
    ensures legal { LegalIsAdmitted }
{}

/// The limits that the definitions of this crate name, as numbers.
pub fn limits_are_these()
    // names and files
    ensures names { (MAX_NAMES ≡ 512) × (MAX_NAME_LEN ≡ 4096) }
    ensures files { MAX_FILES ≡ 1048576 }

    // messages
    ensures rows { MAX_ROWS ≡ 65536 }
    ensures messages { MAX_MESSAGES ≡ 4294967294 }
    ensures message { MAX_MESSAGE_LEN ≡ 1048576 }

    // dictionaries
    ensures texts { (MAX_TYPES ≡ 2147483648) × (MAX_WORDS ≡ 2147483648) }
    ensures text { (MAX_TYPE_LEN ≡ 2097152) × (MAX_WORD_LEN ≡ 1048576) }

    // the whole archive
    ensures archive { (MIN_ARCHIVE_LEN ≡ 33) × (MAX_ARCHIVE_LEN ≡ 1099511627776) }
{}
