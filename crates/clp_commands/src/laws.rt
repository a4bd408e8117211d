//! What the constants are that the contract of the top call names: the law is the contract of a
//! function that does nothing.
ghost use Rattle.std.specs.Prelude.{◌≡◌};
ghost use Rattle.disk_journal.specs.declared.record.TheConstants.{CLOSED_GATE, FRONT_LEN, OPEN_GATE};
ghost use Rattle.line_cut.specs.declared.cutter.TheConstants.{MAX_LINE_LEN};
ghost use Rattle.query_plan.specs.declared.pieces.TheConstants.{MAX_OPEN_TOKENS};
ghost use Rattle.record_format.specs.declared.header.TheConstants.{HEADER_LEN, LAST_VERSION};
ghost use Rattle.record_format.specs.declared.kinds.TheConstants.{FILES_KIND, SEGMENT_KIND, TYPES_KIND, WORDS_KIND};

/// The limits of a log and of a pattern, the versions, and the bytes that an archive is laid out by,
/// as numbers. Those that `archive_meaning` has are in its law `limits_are_these`.
pub fn numbers_are_these()
    // logs and patterns
    ensures line { MAX_LINE_LEN ≡ 1048576 }
    ensures tokens { MAX_OPEN_TOKENS ≡ 4 }

    // an archive's bytes
    ensures version { LAST_VERSION ≡ 3 }
    ensures fronts { (HEADER_LEN ≡ 32) × (FRONT_LEN ≡ 10) }
    ensures kinds { (FILES_KIND ≡ 1) × (TYPES_KIND ≡ 2) × (WORDS_KIND ≡ 3) × (SEGMENT_KIND ≡ 4) }
    ensures gates { (CLOSED_GATE ≡ 0) × (OPEN_GATE ≡ 1) }
{}
