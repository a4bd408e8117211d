//! What follows from what `ingest` leaves and tells: each law is the contract of a function that does
//! nothing.
ghost use Rattle.write_commands.specs.Laws.{RestsEndTheirLog, UnopenedGiveNothing};

use log_seams::Disk;

/// A log that could not be opened gives no message, and takes nothing from what is said of the messages
/// of the others.
pub fn unopened_give_nothing()
    ensures { UnopenedGiveNothing }
{}

/// Of a log that could be read to its end, what did not fit in an archive is the next whole part, or all
/// that is left.
pub fn rests_end_their_log<D: Disk>()
    ensures { (disk : D) → RestsEndTheirLog (D.state disk) }
{}
