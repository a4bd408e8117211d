//! Laws of the bytes of a journal, each as the contract of a function that does nothing.
ghost use Rattle.disk_journal.specs.Laws.{StandForOne, FramesOne};

/// Bytes stand for one list of records alone.
pub fn stand_for_one()
    ensures { StandForOne }
{}

/// A frame has one record alone.
pub fn frames_one()
    ensures { FramesOne }
{}
