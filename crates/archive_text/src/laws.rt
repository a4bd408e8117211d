//! A law of texts. The function does nothing: what it promises holds of all bytes.
ghost use Rattle.archive_text.specs.Laws.{OneName, OneText, OneTold, OneValue};

/// The bytes of a disk have one text of a file of an archive, and one thing is told of it. The name
/// of a source over a disk tells one disk.
pub fn one_text()
    ensures text { OneText }
    ensures told { OneTold }
    ensures value { OneValue }
    ensures name { OneName }
{}
