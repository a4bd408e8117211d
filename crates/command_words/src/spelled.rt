//! How words are spelled, as laws.
ghost use Rattle.command_words.specs.Spellings.{AreEnough, AreRefused, AreWords};

/// What `clap` makes of words, where it can be told without their texts: behind `--` each text is a
/// word and no option; `files`, `check`, `merge`, `upgrade` and `create` need no more words; there is
/// no help, an option comes once at most, a value that begins with `-` does not stand in a word of its
/// own, and no word is missing or one too many.
///
/// It does nothing: it stands for these laws.
pub fn spellings()
    ensures words { AreWords }
    ensures enough { AreEnough }
    ensures refused { AreRefused }
{}
