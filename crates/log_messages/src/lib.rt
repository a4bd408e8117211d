//! The messages of a log, as definitions that the crates above share, and their laws.
#![tactic(auto)]

ghost use Rattle.log_messages.specs.Laws.{LastLineIsOpen, LineComesFirst, MessagesAgree, MessagesExist, MessagesJoinBack, NothingHasNoMessages};
ghost use Rattle.log_messages.specs.GroupLaws.{BeginsOrGoesOn, FollowedByLines, GroupComesFirst, GroupMessagesAgree, GroupMessagesExist, GroupMessagesJoinBack, LastGroupIsOpen, NeverBoth, NothingHasNoGroups};

/// Exactly one list of messages, with one answer to whether the last one had its newline, fits
/// each list of bytes, and joining it back gives the bytes.
pub fn one_answer()
    ensures exists { MessagesExist }
    ensures unique { MessagesAgree }
    ensures joins { MessagesJoinBack }
{}

/// The messages follow the lines: no bytes have none, a line and its newline before other bytes
/// is one more message before theirs, and bytes without a newline are one message that is not
/// ended.
pub fn line_by_line()
    ensures nothing { NothingHasNoMessages }
    ensures line { LineComesFirst }
    ensures last { LastLineIsOpen }
{}

/// The same where a message is a group of lines, for each test of which lines have a stamp and
/// each limit: exactly one answer fits, and joining it back gives the bytes.
pub fn one_grouped_answer()
    ensures exists { GroupMessagesExist }
    ensures unique { GroupMessagesAgree }
    ensures joins { GroupMessagesJoinBack }
{}

/// A line behind a group either begins another message or goes on in the group.
pub fn begins_or_goes_on()
    ensures one { BeginsOrGoesOn }
    ensures not_both { NeverBoth }
{}

/// The messages follow the groups: no bytes have none, a group and its newline before bytes that
/// begin another message is one more message before theirs, and a group without its last newline
/// is one message that is not ended. Whether another message begins is told by the first line.
pub fn group_by_group()
    ensures nothing { NothingHasNoGroups }
    ensures group { GroupComesFirst }
    ensures last { LastGroupIsOpen }
    ensures first { FollowedByLines }
{}
