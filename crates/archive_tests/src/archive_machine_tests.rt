//! The machine over lists of events.

use archive_machine::{Core, Event, EventList, core_run};
use archive_meaning::JournalEntry;
use plain_list::Text;
use record_format::Header;
use row_codec::Which;
use std::alloc::{AllocError, Global};

const HEADER: Header = Header {
    version: 1,
    types_limit: 2,
    words_limit: 2,
    length_limit: 4096,
};

/// An event of a worker, without memory of its own.
#[derive(Clone, Copy)]
enum Step {
    Name(Which, &'static [u8]),
    Add(u32, &'static [u8]),
    Seal,
    Save(Which),
}

/// The event of a step; names and seals are those of worker 0.
fn event(alloc: Global, step: Step) -> Result<Event, AllocError> {
    Ok(match step {
        Step::Name(book, text) => {
            Event::Name {
                worker: 0,
                book,
                text: Text::new(text.to_vec(alloc)?),
            }
        }
        Step::Add(worker, message) => {
            Event::Add {
                worker,
                message: Text::new(message.to_vec(alloc)?),
            }
        }
        Step::Seal => Event::Seal { worker: 0 },
        Step::Save(book) => Event::Save { book },
    })
}

/// What the machine is after these steps.
fn after(alloc: Global, steps: &[Step]) -> Result<Core, AllocError> {
    let mut events = Vec::new(alloc);
    for step in steps {
        events.push(event(alloc, *step)?)?;
    }
    core_run(alloc, &HEADER, &EventList::new(events))
}

/// A message of worker 0, sealed too early, saved, and sealed again until its file ends. Then texts past
/// the limit, and a message of another worker whose log type is not there.
const STEPS: &[Step] = &[
    Step::Name(Which::Types, b"\x12 done"),
    Step::Name(Which::Words, b"task_1"),
    Step::Add(0, b"task_1 done"),
    Step::Seal,
    Step::Save(Which::Types),
    Step::Save(Which::Words),
    Step::Seal,
    Step::Seal,
    Step::Name(Which::Types, b"x"),
    Step::Name(Which::Types, b"y"),
    Step::Add(1, b"y"),
];

// The kind of an entry, its first number, how much it holds, and whether it ends a file.
fn told(entry: &JournalEntry) -> (u8, u64, usize, bool) {
    match entry {
        JournalEntry::Files(names) => (1, 0, names.len(), false),
        JournalEntry::Types { first, texts } => (2, u64::from(*first), texts.len(), false),
        JournalEntry::Words { first, texts } => (3, u64::from(*first), texts.len(), false),
        JournalEntry::Segment(segment) => {
            (
                4,
                segment.first,
                segment.rows.len(),
                segment.last && segment.ended,
            )
        }
    }
}

// Whether these are the entries of the journal.
fn has_entries(core: &Core, entries: &[(u8, u64, usize, bool)]) -> bool {
    let journal = core.journal.as_slice();
    if journal.len() != entries.len() {
        return false;
    }
    journal
        .iter()
        .zip(entries)
        .all(|(entry, wanted)| told(entry) == *wanted)
}

/// The entries of the journal once the file has ended.
const ENTRIES: &[(u8, u64, usize, bool)] = &[
    (2, 0, 1, false),
    (3, 0, 1, false),
    (4, 0, 1, false),
    (4, 1, 0, true),
];

// Whether the steps leave these entries.
fn leave(
    alloc: Global,
    steps: &[Step],
    entries: &[(u8, u64, usize, bool)],
) -> Result<bool, AllocError> {
    let core = after(alloc, steps)?;
    Ok(has_entries(&core, entries))
}

// Nothing is sealed before its texts are saved; an empty hand ends the file.
#[test]
fn sealing_waits_for_texts(rt: HostRuntime) -> Result<(), AllocError> {
    let well = leave(rt.alloc(), &STEPS[..8], ENTRIES)?;
    assert!(rt; well);
    Ok(())
}

/// Whether there are two log types, of which this is the second, and one hand.
fn has_second(core: &Core, text: &[u8]) -> bool {
    let [_, second] = core.types.as_slice() else {
        return false;
    };
    second.as_slice() == text && core.hands.len() == 1
}

fn leave_second(alloc: Global, text: &[u8]) -> Result<bool, AllocError> {
    let core = after(alloc, STEPS)?;
    Ok(has_second(&core, text))
}

// A dictionary at its limit takes no text more, and a message whose log type is not there is not added.
#[test]
fn limits_leave_the_state(rt: HostRuntime) -> Result<(), AllocError> {
    let well = leave_second(rt.alloc(), b"x")?;
    assert!(rt; well);
    Ok(())
}
