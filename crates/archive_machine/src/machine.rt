//! What each event does to the state.
ghost use Rattle.std.specs.Int.{w64};
ghost use Rattle.std.specs.Int.RustNames.{FitsSigned};
ghost use Rattle.std.specs.Prelude.{◌≡◌, ℕ, ◌+◌, ◌<◌, ◌≤◌, ◌^◌, ◌↔◌, ◌++◌, ◌∷◌, [], All, IfNone, IfOk, IfSome, IsTrue, length};
ghost use Rattle.column_store.specs.Row.{IsRow, variable_count};
ghost use Rattle.archive_meaning.specs.declared.TheConstants.{MAX_MESSAGES};
ghost use Rattle.archive_machine.specs.StepsAdd.{HasRoom};
ghost use Rattle.column_store.specs.declared.row.Row.{Row};
ghost use Rattle.archive_core.specs.Texts.{FairOf};
ghost use Rattle.row_codec.specs.declared.namer.Which.TheVariants.{Types, Words};
ghost use Rattle.archive_machine.specs.declared.event.Event.TheVariants.{Add, Name, Save, Seal};
ghost use Rattle.archive_machine.specs.Machine.{CanAdd, CanName, CanSeal, IsKept, IsSaved, Steps, count_of, rows_of, sealed};

use crate::event::Event;
use crate::hands::{count_in_hand, push_row, rows_in_hand, take_rows, variables_in};
use crate::journal::{is_ended, messages_in};
use crate::lookup::{number_of, row_for};
use crate::state::{Core, HandList};
use archive_core::{is_fair, is_message, push_numbers};
use archive_meaning::{EntryList, JournalEntry, MAX_MESSAGES, MAX_ROWS, SegmentEntry};
use column_store::{Row, RowList};
use plain_list::{Text, TextList};
use record_format::Header;
use row_codec::{Which, one_row};
use std::alloc::{AllocError, Global};

// How many variables a segment may not have: its head counts them in 32 bits.
const MAX_VARIABLES: u64 = 4_294_967_296;

// Whether a dictionary may go on with the text.
fn can_name(kind: Which, limit: u32, texts: &[Text], text: &[u8]) -> bool
    requires { length texts.now ≤ limit }
    ensures { IsTrue result ↔ CanName (FairOf kind) limit texts.now text.now }
{
    texts.len() < limit as usize && is_fair(kind, text) && number_of(texts, text).is_none()
}

// The texts and one more.
fn push_text(alloc: Global, texts: TextList, text: &[u8]) -> Result<TextList, AllocError>
    ensures { IfOk result (λ more. more ≡ texts ++ text.now ∷ []) }
{
    let mut more = texts.into_vec();
    more.push(Text::new(text.to_vec(alloc)?))?;
    Ok(TextList::new(more))
}

// Names a log type.
fn step_type(alloc: Global, header: &Header, core: Core, text: &[u8]) -> Result<Core, AllocError>
    requires { length core.types ≤ header.now.types_limit }
    ensures { IfOk result (λ d. (worker : ℕ)
        → Steps header.now core (Name worker Types text.now) d) }
{
    if !can_name(
        Which::Types,
        header.types_limit,
        core.types.as_slice(),
        text,
    ) {
        return Ok(core);
    }
    let types = push_text(alloc, core.types, text)?;
    Ok(Core { types, ..core })
}

// Names a word.
fn step_word(alloc: Global, header: &Header, core: Core, text: &[u8]) -> Result<Core, AllocError>
    requires { length core.words ≤ header.now.words_limit }
    ensures { IfOk result (λ d. (worker : ℕ)
        → Steps header.now core (Name worker Words text.now) d) }
{
    if !can_name(
        Which::Words,
        header.words_limit,
        core.words.as_slice(),
        text,
    ) {
        return Ok(core);
    }
    let words = push_text(alloc, core.words, text)?;
    Ok(Core { words, ..core })
}

// A copy of texts.
fn copied(alloc: Global, texts: &[Text]) -> Result<TextList, AllocError>
    ensures { IfOk result (λ copy. copy ≡ texts.now) }
{
    let mut copy = Vec::new(alloc);
    for text in texts {
        copy.push(Text::new(text.as_slice().to_vec(alloc)?))?;
    }
    Ok(TextList::new(copy))
}

// The journal and one entry more.
fn push_entry(journal: EntryList, entry: JournalEntry) -> Result<EntryList, AllocError>
    ensures { IfOk result (λ more. more ≡ journal ++ entry ∷ []) }
{
    let mut more = journal.into_vec();
    more.push(entry)?;
    Ok(EntryList::new(more))
}

// Saves the log types that are not in the journal yet.
fn save_types(alloc: Global, header: &Header, core: Core) -> Result<Core, AllocError>
    requires { length core.types < 2 ^ 32 }
    ensures { IfOk result (λ d. Steps header.now core (Save Types) d) }
{
    let saved = core.saved_types as usize;
    let count = core.types.len();
    if saved >= count {
        return Ok(core);
    }
    let texts = copied(alloc, &core.types.as_slice()[saved..])?;
    let journal = push_entry(
        core.journal,
        JournalEntry::Types {
            first: core.saved_types,
            texts,
        },
    )?;
    Ok(Core {
        saved_types: count as u32,
        journal,
        ..core
    })
}

// Saves the words that are not in the journal yet.
fn save_words(alloc: Global, header: &Header, core: Core) -> Result<Core, AllocError>
    requires { length core.words < 2 ^ 32 }
    ensures { IfOk result (λ d. Steps header.now core (Save Words) d) }
{
    let saved = core.saved_words as usize;
    let count = core.words.len();
    if saved >= count {
        return Ok(core);
    }
    let texts = copied(alloc, &core.words.as_slice()[saved..])?;
    let journal = push_entry(
        core.journal,
        JournalEntry::Words {
            first: core.saved_words,
            texts,
        },
    )?;
    Ok(Core {
        saved_words: count as u32,
        journal,
        ..core
    })
}

// Whether the log type of the row and all its dictionary words are saved. `numbers` is for their numbers.
fn is_saved(
    types: &[Text],
    saved_types: u32,
    saved_words: u32,
    row: &Row,
    numbers: &mut Vec<u32>,
) -> Result<bool, AllocError>
    requires { saved_types ≤ length types.now }
    ensures { IfOk result (λ yes. IsTrue yes ↔ IsSaved types.now saved_types saved_words row.now) }
{
    if row.log_type >= saved_types {
        return Ok(false);
    }
    numbers.clear();
    let text = &types[row.log_type as usize];
    if !push_numbers(text.as_slice(), row.words.as_slice(), numbers)? {
        return Ok(false);
    }
    Ok(numbers.iter().all(|number| *number < saved_words))
}

// Whether this holds of all the rows.
fn are_saved(
    alloc: Global,
    types: &[Text],
    saved_types: u32,
    saved_words: u32,
    rows: &[Row],
) -> Result<bool, AllocError>
    requires { saved_types ≤ length types.now }
    ensures { IfOk result (λ yes. IsTrue yes
        ↔ All (IsSaved types.now saved_types saved_words) rows.now) }
{
    let mut numbers = Vec::new(alloc);
    for row in rows {
        if !is_saved(types, saved_types, saved_words, row, &mut numbers)? {
            return Ok(false);
        }
    }
    Ok(true)
}

// Whether the worker may seal.
fn can_seal(alloc: Global, core: &Core, worker: u32) -> Result<bool, AllocError>
    requires { core.now.saved_types ≤ length core.now.types }
    ensures { IfOk result (λ yes. IsTrue yes ↔ CanSeal core.now worker) }
{
    if is_ended(core.journal.as_slice(), worker) {
        return Ok(false);
    }
    are_saved(
        alloc,
        core.types.as_slice(),
        core.saved_types,
        core.saved_words,
        rows_in_hand(core.hands.as_slice(), worker),
    )
}

// The segment of these rows; one without rows ends its file.
fn sealed(file: u32, first: u64, rows: RowList) -> SegmentEntry
    ensures { result ≡ sealed file first rows }
{
    let last = rows.len() == 0;
    SegmentEntry {
        file,
        first,
        last,
        ended: last,
        rows,
    }
}

// Seals what the worker has in hand.
fn step_seal(alloc: Global, header: &Header, core: Core, worker: u32) -> Result<Core, AllocError>
    requires { IsKept header.now core }
    ensures { IfOk result (λ d. Steps header.now core (Seal worker) d) }
{
    if !can_seal(alloc, &core, worker)? {
        return Ok(core);
    }
    let first = messages_in(core.journal.as_slice(), worker);
    let mut hands = core.hands.into_vec();
    let rows = take_rows(alloc, &mut hands, worker)?;
    let entry = JournalEntry::Segment(sealed(worker, first, rows));
    let journal = push_entry(core.journal, entry)?;
    Ok(Core {
        journal,
        hands: HandList::new(hands),
        ..core
    })
}

// Whether the worker may add a message more, whatever it is.
fn has_room(core: &Core, worker: u32) -> bool
    requires { count_of worker core.now.journal + length (rows_of worker core.now.hands)
        ≤ MAX_MESSAGES }
    ensures { IsTrue result ↔ HasRoom core.now worker }
{
    let count = count_in_hand(core.hands.as_slice(), worker);
    let journal = core.journal.as_slice();
    count < MAX_ROWS
        && !is_ended(journal, worker)
        && messages_in(journal, worker) + (count as u64) < MAX_MESSAGES
}

// Words have 64 bits. It does nothing.
fn words_fit(words: &[u64])
    ensures { All (λ w. w < 2 ^ 64) words.now }
{}

// Other numbers fit their types. It does nothing.
fn numbers_fit(pattern: u8, moment: i64, log_type: u32)
    ensures pattern { pattern < 2 ^ 8 }
    ensures moment { FitsSigned w64 moment }
    ensures log_type { log_type < 2 ^ 32 }
{}

// The numbers of a row fit their fields. It does nothing.
fn fit(row: &Row)
    ensures { IsRow row.now }
{
    numbers_fit(row.pattern, row.moment, row.log_type);
    words_fit(row.words.as_slice());
}

// The limits of dictionaries have 32 bits. It does nothing.
fn limits_fit(types: u32, words: u32)
    ensures types { types < 2 ^ 32 }
    ensures words { words < 2 ^ 32 }
{}

// Whether the variables of the rows and of one row more can be counted in 32 bits.
fn are_few(rows: &[Row], row: &Row) -> bool
    requires { variable_count rows.now < 2 ^ 32 }
    ensures { IsTrue result ↔ (variable_count (rows.now ++ row.now ∷ []) < 2 ^ 32) }
{
    (row.words.len() as u64) < MAX_VARIABLES - variables_in(rows)
}

// The row that the worker may add for a message, if it may.
fn row_to_add(
    alloc: Global,
    header: &Header,
    core: &Core,
    worker: u32,
    message: &[u8],
) -> Result<Option<Row>, AllocError>
    requires { IsKept header.now core.now }
    ensures some { IfOk result (λ found.
        IfSome found (CanAdd header.now core.now worker message.now)) }
    ensures none { IfOk result (λ found. IfNone found ((row : Row)
        → ¬ CanAdd header.now core.now worker message.now row)) }
{
    one_row();
    limits_fit(header.types_limit, header.words_limit);
    if !has_room(core, worker) {
        return Ok(None);
    }
    if !is_message(header.version, message) {
        return Ok(None);
    }
    let Some(row) = row_for(
        alloc,
        header.version,
        core.types.as_slice(),
        core.words.as_slice(),
        message,
    )?
    else {
        return Ok(None);
    };
    fit(&row);
    if !are_few(rows_in_hand(core.hands.as_slice(), worker), &row) {
        return Ok(None);
    }
    Ok(Some(row))
}

// Adds a message to what the worker has in hand.
fn step_add(
    alloc: Global,
    header: &Header,
    core: Core,
    worker: u32,
    message: &[u8],
) -> Result<Core, AllocError>
    requires { IsKept header.now core }
    ensures { IfOk result (λ d. Steps header.now core (Add worker message.now) d) }
{
    let Some(row) = row_to_add(alloc, header, &core, worker, message)? else {
        return Ok(core);
    };
    let mut hands = core.hands.into_vec();
    push_row(alloc, &mut hands, worker, row)?;
    Ok(Core {
        hands: HandList::new(hands),
        ..core
    })
}

// Names a text.
fn step_name(
    alloc: Global,
    header: &Header,
    core: Core,
    book: Which,
    text: &[u8],
) -> Result<Core, AllocError>
    requires { IsKept header.now core }
    ensures { IfOk result (λ d. (worker : ℕ)
        → Steps header.now core (Name worker book text.now) d) }
{
    match book {
        Which::Types => step_type(alloc, header, core, text),
        Which::Words => step_word(alloc, header, core, text),
    }
}

// Saves the texts of a dictionary.
fn step_save(alloc: Global, header: &Header, core: Core, book: Which) -> Result<Core, AllocError>
    requires { IsKept header.now core }
    ensures { IfOk result (λ d. Steps header.now core (Save book) d) }
{
    limits_fit(header.types_limit, header.words_limit);
    match book {
        Which::Types => save_types(alloc, header, core),
        Which::Words => save_words(alloc, header, core),
    }
}

/// The state after an event. One that is not possible leaves the state.
pub(crate) fn step(
    alloc: Global,
    header: &Header,
    core: Core,
    event: &Event,
) -> Result<Core, AllocError>
    requires { IsKept header.now core }
    ensures { IfOk result (λ d. Steps header.now core event.now d) }
{
    match event {
        Event::Name { book, text, .. } => step_name(alloc, header, core, *book, text.as_slice()),
        Event::Add { worker, message } => {
            step_add(alloc, header, core, *worker, message.as_slice())
        }
        Event::Save { book } => step_save(alloc, header, core, *book),
        Event::Seal { worker } => step_seal(alloc, header, core, *worker),
    }
}
