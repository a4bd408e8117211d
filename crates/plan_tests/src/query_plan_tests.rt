//! Patterns, what a search is planned over, and what its readings accept.
ghost use Rattle.std.specs.Prelude.{◌<◌};

use logtype_text::{Kind, Span, Split, Symbol, split};
use plain_list::{Text, TextList};
use query_plan::{
    Piece, Plan, VarSymbol, VarSymbols, constants_suffice, needs_are_brought, readings_are_exact,
    wide_is_wider,
};
use std::alloc::{AllocError, Global};
use std::test::Fail;
use wild_match::{Item, matches, read_pattern};

/// A pattern's text and a message, as hexadecimal digits, and 1 where the pattern matches it.
const TABLE: &str = "\
61622a2a615c61 2a6162ff3f2a6161 1\n\
2a2a5c202a2a2a 5c202a3f3f 1\n\
2a622a622a20 3fff5cff3f6262203f 1\n\
5c3f2a2a2a61 ff2062ff3f2a615c 1\n\
2a2a20202a 202061 1\n\
2a202a612a 20612a3fff62ff 1\n\
2a2a2a6161 2a61612a 1\n\
5c2a2a2a 62ff622aff2a3f2a20 1\n\
2a202a2a 202a 1\n\
202a5c62 5c2062 1\n\
2a2a5c62 5c625c62 1\n\
2a5c3f2a ff3fffff2a623f 1\n\
2a2a61 3f3f3fff61 1\n\
2a5c3f 62ff3f 1\n\
2a2a62 3f62206161ffffff2a 1\n\
62612a 62612a 1\n\
622a2a 62ff5c2a3fff203f 1\n\
2a2a20 20202a3f 1\n\
5c2a 612aff3f2a3f625c 1\n\
612a ff625cff6120623f 1\n\
20612a2a622a20 3f612062616162 0\n\
6220202a5c3f20 5c5c3f622061 0\n\
5c6120612a5c2a 2a61ffff20ff61ff 0\n\
62612a2a2a2a62 - 0\n\
2a61622a2a6120 61 0\n\
2a5c3f2a2a2a2a - 0\n\
612a2a622a2a62 20 0\n\
2a5c5c5c5c202a 5c202a2020ff 0\n\
5c2a2a62206161 62202aff2a 0\n\
2a625c612a2a62 5c616261 0\n\
20615c202a6161 3f206261626162 0\n\
616120615c3f62 5c2aff3f3f2a613f2a 0\n\
205c2a20625c20 - 0\n\
615c61622a622a 5c62622a205c5c61 0\n\
202a615c3f2a20 3f622a61 0\n\
2a2a202a2a6161 203f202a 0\n\
6162202a612a61 20202a612a2a 0\n\
5c616161202a2a ff6262ff62ff 0\n\
5c615c625c6262 6262205c3f20 0\n\
625c202a626261 3f20 0\n\
";

/// The pieces as a text: `*` for a gap, a delimiter as it is, a token in `<` and `>`.
fn shown(alloc: Global, pieces: &[Piece]) -> Result<Vec<u8>, AllocError> {
    let mut out = Vec::new(alloc);
    for piece in pieces {
        match piece {
            Piece::Gap => out.push(b'*')?,
            Piece::Mark(byte) => out.push(*byte)?,
            Piece::Word(text) => {
                out.push(b'<')?;
                out.extend_from_slice(text.as_slice())?;
                out.push(b'>')?;
            }
        }
    }
    Ok(out)
}

/// The words, with a space behind each.
fn spaced(alloc: Global, words: &TextList) -> Result<Vec<u8>, AllocError> {
    let mut out = Vec::new(alloc);
    for word in words.as_slice() {
        out.extend_from_slice(word.as_slice())?;
        out.push(b' ')?;
    }
    Ok(out)
}

/// A pattern's text, the pieces that its search is planned over, how many are open tokens, the
/// needed words, a message, whether the planned pattern matches it.
type PlannedRow = (
    &'static [u8],
    &'static [u8],
    usize,
    &'static [u8],
    &'static [u8],
    bool,
);

const PLANNED: &[PlannedRow] = &[
    (b"oo1", b"*<oo1>*", 1, b"", b"xfoo1y", true),
    (b"12*34", b"*<12>*<34>*", 2, b"", b"a12 x34", true),
    (b"fo?", b"*<fo>*", 1, b"", b"x=foo", true),
    (
        b"41,123 INFO",
        b"*<41>,<123> <INFO>*",
        2,
        b"",
        b"5:41,123 INFO",
        true,
    ),
    (
        b"a*b*c*d*e",
        b"*<a>*<b>*<c>*<d>*",
        4,
        b"",
        b"a b c d x",
        true,
    ),
    (
        b" task_9 ",
        b"* <task_9> *",
        0,
        b"task_9 ",
        b"run task_1 done",
        false,
    ),
    (
        b"a b,c d e f",
        b"*<a> <b>,<c> <d> <e> <f>*",
        2,
        b"b c d e ",
        b"a b,c d e f",
        true,
    ),
    (b"", b"*", 0, b"", b"", true),
];

/// The plan of a pattern's text.
fn plan_of(alloc: Global, text: &[u8]) -> Result<Plan, Fail> {
    let pattern = read_pattern(alloc, text).ok().ok_or("a pattern")?;
    let plan = Plan::new(alloc, &pattern)?;
    Ok(plan)
}

/// Whether the wide pattern ends open, and matches the message or not as wanted.
fn is_wide(plan: &Plan, message: &[u8], fits: bool) -> bool {
    matches(plan.wide(), message) == fits && plan.wide().as_slice().last() == Some(&Item::Many)
}

/// Whether the pieces are shown so.
fn are_shown(alloc: Global, pieces: &[Piece], want: &[u8]) -> Result<bool, AllocError> {
    Ok(shown(alloc, pieces)?.as_slice() == want)
}

/// Whether these are the words, with a space behind each.
fn are_spaced(alloc: Global, words: &TextList, want: &[u8]) -> Result<bool, AllocError> {
    Ok(spaced(alloc, words)?.as_slice() == want)
}

/// Whether the pieces and needed words of a pattern's plan spell these texts.
fn spells(alloc: Global, text: &[u8], pieces: &[u8], needed: &[u8]) -> Result<bool, Fail> {
    let plan = plan_of(alloc, text)?;
    Ok(plan_spells(alloc, &plan, pieces, needed)?)
}

fn plan_spells(
    alloc: Global,
    plan: &Plan,
    pieces: &[u8],
    needed: &[u8],
) -> Result<bool, AllocError> {
    Ok(are_shown(alloc, plan.pieces(), pieces)? && are_spaced(alloc, plan.needed(), needed)?)
}

/// Whether a pattern's plan has so many open tokens, and matches the message or not as wanted.
fn opens(
    alloc: Global,
    text: &[u8],
    open: usize,
    message: &[u8],
    fits: bool,
) -> Result<bool, Fail> {
    let plan = plan_of(alloc, text)?;
    Ok(plan.open_tokens() == open && is_wide(&plan, message, fits))
}

#[test]
fn patterns_and_their_pieces(rt: HostRuntime) -> Result<(), Fail> {
    for (text, pieces, open, needed, message, fits) in PLANNED {
        let well = spells(rt.alloc(), text, pieces, needed)?
            && opens(rt.alloc(), text, *open, message, *fits)?;
        assert!(rt; well, "{text:?}");
    }
    Ok(())
}

/// The symbol of a variable whose bytes lie in this span of a body.
fn variable_of(
    alloc: Global,
    body: &[u8],
    kind: Kind,
    span: Option<&Span>,
) -> Result<VarSymbol, AllocError> {
    let text = match span {
        Some(span) => body.get(span.start..span.end).unwrap_or(b""),
        None => b"",
    };
    let text = Text::new(Vec::from_slice(alloc, text)?);
    Ok(VarSymbol::Var { kind, text })
}

/// Adds the symbols of a body that was split so.
fn add_symbols(
    alloc: Global,
    body: &[u8],
    split: &Split,
    symbols: &mut Vec<VarSymbol>,
) -> Result<(), AllocError> {
    let mut spans = split.spans.as_slice().iter();
    for symbol in split.symbols.as_slice() {
        let symbol = match symbol {
            Symbol::Byte(byte) => VarSymbol::Byte(*byte),
            Symbol::Slot(kind) => variable_of(alloc, body, *kind, spans.next())?,
        };
        symbols.push(symbol)?;
    }
    Ok(())
}

/// The symbols of a body.
fn symbols_of(alloc: Global, body: &[u8]) -> Result<VarSymbols, AllocError> {
    let split = split(alloc, body)?;
    let mut symbols = Vec::new(alloc);
    add_symbols(alloc, body, &split, &mut symbols)?;
    Ok(VarSymbols::new(symbols))
}

/// A pattern's text, a message's stamp and body, whether a reading accepts it.
const READINGS: &[(&[u8], &[u8], &[u8], bool)] = &[
    (b"oo1", b"", b"xfoo1y", true),
    (b"12*34", b"", b"12534", true),
    (b"12*34", b"", b"12 34", true),
    (b"12*34", b"", b"a12*34", true),
    (b"12\\*34", b"", b"a12*34", true),
    (b"12\\*34", b"", b"12534", false),
    (b"fo*", b"", b"x=foo", true),
    (
        b"41,123 INFO",
        b"2015-03-23 05:38:41,123",
        b" INFO boot",
        true,
    ),
    (b"41,123 INFO", b"2015-03-23 05:38:41,123", b" WARN", false),
    (
        b"23*INFO*t",
        b"2015-03-23 05:38:41,123",
        b" INFO boot",
        true,
    ),
    (b"38:4?,*", b"2015-03-23 05:38:41,123", b"", true),
    (b"a*b*c*d*e", b"", b"a b c d x", true),
    (b"13*2 y", b"22:13", b" x12 y", true),
    (b"13*3 y", b"22:13", b" x12 y", false),
    (b" task_9 ", b"", b"run task_1 done", false),
    (b" task_1 ", b"", b"run task_1 done", true),
    (b"", b"", b"", true),
];

/// Whether a reading of the plan accepts the message of this stamp and body.
fn reads(alloc: Global, plan: &Plan, stamp: &[u8], body: &[u8]) -> Result<bool, AllocError> {
    let symbols = symbols_of(alloc, body)?;
    Ok(plan.reads(stamp, &symbols))
}

/// Whether a reading of the plan of a pattern's text accepts the message.
fn accepts(alloc: Global, text: &[u8], stamp: &[u8], body: &[u8]) -> Result<bool, Fail> {
    let plan = plan_of(alloc, text)?;
    Ok(reads(alloc, &plan, stamp, body)?)
}

#[test]
fn what_readings_accept(rt: HostRuntime) -> Result<(), Fail> {
    for (text, stamp, body, want) in READINGS {
        let accepted = accepts(rt.alloc(), text, stamp, body)?;
        assert!(rt; accepted == *want, "{text:?} at {body:?}");
    }
    Ok(())
}

#[test]
fn laws_of_plans_stand() {
    readings_are_exact();
    wide_is_wider();
    needs_are_brought();
    constants_suffice();
}

fn digit(code: u8) -> u8
    ensures { result < 16 }
{
    match code {
        b'0'..=b'9' => code - b'0',
        b'a'..=b'f' => code - b'a' + 10,
        _ => 0,
    }
}

fn bytes_of(alloc: Global, digits: &str) -> Result<Vec<u8>, AllocError> {
    let mut bytes = Vec::new(alloc);
    let (pairs, _) = digits.as_bytes().as_chunks::<2>();
    for pair in pairs {
        bytes.push(digit(pair[0]) * 16 + digit(pair[1]))?;
    }
    Ok(bytes)
}

/// Whether the pattern matches the message, each given by its digits.
fn digits_match(alloc: Global, text: &str, message: &str) -> Result<bool, Fail> {
    let text = bytes_of(alloc, text)?;
    let message = bytes_of(alloc, message)?;
    accepts(alloc, text.as_slice(), b"", message.as_slice())
}

/// Whether the row's pattern matches its message as the row says.
fn row_holds(alloc: Global, row: &str) -> Result<bool, Fail> {
    let (text, rest) = row.split_once(' ').ok_or("a text")?;
    let (message, want) = rest.split_once(' ').ok_or("a message")?;
    Ok(digits_match(alloc, text, message)? == (want == "1"))
}

#[test]
fn answers_of_a_table(rt: HostRuntime) -> Result<(), Fail> {
    for row in TABLE.lines() {
        let holds = row_holds(rt.alloc(), row)?;
        assert!(rt; holds, "at {row}");
    }
    Ok(())
}

/// The items as a text: `*` for any bytes, a byte as it is.
fn items_shown(alloc: Global, items: &[Item]) -> Result<Vec<u8>, AllocError> {
    let mut out = Vec::new(alloc);
    for item in items {
        match item {
            Item::Byte(byte) => out.push(*byte)?,
            Item::One => out.push(b'?')?,
            Item::Many => out.push(b'*')?,
        }
    }
    Ok(out)
}

/// `v` for a variable, `c` for constant bytes.
fn flags_shown(alloc: Global, flags: &[bool]) -> Result<Vec<u8>, AllocError> {
    let mut out = Vec::new(alloc);
    for flag in flags {
        out.push(if *flag { b'v' } else { b'c' })?;
    }
    Ok(out)
}

/// A pattern's text, its needed words, which of them are variables, its skeleton.
const NEEDED: &[(&[u8], &[u8], &[u8], &[u8])] = &[
    (b" task_9 ", b"task_9 ", b"v", b"*  *"),
    (b" INFO boot", b"INFO ", b"c", b"* INFO **"),
    (b"41,123 INFO", b"", b"", b"* **"),
    (
        b"x=foo,bar=foo y ",
        b"foo bar foo y ",
        b"vcvc",
        b"**=,bar= y *",
    ),
    (b"a 12 bad*b", b"", b"", b"**  ****"),
    (b"", b"", b"", b"*"),
];

fn are_flags(alloc: Global, flags: &[bool], want: &[u8]) -> Result<bool, AllocError> {
    Ok(flags_shown(alloc, flags)?.as_slice() == want)
}

fn are_items(alloc: Global, items: &[Item], want: &[u8]) -> Result<bool, AllocError> {
    Ok(items_shown(alloc, items)?.as_slice() == want)
}

/// Whether the plan's needed words, which of them are variables, and its skeleton spell these.
fn needs(
    alloc: Global,
    plan: &Plan,
    words: &[u8],
    flags: &[u8],
    skeleton: &[u8],
) -> Result<bool, AllocError> {
    Ok(
        are_spaced(alloc, plan.needed(), words)?
            && are_flags(alloc, plan.needed_variables(), flags)?
            && are_items(alloc, plan.skeleton().as_slice(), skeleton)?,
    )
}

/// Whether what the plan of a pattern's text needs is spelled so.
fn brings(
    alloc: Global,
    text: &[u8],
    words: &[u8],
    flags: &[u8],
    skeleton: &[u8],
) -> Result<bool, Fail> {
    let plan = plan_of(alloc, text)?;
    Ok(needs(alloc, &plan, words, flags, skeleton)?)
}

#[test]
fn what_a_message_must_bring(rt: HostRuntime) -> Result<(), Fail> {
    for (text, words, flags, skeleton) in NEEDED {
        let well = brings(rt.alloc(), text, words, flags, skeleton)?;
        assert!(rt; well, "{text:?}");
    }
    Ok(())
}
