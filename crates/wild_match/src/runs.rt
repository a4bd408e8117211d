//! The longest run of literal bytes among items.
ghost use Rattle.std.specs.Prelude.{◌≡◌, ◌+◌, ◌≤◌, ℕ, IfOk, length};
ghost use Rattle.wild_match.specs.Runs.{RunAt, IsLongestRun, AreLiteral, literal_bytes};

use crate::pattern::Item;
use std::alloc::{AllocError, Global};

/// A run of items: its first place, and how many they are.
#[derive(Clone, Copy)]
struct Run {
    start: usize,
    len: usize,
}

/// Literal bytes that stand among items, from place `start` on.
#[derive(Drop)]
pub(crate) struct Literal {
    pub(crate) start: usize,
    pub(crate) bytes: Vec<u8>,
}

/// The first of the longest runs of literal bytes.
fn longest_run(items: &[Item]) -> Run
    ensures within { result.start + result.len ≤ length items.now }
    ensures literal { AreLiteral items.now result.start (result.start + result.len) }
    ensures longest { (start len : ℕ) → start + len ≤ length items.now
        → AreLiteral items.now start (start + len) → len ≤ result.len }
{
    let mut start = 0;
    let mut best = Run { start: 0, len: 0 };
    for i in 0..items.len() {
        match items[i] {
            Item::Byte(_) => {
                let len = i + 1 - start;
                if len > best.len {
                    best = Run { start, len };
                }
            }
            _ => start = i + 1,
        }
    }
    best
}

/// The bytes of the items that are bytes, in order.
fn bytes_of(alloc: Global, items: &[Item]) -> Result<Vec<u8>, AllocError>
    ensures { IfOk result (λ bytes. bytes.items ≡ literal_bytes items.now) }
{
    let mut bytes = Vec::new(alloc);
    for i in 0..items.len() {
        match items[i] {
            Item::Byte(byte) => bytes.push(byte)?,
            _ => {}
        }
    }
    Ok(bytes)
}

/// The first of the longest runs of literal bytes, which is empty where there is none.
pub(crate) fn longest_literal(alloc: Global, items: &[Item]) -> Result<Literal, AllocError>
    ensures within { IfOk result (λ run. run.start + length run.bytes.items ≤ length items.now) }
    ensures run { IfOk result (λ run. RunAt items.now run.bytes.items run.start) }
    ensures longest { IfOk result (λ run. IsLongestRun items.now run.bytes.items) }
{
    let run = longest_run(items);
    let bytes = bytes_of(alloc, &items[run.start..run.start + run.len])?;
    Ok(Literal {
        start: run.start,
        bytes,
    })
}
