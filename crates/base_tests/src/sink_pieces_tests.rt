//! Pieces over a sink in memory.
use crate::telling::holds;
use log_seams::{Failed, MemSink};
use sink_pieces::{PIECE, flush, flush_piece, write_all};
use std::alloc::{AllocError, Global};
use std::test::Fail;

/// Whether a piece goes out once it is full, what is left by a flush, and what has no room not at all.
fn goes_out(out: &mut MemSink, gathered: &mut Vec<u8>) -> Result<bool, AllocError> {
    let waits = flush_piece(out, gathered) == Ok(()) && out.bytes().is_empty();
    gathered.push(8)?;
    let goes = flush_piece(out, gathered) == Ok(()) && out.bytes().len() == PIECE;
    if !gathered.is_empty() {
        return Ok(false);
    }
    gathered.push(9)?;
    let ends = flush(out, gathered) == Ok(()) && out.bytes().ends_with(&[8, 9]);
    Ok(waits && goes && ends && write_all(out, b"ab") == Err(Failed))
}

fn goes_out_anew(alloc: Global) -> Result<bool, AllocError> {
    let mut gathered = vec![in alloc; 7u8; PIECE - 1]?;
    let mut out = MemSink::new(alloc, PIECE + 2, Vec::new(alloc))?;
    goes_out(&mut out, &mut gathered)
}

#[test]
fn pieces_go_out_once_they_are_full(rt: HostRuntime) -> Result<(), Fail> {
    holds(goes_out_anew(rt.alloc()))
}
