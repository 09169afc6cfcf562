//! `code` over files of which a read error is foreseen. What `run` says of its stages is said of such shelves.

use crate::halting_shelf::HaltingShelf;
use crate::two_shelves::answer;
use dtx_meaning::Status;
use dtx_outside::{MemoryShelf, MemorySink, Shelf};
use std::alloc::{AllocError, Global};

/// How many bytes of the input can be read. They end in its third piece, which is 208 packets as the two before it.
const READABLE: u64 = 100_000;

/// How many symbols are written at least before reading fails. All readable bytes but for less than a piece are more
/// than 60,896. They hold 80 whole groups of four packets, which give 320 data segments and two field syncs. At most
/// 131,072 symbols at the end aren't written.
const LEAST: usize = 322 * 832 - 131_072;

/// What the output holds before.
const BEFORE: &[u8] = b"before";

/// Whether the words are answered so over the shelf, and with that line.
fn is_answered<S: Shelf>(
    alloc: Global,
    text: &str,
    shelf: &mut S,
    status: Status,
    printed: &str,
) -> bool {
    let mut out = MemorySink::new(alloc);
    answer(alloc, text, shelf, &mut out) == status && out.bytes() == printed.as_bytes()
}

/// Whether a stream of 1,000 packets is made and coded: 1,000 data segments and four field syncs.
fn is_coded(alloc: Global, memory: &mut MemoryShelf) -> bool {
    let mut out = MemorySink::new(alloc);
    answer(alloc, "make 1 1000 in.ts", memory, &mut out) == Status::Done
        && answer(alloc, "code in.ts out.sym", memory, &mut out) == Status::Done
}

/// A shelf of which the first `N` bytes of this input can be read. Its output is there already.
fn halting<const N: u64>(alloc: Global, input: &[u8]) -> Result<HaltingShelf<N>, AllocError> {
    let mut memory = MemoryShelf::new(alloc);
    memory.put("in.ts", input)?;
    memory.put("out.sym", BEFORE)?;
    Ok(HaltingShelf::new(memory))
}

/// Whether `code` meets the read error.
fn is_fault<const N: u64>(alloc: Global, shelf: &mut HaltingShelf<N>) -> bool {
    is_answered(
        alloc,
        "code in.ts out.sym",
        shelf,
        Status::ReadFault,
        "read fault\n",
    )
}

/// Whether these are the first symbols, and enough of them.
fn is_front(left: Option<&[u8]>, symbols: &[u8]) -> bool {
    match left {
        Some(front) => front.len() >= LEAST && symbols.starts_with(front),
        None => false,
    }
}

/// Whether the symbols of what could be read are written when reading fails.
fn is_written_on_the_way(alloc: Global, input: &[u8], symbols: &[u8]) -> bool {
    match halting::<READABLE>(alloc, input) {
        Ok(mut shelf) => is_fault(alloc, &mut shelf) && is_front(shelf.get("out.sym"), symbols),
        Err(AllocError) => false,
    }
}

/// Whether the output is as before when no byte of the input can be read.
fn is_untouched(alloc: Global, input: &[u8]) -> bool {
    match halting::<0>(alloc, input) {
        Ok(mut shelf) => is_fault(alloc, &mut shelf) && shelf.get("out.sym") == Some(BEFORE),
        Err(AllocError) => false,
    }
}

/// Whether both hold of a coded stream.
fn works_in_stages(alloc: Global, memory: &MemoryShelf) -> bool {
    match (memory.get("in.ts"), memory.get("out.sym")) {
        (Some(input), Some(symbols)) => {
            is_written_on_the_way(alloc, input, symbols) && is_untouched(alloc, input)
        }
        _ => false,
    }
}

#[test]
fn code_writes_what_could_be_read_and_begins_no_output_before(rt: HostRuntime) {
    let mut memory = MemoryShelf::new(rt.alloc());
    assert!(rt; is_coded(rt.alloc(), &mut memory));
    assert!(rt; works_in_stages(rt.alloc(), &memory));
}
