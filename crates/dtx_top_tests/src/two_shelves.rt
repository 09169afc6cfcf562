//! Each command over the host's files and over files in memory: from the same content the same status, the same line
//! and the same files, byte for byte.

use dtx_host::{HostShelf, Progress};
use dtx_meaning::Status;
use dtx_outside::{MemoryShelf, MemorySink, Shelf, Word};
use dtx_top::run;
use std::alloc::{AllocError, Global};
use std::fs;

/// A plan of two transmitters, with a network in which the first one is received behind damage.
const PLAN: &str = "start = 0
max_delay = 5000000
[[transmitter]]
address = 7
offset = -10
delay = 1000
[[transmitter]]
address = 9
offset = 25
delay = 2000
[net]
stream = \"made.ts\"
[[net.event]]
do = \"send\"
to = 7
from = 0
count = 700
[[net.event]]
do = \"send\"
to = 9
from = 0
count = 700
[net.receive]
from = 7
[[net.receive.damage]]
at = 300000
count = 12
put = 127
";

/// Damage over a symbol file.
const CHANGES: &str = "[[damage]]
at = 5000
count = 20
put = -128
";

/// The words of a command, and the files that it leaves. Each finds those of the commands before it.
static RUNS: [(&str, &str); 24] = [
    ("make 1 700 made.ts", "made.ts"),
    ("place made.ts placed.ts", "placed.ts"),
    ("adapt plan made.ts feed.ts", "feed.ts"),
    ("code feed.ts coded.sym", "coded.sym"),
    (
        "excite feed.ts 7 1000 sent.sym sent.log",
        "sent.sym sent.log",
    ),
    ("receive coded.sym received.ts", "received.ts"),
    ("hurt coded.sym changes hurt.sym", "hurt.sym"),
    ("mend hurt.sym mended.ts", "mended.ts"),
    ("soft hurt.sym soft.sym", "soft.sym"),
    ("acquire 1 hurt.sym acquired.sym", "acquired.sym"),
    ("refine 1 2 hurt.sym refined.sym", "refined.sym"),
    ("level hurt.sym level.sym level.log", "level.sym level.log"),
    ("repeat coded.sym 9 2000 air.sym air.log", "air.sym air.log"),
    ("watch feed.ts watched", "watched"),
    ("dvb code made.ts dvb", "dvb"),
    ("dvb read dvb read.ts", "read.ts"),
    (
        "net plan",
        "net.feed net.ts tx-7.sym tx-7.log tx-9.sym tx-9.log",
    ),
    (
        "trial 5 624",
        "trial.ts net.feed net.ts tx-1.sym tx-1.log tx-2.sym tx-2.log tx-3.sym tx-3.log",
    ),
    ("code coded.sym refused.sym", "refused.sym"),
    ("receive made.ts no_sync.ts", "no_sync.ts"),
    ("adapt changes made.ts no_plan.ts", "no_plan.ts"),
    ("code made.ts made.ts", "made.ts"),
    ("code missing never.sym", "never.sym"),
    ("code made.ts", "made.ts"),
];

fn words_of(alloc: Global, text: &str) -> Result<Vec<Word>, AllocError> {
    let mut words = Vec::new(alloc);
    for word in text.split(' ') {
        words.push(Word::new(String::from_str(alloc, word)?))?;
    }
    Ok(words)
}

/// Whether the file is there with the same bytes in both, or in neither.
fn is_alike(rt: &HostRuntime, memory: &MemoryShelf, name: &str) -> bool {
    match fs::read(rt, name) {
        Ok(bytes) => memory.get(name) == Some(&bytes[..]),
        Err(_) => memory.get(name).is_none(),
    }
}

fn are_alike(rt: &HostRuntime, memory: &MemoryShelf, names: &str) -> bool {
    for name in names.split(' ') {
        if !is_alike(rt, memory, name) {
            return false;
        }
    }
    true
}

/// The answer to the words over a shelf, and its line in the sink.
pub(crate) fn answer<S: Shelf>(
    alloc: Global,
    text: &str,
    shelf: &mut S,
    out: &mut MemorySink,
) -> Status {
    match words_of(alloc, text) {
        Ok(words) => run(alloc, &words, shelf, out),
        Err(AllocError) => Status::Memory,
    }
}

fn host_answer(rt: &HostRuntime, text: &str, out: &mut MemorySink) -> Status {
    let progress = Progress::new(rt, false);
    let mut shelf = HostShelf::new(rt, &progress);
    answer(rt.alloc(), text, &mut shelf, out)
}

/// Whether both answer alike and print the same line.
fn answer_alike(rt: &HostRuntime, memory: &mut MemoryShelf, text: &str) -> bool {
    let mut in_memory = MemorySink::new(rt.alloc());
    let mut on_host = MemorySink::new(rt.alloc());
    let status = answer(rt.alloc(), text, memory, &mut in_memory);
    status != Status::Memory
        && host_answer(rt, text, &mut on_host) == status
        && in_memory.bytes() == on_host.bytes()
}

/// Puts a file into both.
fn put(rt: &HostRuntime, memory: &mut MemoryShelf, name: &str, text: &str) -> bool {
    memory.put(name, text.as_bytes()).is_ok() && fs::write(rt, name, text.as_bytes()).is_ok()
}

/// The words of the first command in which the two differ.
fn first_unlike(rt: &HostRuntime, memory: &mut MemoryShelf) -> Option<&'static str> {
    for (text, names) in &RUNS {
        if !answer_alike(rt, memory, text) || !are_alike(rt, memory, names) {
            return Some(text);
        }
    }
    None
}

fn remove_all(rt: &HostRuntime) {
    let _ = fs::remove_file(rt, "plan");
    let _ = fs::remove_file(rt, "changes");
    for (_, names) in &RUNS {
        for name in names.split(' ') {
            let _ = fs::remove_file(rt, name);
        }
    }
}

#[test]
fn each_command_does_the_same_over_both(rt: HostRuntime) {
    let mut memory = MemoryShelf::new(rt.alloc());
    assert!(rt; put(&rt, &mut memory, "plan", PLAN) && put(&rt, &mut memory, "changes", CHANGES));
    let unlike = first_unlike(&rt, &mut memory);
    remove_all(&rt);
    assert!(rt; unlike.is_none(), "{unlike:?}");
}
