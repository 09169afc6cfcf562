// The table of the commands. A row has a command's first word, its fields, and the labels of its line.
ghost use Rattle.std.specs.Prelude.{◌≡◌};
ghost use Rattle.dtx_words.specs.Rows.{row_behind, row_of, second_text};

use dtx_sizes::{FRAME_PACKETS, MOST_PACKETS};

/// How many packets the stream of a trial has at least: those of one frame.
pub const FEWEST_TRIAL: u64 = FRAME_PACKETS as u64;

/// How many packets the stream of a trial has at most (the profile's own limit).
pub const MOST_TRIAL: u64 = 1_000_000;

/// How many steps of a capture one unit of the standard's levels has at most. The highest level is 7 units, and 7 * 18
/// fits a signed byte.
pub const MOST_SCALE: u64 = 18;

/// How many rounds a capture is refined in at most (the profile's own limit).
pub const MOST_ROUNDS: u64 = 32;

/// A command. It has one word of its own, or two. Each variant says what the command does with words that fit it. What
/// a stream, a feed and symbols are, `docs/glossary.md` says.
#[derive(Clone, Copy, PartialEq, Eq)]
pub enum Command {
    /// `adapt PLAN IN OUT` writes the feed of the stream IN under the plan of PLAN to OUT. IN has packets of 188 bytes,
    /// which begin with 0x47. In the feed, byte 0 of packet k is the cadence mark 0xB8 where 624 divides k, and 0x47
    /// elsewhere. Each placeholder, of packet identifier 0x1FFA, becomes an operations packet, which says from which
    /// states and when its group is sent (the profile's own, in the manner of ATSC A/110).
    Adapt,
    /// `code IN OUT` writes the symbols of the stream or feed IN to OUT, one signed byte each in two's complement. They
    /// are the symbols of all data segments and field syncs of IN's whole groups of four packets (ATSC A/53 Part 2).
    /// Byte 0 of each packet is 0x47 or the mark 0xB8, and isn't sent.
    Code,
    /// `excite FEED ADDRESS DELAY OUT LOG` gives the packets of FEED, which may have any bytes, to one exciter (the
    /// profile's own, over ATSC A/53 Part 2 and in the manner of ATSC A/110). It writes the segments that the exciter
    /// sends to OUT, one signed byte a symbol in two's complement, and its log to LOG. ADDRESS is the transmitter's
    /// address, 0 to 65,535. DELAY is how long the feed takes to reach the transmitter, in ticks of 100 ns, 0 to
    /// 4,294,967,295. Both are written as the numbers of `make` are.
    Excite,
    /// `receive IN OUT` receives the symbols IN, and writes their packets to OUT (ATSC A/53 Part 2, the way back). It
    /// receives every run of segments that begins with one that looks like a field sync. In the word of each packet up
    /// to ten wrong bytes are put right. A packet whose word has no correction is flagged.
    Receive,
    /// `net PLAN` plays a network (the profile's own). It adapts the stream that the table `net` of PLAN names to
    /// `net.feed`, and plays the plan's events. What the transmitter of address A sends goes to `tx-A.sym`, and its log
    /// to `tx-A.log`. If the plan asks for a receiver, it receives the symbols of its transmitter, with the plan's
    /// damage laid over them. Its packets go to `net.ts`.
    Net,
    /// `make SEED COUNT OUT` writes the packets 0 to COUNT - 1 that `dtx_make::packet` gives for SEED to OUT. SEED is 0
    /// to 2^64 - 1 and COUNT 0 to 624,000,000. Both are decimal digits without a sign, and without a leading zero but
    /// in `0`.
    Make,
    /// `hurt IN CHANGES OUT` writes the bytes of IN to OUT with the damage that CHANGES lists laid over them (the
    /// profile's own). Each byte that an entry covers becomes that entry's `put`, in two's complement. If an entry ends
    /// past the end of IN, OUT is written all the same, and the answer has the number of the first such entry.
    Hurt,
    /// `place IN OUT` writes the packets of IN to OUT with placeholders, so that a stream from an encoder can be
    /// adapted (the profile's own). In each field the first null packet from place 52 on becomes a placeholder, unless
    /// an earlier packet from place 52 on is one already.
    Place,
    /// `trial SEED COUNT` writes the packets 0 to COUNT - 1 that `dtx_make::packet` gives for SEED to `trial.ts`, and
    /// plays a network over them as `net` does (the profile's own). Three transmitters are given the feed. The third
    /// one is first given 50 packets without a mark, and its symbols are received. COUNT is 624 to 1,000,000.
    Trial,
    /// `soft IN OUT` writes the segments of the symbols IN to OUT, softened (ATSC A/53 Part 2, trellis coding). It
    /// softens the whole groups of four segments of each field of a run. Their data symbols become those of the least
    /// path of each trellis coder: the path with the least sum of squared differences. All other segments stay.
    Soft,
    /// `mend IN OUT` writes the packets of the symbols IN to OUT as `receive` does. A symbol of -128 says that nothing
    /// was received there. In each word e wrong bytes and f missing ones are put right where 2e + f is at most 20.
    Mend,
    /// `dvb code IN OUT` writes the packets of IN, which begin with 0x47, to OUT as EN 300 429 sends them: randomized,
    /// as Reed-Solomon codewords of 204 bytes, interleaved.
    DvbCode,
    /// `dvb read IN OUT` reads bytes as `dvb code` writes them, of which the first begins a group of eight packets. It
    /// writes a packet to OUT for each block of 204 bytes after the first eleven. In the word of each packet up to
    /// eight wrong bytes are put right. A packet whose word has no correction is flagged.
    DvbRead,
    /// `repeat IN ADDRESS DELAY OUT LOG` receives the symbols IN and restores the cadence marks of their packets from
    /// the field syncs. It gives the packets to an exciter with ADDRESS and DELAY, as `excite` does. Each run is a life
    /// of its own: the exciter is restarted before the next one.
    Repeat,
    /// `acquire SCALE IN OUT` finds the fields of the capture IN, and writes their segments to OUT, with the syncs
    /// restored and the symbols decided (the profile's own). IN has one signed byte a symbol and SCALE steps a unit, 1
    /// to 18.
    Acquire,
    /// `watch FEED OUT` writes a line to OUT for each event of FEED (the profile's own). An event is an anchor found or
    /// lost, or an operations packet. The line of a packet says whether it reads, whether its states are those of the
    /// coders, and whether its clock runs.
    Watch,
    /// `level IN OUT LOG` brings the capture IN to eight steps a unit by its field syncs, and writes it to OUT. It
    /// writes a line to LOG for each sync (the profile's own). IN has one signed byte a symbol, of any gain and
    /// constant, inverted or not.
    Level,
    /// `refine SCALE ROUNDS IN OUT` finds the fields of the capture IN as `acquire` does, and decides their symbols in
    /// ROUNDS rounds, 1 to 32 (the profile's own). The words that can be put right before a round pin its paths: the
    /// trellis decoder has to give their pairs.
    Refine,
}

/// The second word of a command that has two.
#[derive(Clone, Copy)]
pub enum SecondWord {
    /// `code`
    Code,
    /// `read`
    Read,
}

impl SecondWord {
    /// The word itself.
    pub(crate) fn text(self) -> &'static str
        ensures { result.now ≡ second_text self }
    {
        match self {
            SecondWord::Code => "code",
            SecondWord::Read => "read",
        }
    }
}

/// What a word that follows the first one stands for.
#[derive(Clone, Copy)]
pub enum Field {
    /// The name of a file that is read.
    Input,
    /// The name of a file that is written.
    Output,
    /// A whole number that is at most this.
    Number(u64),
    /// A whole number that is at least the first of these and at most the second.
    Within(u64, u64),
    /// The second word of the command.
    Second(SecondWord),
}

/// The row of a command: its words, and its line.
pub(crate) struct CommandRow {
    /// Its first word.
    pub verb: &'static str,
    /// What the words that follow stand for.
    pub fields: &'static [Field],
    /// The text before each number of its line; of `net` the first three alone, where it has no receiver.
    pub labels: &'static [&'static str],
}

/// All commands.
pub(crate) const COMMANDS: [Command; 18] = [
    Command::Adapt,
    Command::Code,
    Command::Excite,
    Command::Receive,
    Command::Net,
    Command::Make,
    Command::Hurt,
    Command::Place,
    Command::Trial,
    Command::Soft,
    Command::Mend,
    Command::DvbCode,
    Command::DvbRead,
    Command::Repeat,
    Command::Acquire,
    Command::Watch,
    Command::Level,
    Command::Refine,
];

/// One command for each first word, in the order of the usage line.
pub(crate) const FIRST_WORDS: [Command; 17] = [
    Command::Adapt,
    Command::Code,
    Command::Excite,
    Command::Receive,
    Command::Net,
    Command::Make,
    Command::Hurt,
    Command::Place,
    Command::Trial,
    Command::Soft,
    Command::Mend,
    Command::DvbCode,
    Command::Repeat,
    Command::Acquire,
    Command::Watch,
    Command::Level,
    Command::Refine,
];

/// `adapt PLAN IN OUT`
const ADAPT: CommandRow = CommandRow {
    verb: "adapt",
    fields: &[Field::Input, Field::Input, Field::Output],
    labels: &["packets ", " filled ", " loose "],
};

/// `code IN OUT`
const CODE: CommandRow = CommandRow {
    verb: "code",
    fields: &[Field::Input, Field::Output],
    labels: &["packets ", " segments ", " loose "],
};

/// The fields of an exciter: its input, its address, the delay to it in ticks of 100 ns, its symbols and its log.
const EXCITER_FIELDS: &[Field] = &[
    Field::Input,
    Field::Number(u16::MAX as u64),
    Field::Number(u32::MAX as u64),
    Field::Output,
    Field::Output,
];

/// `excite FEED ADDRESS DELAY OUT LOG`
const EXCITE: CommandRow = CommandRow {
    verb: "excite",
    fields: EXCITER_FIELDS,
    labels: &["packets ", " segments ", " presets ", " mutes ", " loose "],
};

/// The labels of a receiver's line.
const RECEIVER_LABELS: &[&str] = &[
    "segments ",
    " runs ",
    " packets ",
    " fixed ",
    " flagged ",
    " loose ",
];

/// `receive IN OUT`
const RECEIVE: CommandRow = CommandRow {
    verb: "receive",
    fields: &[Field::Input, Field::Output],
    labels: RECEIVER_LABELS,
};

/// The labels of a network's line.
const NETWORK_LABELS: &[&str] = &[
    "feed ",
    " filled ",
    " steps ",
    " packets ",
    " fixed ",
    " flagged ",
];

/// `net PLAN`
const NET: CommandRow = CommandRow {
    verb: "net",
    fields: &[Field::Input],
    labels: NETWORK_LABELS,
};

/// `make SEED COUNT OUT`
const MAKE: CommandRow = CommandRow {
    verb: "make",
    fields: &[
        Field::Number(u64::MAX),
        Field::Number(MOST_PACKETS),
        Field::Output,
    ],
    labels: &["packets "],
};

/// `hurt IN CHANGES OUT`
const HURT: CommandRow = CommandRow {
    verb: "hurt",
    fields: &[Field::Input, Field::Input, Field::Output],
    labels: &["bytes ", " damaged "],
};

/// `place IN OUT`
const PLACE: CommandRow = CommandRow {
    verb: "place",
    fields: &[Field::Input, Field::Output],
    labels: &["packets ", " placed ", " bare ", " loose "],
};

/// `trial SEED COUNT`
const TRIAL: CommandRow = CommandRow {
    verb: "trial",
    fields: &[
        Field::Number(u64::MAX),
        Field::Within(FEWEST_TRIAL, MOST_TRIAL),
    ],
    labels: NETWORK_LABELS,
};

/// `soft IN OUT`
const SOFT: CommandRow = CommandRow {
    verb: "soft",
    fields: &[Field::Input, Field::Output],
    labels: &["segments ", " fields ", " cost ", " loose "],
};

/// `mend IN OUT`
const MEND: CommandRow = CommandRow {
    verb: "mend",
    fields: &[Field::Input, Field::Output],
    labels: RECEIVER_LABELS,
};

/// `dvb code IN OUT`
const DVB_CODE: CommandRow = CommandRow {
    verb: "dvb",
    fields: &[Field::Second(SecondWord::Code), Field::Input, Field::Output],
    labels: &["packets ", " loose "],
};

/// `dvb read IN OUT`
const DVB_READ: CommandRow = CommandRow {
    verb: "dvb",
    fields: &[Field::Second(SecondWord::Read), Field::Input, Field::Output],
    labels: &["blocks ", " packets ", " fixed ", " flagged ", " loose "],
};

/// `repeat IN ADDRESS DELAY OUT LOG`
const REPEAT: CommandRow = CommandRow {
    verb: "repeat",
    fields: EXCITER_FIELDS,
    labels: &[
        "segments ",
        " runs ",
        " packets ",
        " sent ",
        " presets ",
        " mutes ",
        " loose ",
    ],
};

/// `acquire SCALE IN OUT`
const ACQUIRE: CommandRow = CommandRow {
    verb: "acquire",
    fields: &[Field::Within(1, MOST_SCALE), Field::Input, Field::Output],
    labels: &["symbols ", " runs ", " segments ", " cost ", " loose "],
};

/// `watch FEED OUT`
const WATCH: CommandRow = CommandRow {
    verb: "watch",
    fields: &[Field::Input, Field::Output],
    labels: &[
        "packets ", " ops ", " slips ", " jumps ", " unread ", " stray ", " loose ",
    ],
};

/// `level IN OUT LOG`
const LEVEL: CommandRow = CommandRow {
    verb: "level",
    fields: &[Field::Input, Field::Output, Field::Output],
    labels: &["symbols ", " syncs ", " slips "],
};

/// `refine SCALE ROUNDS IN OUT`
const REFINE: CommandRow = CommandRow {
    verb: "refine",
    fields: &[
        Field::Within(1, MOST_SCALE),
        Field::Within(1, MOST_ROUNDS),
        Field::Input,
        Field::Output,
    ],
    labels: &[
        "symbols ",
        " runs ",
        " segments ",
        " cost ",
        " known ",
        " moved ",
        " loose ",
    ],
};

/// The row of a command.
pub(crate) fn row(command: Command) -> &'static CommandRow
    ensures { row_behind (row_of command).refuses result.now ≡ row_of command }
{
    match command {
        Command::Adapt => &ADAPT,
        Command::Code => &CODE,
        Command::Excite => &EXCITE,
        Command::Receive => &RECEIVE,
        Command::Net => &NET,
        Command::Make => &MAKE,
        Command::Hurt => &HURT,
        Command::Place => &PLACE,
        Command::Trial => &TRIAL,
        Command::Soft => &SOFT,
        Command::Mend => &MEND,
        Command::DvbCode => &DVB_CODE,
        Command::DvbRead => &DVB_READ,
        Command::Repeat => &REPEAT,
        Command::Acquire => &ACQUIRE,
        Command::Watch => &WATCH,
        Command::Level => &LEVEL,
        Command::Refine => &REFINE,
    }
}
