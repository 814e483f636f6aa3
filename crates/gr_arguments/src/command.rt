//! The program's commands and options, and their help.

ghost use Rattle.std.specs.Prelude.{◌≡◌, false, IfOk};
ghost use Rattle.clap.specs.declared.builder.command.Command.TheViews.{out-Command as fields_of};
ghost use Rattle.clap.specs.Walk.{rule_of};
ghost use Rattle.clap.specs.Words.{app_of, shape_of};
ghost use Rattle.gr_arguments.specs.Commands.{gpurace};
ghost use Rattle.gr_arguments.specs.Pages.{rule_for, shape_for, with_commands, with_rules};

use clap::{Arg, ArgAction, Command};
use std::alloc::{AllocError, Global};

pub const EXPLAIN_USAGE: &str = "\
gpurace explain [OPTIONS] <SPACE> <WORD> <FILE>...
       gpurace explain [OPTIONS] <NAME[INDEX]> <FILE>...  (- is standard input)";

pub const HISTORY_USAGE: &str = "\
gpurace history [OPTIONS] <SPACE> <WORD> <FILE>...
       gpurace history [OPTIONS] <NAME[INDEX]> <FILE>...  (- is standard input)";

pub const RACES_USAGE: &str = "gpurace races [OPTIONS] <FILE>...  (- is standard input)";

pub const RUN_USAGE: &str = "gpurace run [OPTIONS] <FILE>...  (- is standard input)";

pub const WHY_HELD_USAGE: &str =
    "gpurace why-held [OPTIONS] <GROUP> <ITEM> <INDEX> <FILE>...  (- is standard input)";

const ABOUT: &str =
    "Reports the data races of an OpenCL kernel launch, and its divergent barriers, from its trace";

const LONG_ABOUT: &str = "\
Reports the data races of an OpenCL kernel launch, and its divergent barriers, from a trace of what its work-items did.

A race is that of the OpenCL 2.0 memory model: two accesses of different work-items to one word, at least one of
them a write, not both atomic with inclusive scope, and neither of which happens before the other. The report is
exact for the trace: of the records that it judges, it names each word that has a race, each divergent barrier, each
acquire that never gets a release it names, and no other. It counts the records that it does not judge (`held`).";

const AFTER_HELP: &str = "\
Files: FILE is a file with one stream, a file with several, a folder as gpurace-record leaves it, or - for standard input.
Without a command, `gpurace FILE..` reports on the trace in the files.

Examples:
  gpurace group0.gpurace group1.gpurace
  gpurace replay < trace.gpurace
  gpurace pack < trace.txt | gpurace replay
  gpurace dump trace.gpurace > trace.txt
  gpurace explain --long g 16 group0.gpurace group1.gpurace
  gpurace explain --long launches/000-sum 'partial[10]'
  gpurace races launches/000-sum
  gpurace history g 16 group0.gpurace group1.gpurace
  gpurace run --workers 4 group0.gpurace group1.gpurace
  gpurace check group0.gpurace group1.gpurace
  gpurace why-held 0 3 12 group0.gpurace group1.gpurace

Exit status:
  0  nothing was found, or what was asked for is done
  1  something was found: a race; by replay and run also a divergent barrier or an unmatched acquire; by why-held
     that the record is held
  2  the trace or a side file was refused; standard error says where and why
  3  the arguments are wrong
  4  memory ran out, or a thread could not be started
  5  reading or writing failed";

const USAGE: &str = "\
gpurace [--json] [FILE]...
       gpurace <COMMAND> ...";

const PARTIAL: &str = "If the trace is refused, writes what comes before the fault";

const LONG: &str =
    "Also says what the two accesses are, what is between them, and the cause of their race";

const LONG_PLACES: &str = "\
With --long: a file of lines GROUP ITEM INDEX TEXT, or SITE TEXT of barriers: where in the source the record or barrier is";

const LONG_BUFFERS: &str = "\
With --long, or for a name: a file of lines g FIRST WORDS NAME or l GROUP FIRST WORDS NAME: which words are which buffer";

const JSON: &str = "Writes JSON, an object a line, in place of text";

const SPACE: &str =
    "g for global memory, or l with a group from 0 to 65534, as l3, for its local memory";

const WORD: &str = "The number of the word, below 4294967296";

const FILES: &str =
    "The streams of the launch: files with one or several, a folder of them, or - for standard input";

const PLACES: &str =
    "A file of lines GROUP ITEM INDEX TEXT, or SITE TEXT of barriers: where in the source they are";

const BUFFERS: &str =
    "A file of lines g FIRST WORDS NAME or l GROUP FIRST WORDS NAME: which words are which buffer";

const WORKERS: &str = "How many threads look for races, 1 to 8; 2 if not given";

const QUEUES: &str = "How many queues the records come through, 1 to 4; 1 if not given";

const CAPACITY: &str =
    "For how many batches of records each queue has room, 1 to 65536; 1024 if not given";

/// What a command takes.
#[derive(Clone, Copy)]
enum Parameter {
    /// An option that is there or not: its name and its help.
    Flag(&'static str, &'static str),
    /// An option with a value: its name, the name of the value, and its help.
    Valued(&'static str, &'static str, &'static str),
    /// A value that must be given: its name and its help.
    Wanted(&'static str, &'static str),
    /// The files: one at least.
    Files,
}

/// A command: its name, its help and what it takes.
#[derive(Clone, Copy)]
struct Page {
    name: &'static str,
    usage: &'static str,
    about: &'static str,
    long_about: Option<&'static str>,
    example: &'static str,
    parameters: &'static [Parameter],
}

/// The program's commands, in the order in which help shows them.
const PAGES: [Page; 10] = [
    Page {
        name: "replay",
        usage: "gpurace replay [OPTIONS] [FILE]...",
        about: "Reports on the trace in files, or on standard input; the default without a command",
        long_about: None,
        example: "\
Example:
  gpurace replay group*.gpurace
  gpurace 1
  groups 1 items 2 records 3
  race global 16
  end races 1 diverge 0 unmatched 0 held 0",
        parameters: &[Parameter::Flag("json", JSON)],
    },
    Page {
        name: "pack",
        usage: "gpurace pack [FILE]...",
        about: "Writes the bytes of the trace whose text is in files, or on standard input, as in `pack TEXT > FILE`",
        long_about: None,
        example: "\
Example, with a text of two work-items, of which item 0 writes word 16 of global memory and item 1 reads it:
  gpurace pack < trace.txt > trace.gpurace
  group 0 items 2 launch 7
  0 w g 16
  1 r g 16
  end",
        parameters: &[],
    },
    Page {
        name: "dump",
        usage: "gpurace dump [OPTIONS] [FILE]...",
        about: "Writes the text of the trace in files, or on standard input",
        long_about: Some(
            "\
Writes the text of the trace in files, or on standard input, a line for each header and each record.

If the trace is refused, nothing is written; with --partial the lines of all headers and records before the fault are written.
Either way the status is that of the fault, and standard error says where and why.",
        ),
        example: "\
Example:
  gpurace dump --partial < trace.gpurace
  group 0 items 2 launch 7
  0 w g 16
  gpurace: stream 0: truncated",
        parameters: &[Parameter::Flag("partial", PARTIAL)],
    },
    Page {
        name: "upgrade",
        usage: "gpurace upgrade [FILE]...",
        about: "Writes the trace in files, or on standard input, with version 2 in place of version 1, as in `upgrade OLD > NEW`",
        long_about: Some(
            "\
Writes the trace in files, or on standard input: each stream of version 1 as one of version 2, and all others as they are.

In version 1 an acquire names one release at most, in version 2 up to four. The trace says the same as before, and its report is the
same. If the trace is refused, nothing is written.",
        ),
        example: "\
Example:
  gpurace upgrade old.gpurace > new.gpurace
  gpurace dump new.gpurace | head -n 1
  group 0 items 2 launch 7 v2",
        parameters: &[],
    },
    Page {
        name: "explain",
        usage: EXPLAIN_USAGE,
        about: "Reports which two accesses race on one word",
        long_about: Some(
            "\
Reports which two accesses race on one word, or that it has no race.

An access is written as GROUP ITEM INDEX; the records of an item are counted from 0. Of all racing pairs the least is shown,
by its first access and then by its second.

With --long more lines follow the line of a race. They say what each of the two accesses is, with the number of its record in
the stream of its group, from 0, and the phase: how many barriers of its item come before it. Then they say what is between the two, if
anything is: each barrier of their group that comes before only one of them, a release after either, and an acquire before the
other. Then comes the cause of the race, and after it further races of the word. With --buffers there is also the buffer of
the word, and with --places the places in the source of these records and, by their sites, of the barriers, if the files have them.
Below a word without a race is how many accesses to it are held: these are not judged, since an unmatched acquire holds them back.

If a file of buffers is given, or a folder has one, a word may be given by its name in place of SPACE and WORD, as in
`gpurace explain FOLDER 'partial[10]'`.",
        ),
        example: "\
Examples:
  gpurace explain l0 4 group*.gpurace
  race local 0 4: 0 0 0 with 0 1 0

With side files, whose lines say where records and barriers are in the source and which words are which buffer:
  gpurace explain --long --places places --buffers buffers g 16 group*.gpurace
  race global 16: 0 0 0 with 0 1 1
  buffer words[16]
  first write record 0 phase 0 at flag.cl:3:19
  second read record 3 phase 1 at flag.cl:6:19
  barrier 0 site 1 l at flag.cl:4:5
  cause flags: if every barrier had CLK_LOCAL_MEM_FENCE | CLK_GLOBAL_MEM_FENCE, the two would be ordered",
        parameters: &[
            Parameter::Flag("long", LONG),
            Parameter::Valued("places", "FILE", LONG_PLACES),
            Parameter::Valued("buffers", "FILE", LONG_BUFFERS),
            Parameter::Flag("json", JSON),
            Parameter::Wanted("SPACE", SPACE),
            Parameter::Wanted("WORD", WORD),
            Parameter::Files,
        ],
    },
    Page {
        name: "races",
        usage: RACES_USAGE,
        about: "Reports all races, kind by kind, with two accesses that race",
        long_about: Some(
            "\
Reports all words that have a race, kind by kind: which words they are, and two accesses that race on the first of them.

A kind is the memory, what the two accesses do, whether they are of one work-group, where they are in the source if --places
has both, and with --causes the cause of the race. An access is written as GROUP ITEM INDEX; the records of an item are counted
from 0. The races are found by clocks, as replay finds them. Divergent barriers come first, because they may cause races, and
below the first one what each item of its group came with, or that it never came. The last line counts divergent barriers,
unmatched acquires, and all records that are held.",
        ),
        example: "\
Example, with causes, and with side files, whose lines say where accesses are in the source and which words are which buffer:
  gpurace races --causes --places places --buffers buffers --most 1 group*.gpurace
  kind global write read one group words 48
  words global 896..943
  race global 896: 0 3 12 with 0 7 14
  buffer psc[448]
  first scan.cl:4992:7
  second scan.cl:5001:16
  cause no-barrier: nothing orders the two; a barrier with CLK_GLOBAL_MEM_FENCE between them would
  end kinds 1 races 48 diverge 0 unmatched 0 held 0",
        parameters: &[
            Parameter::Valued("most", "N", "How many kinds to report at most"),
            Parameter::Valued("places", "FILE", PLACES),
            Parameter::Valued("buffers", "FILE", BUFFERS),
            Parameter::Flag(
                "causes",
                "Also reports the cause of each race that is shown",
            ),
            Parameter::Flag("json", JSON),
            Parameter::Files,
        ],
    },
    Page {
        name: "history",
        usage: HISTORY_USAGE,
        about: "Lists all accesses to one word, and which are ordered after which",
        long_about: Some(
            "\
Lists all accesses to one word, in an order in which they may have happened. Each line says after which of the accesses above it
this access is ordered. Two accesses of different work-items race if neither is ordered after the other, unless both read or both
are atomic with inclusive scope. Accesses that are held come last.

An access is written as GROUP ITEM INDEX; the records of an item are counted from 0. A word may be given by its name, as in explain.",
        ),
        example: "\
Example, with side files, whose lines say where accesses are in the source and which words are which buffer:
  gpurace history --places places --buffers buffers l0 4 group*.gpurace
  buffer tile[4]
  access 0 0 0 write record 0 phase 0 ordered after none at scan.cl:12:5
  access 0 1 1 read record 3 phase 1 ordered after all at scan.cl:14:9
  end accesses 2 held 0 races no",
        parameters: &[
            Parameter::Valued("places", "FILE", PLACES),
            Parameter::Valued("buffers", "FILE", BUFFERS),
            Parameter::Flag("json", JSON),
            Parameter::Wanted("SPACE", SPACE),
            Parameter::Wanted("WORD", WORD),
            Parameter::Files,
        ],
    },
    Page {
        name: "run",
        usage: RUN_USAGE,
        about: "Reports on the trace in files, by several threads",
        long_about: Some(
            "\
Reports on the trace in files, by several threads: what is written and the status are those of replay on the same streams.

Each file has a thread that reads it and sends its records on; one thread puts all records in order; workers look for races.
So the files may be pipes that are still being written. If the whole trace is there already, replay takes less processor time.
A file that cannot be opened is reported first, and then the faults of headers, in the order of the files.",
        ),
        example: "\
Example:
  gpurace run --workers 4 group*.gpurace
  gpurace 1
  groups 4 items 1024 records 81920
  end races 0 diverge 0 unmatched 0 held 0",
        parameters: &[
            Parameter::Valued("workers", "N", WORKERS),
            Parameter::Valued("queues", "N", QUEUES),
            Parameter::Valued("capacity", "N", CAPACITY),
            Parameter::Flag("json", JSON),
            Parameter::Files,
        ],
    },
    Page {
        name: "check",
        usage: "gpurace check [OPTIONS] <FILE>...  (- is standard input)",
        about: "Reports which record of a trace is at fault, and what would be right",
        long_about: Some(
            "\
Reports which record of which file is at fault, what is wrong with it and what would be right; or, if the trace is accepted, how
many groups, items and records of each kind it has. It does not look for races.",
        ),
        example: "\
Example:
  gpurace check group*.gpurace
  gpurace: stream 1: unknown item
  file group1.gpurace
  record 17 byte 352
  wrong: the record's work-item is not below the header's number of work-items
  right: bytes 4 and 5 are the work-item by its place in the group, from 0; often the global number was written in its place",
        parameters: &[Parameter::Flag("json", JSON), Parameter::Files],
    },
    Page {
        name: "why-held",
        usage: WHY_HELD_USAGE,
        about: "Reports why a record is held",
        long_about: Some(
            "\
Reports why a record is held, and so not judged: what it waits for, what that waits for, and so on, up to an acquire that names a
release that is not there or is on another word, or to records that wait for one another in a circle. A record is written as GROUP ITEM
INDEX, as the report writes an unmatched acquire; the records of an item are counted from 0.

The status is 1 if the record is held, and else 0.",
        ),
        example: "\
Example:
  gpurace why-held 0 1 1 group*.gpurace
  held 0 1 1 after 0 1 0
  held 0 1 0 release 0 0 1
  held 0 0 1 after 0 0 0
  held 0 0 0 absent 0 3 0",
        parameters: &[
            Parameter::Flag("json", JSON),
            Parameter::Wanted("GROUP", "The number of the record's work-group"),
            Parameter::Wanted("ITEM", "The number of its work-item in the group"),
            Parameter::Wanted("INDEX", "Its number in the trace of the work-item"),
            Parameter::Files,
        ],
    },
];

/// The argument of a parameter.
fn arg_of<'a>(alloc: Global, parameter: Parameter) -> Arg<'a>
    ensures rule { rule_of result ≡ rule_for parameter }
    ensures alone { result.global ≡ false }
{
    match parameter {
        Parameter::Flag(name, help) => Arg::new(alloc, name)
            .long(name)
            .action(ArgAction::SetTrue)
            .help(help),
        Parameter::Valued(name, value, help) => Arg::new(alloc, name)
            .long(name)
            .value_name(value)
            .help(help),
        Parameter::Wanted(name, help) => Arg::new(alloc, name).required(true).help(help),
        Parameter::Files => Arg::new(alloc, "FILE")
            .required(true)
            .action(ArgAction::Append)
            .help(FILES),
    }
}

/// The command of a page.
#[tactic(auto, using(std::proofs::lemmas::List::Sums::fold_more))]
fn command_of<'a>(alloc: Global, page: &Page) -> Result<Command<'a>, AllocError>
    ensures shape { IfOk result (λ c. shape_of c ≡ shape_for page.now) }
    ensures alone { IfOk result (λ c. (fields_of c).has_globals ≡ false) }
{
    let mut command = Command::new(alloc, page.name)
        .override_usage(page.usage)
        .about(page.about)
        .after_help(page.example);
    if let Some(text) = page.long_about {
        command = command.long_about(text);
    }
    for parameter in page.parameters {
        command = command.arg(arg_of(alloc, *parameter))?;
    }
    Ok(command)
}

/// The program, with the commands of these pages too.
#[tactic(auto, using(std::proofs::lemmas::List::Sums::fold_more), unfolding(crate::specs::Pages::with_commands))]
fn with_pages<'a>(
    alloc: Global,
    mut command: Command<'a>,
    pages: &[Page],
) -> Result<Command<'a>, AllocError>
    ensures { IfOk result (λ c. app_of c ≡ with_commands (app_of command.entry) pages.now) }
{
    for page in pages {
        command = command.subcommand(command_of(alloc, page)?)?;
    }
    Ok(command)
}

/// The program's commands and options, as help shows them.
pub(crate) fn command<'a>(alloc: Global) -> Result<Command<'a>, AllocError>
    ensures { IfOk result (λ c. app_of c ≡ gpurace) }
{
    let command = Command::new(alloc, "gpurace")
        .bin_name("gpurace")?
        .no_binary_name(true)
        .version("0.2.0")
        .override_usage(USAGE)
        .about(ABOUT)
        .long_about(LONG_ABOUT)
        .after_help(AFTER_HELP);
    with_pages(alloc, command, &PAGES)
}
