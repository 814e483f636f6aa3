//! `gpurace`: reports the data races and the divergent barriers of an OpenCL kernel launch, from its trace.
//!
//! `gr_plan` opens what the words name, and `gr_command` decides what the program does. `main` gives them the words, input, output and
//! error, and a function that opens a file.
#![tactic(auto)]

use gr_command::execute::execute;
use gr_command::status::{FAILED, FOUND, NOTHING, REFUSED, USAGE, status_of_sides_fault};
use gr_model::memory::Memory;
use gr_places::escaped::Escaped;
use gr_places::sides_fault::{SidesFault, write_sides_fault};
use gr_plan::notes::{note_buffers, note_no_command, report};
use gr_plan::plan::{Plan, Refusal, plan_of};
use gr_plan::progress::{Cleared, Watched};
use std::env::{self, Args};
use std::io::{self, BufWriter, ErrorKind, IsTerminal, Stderr, Write};
use std::process::ExitCode;
use std::sync::Wait;
use std::thread::Threads;
use std::time::Clock;

/// The words after the program's name. If there are none, and standard input is a terminal, they ask for help.
fn words_or_help(rt: HostRuntime, words: Args) -> Result<Vec<String>, Memory> {
    let mut words = words.skip(1).collect::<Vec<String>>(rt.alloc())?;
    if words.is_empty() && rt.stdin().is_terminal() {
        words.push(String::from_str(rt.alloc(), "--help")?)?;
    }
    Ok(words)
}

/// The words of the command line, without the program's name.
fn words_of(rt: HostRuntime) -> Result<Vec<String>, Refusal> {
    match env::args(&rt) {
        Ok(words) => Ok(words_or_help(rt, words)?),
        Err(error) if error.kind() == ErrorKind::OutOfMemory => Err(Refusal::from(Memory)),
        Err(_) => {
            let text = String::from_str(rt.alloc(), "an argument is not valid UTF-8");
            Err(Refusal::Usage(text.map_err(Memory::from)?))
        }
    }
}

/// Reports why nothing is done, and gives the exit status. If standard error fails, that is ignored.
fn refuse(refusal: &Refusal, errors: &mut Stderr) -> u8 {
    match refusal {
        Refusal::Fault(fault) => {
            let _ = write_sides_fault(fault, errors);
            status_of_sides_fault(fault)
        }
        Refusal::NoFile(reason) => {
            let _ = writeln!(errors, "gpurace: {}", Escaped(reason.as_str()));
            FAILED
        }
        Refusal::Buffers(fault, path) => {
            let _ = write_sides_fault(fault, errors);
            let _ = note_buffers(path.as_str(), errors);
            REFUSED
        }
        Refusal::Usage(text) => {
            let _ = writeln!(errors, "error: {}", Escaped(text.as_str()));
            USAGE
        }
    }
}

/// Reports on standard error what an outcome does not say, or its fault, and gives the exit status.
fn conclude(
    plan: &mut Plan,
    command: &str,
    outcome: Result<u8, SidesFault>,
    errors: &mut Stderr,
) -> u8 {
    match outcome {
        Ok(status) => {
            if matches!(status, NOTHING | FOUND | REFUSED) {
                let _ = plan.note_answer(status == REFUSED, errors);
            }
            if status == USAGE {
                let _ = note_no_command(command, errors);
            }
            if let (Some(note), NOTHING | FOUND) = (&plan.name_note, status) {
                let _ = writeln!(errors, "gpurace: {}", Escaped(note.as_str()));
            }
            status
        }
        Err(fault) => {
            let _ = report(plan, command, &fault, errors);
            if plan.reading.empty_file().is_some() {
                return REFUSED;
            }
            status_of_sides_fault(&fault)
        }
    }
}

/// Does what these words ask for, as planned, and gives the exit status. Only a run in threads uses `handle`.
fn perform<H>(handle: H, words: &[String], plan: &mut Plan) -> Result<u8, Memory>
where
    H: Threads + Wait + Clock + Copy + Send + 'static,
{
    let (rt, alloc) = (plan.rt, plan.rt.alloc());
    let writer = Cleared {
        writer: io::writer(&rt),
        progress: plan.files.progress.clone()?,
    };
    let mut writer = BufWriter::new(alloc, writer).map_err(|_| Memory)?;
    let mut errors = rt.stderr();
    let asked = plan.words.as_ref().map_or(words, |asked| asked.as_slice());
    let (input, files) = (&mut plan.reading, &plan.files);
    let opener = move |name: &str| Watched::open(files, name);
    let outcome = execute(
        handle,
        alloc,
        asked,
        input,
        opener,
        &mut writer,
        &mut errors,
    );
    drop(writer);
    if let Some(progress) = &plan.files.progress {
        progress.clear();
    }
    let command = words.first().map_or("", |word| word.as_str());
    Ok(conclude(plan, command, outcome, &mut errors))
}

/// Does what the words of the command line ask for, and gives the exit status. Only a run in threads uses `handle`.
fn run<H>(handle: H, rt: HostRuntime) -> Result<u8, Refusal>
where
    H: Threads + Wait + Clock + Copy + Send + 'static,
{
    let words = words_of(rt)?;
    let mut plan = plan_of(rt, &words)?;
    plan.watch()?;
    Ok(perform(handle, &words, &mut plan)?)
}

fn main(rt: HostRuntime) -> ExitCode {
    let status = run(rt, rt);
    ExitCode::from(status.unwrap_or_else(|refusal| refuse(&refusal, &mut rt.stderr())))
}
