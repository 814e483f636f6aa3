//! Reports as JSON, and the report of a run in threads over files, as text or JSON.

ghost use Rattle.std.specs.Prelude.{◌≡◌, ◌≢◌, ◌⊎◌, true, IfErr, IfOk, IfSome, OnOk, map};
ghost use Rattle.std.specs.Fn.{FnReturnsAt};
ghost use Rattle.std.specs.Io.KnownBytes.{Keeps};
ghost use Rattle.gr_model.specs.Prelude.{WholeReport};
ghost use Rattle.gr_replay.specs.Replays.{IsExact, IsReplayFault};
ghost use Rattle.gr_report.specs.Whole.{whole_of};
ghost use Rattle.gr_command.specs.Answers.{IsFaultOfFiles, IsReportOfFiles, WritesPrefixOfFiles, WritesReport, WritesReportPrefix};

use crate::writing::write_text;
use gr_arguments::request::Arguments;
use gr_json::report::report_json;
use gr_model::config::Config;
use gr_places::opening::open_all;
use gr_record::fault::Fault;
use gr_replay::read_report;
use gr_report::report::Report;
use gr_streams::{NoWatch, detect_streams, run_streams};
use std::alloc::Global;
use std::io::{self, Read, Write};
use std::sync::{Arc, Wait};
use std::thread::Threads;
use std::time::Clock;

/// Writes the JSON of a report and nothing else.
///
/// # Errors
/// `Memory`, before anything is written; `Write`, after which the writer has a prefix.
fn write_json<W: Write>(alloc: Global, report: &Report, writer: &mut W) -> Result<(), Fault>
    ensures whole { OnOk result (WritesReport true (whole_of report.now) (W.contents writer.old) (W.contents writer.new)) }
    ensures fault { IfErr result (λ f. (f ≡ Fault.Memory) ⊎ (f ≡ Fault.Write)) }
    ensures untouched { IfErr result (λ f. f ≢ Fault.Write → Keeps (W.contents writer.old) (W.contents writer.new)) }
    ensures prefix { IfErr result (λ f. f ≡ Fault.Write → WritesReportPrefix true (whole_of report.now) (W.contents writer.old) (W.contents writer.new)) }
{
    let text = report_json(alloc, report)?;
    write_text(writer, &text)
}

/// Reads streams to their end, and writes the JSON of the report on them and nothing else.
///
/// # Errors
/// Those of `replay`.
pub fn replay_json<R: Read, W: Write>(
    alloc: Global,
    reader: &mut R,
    writer: &mut W,
) -> Result<Report, Fault>
    ensures report { IfOk result (λ r. IfSome (R.remaining reader.old) (λ bytes. IsExact bytes (whole_of r))) }
    ensures text { IfOk result (λ r. WritesReport true (whole_of r) (W.contents writer.old) (W.contents writer.new)) }
    ensures fault { IfErr result (λ f. IfSome (R.remaining reader.old) (λ bytes. IsReplayFault bytes f)) }
    ensures untouched { IfErr result (λ f. f ≢ Fault.Write → Keeps (W.contents writer.old) (W.contents writer.new)) }
    ensures prefix { IfErr result (λ f. f ≡ Fault.Write → IfSome (R.remaining reader.old) (λ bytes. (r : WholeReport) × IsExact bytes r × WritesReportPrefix true r (W.contents writer.old) (W.contents writer.new))) }
{
    let report = read_report(alloc, reader)?;
    write_json(alloc, &report, writer)?;
    Ok(report)
}

/// Opens the files, reads the streams of a launch, one from each, in threads as `config` sets them up, and writes the text of its
/// report, or its JSON, and nothing else.
///
/// # Errors
/// Those of `open_all`, before anything is read; then those of `run_streams`.
pub fn run_files<H, T, O, W>(
    rt: H,
    alloc: Global,
    config: Config,
    arguments: &Arguments<'_>,
    opener: O,
    writer: &mut W,
) -> Result<Report, Fault>
where
    H: Threads + Wait + Clock + Copy + Send + 'static,
    T: Read + Send + Drop + 'static,
    O: Fn(&str) -> io::Result<T>,
    W: Write,
    requires { O.IsAlwaysCallable opener }
    ensures report { IfOk result (λ r. IsReportOfFiles T.remaining (FnReturnsAt O.Fn opener) (map (λ s. s.now) arguments.now.files.items) (whole_of r)) }
    ensures text { IfOk result (λ r. WritesReport arguments.now.json (whole_of r) (W.contents writer.old) (W.contents writer.new)) }
    ensures fault { IfErr result (λ f. IsFaultOfFiles T.remaining (FnReturnsAt O.Fn opener) (map (λ s. s.now) arguments.now.files.items) f) }
    ensures untouched { IfErr result (λ f. f ≢ Fault.Write → Keeps (W.contents writer.old) (W.contents writer.new)) }
    ensures prefix { IfErr result (λ f. f ≡ Fault.Write → WritesPrefixOfFiles T.remaining (FnReturnsAt O.Fn opener) (map (λ s. s.now) arguments.now.files.items) arguments.now.json (W.contents writer.old) (W.contents writer.new)) }
{
    let files = open_all(alloc, arguments.files.as_slice(), opener)?;
    let watch = Arc::new(alloc, NoWatch).map_err(|_| Fault::Memory)?;
    if !arguments.json {
        return run_streams(rt, alloc, files, config, watch, writer);
    }
    let report = detect_streams(rt, alloc, files, config, watch)?;
    write_json(alloc, &report, writer)?;
    Ok(report)
}
