//! How much of an input was read, reported on standard error if that is a terminal; and the readers and writers that this needs.

use crate::files::Files;
use crate::source::Source;
use gr_record::header::Version;
use gr_record::layout::HEADER_LENGTH;
use std::io::{self, Read, Write};
use std::sync::Arc;
use std::sync::atomic::{AtomicU64, Ordering};
use std::time::{Clock, Duration};

/// How many milliseconds pass before anything is reported.
const FIRST_REPORT: u64 = 500;

/// How many milliseconds pass between two reports.
const BETWEEN: u64 = 200;

/// How much was read.
#[derive(Drop)]
pub struct Progress {
    rt: HostRuntime,
    begun: Duration,
    /// How many bytes there are, if that is known.
    total: Option<u64>,
    bytes: AtomicU64,
    records: AtomicU64,
    /// The millisecond of the next report.
    next: AtomicU64,
}

impl Progress {
    /// The progress of an input before any byte is read. `total` is its length, if that is known.
    pub fn new(rt: HostRuntime, total: Option<u64>) -> Progress {
        Progress {
            rt,
            begun: rt.monotonic().unwrap_or(Duration::ZERO),
            total,
            bytes: AtomicU64::new(0),
            records: AtomicU64::new(0),
            next: AtomicU64::new(FIRST_REPORT),
        }
    }

    /// Counts bytes and records that were read, and reports them from time to time.
    pub fn add(&self, bytes: u64, records: u64) {
        self.bytes.fetch_add(bytes, Ordering::SeqCst);
        self.records.fetch_add(records, Ordering::SeqCst);
        let now = self.rt.monotonic().unwrap_or(self.begun);
        let passed = now.saturating_sub(self.begun).as_millis();
        let passed = u64::try_from(passed).unwrap_or(u64::MAX);
        if passed >= self.next.load(Ordering::SeqCst) {
            let next = passed.saturating_add(BETWEEN);
            self.next.store(next, Ordering::SeqCst);
            let _ = self.report(passed);
        }
    }

    /// Reports how much was read, `passed` milliseconds after the start.
    fn report(&self, passed: u64) -> io::Result<()> {
        let hundred = self.bytes.load(Ordering::SeqCst).saturating_mul(100);
        let records = self.records.load(Ordering::SeqCst);
        let rate = records.saturating_mul(1000).checked_div(passed);
        let rate = rate.unwrap_or(0);
        let mut text = format!(in self.rt.alloc(); "\r{records} records read")?;
        if let Some(part) = self.total.and_then(|total| hundred.checked_div(total)) {
            write!(text, ", {part} %")?;
        }
        write!(text, ", {rate} a second\x1b[K")?;
        self.rt.stderr().write_all(text.as_bytes())
    }

    /// Goes to the start of the line, and clears what was reported.
    pub fn clear(&self) {
        if self.next.load(Ordering::SeqCst) != FIRST_REPORT {
            let _ = self.rt.stderr().write_all(b"\r\x1b[K");
        }
    }
}

/// What a name opens, and the progress that counts what is read of it.
#[derive(Drop)]
pub struct Watched {
    source: Source,
    progress: Option<Arc<Progress>>,
    version: Version,
    read: u64,
}

impl Watched {
    /// Opens a name, and lets the progress count what is read.
    pub fn open(files: &Files, name: &str) -> io::Result<Watched> {
        Ok(Watched {
            source: files.open(name)?,
            progress: files.progress.clone()?,
            version: Version::One,
            read: 0,
        })
    }

    /// How many records of the stream were read.
    fn records(&self) -> u64 {
        self.read.saturating_sub(HEADER_LENGTH as u64) / self.version.record_length() as u64
    }
}

impl Read for Watched {
    fn read(&mut self, buf: &mut [u8]) -> io::Result<usize> {
        let n = self.source.read(buf)?;
        if self.read == 0 && matches!(&buf[..n], [b'G', b'R', b'T', b'2' | b'4', ..]) {
            // version 4 has records of the same length
            self.version = Version::Two;
        }
        let before = self.records();
        self.read = self.read.saturating_add(n as u64);
        let records = self.records().saturating_sub(before);
        if let Some(progress) = &self.progress {
            progress.add(n as u64, records);
        }
        Ok(n)
    }
}

/// A writer that clears the report of the progress before its first bytes.
#[derive(Drop)]
pub struct Cleared<W: Drop> {
    pub writer: W,
    /// The progress, until its report is cleared.
    pub progress: Option<Arc<Progress>>,
}

impl<W: Write + Drop> Write for Cleared<W> {
    fn write(&mut self, buf: &[u8]) -> io::Result<usize> {
        if let Some(progress) = self.progress.take() {
            progress.clear();
        }
        self.writer.write(buf)
    }

    fn flush(&mut self) -> io::Result<()> {
        self.writer.flush()
    }
}
