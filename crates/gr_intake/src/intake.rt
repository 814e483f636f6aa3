//! What was read of a joined input, header by header and record by record, and which of the records were taken at once.

ghost use Rattle.std.specs.Prelude.{◌≡◌, ◌++◌, ◌∷◌, [], ◌<◌, ℕ, List, IfErr, IfOk, IsFalse, IsTrue, MatchOption, None, Ok, OnOk, Some, length, option_map, slice_get};
ghost use Rattle.gr_model.specs.Prelude.{IsReportOf, IsShape, AreAccepted, Streams as AnyStreams};
ghost use Rattle.gr_record.specs.Prelude.{IsHeader, IsOfValues, Fails, Gives};
ghost use Rattle.gr_report.specs.Whole.{whole_of};
ghost use Rattle.gr_intake.specs.Intakes.{IsBetween, IsGap, IsIntake, IsKeptOpen, IsNew, IsRead, IsStuck, Moves, Stays, behind, come, come_of, headers_of, read_behind, read_on, streams_in, unit_of};
ghost use Rattle.gr_intake.specs.Joined.{header_after};
ghost use Rattle.gr_intake.specs.Launch.{IsLaunchFault, IsLaunchOf};

use crate::backlog::Backlog;
use crate::headers::read_header_after;
use crate::open::Open;
use crate::reports::report_of;
use gr_model::growing::GrowingShape;
use gr_model::memory::Memory;
use gr_model::shape::ShapeError;
use gr_record::error::RecordError;
use gr_record::fault::Fault;
use gr_record::header::Header;
use gr_record::layout::HEADER_LENGTH;
use gr_report::report::Report;
use gr_sequencer::sequencer::Sequencer;
use gr_shadow::launch::LaunchShadows;
use gr_taking::keeper::ShadowKeeper;
use gr_taking::rounds::take_all;
use std::alloc::{Allocator, Global};
use std::mem;

/// What was read of a joined input: the streams that came whole, and the one that goes on, if there is one.
#[derive(Drop)]
#[derive_where(Debug)]
pub struct Intake<A: Allocator = Global> {
    pub(crate) sequencer: Sequencer<A>,
    pub(crate) shadows: LaunchShadows<A>,
    pub(crate) streams: Vec<Backlog<A>, A>,
    pub(crate) current: Option<Open<A>>,
}

/// The header of the first of the streams, where there is one.
fn first_header<A: Allocator>(streams: &[Backlog<A>]) -> Option<Header>
    ensures { result ≡ option_map (λ s. s.header) (slice_get streams.now 0) }
{
    let stream = streams.first()?;
    Some(stream.header())
}

impl<A: Allocator + Copy> Intake<A> {
    /// An intake that has read nothing.
    ///
    /// # Errors
    /// `Memory`: out of memory.
    pub fn new(alloc: A) -> Result<Intake<A>, Memory>
        ensures intake { IfOk result IsIntake }
        ensures nothing { IfOk result IsNew }
    {
        Ok(Intake {
            sequencer: Sequencer::without_groups(alloc)?,
            shadows: LaunchShadows::new(alloc),
            streams: Vec::new(alloc),
            current: None,
        })
    }

    /// The header at the front of the bytes, where no stream goes on, and the bytes after it.
    ///
    /// # Errors
    /// The header's fault, `SameGroup`, `OtherLaunch`.
    fn read_header<'p>(&self, bytes: &'p [u8]) -> Result<(Header, &'p [u8]), Fault>
        requires intake { IsIntake self.now }
        requires none { IsBetween self.now }
        ensures exact { Gives (λ x. (x.0, x.1.now)) result (header_after (headers_of self.now.streams.items) bytes.now) }
        ensures header { IfOk result (λ x. IsHeader x.0) }
        ensures values { IfErr result IsOfValues }
    {
        let place = self.streams.len() as u64;
        let first = first_header(&self.streams);
        read_header_after(place, self.sequencer.shape(), first, bytes)
    }

    /// Takes the header at the front of the bytes, where no stream goes on, and returns the bytes after it; all of them where
    /// they are no whole header.
    ///
    /// # Errors
    /// The header's fault, `SameGroup`, `OtherLaunch`; `Memory`: out of memory, and what was read is then lost.
    fn take_header<'p>(&mut self, alloc: A, bytes: &'p [u8]) -> Result<&'p [u8], Fault>
        requires intake { IsIntake self.old }
        requires none { IsBetween self.old }
        ensures moves { IfOk result (λ rest. Moves self.old bytes.now self.new rest.now) }
        ensures stuck { IfOk result (λ rest. IsStuck bytes.now self.new rest.now) }
        ensures fault { IfErr result (λ f. (more : List ℕ) → Fails f (behind self.old (bytes.now ++ more))) }
        ensures values { IfErr result IsOfValues }
    {
        if bytes.len() < HEADER_LENGTH {
            return Ok(bytes);
        }
        let (header, rest) = self.read_header(bytes)?;
        let empty = Sequencer::without_groups(alloc)?;
        let sequencer = mem::replace(&mut self.sequencer, empty);
        let grown = sequencer.with_group(header.group, header.items)?;
        self.current = Some(Open::new(alloc, header, grown.held()));
        self.sequencer = grown;
        Ok(rest)
    }
}

/// Takes the records at the front of the bytes, up to the end of the stream that goes on. Returns whether the end came, and
/// the bytes that are left: those after the end, or those that are no whole record.
///
/// # Errors
/// The fault of the first record that has one; `Memory`: out of memory.
fn take_records<'p, A: Allocator + Copy>(
    sequencer: &mut Sequencer<A>,
    shadows: &mut LaunchShadows<A>,
    streams: &[Backlog<A>],
    current: &mut Open<A>,
    bytes: &'p [u8],
) -> Result<(bool, &'p [u8]), Fault>
    requires read { IsRead sequencer.old shadows.old streams.now (Some current.old.backlog) }
    requires kept { IsKeptOpen sequencer.old.taken current.old }
    ensures stays { IfOk result (λ x. IsFalse x.0 → Stays sequencer.new shadows.new streams.now current.new x.1.now) }
    ensures ends { IfOk result (λ x. IsTrue x.0 → IsRead sequencer.new shadows.new (streams.now ++ current.new.backlog ∷ []) None) }
    ensures goes { IfOk result (λ x. (more : List ℕ) → read_behind (come sequencer.old.taken streams.now) (Some (come_of sequencer.old.taken current.old.backlog)) (bytes.now ++ more) ≡ read_on x.0 sequencer.new.taken streams.now current.new.backlog (x.1.now ++ more)) }
    ensures left { IfOk result (λ x. (front : List ℕ) × (bytes.now ≡ front ++ x.1.now) × (IsTrue x.0 → 0 < length front)) }
    ensures fault { IfErr result (λ f. (more : List ℕ) → Fails f (read_behind (come sequencer.old.taken streams.now) (Some (come_of sequencer.old.taken current.old.backlog)) (bytes.now ++ more))) }
    ensures values { IfErr result IsOfValues }
{
    let place = streams.len() as u64;
    let size = current.header().version.record_length();
    let mut rest = bytes;
    while size <= rest.len() {
        let (unit, after) = rest.split_at(size);
        let event = match current.read(unit) {
            Ok(event) => event,
            Err(error) => return Err(Fault::of_stream(place, error)),
        };
        let is_end = event.kind.is_end();
        let Ok(()) = current.take(sequencer, shadows, event) else {
            return Err(Fault::Memory);
        };
        rest = after;
        if is_end {
            return Ok((true, rest));
        }
    }
    Ok((false, rest))
}

/// Why no launch has these groups, which have different numbers: there is none, or else one is missing below another.
fn gap_of<A: Allocator>(shape: &GrowingShape<A>) -> Option<Fault>
    ensures { MatchOption result (IsShape shape.now) (λ f. IsGap shape.now f) }
{
    if shape.groups() == 0 {
        return Some(Fault::Shape(ShapeError::NoGroups));
    }
    for group in 0..shape.groups() {
        if shape.items(group) == 0 {
            return Some(Fault::MissingGroup(group));
        }
    }
    None
}

impl<A: Allocator + Copy> Intake<A> {
    /// Takes the header at the front of the bytes, or the records up to the end of the stream that goes on, and returns the
    /// bytes after them; all of them where they are no whole header or record.
    ///
    /// # Errors
    /// The first fault from the left; `Memory`: out of memory. What was read is then lost.
    fn take_part<'p>(&mut self, alloc: A, bytes: &'p [u8]) -> Result<&'p [u8], Fault>
        requires { IsIntake self.old }
        ensures moves { IfOk result (λ rest. Moves self.old bytes.now self.new rest.now) }
        ensures stuck { IfOk result (λ rest. IsStuck bytes.now self.new rest.now) }
        ensures fault { IfErr result (λ f. (more : List ℕ) → Fails f (behind self.old (bytes.now ++ more))) }
        ensures values { IfErr result IsOfValues }
    {
        let Some(mut current) = self.current.take() else {
            return self.take_header(alloc, bytes);
        };
        let (ended, rest) = take_records(
            &mut self.sequencer,
            &mut self.shadows,
            self.streams.as_slice(),
            &mut current,
            bytes,
        )?;
        if !ended {
            self.current = Some(current);
            return Ok(rest);
        }
        let Ok(()) = self.streams.push(current.backlog) else {
            return Err(Fault::Memory);
        };
        Ok(rest)
    }

    /// Takes all headers and records that lie whole in the bytes, and returns those that are left.
    ///
    /// # Errors
    /// The first fault from the left; `Memory`: out of memory. What was read is then lost.
    pub fn take<'p>(&mut self, alloc: A, bytes: &'p [u8]) -> Result<&'p [u8], Fault>
        requires { IsIntake self.old }
        ensures moves { IfOk result (λ rest. Moves self.old bytes.now self.new rest.now) }
        ensures short { IfOk result (λ rest. length rest.now < unit_of self.new) }
        ensures fault { IfErr result (λ f. (more : List ℕ) → Fails f (behind self.old (bytes.now ++ more))) }
        ensures values { IfErr result IsOfValues }
    {
        let mut rest = bytes;
        loop {
            let before = rest.len();
            rest = self.take_part(alloc, rest)?;
            if rest.len() == before {
                return Ok(rest);
            }
        }
    }

    /// Checks that the input may end here: no stream goes on, and no bytes are left. These bytes, which are left, are no whole
    /// header or record.
    ///
    /// # Errors
    /// `Truncated`, where a stream goes on or bytes are left.
    pub fn finish(&self, bytes: &[u8]) -> Result<(), Fault>
        requires intake { IsIntake self.now }
        requires short { length bytes.now < unit_of self.now }
        ensures whole { OnOk result (IsBetween self.now × (behind self.now bytes.now ≡ Ok (streams_in self.now))) }
        ensures fault { IfErr result (λ f. behind self.now bytes.now ≡ Err f) }
        ensures values { IfErr result IsOfValues }
    {
        if self.current.is_none() && bytes.is_empty() {
            return Ok(());
        }
        Err(Fault::of_stream(self.streams.len() as u64, RecordError::Truncated))
    }

    /// The report of the launch whose streams have come. The records that wait are taken first.
    ///
    /// # Errors
    /// `Shape` with `NoGroups` where no stream came; else `MissingGroup` with the least group below the greatest that no
    /// stream is of; `Memory`: out of memory.
    pub fn report(&mut self) -> Result<Report<A>, Fault>
        requires intake { IsIntake self.old }
        requires whole { IsBetween self.old }
        ensures report { IfOk result (λ r. (s : AnyStreams) × IsLaunchOf (streams_in self.old) s × AreAccepted s × IsReportOf s (whole_of r)) }
        ensures fault { IfErr result (λ f. IsLaunchFault (streams_in self.old) f) }
        ensures values { IfErr result IsOfValues }
    {
        if let Some(fault) = gap_of(self.sequencer.shape()) {
            return Err(fault);
        }
        take_all(
            &mut self.sequencer,
            &ShadowKeeper,
            &mut self.shadows,
            self.streams.as_mut_slice(),
        )?;
        Ok(report_of(&self.sequencer, &self.shadows)?)
    }
}
