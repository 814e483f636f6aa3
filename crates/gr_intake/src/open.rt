//! The stream that goes on.

ghost use Rattle.std.specs.Prelude.{◌≡◌, ◌≢◌, ◌<◌, ◌≤◌, [], ℕ, Err, IfErr, IfOk, OnOk, length};
ghost use Rattle.gr_model.specs.Prelude.{IsEventOk, list_of, size_of};
ghost use Rattle.gr_order.specs.Sequences.{IsSequence};
ghost use Rattle.gr_record.specs.Prelude.{record_length};
ghost use Rattle.gr_intake.specs.Intakes.{AreOpen, IsKeptOpen, IsNextEvent, come_of, next_event_at, with_event};
ghost use Rattle.gr_intake.specs.Sequencing.{AreShadowsOf};

use crate::backlog::Backlog;
use gr_model::event::Event;
use gr_model::limits::MOST_RECORDS;
use gr_model::memory::Memory;
use gr_record::error::RecordError;
use gr_record::header::Header;
use gr_record::reading::read_event;
use gr_sequencer::sequencer::Sequencer;
use gr_shadow::launch::LaunchShadows;
use gr_taking::keeper::ShadowKeeper;
use gr_taking::taking::take_record;
use gr_taking::turn::Turn;
use std::alloc::{Allocator, Global};

/// A stream whose end has not come.
#[derive(Drop)]
#[derive_where(Debug)]
pub(crate) struct Open<A: Allocator = Global> {
    /// The records that came and were not taken.
    pub(crate) backlog: Backlog<A>,
    /// How many records have come.
    pub(crate) count: u32,
    pub(crate) turn: Turn,
    /// Whether records wait until all streams have come, because too many of the group wait for other groups.
    pub(crate) waits: bool,
}

impl<A: Allocator + Copy> Open<A> {
    /// A stream where nothing has come. `held` is how many events of all groups are held before it.
    pub(crate) fn new(alloc: A, header: Header, held: u64) -> Open<A>
        ensures backlog { result.backlog ≡ record { header = header; waiting = [] } }
        ensures count { result.count ≡ 0 }
    {
        Open {
            backlog: Backlog::new(alloc, header),
            count: 0,
            turn: Turn::new(header.items, held),
            waits: false,
        }
    }

    /// The header of the stream.
    pub(crate) fn header(&self) -> Header
        ensures { result ≡ self.now.backlog.header }
    {
        self.backlog.header()
    }

    /// The stream's next record, from its bytes.
    ///
    /// # Errors
    /// `TooManyRecords`, and else the fault of the record.
    #[inline(always)]
    #[tactic(auto, using(gr_record::proofs::Found::read_is_ok))]
    pub(crate) fn read(&self, bytes: &[u8]) -> Result<Event, RecordError>
        requires size { length bytes.now ≡ record_length self.now.backlog.header.version }
        requires few { self.now.count ≤ MOST_RECORDS }
        ensures next { IfOk result (λ e. IsNextEvent self.now.backlog.header self.now.count bytes.now e) }
        ensures fault { IfErr result (λ e. next_event_at self.now.backlog.header self.now.count bytes.now ≡ Err e) }
    {
        if self.count as usize == MOST_RECORDS {
            return Err(RecordError::TooManyRecords);
        }
        read_event(self.backlog.header(), bytes)
    }

    /// Has a sequencer take the stream's next record, or keeps it where records of the stream wait.
    #[inline(always)]
    pub(crate) fn take(
        &mut self,
        sequencer: &mut Sequencer<A>,
        shadows: &mut LaunchShadows<A>,
        event: Event,
    ) -> Result<(), Memory>
        requires good { IsEventOk event self.old.backlog.header.items }
        requires kept { IsKeptOpen sequencer.old.taken self.old }
        requires few { self.old.count < MOST_RECORDS }
        requires there { self.old.backlog.header.group < length sequencer.old.taken.sizes }
        requires size { size_of sequencer.old.taken self.old.backlog.header.group ≡ self.old.backlog.header.items }
        requires events { AreOpen self.old.backlog.header.items (come_of sequencer.old.taken self.old.backlog).events }
        requires sequence { IsSequence sequencer.old }
        requires shadows { AreShadowsOf sequencer.old shadows.old }
        ensures come { OnOk result (come_of sequencer.new.taken self.new.backlog ≡ with_event (come_of sequencer.old.taken self.old.backlog) event) }
        ensures kept { OnOk result (IsKeptOpen sequencer.new.taken self.new) }
        ensures sizes { OnOk result (sequencer.new.taken.sizes ≡ sequencer.old.taken.sizes) }
        ensures others { OnOk result ((g : ℕ) → g ≢ self.old.backlog.header.group → list_of sequencer.new.taken g ≡ list_of sequencer.old.taken g) }
        ensures sequence { OnOk result (IsSequence sequencer.new) }
        ensures shadows { OnOk result (AreShadowsOf sequencer.new shadows.new) }
    {
        if self.waits {
            self.backlog.push(&event)?;
            self.count += 1;
            return Ok(());
        }
        let group = self.backlog.header().group;
        take_record(
            sequencer,
            &ShadowKeeper,
            shadows,
            group,
            event,
            &mut self.turn,
        )?;
        self.waits = self.turn.is_stuck();
        self.count += 1;
        Ok(())
    }
}
