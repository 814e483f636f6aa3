//! The headers that were read. A further one is compared with them, without a look at each.

ghost use Rattle.std.specs.Prelude.{◌≡◌, ◌++◌, ◌∷◌, [], IfErr, IfOk};
ghost use Rattle.gr_model.specs.Prelude.{IsShape};
ghost use Rattle.gr_record.specs.Prelude.{Gives, IsHeader, IsOfValues};
ghost use Rattle.gr_intake.specs.Intakes.{MayFollow};
ghost use Rattle.gr_intake.specs.Joined.{header_after};
ghost use Rattle.gr_intake.specs.Launch.{IsLaunchFault};
ghost use Rattle.gr_streams.specs.Headers.{AreHeadersOf, bares};

use gr_intake::headers::read_header_after;
use gr_model::growing::GrowingShape;
use gr_model::memory::Memory;
use gr_model::shape::Shape;
use gr_record::fault::Fault;
use gr_record::header::Header;
use std::alloc::{Allocator, Global};
use std::marker::Model;

/// Headers of one launch and of different groups, and the sizes of these groups. Contracts see the headers.
#[derive(Drop)]
pub(crate) struct Seen<A: Allocator = Global> {
    headers: Vec<Header, A>,
    groups: GrowingShape<A>,
}

impl<A: Allocator> Model for Seen<A> {
    ghost use Rattle.std.specs.Prelude.{List};
    ghost use Rattle.gr_record.specs.declared.header.Header.{Header as AnyHeader};
    ghost use Rattle.gr_intake.specs.Intakes.{AreSeen};

    ghost Value = { List AnyHeader };

    ghost view = { λ s. s.headers.items };

    ghost invariant = { λ s. AreSeen s.groups s.headers.items };
}

impl<A: Allocator> Seen<A> {
    /// No header. This allocates nothing.
    pub(crate) fn new(alloc: A) -> Seen<A>
    where
        A: Copy,
        ensures { result ≡ [] }
    {
        Seen {
            headers: Vec::new(alloc),
            groups: GrowingShape::new(alloc),
        }
    }

    /// The header at the front of the bytes, which comes after these, and the bytes after it.
    ///
    /// # Errors
    /// The header's fault; `SameGroup`; `OtherLaunch`.
    pub(crate) fn read_next<'p>(&self, bytes: &'p [u8]) -> Result<(Header, &'p [u8]), Fault>
        ensures exact { Gives (λ x. (x.0, x.1.now)) result (header_after self.now bytes.now) }
        ensures header { IfOk result (λ x. IsHeader x.0) }
        ensures values { IfErr result IsOfValues }
    {
        let place = self.headers.len() as u64;
        let first = self.headers.first().copied();
        read_header_after(place, &self.groups, first, bytes)
    }

    /// These headers, and one more.
    /// Requires: it is of the same launch, and of a group that none of them has.
    pub(crate) fn with_header(self, header: Header) -> Result<Seen<A>, Memory>
        requires { MayFollow self header }
        ensures { IfOk result (λ s. s ≡ self ++ header ∷ []) }
    {
        let Seen {
            mut headers,
            groups,
        } = self;
        headers.push(header)?;
        let groups = groups.with_group(header.group, header.items)?;
        Ok(Seen { headers, groups })
    }

    /// The items of each group.
    ///
    /// # Errors
    /// `MissingGroup` with the least group that has no header, if a greater one has; `Memory` if an allocation is refused.
    #[tactic(auto, using(crate::proofs::SeenLemmas::missing))]
    fn sizes(&self, alloc: A) -> Result<Vec<u16, A>, Fault>
        ensures launch { IfOk result (λ sizes. AreHeadersOf self.now sizes.items) }
        ensures fault { IfErr result (λ f. IsLaunchFault (bares self.now) f) }
    {
        let mut sizes = Vec::new(alloc);
        for group in 0..self.groups.groups() {
            let items = self.groups.items(group);
            if items == 0 {
                return Err(Fault::MissingGroup(group));
            }
            sizes.push(items).map_err(Memory::from)?;
        }
        Ok(sizes)
    }

    /// The shape of the launch that the headers are of.
    ///
    /// # Errors
    /// `MissingGroup` with the least group that has no header, if a greater one has; else `Shape`; `Memory` if an allocation is
    /// refused.
    pub(crate) fn shape(&self, alloc: A) -> Result<Shape<A>, Fault>
        ensures launch { IfOk result (λ shape. AreHeadersOf self.now shape) }
        ensures shape { IfOk result (λ shape. IsShape shape) }
        ensures fault { IfErr result (λ f. IsLaunchFault (bares self.now) f) }
    {
        let sizes = self.sizes(alloc)?;
        match Shape::of_launch(sizes) {
            Ok(shape) => Ok(shape),
            Err(error) => Err(Fault::Shape(error)),
        }
    }
}
