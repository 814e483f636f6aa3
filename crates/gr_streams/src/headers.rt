//! The headers of all streams. All of them are read before any record is.

ghost use Rattle.std.specs.Prelude.{◌≡◌, ◌++◌, ◌∷◌, [], All, IfErr, IfOk, IfSome, Ok, OnOk, map};
ghost use Rattle.gr_record.specs.Prelude.{Fails, IsOfReading};
ghost use Rattle.gr_replay.specs.Each.{all_known};
ghost use Rattle.gr_streams.specs.Headers.{AreApart, headers_of};
ghost use Rattle.gr_streams.specs.Sources.{AreKnown, IsHeaded, known_of};

use crate::seen::Seen;
use crate::source::{Source, open};
use gr_model::memory::Memory;
use gr_record::fault::Fault;
use std::alloc::Allocator;
use std::io::Read;

/// The headers of the streams, and the readers after their headers, in order.
#[derive(Drop)]
pub(crate) struct Headed<T, A: Allocator> {
    pub(crate) headers: Seen<A>,
    pub(crate) sources: Vec<Source<T>, A>,
}

/// Reads the header of each stream, in order.
///
/// # Errors
/// The first that is met: a header's fault, `SameGroup`, `OtherLaunch`, `Read` or `Memory`.
pub(crate) fn read_headers<A: Allocator + Copy, T: Read + Drop>(
    alloc: A,
    readers: Vec<T, A>,
) -> Result<Headed<T, A>, Fault>
    ensures headers { IfOk result (λ h. IfSome (all_known (map T.remaining readers.items)) (λ inputs. headers_of inputs ≡ Ok h.headers)) }
    ensures apart { IfOk result (λ h. AreApart h.headers) }
    ensures sources { IfOk result (λ h. map (λ s. s.header) h.sources.items ≡ h.headers) }
    ensures known { IfOk result (λ h. AreKnown (map T.remaining readers.items) (map (known_of T.remaining) h.sources.items)) }
    ensures headed { IfOk result (λ h. All (λ s. IsHeaded s.header s.prefix.items) h.sources.items) }
    ensures exact { IfErr result (λ f. IfSome (all_known (map T.remaining readers.items)) (λ inputs. Fails f (headers_of inputs))) }
    ensures fault { IfErr result IsOfReading }
{
    let mut headers = Seen::new(alloc);
    let mut sources = Vec::new(alloc);
    for reader in readers {
        let source = open(reader, &headers)?;
        headers = headers.with_header(source.header)?;
        keep(&mut sources, source)?;
    }
    Ok(Headed { headers, sources })
}

/// Keeps one more source.
fn keep<A: Allocator, T: Drop>(
    sources: &mut Vec<Source<T>, A>,
    source: Source<T>,
) -> Result<(), Memory>
    ensures { OnOk result (sources.new.items ≡ sources.old.items ++ source ∷ []) }
{
    sources.push(source)?;
    Ok(())
}
