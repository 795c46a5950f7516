//! Several maps in one call: all of them are made, or none remains.
ghost use Rattle.std.specs.Prelude.{◌≡◌, ◌<◌, length, Some};
ghost use Rattle.std.specs.List.{slice_get};
ghost use Rattle.gt_attached.specs.Several.{mapped_handle};

use crate::answer::RefusedMap;
use crate::attached::AttachedDomain;
use gt_calls::Handle;
use gt_live::NewMapping;
use gt_types::{Allows, Denial, DomId, Facts, GrantRef, Rule};

/// The largest number of a domain, which has 16 bits.
const LAST_DOM: u32 = 65535;

/// A map to make, as one of several: of the entry `gref` of the domain `dom`, with `flags`. When it is made, `serial` and
/// `key` become the handle of its mapping.
#[repr(C)]
#[derive(Clone, Copy)]
pub struct MapRequest {
    pub dom: u32,
    pub gref: u32,
    pub flags: u32,
    pub serial: u64,
    pub key: usize,
}

impl MapRequest {
    ghost use Rattle.std.specs.Prelude.{◌≡◌};
    ghost use Rattle.gt_attached.specs.Several.{mapped_handle, with_handle};

    // Returns the request with the handle of its mapping.
    fn with_handle(self, handle: Handle) -> MapRequest
        ensures { result ≡ with_handle handle self }
    {
        MapRequest {
            serial: handle.serial,
            key: handle.key,
            ..self
        }
    }

    // Returns the handle of the request's mapping.
    fn handle(self) -> Handle
        ensures { result ≡ mapped_handle self }
    {
        Handle {
            serial: self.serial,
            key: self.key,
        }
    }
}

// Returns the request at an index, which there must be.
fn request_at(requests: &[MapRequest], at: usize) -> MapRequest
    requires { at < length requests.now }
    ensures { slice_get requests.now at ≡ Some result }
{
    requests[at]
}

impl<P: Allows + Drop> AttachedDomain<P> {
    ghost use Rattle.std.specs.Prelude.{◌≡◌, ◌≤◌, length, map, None};
    ghost use Rattle.gt_attached.specs.Seated.{StaysIdle};
    ghost use Rattle.gt_attached.specs.Several.{HaveOwnHandles, HaveMappings, MakesMap, MapsAllOrNone, ReleasesFirst, without_handle};

    // Makes the map of a request. If the number of its domain has more than 16 bits, it is refused by N1, and nothing
    // changes.
    fn map_one(&mut self, request: MapRequest) -> Result<NewMapping, Denial>
        requires idle { self.old.copying ≡ None }
        ensures stays { StaysIdle self.old self.new }
        ensures makes { MakesMap P.may self.old.monitor self.old.domain request result self.new.domain }
    {
        if request.dom > LAST_DOM {
            return Err(Denial::new(Rule::N1, Facts::None));
        }
        self.map_at::<MapRequest>(
            DomId(request.dom as u16),
            GrantRef(request.gref),
            request.flags,
        )
    }

    // Releases the mappings of the first `count` requests, the last one first.
    fn release_first(&mut self, requests: &[MapRequest], count: usize)
        requires idle { self.old.copying ≡ None }
        requires few { count ≤ length requests.now }
        requires kept { HaveMappings self.old.domain requests.now count }
        requires apart { HaveOwnHandles requests.now count }
        ensures stays { StaysIdle self.old self.new }
        ensures released { ReleasesFirst P.may self.old.monitor self.old.domain requests.now count self.new.domain }
    {
        'made: for gone in 0..count {
            let request = request_at(requests, count - 1 - gone);
            let _is_there = self.release(request.handle());
        }
    }

    /// Makes the map of each request, in order, as by `map`, and writes the handle of its mapping into the request. Each
    /// map is recorded as by `map`.
    ///
    /// # Errors
    /// The first refusal, with the index of its request: N1, N2, N5, N8 to N13, N16 to N18, or N26. N1 also if the number
    /// of the domain has more than 16 bits, without a record. The mappings made before are released, the last one first,
    /// without asking the policy and without a record. The domain then has the mappings that it had, and the handles in
    /// the requests have no meaning.
    pub fn map_all(&mut self, requests: &mut [MapRequest]) -> Result<(), RefusedMap>
        requires idle { self.old.copying ≡ None }
        ensures stays { StaysIdle self.old self.new }
        ensures maps { MapsAllOrNone P.may self.old.monitor self.old.domain requests.new result self.new.domain }
        ensures asked { map without_handle requests.new ≡ map without_handle requests.old }
    {
        'requests: for at in 0..requests.len() {
            let request = request_at(requests, at);
            match self.map_one(request) {
                Ok(made) => requests[at] = request.with_handle(made.handle),
                Err(denial) => {
                    self.release_first(requests, at);
                    let index = at as u64;
                    return Err(RefusedMap { index, denial });
                }
            }
        }
        Ok(())
    }
}
