//! Numbers by place. Those of four places in a row are kept together.
ghost use Rattle.std.specs.Prelude.{◌≡◌, IfOk, OnOk};
ghost use Rattle.dav_seal.specs.Paged.{IsZero, Writes, AreSame};

use std::alloc::{AllocError, Global};
use std::collections::HashMap;
use std::mem;

/// How many places a page has.
const PLACES: u64 = 4;

/// Room for up to so many pages is never given back.
const FEW: usize = 64;

/// A number at each place, which is 0 until another is put there. A page takes memory only while one of its numbers is not 0:
/// some 60 bytes.
#[derive(Drop)]
pub(crate) struct Pages {
    map: HashMap<u64, [u64; 4]>,
}

impl Pages {
    ghost use Rattle.dav_seal.specs.Paged.{number_at};

    /// Returns pages with 0 at each place.
    pub fn new(alloc: Global) -> Pages
        ensures { IsZero result }
    {
        Pages {
            map: HashMap::new(alloc),
        }
    }

    /// Puts a number at a place, and returns the one that was there. Fails only if memory runs out.
    pub fn put(&mut self, place: u64, number: u64) -> Result<u64, AllocError>
        ensures old { IfOk result (λ old. old ≡ number_at self.old place) }
        ensures new { OnOk result (Writes place number self.old self.new) }
    {
        let slot = (place % PLACES) as usize;
        if let Some(page) = self.map.get_mut(&(place / PLACES)) {
            return Ok(mem::replace(&mut page[slot], number));
        }
        let mut page = [0; 4];
        page[slot] = number;
        self.map.insert(place / PLACES, page)?;
        Ok(0)
    }

    /// Puts 0 at a place, and returns the number that was there.
    pub fn clear(&mut self, place: u64) -> u64
        ensures old { result ≡ number_at self.old place }
        ensures new { Writes place 0 self.old self.new }
    {
        let slot = (place % PLACES) as usize;
        let Some(page) = self.map.get_mut(&(place / PLACES)) else {
            return 0;
        };
        let old = mem::replace(&mut page[slot], 0);
        if let [0, 0, 0, 0] = *page {
            self.map.remove(&(place / PLACES));
            self.shrink();
        }
        old
    }

    /// Gives memory back if most of it is for pages that are gone.
    fn shrink(&mut self)
        ensures { AreSame self.old self.new }
    {
        let count = self.map.len();
        let capacity = self.map.capacity();
        if capacity > FEW && count < capacity / 4 {
            self.map.shrink_to(count * 2);
        }
    }
}
