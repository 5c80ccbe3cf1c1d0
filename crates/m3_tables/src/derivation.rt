ghost use Rattle.std.specs.Prelude.{◌≡◌, length};
ghost use Rattle.m3_tables.specs.Fields.{ways_in};

use crate::fields::{WayView, Ways};
use crate::place::Location;

/// A derived word: where it is, the place of the number that picks its way, and its ways.
#[derive(Clone, Copy)]
pub struct Derivation<'a> {
    pub(crate) location: u32,
    pub(crate) path: u32,
    pub(crate) ways: u16,
    pub(crate) bytes: &'a [u8],
    ghost whole: { length (ways_in ways bytes.now) ≡ ways },
}

impl<'a> Derivation<'a> {
    ghost use Rattle.std.specs.List.{slice_get};
    ghost use Rattle.std.specs.Option.{option_map};
    ghost use Rattle.m3_tables.specs.Places.{location_of};
    ghost use Rattle.m3_tables.specs.Rows.{base_in};
    ghost use Rattle.m3_tables.specs.Views.{ways_of, entry_of, bases_of};

    /// The number of the word's place.
    pub fn place_number(&self) -> u32
        ensures { result ≡ (entry_of self.now).location }
    {
        self.location
    }

    /// The number of the path's place, where there is a path.
    pub fn path_number(&self) -> Option<u32>
        ensures { result ≡ (entry_of self.now).path }
    {
        if self.path == u32::MAX {
            None
        } else {
            Some(self.path)
        }
    }

    /// The ways, one after the other.
    pub fn every_way(&self) -> Ways<'a>
        ensures { ways_of result ≡ (entry_of self.now).ways }
    {
        Ways {
            count: self.ways,
            bytes: self.bytes,
        }
    }

    /// Where the derived word is.
    pub fn location(&self) -> Location
        ensures { result ≡ location_of (entry_of self.now).location }
    {
        Location::from_number(self.location)
    }

    /// Where the number is that picks the way, if there is more than one.
    pub fn path(&self) -> Option<Location>
        ensures { result ≡ option_map location_of (entry_of self.now).path }
    {
        let path = self.path_number()?;
        Some(Location::from_number(path))
    }

    /// How many ways there are.
    pub fn ways(&self) -> u16
        ensures { result ≡ length (entry_of self.now).ways }
    {
        self.ways
    }

    /// A base of a way, added or subtracted, each counted from 0. None exactly past the list of the way, and
    /// past the ways.
    pub fn base(&self, way: u16, added: bool, n: u8) -> Option<Location>
        ensures { result ≡ option_map location_of (base_in (entry_of self.now) way added n) }
    {
        let bases = self.way_at(way)?;
        let place = n as usize;
        let base = if added {
            bases.added.get(place)?
        } else {
            bases.subtracted.get(place)?
        };
        Some(Location::from_number(base))
    }

    fn way_at(&self, way: u16) -> Option<WayView<'a>>
        ensures { option_map bases_of result ≡ slice_get (entry_of self.now).ways way }
    {
        let mut ways = self.every_way();
        for _ in 0..way {
            ways.next()?;
        }
        ways.next()
    }
}
