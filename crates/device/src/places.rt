// The places of a file.

ghost use Rattle.std.specs.Prelude.{◌≡◌, ◌≢◌, ◌<◌, ◌≤◌, ◌↔◌, ℕ, [], ◌∷◌, slice_get, vec_len, vec_capacity, IfOk, IfSome, IfNone, IsTrue};
ghost use Rattle.device.specs.declared.places.TheConstants.{MAX_PLACES};
ghost use Rattle.device.specs.Free.{times, spare, free_places};

use std::alloc::{AllocError, Global};
use std::marker::Model;
use std::snapshot::Snapshot;
use std::sync::{Arc, Mutex};

/// The most places of a file: as many as a store has at most, 65,536 in each of 64 stripes.
pub const MAX_PLACES: usize = 64 * 65_536;

/// What a place is used for.
#[derive(Clone, Copy, PartialEq, Eq, Drop)]
pub(crate) enum Place {
    /// A page lies there, or is being written.
    Taken,
    /// Nothing.
    Free,
}

/// What an opening did with the list of places.
#[derive(Clone, Copy, Drop)]
pub enum PlaceNote {
    /// It took this place.
    Took(u32),
    /// It gave this place back.
    GaveBack(u32),
    /// It found no place.
    FoundNone,
}

/// What an opening did with the list of places, the newest first. The list lies under a lock, and no
/// contract sees it there: these notes are what a contract knows of it. They are made by calls of the list
/// alone, and are not stored.
#[derive(Drop)]
pub(crate) struct PlaceNotes {
    last: Noted,
}

// A note and those before it.
#[derive(Drop)]
enum Noted {
    Nothing,
    After(PlaceNote, Snapshot<Noted>),
}

impl Model for PlaceNotes {
    ghost use Rattle.std.specs.Prelude.{List};
    ghost use Rattle.device.specs.declared.places.PlaceNote.{PlaceNote};

    ghost Value = { List PlaceNote };

    ghost use Rattle.device.specs.PlaceNotes.{notes_in};

    ghost view = { λ n. notes_in n.last };
}

impl PlaceNotes {
    /// Nothing was done yet.
    pub(crate) fn new() -> PlaceNotes
        ensures { result ≡ [] }
    {
        PlaceNotes {
            last: Noted::Nothing,
        }
    }

    fn add(&mut self, note: PlaceNote)
        ensures { self.new ≡ note ∷ self.old }
    {
        let earlier = Snapshot::of(&self.last);
        self.last = Noted::After(note, earlier);
    }
}

/// The places of a file, by number. Those released are used again, the last one first, before the file
/// grows. Memory is reserved for all of them at once, and touched as the file grows.
#[derive(Drop)]
pub(crate) struct Places {
    places: Vec<Place>,
    /// The places that are free, the one that was released last at the end.
    free: Vec<u32>,
    ghost room: { MAX_PLACES ≤ vec_capacity places },
    ghost free_room: { MAX_PLACES ≤ vec_capacity free },
    ghost most: { vec_len places ≤ MAX_PLACES },
    // Each place that is free stands in the list once, and no other place stands there.
    ghost listed: { (place : ℕ) → times place free.items ≡ spare (slice_get places.items place) },
    // So the list is as long as there are free places.
    ghost counted: { vec_len free ≡ free_places places.items },
}

impl Places {
    ghost use Rattle.device.specs.declared.places.PlaceNote.TheVariants.{Took, GaveBack, FoundNone};
    ghost use Rattle.device.specs.Places.{IsTaken, AreAllTaken, count_of, StaySame};

    /// No place is taken.
    pub(crate) fn new(alloc: Global) -> Result<Places, AllocError>
        ensures { IfOk result (λ places. count_of places ≡ 0) }
    {
        Ok(Places {
            places: Vec::with_capacity(alloc, MAX_PLACES)?,
            free: Vec::with_capacity(alloc, MAX_PLACES)?,
        })
    }

    /// No place is taken, in a list that several threads share.
    pub(crate) fn shared(alloc: Global) -> Result<Arc<Mutex<Places>>, AllocError> {
        let places = Mutex::new(Places::new(alloc)?);
        match Arc::new(alloc, places) {
            Ok(shared) => Ok(shared),
            Err(_) => Err(AllocError),
        }
    }

    /// Takes a place that is free, and notes it. One behind all others is taken only where no other is free.
    pub(crate) fn take(&mut self, notes: &mut PlaceNotes) -> Option<u32>
        ensures was_free { IfSome result (λ place. ¬ IsTaken self.old place) }
        ensures taken { IfSome result (λ place. IsTaken self.new place) }
        ensures others { IfSome result (λ place. StaySame place self.old self.new) }
        ensures number { IfSome result (λ place. place < MAX_PLACES) }
        ensures again { IfSome result (λ place. count_of self.old ≤ place → AreAllTaken self.old) }
        ensures full { IfNone result (count_of self.old ≡ MAX_PLACES) }
        ensures none_free { IfNone result (AreAllTaken self.old) }
        ensures noted { IfSome result (λ place. notes.new ≡ Took place ∷ notes.old) }
        ensures noted_none { IfNone result (notes.new ≡ FoundNone ∷ notes.old) }
    {
        match self.take_free() {
            Some(place) => {
                notes.add(PlaceNote::Took(place));
                Some(place)
            }
            None => {
                notes.add(PlaceNote::FoundNone);
                None
            }
        }
    }

    // Takes a place that is free.
    fn take_free(&mut self) -> Option<u32>
        ensures was_free { IfSome result (λ place. ¬ IsTaken self.old place) }
        ensures taken { IfSome result (λ place. IsTaken self.new place) }
        ensures others { IfSome result (λ place. StaySame place self.old self.new) }
        ensures number { IfSome result (λ place. place < MAX_PLACES) }
        ensures again { IfSome result (λ place. count_of self.old ≤ place → AreAllTaken self.old) }
        ensures full { IfNone result (count_of self.old ≡ MAX_PLACES) }
        ensures none_free { IfNone result (AreAllTaken self.old) }
    {
        match self.free.pop() {
            Some(place) => {
                self.places[place as usize] = Place::Taken;
                Some(place)
            }
            None => self.grow(),
        }
    }

    // Takes a place behind all others.
    fn grow(&mut self) -> Option<u32>
        ensures was_free { IfSome result (λ place. ¬ IsTaken self.old place) }
        ensures taken { IfSome result (λ place. IsTaken self.new place) }
        ensures others { IfSome result (λ place. StaySame place self.old self.new) }
        ensures number { IfSome result (λ place. place < MAX_PLACES) }
        ensures full { IfNone result (count_of self.old ≡ MAX_PLACES) }
    {
        let place = self.places.len();
        if place >= MAX_PLACES {
            return None;
        }
        self.places.push_reserved(Place::Taken);
        Some(place as u32)
    }

    // Whether a page lies at a place.
    fn is_taken(&self, place: u32) -> bool
        ensures { IsTrue result ↔ IsTaken self.now place }
    {
        self.places.get(place as usize) == Some(&Place::Taken)
    }

    /// Makes a place free, and notes it. One that is free stays so.
    pub(crate) fn give_back(&mut self, place: u32, notes: &mut PlaceNotes)
        ensures free { ¬ IsTaken self.new place }
        ensures others { StaySame place self.old self.new }
        ensures noted { notes.new ≡ GaveBack place ∷ notes.old }
    {
        self.set_free(place);
        notes.add(PlaceNote::GaveBack(place));
    }

    // Makes a place free.
    fn set_free(&mut self, place: u32)
        ensures free { ¬ IsTaken self.new place }
        ensures others { StaySame place self.old self.new }
    {
        if self.is_taken(place) {
            self.places[place as usize] = Place::Free;
            self.free.push_reserved(place);
        }
    }
}
