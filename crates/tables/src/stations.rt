// The eight reservation stations: each serves every class.
ghost use Rattle.std.specs.Prelude.{◌≡◌, map};
ghost use Rattle.machine.specs.Classes.{serves};
ghost use Rattle.tables.specs.Waiting.{no_stations, any_free, all_placed, all_woken, all_freed, woken_place, freed_place, age, older, goes};

use crate::station::Station;
use machine::classes::Classes;
use units::job::Job;

#[derive(Clone, Copy)]
pub struct Stations {
    places: [Option<Station>; 8],
}

// How many entries are older than the one in a slot, when the oldest is at the head.
fn age(head: u8, tag: u8) -> u16
    ensures { result ≡ age head tag }
{
    (u16::from(tag) + 16).saturating_sub(u16::from(head)) % 16
}

// Of two jobs the one whose entry is older.
fn older(head: u8, a: Option<Job>, b: Option<Job>) -> Option<Job>
    ensures { result ≡ older head a b }
{
    let (Some(x), Some(y)) = (a, b) else {
        return a.or(b);
    };
    if age(head, x.tag) <= age(head, y.tag) {
        a
    } else {
        b
    }
}

impl Stations {
    pub fn new() -> Stations
        ensures { result ≡ no_stations }
    {
        Stations { places: [None; 8] }
    }

    pub fn has_free(&self) -> bool
        ensures { result ≡ any_free self.now.places }
    {
        self.places.iter().any(Option::is_none)
    }

    // The first free place is taken; where none is free nothing changes.
    pub fn place(&mut self, station: Station)
        ensures { self.new ≡ all_placed station self.old }
    {
        if let Some(free) = self.places.iter().position(Option::is_none) {
            self.places[free] = Some(station);
        }
    }

    // The value under a tag has come. No struct of the two: it would be made in one place and taken apart in one.
    pub fn wake(&mut self, tag: u8, value: u32)
        ensures { self.new ≡ all_woken tag value self.old }
    {
        wake_all(&mut self.places, tag, value);
    }

    // The job of the oldest entry that may go to a unit; none while the entry at the head waits for room. Room and head stay
    // apart, since what compares ages reads the head alone, and what may go the room alone.
    pub fn select(&self, room: Classes, head: u8) -> Option<Job>
        ensures { result ≡ goes (serves room) head self.now.places }
    {
        select_from(&self.places, room, head)
    }

    // The job under a tag has gone to a unit.
    pub fn free(&mut self, tag: u8)
        ensures { self.new ≡ all_freed tag self.old }
    {
        free_all(&mut self.places, tag);
    }

    pub fn clear(&mut self)
        ensures { self.new ≡ no_stations }
    {
        *self = Stations::new();
    }
}

fn wake_place(place: &mut Option<Station>, tag: u8, value: u32)
    ensures { place.new ≡ woken_place tag value place.old }
{
    if let Some(station) = place {
        station.wake(tag, value);
    }
}

// In place, here and below: the array's `map` copies every station, and a cycle then takes twice as long. A loop each: `for_each`
// does not say how its closure leaves the places, and was not proved.
fn wake_all(places: &mut [Option<Station>], tag: u8, value: u32)
    ensures { places.new ≡ map (woken_place tag value) places.old }
{
    for place in places.iter_mut() {
        wake_place(place, tag, value);
    }
}

fn free_place(place: &mut Option<Station>, tag: u8)
    ensures { place.new ≡ freed_place tag place.old }
{
    if place.is_some_and(|station| station.tag == tag) {
        *place = None;
    }
}

fn free_all(places: &mut [Option<Station>], tag: u8)
    ensures { places.new ≡ map (freed_place tag) places.old }
{
    for place in places.iter_mut() {
        free_place(place, tag);
    }
}

// In one pass, and by reference: two passes, each over copies of the stations, take up to three times as long.
fn select_from(places: &[Option<Station>], room: Classes, head: u8) -> Option<Job>
    ensures { result ≡ goes (serves room) head places.now }
{
    let mut oldest = None;
    for place in places {
        let Some(station) = place else {
            continue;
        };
        if room.has(station.class) {
            let job = station.job();
            if job.is_some() {
                oldest = older(head, oldest, job);
            }
        } else if station.tag == head {
            return None;
        }
    }
    oldest
}
