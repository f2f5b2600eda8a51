//! Where a session stands.
ghost use Rattle.std.specs.Prelude.{◌≡◌, ◌<◌, ◌≤◌, ◌+◌, [], OnOk, vec_len, vec_capacity};
ghost use Rattle.session_lives.specs.RunningSession.{IsPlaceUp, IsPlaceDown};
ghost use Rattle.session_lives.specs.declared.place.Place.TheVariants.{Up, Down, Moved};

use std::alloc::Global;
use std::mem;
use system_types::System;
use tm_control::{Control, Life};
use tm_disk::Disk;
use tm_types::{Bytes, Memory};

/// The system while it is down.
#[derive(Drop)]
pub struct Idle<D: Disk> {
    pub disk: D,
    pub system: System,
    pub text: Bytes,
    /// The last life, if one has begun. Its lasting steps that were answered count as kept.
    pub last: Option<Life>,
    /// Whether a cold start broke off since.
    pub emptied: bool,
    /// Whether the disk has failed since the last life was opened.
    pub stopped: bool,
}

/// The system is up, or it is down.
#[derive(Drop)]
pub enum Place<D: Disk> {
    Up(Control<D>),
    Down(Idle<D>),
    /// What stood here is moved out, within a call. Between two blocks no session stands so.
    Moved,
}

/// What a session keeps beside.
#[derive(Debug, Drop)]
pub struct Kept {
    /// The lives before the last.
    pub lives: Vec<Life>,
    /// How often the disk had failed when a life or an opening that it ended began, and when it ended.
    pub stops: Vec<(u64, u64)>,
    /// What the cut of an armed disk leaves.
    pub pick: u64,
}

impl Kept {
    /// Nothing yet. This takes no memory.
    pub fn new(alloc: Global) -> Kept
        ensures lives { result.lives.items ≡ [] }
        ensures stops { result.stops.items ≡ [] }
        ensures pick { result.pick ≡ 0 }
    {
        Kept {
            lives: Vec::new(alloc),
            stops: Vec::new(alloc),
            pick: 0,
        }
    }

    /// Makes room for what an opening and the life behind it may add.
    pub fn make_room(&mut self) -> Result<(), Memory>
        ensures lives { self.new.lives.items ≡ self.old.lives.items }
        ensures stops { self.new.stops.items ≡ self.old.stops.items }
        ensures pick { self.new.pick ≡ self.old.pick }
        ensures still { vec_len self.old.lives < vec_capacity self.old.lives → vec_len self.new.lives < vec_capacity self.new.lives }
        ensures life_room { OnOk result (vec_len self.new.lives + 2 ≤ vec_capacity self.new.lives) }
        ensures stop_room { OnOk result (vec_len self.new.stops + 1 ≤ vec_capacity self.new.stops) }
    {
        self.lives.reserve(2)?;
        self.stops.reserve(1)
    }
}

/// A session: where it stands, and what it keeps beside.
#[derive(Drop)]
pub struct Session<D: Disk> {
    pub place: Place<D>,
    pub kept: Kept,
}

/// Moves a control region out that is up.
pub(crate) fn take_up<D: Disk>(place: &mut Place<D>) -> Control<D>
    requires { IsPlaceUp place.old }
    ensures taken { place.old ≡ Up result }
    ensures moved { place.new ≡ Moved }
{
    match mem::replace(place, Place::Moved) {
        Place::Up(control) => control,
        Place::Down(_) => unreachable!(),
        Place::Moved => unreachable!(),
    }
}

/// Moves a system out that is down.
pub(crate) fn take_down<D: Disk>(place: &mut Place<D>) -> Idle<D>
    requires { IsPlaceDown place.old }
    ensures taken { place.old ≡ Down result }
    ensures moved { place.new ≡ Moved }
{
    match mem::replace(place, Place::Moved) {
        Place::Down(idle) => idle,
        Place::Up(_) => unreachable!(),
        Place::Moved => unreachable!(),
    }
}

/// Puts in what stands where something was moved out.
pub(crate) fn put<D: Disk>(place: &mut Place<D>, next: Place<D>)
    requires { place.old ≡ Moved }
    ensures { place.new ≡ next }
{
    match mem::replace(place, next) {
        Place::Moved => {}
        Place::Up(_) => unreachable!(),
        Place::Down(_) => unreachable!(),
    }
}
