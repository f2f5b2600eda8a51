//! Openings, and the ends of lives.
ghost use Rattle.std.specs.Prelude.{◌≡◌, ◌<◌, ◌≤◌, ◌+◌, ◌++◌, ◌∷◌, [], true, false, if◌then◌else◌, length, vec_len, vec_capacity};
ghost use Rattle.tm_disk.specs.Disk.{IsCut, Only};
ghost use Rattle.model_session.specs.SessionState.{or_cold};
ghost use Rattle.session_lives.specs.RunningSession.{IsSessionReady, IsDownReady};
ghost use Rattle.session_lives.specs.Openings as spec;
ghost use Rattle.session_lives.specs.Openings.{GoesDown, HasGone, IsRefusedSo, IsCutDown, with_last_life};

use crate::called::Opening;
use crate::place::{Idle, Kept, Place, Session};
use model_session::ImageRefused;
use std::alloc::Global;
use tm_control::{Closed, Control, How, Life, OpenError, OpenRefused};
use tm_disk::Disk;

/// Ends a life, since the disk failed in it or power fails. The disk is cut with this pick, which takes the one that was kept for a stop.
pub fn go_down<D: Disk>(control: Control<D>, kept: &mut Kept, pick: u64, stopped: bool) -> Idle<D>
    requires text { length control.text ≤ 262144 }
    requires life_room { vec_len kept.old.lives < vec_capacity kept.old.lives }
    requires stop_room { vec_len kept.old.stops < vec_capacity kept.old.stops }
    ensures down { GoesDown D.state control kept.old kept.new stopped result }
    ensures cut { IsCut pick (D.state control.disk) (D.state result.disk) }
    ensures pick { kept.new.pick ≡ 0 }
    ensures ready { IsDownReady D.state result kept.new }
{
    let Closed {
        disk,
        life,
        system,
        text,
        faults,
    } = control.into_disk();
    note_stop(&mut kept.stops, stopped, faults, disk.faults());
    let mut disk = disk;
    disk.cut(pick);
    kept.pick = 0;
    Idle {
        disk,
        system,
        text,
        last: Some(life),
        emptied: false,
        stopped,
    }
}

/// Ends a life behind a freeze. The disk is left as it is.
pub fn lay_down<D: Disk>(control: Control<D>, kept: &Kept) -> Idle<D>
    requires text { length control.text ≤ 262144 }
    requires only { Only (D.state control.disk).shown (D.state control.disk) }
    requires life_room { vec_len kept.now.lives < vec_capacity kept.now.lives }
    ensures down { GoesDown D.state control kept.now kept.now false result }
    ensures same { result.disk ≡ control.disk }
    ensures ready { IsDownReady D.state result kept.now }
{
    let _ = kept;
    let Closed {
        disk,
        life,
        system,
        text,
        faults: _,
    } = control.into_disk();
    Idle {
        disk,
        system,
        text,
        last: Some(life),
        emptied: false,
        stopped: false,
    }
}

/// Adds a stop, where there was one.
fn note_stop(stops: &mut Vec<(u64, u64)>, stopped: bool, began: u64, ended: u64)
    requires { vec_len stops.old < vec_capacity stops.old }
    ensures { stops.new.items ≡ stops.old.items ++ (if stopped then (began, ended) ∷ [] else []) }
{
    if stopped {
        stops.push_reserved((began, ended));
    }
}

/// Opens a life. Where the disk fails it is cut with the pick that was kept; else the system is up, or it is down as it was.
pub fn open<D: Disk>(alloc: Global, idle: Idle<D>, kept: Kept, cold: bool) -> (Session<D>, Opening)
    requires ready { IsDownReady D.state idle kept }
    ensures gone { HasGone D.state idle kept cold result.0 result.1 }
    ensures ready { IsSessionReady D.state result.0 }
{
    let mut kept = kept;
    if kept.make_room().is_err() {
        let place = Place::Down(idle);
        return (Session { place, kept }, Opening::Memory);
    }
    let Idle {
        disk,
        system,
        text,
        last,
        emptied,
        stopped,
    } = idle;
    let began = disk.faults();
    match Control::open(alloc, disk, system, text, how(cold)) {
        Ok(control) => {
            keep(&mut kept.lives, last, cold, control.steps());
            let place = Place::Up(control);
            (Session { place, kept }, Opening::Opened)
        }
        Err(refused) => refuse(refused, last, emptied, stopped, kept, cold, began),
    }
}

fn how(cold: bool) -> How
    ensures { result ≡ spec.how_of cold }
{
    if cold { How::Cold } else { How::Found }
}

/// Keeps the last life, behind which another has opened with so many steps.
fn keep(lives: &mut Vec<Life>, last: Option<Life>, cold: bool, steps: u64)
    requires { vec_len lives.old + 2 ≤ vec_capacity lives.old }
    ensures items { lives.new.items ≡ with_last_life lives.old.items last cold steps }
    ensures room { vec_len lives.new < vec_capacity lives.new }
{
    if let Some(life) = last {
        lives.push_reserved(kept_by(cold, life, steps));
    }
}

fn kept_by(cold: bool, life: Life, steps: u64) -> Life
    ensures { result ≡ spec.life_kept_by cold life steps }
{
    if cold {
        return life;
    }
    let found = steps.saturating_sub(life.opening.steps);
    let kept = life.forced.max(found);
    Life {
        opening: life.opening,
        checkpoint: life.checkpoint,
        history: life.history,
        forced: life.forced,
        kept,
    }
}

/// What an opening that was refused comes to: the disk failed, and is cut; or all is as it was.
fn refuse<D: Disk>(
    refused: OpenRefused<D>,
    last: Option<Life>,
    emptied: bool,
    stopped: bool,
    kept: Kept,
    cold: bool,
    began: u64,
) -> (Session<D>, Opening)
    requires text { length refused.text ≤ 262144 }
    requires life_room { vec_len kept.lives < vec_capacity kept.lives }
    requires stop_room { vec_len kept.stops < vec_capacity kept.stops }
    requires only { spec.is_disk refused.error ≡ false → Only (D.state refused.disk).shown (D.state refused.disk) }
    ensures refused { IsRefusedSo D.state refused.disk refused.system refused.text last emptied stopped cold began kept (spec.opening_by refused.error) result.0 }
    ensures opening { result.1 ≡ spec.opening_by refused.error }
    ensures ready { IsSessionReady D.state result.0 }
{
    let OpenRefused {
        error,
        disk,
        system,
        text,
    } = refused;
    let opening = opening_by(&error);
    let idle = Idle {
        disk,
        system,
        text,
        last,
        emptied,
        stopped,
    };
    if is_disk(&error) {
        return (fail(idle, kept, cold, began), opening);
    }
    let place = Place::Down(idle);
    (Session { place, kept }, opening)
}

/// The disk failed in an opening: it is cut.
fn fail<D: Disk>(idle: Idle<D>, kept: Kept, cold: bool, began: u64) -> Session<D>
    requires text { length idle.text ≤ 262144 }
    requires life_room { vec_len kept.lives < vec_capacity kept.lives }
    requires stop_room { vec_len kept.stops < vec_capacity kept.stops }
    ensures failed { IsCutDown D.state idle.disk idle.system idle.text idle.last idle.emptied cold began kept result }
    ensures ready { IsSessionReady D.state result }
{
    let Idle {
        disk,
        system,
        text,
        last,
        emptied,
        stopped: _,
    } = idle;
    let Kept { lives, stops, pick } = kept;
    let mut stops = stops;
    stops.push_reserved((began, disk.faults()));
    let mut disk = disk;
    disk.cut(pick);
    let place = Place::Down(Idle {
        disk,
        system,
        text,
        last,
        emptied: or_cold(cold, emptied),
        stopped: true,
    });
    let kept = Kept {
        lives,
        stops,
        pick: 0,
    };
    Session { place, kept }
}

fn or_cold(cold: bool, emptied: bool) -> bool
    ensures { result ≡ or_cold cold emptied }
{
    if cold { true } else { emptied }
}

fn is_disk(error: &OpenError) -> bool
    ensures { result ≡ spec.is_disk error.now }
{
    match error {
        OpenError::Disk => true,
        OpenError::BadImage(_, _) => false,
        OpenError::WrongDefinition(_) => false,
        OpenError::TooSmall(_, _) => false,
        OpenError::Spent(_) => false,
        OpenError::Memory => false,
    }
}

fn opening_by(error: &OpenError) -> Opening
    ensures { result ≡ spec.opening_by error.now }
{
    match error {
        OpenError::Disk => Opening::Broke,
        OpenError::BadImage(rule, sector) => Opening::Refused(ImageRefused::Rule(*rule, *sector)),
        OpenError::WrongDefinition(place) => Opening::Refused(ImageRefused::Text(*place)),
        OpenError::TooSmall(needed, has) => Opening::Refused(ImageRefused::Size(*needed, *has)),
        OpenError::Spent(_) => Opening::Spent,
        OpenError::Memory => Opening::Memory,
    }
}
