//! One block of a session, served.
ghost use Rattle.std.specs.Prelude.{◌≡◌, ◌≤◌, [], true, false, Some, None};
ghost use Rattle.model_session.specs.Lines.{asked_of};
ghost use Rattle.model_session.specs.Session.{IsSourceEnded};
ghost use Rattle.session_lives.specs.declared.called.Called.TheVariants.{Frozen};
ghost use Rattle.session_lives.specs.ControlCounts.{KeepsPace};
ghost use Rattle.session_lives.specs.AskedControl.{IsAsked, StaysBy, pick_by};
ghost use Rattle.session_lives.specs.RunningSession.{IsSessionReady, IsPlaceDown, IsDownReady, Leads, session_down};
ghost use Rattle.session_lives.specs.SourceEnd.{EndsPlace, IsEndSettled, end_text, pick_ended};
ghost use Rattle.session_lives.specs.Openings.{IsServedSo, IsCallSettled, IsAloneAt, MayEnd, EndsLife, CutsAt, CutsDown, PicksAt, IsRestartedSo, IsOpeningTold, IsRefusalTold, asked_restart, pick_down};

use crate::asking::ask;
use crate::called::{Called, Ending, Opening, Served, Undone};
use crate::forcing::force;
use crate::opening::{go_down, lay_down, open};
use crate::place::{Idle, Kept, Place, Session, put, take_down, take_up};
use model_session::{Asked, ImageRefused};
use session_lines::{Block, read_block};
use session_text::{ANSWER_ROOM, Printed, down_line, image_line, opened_line};
use std::alloc::Global;
use std::mem;
use tm_control::Control;
use tm_disk::Disk;

/// Serves a block, and leaves what is to be printed for it as the printed text, unless the disk failed.
///
/// Where it could not be served all is as before, but that the turns of a QUIET stand that were done by then.
pub fn serve_block<D: Disk>(
    alloc: Global,
    session: &mut Session<D>,
    printed: &mut Printed,
    block: &Block,
) -> Served
    requires ready { IsSessionReady D.state session.old }
    ensures served { Leads D.state (λ setting old new. IsServedSo (asked_of setting.system block.now) printed.new.text result setting old new) session.old session.new }
    ensures ready { IsSessionReady D.state session.new }

    // POWER cuts the disk with its pick, and a stop with that of the last POWER IN, or with 0.
    ensures power { CutsAt D.state block.now session.old.place session.old.kept.pick result session.new.place }
    ensures pick { PicksAt D.state block.now session.old.place result session.old.kept.pick session.new.kept.pick }
{
    printed.clear();
    match &mut session.place {
        Place::Up(control) => {
            let called = ask_block(alloc, control, &mut session.kept.pick, printed, block);
            let _ = control.is_up();
            settle(session, called)
        }
        Place::Down(_) => serve_down(alloc, session, printed, block),
        Place::Moved => unreachable!(),
    }
}

/// The source has ended: where the system is up, all lasting steps are forced. Where the disk fails in that, the life ends.
pub fn end_source<D: Disk>(session: &mut Session<D>) -> Ending
    requires ready { IsSessionReady D.state session.old }
    ensures ended { Leads D.state (λ setting old new. IsSourceEnded setting.system old new (end_text result)) session.old session.new }
    ensures ready { IsSessionReady D.state session.new }

    // A stop cuts the disk with the pick of the last POWER IN, or with 0.
    ensures place { EndsPlace D.state session.old.place session.old.kept.pick result session.new.place }
    ensures pick { session.new.kept.pick ≡ pick_ended result session.old.kept.pick }
{
    match &mut session.place {
        Place::Up(control) => {
            let ending = force(control);
            let _ = control.is_up();
            end_forced(session, ending);
            ending
        }
        Place::Down(_) => Ending::Forced,
        Place::Moved => unreachable!(),
    }
}

/// What follows from how all was forced: the life goes on, or it has ended.
fn end_forced<D: Disk>(session: &mut Session<D>, ending: Ending)
    requires { MayEnd session.old }
    ensures { IsEndSettled D.state session.old ending session.new }
{
    match ending {
        Ending::Forced => {}
        Ending::Broke => stop(session),
    }
}

/// Asks a control region that is up for what a block asks for.
fn ask_block<D: Disk>(
    alloc: Global,
    control: &mut Control<D>,
    picked: &mut u64,
    printed: &mut Printed,
    block: &Block,
) -> Called
    requires up { control.old.up ≡ true }
    requires empty { printed.old.text ≡ [] }
    ensures asked { IsAsked D.state (asked_of control.old.control.system block.now) control.old control.new printed.new.text result }
    ensures picks { picked.new ≡ pick_by (asked_of control.old.control.system block.now) result (D.state control.old.disk).can_arm picked.old }
    ensures pace { KeepsPace D.state control.old control.new }
    ensures stays { StaysBy D.state (asked_of control.old.control.system block.now) result control.old control.new }
{
    let Ok(asked) = read_block(alloc, control.system(), block) else {
        return Called::Memory;
    };
    ask(alloc, control, picked, printed, asked)
}

/// What follows from how a call went: the life goes on, or it has ended. The session is moved only where it has.
fn settle<D: Disk>(session: &mut Session<D>, called: Called) -> Served
    requires may_end { MayEnd session.old }
    requires alone { IsAloneAt D.state session.old.place called }
    ensures { IsCallSettled D.state session.old called session.new result }
{
    match called {
        Called::Answered => Served::Printed,
        Called::Frozen => {
            freeze(session);
            Served::Printed
        }
        Called::Power(pick) => {
            end(session, pick, false);
            Served::Printed
        }
        Called::Broke => {
            stop(session);
            Served::Broke
        }
        Called::Memory => Served::Undone(Undone::Memory),
        Called::Spent => Served::Undone(Undone::Spent),
    }
}

/// Ends the life, since the disk failed: it is cut with the pick that was kept for that.
fn stop<D: Disk>(session: &mut Session<D>)
    requires { MayEnd session.old }
    ensures { EndsLife D.state (Some session.old.kept.pick) true session.old session.new }
{
    let pick = session.kept.pick;
    end(session, pick, true);
}

#[inline(never)]
fn freeze<D: Disk>(session: &mut Session<D>)
    requires may_end { MayEnd session.old }
    requires alone { IsAloneAt D.state session.old.place Frozen }
    ensures { EndsLife D.state None false session.old session.new }
{
    let control = take_up(&mut session.place);
    let idle = lay_down(control, &session.kept);
    put(&mut session.place, Place::Down(idle));
}

#[inline(never)]
fn end<D: Disk>(session: &mut Session<D>, pick: u64, stopped: bool)
    requires { MayEnd session.old }
    ensures { EndsLife D.state (Some pick) stopped session.old session.new }
{
    let control = take_up(&mut session.place);
    let idle = go_down(control, &mut session.kept, pick, stopped);
    put(&mut session.place, Place::Down(idle));
}

/// Serves a block while the system is down.
#[inline(never)]
fn serve_down<D: Disk>(
    alloc: Global,
    session: &mut Session<D>,
    printed: &mut Printed,
    block: &Block,
) -> Served
    requires down { IsPlaceDown session.old.place }
    requires ready { IsSessionReady D.state session.old }
    requires empty { printed.old.text ≡ [] }
    ensures served { Leads D.state (λ setting old new. IsServedSo (asked_of setting.system block.now) printed.new.text result setting old new) session.old session.new }
    ensures ready { IsSessionReady D.state session.new }
    ensures power { CutsAt D.state block.now session.old.place session.old.kept.pick result session.new.place }
    ensures pick { session.new.kept.pick ≡ pick_down result session.old.kept.pick }
{
    let idle = take_down(&mut session.place);
    let kept = mem::replace(&mut session.kept, Kept::new(alloc));
    let (after, served) = serve_idle(alloc, idle, kept, printed, block);
    let Session { place, kept } = after;
    put(&mut session.place, place);
    session.kept = kept;
    served
}

/// Reads a block while the system is down, and serves it.
fn serve_idle<D: Disk>(
    alloc: Global,
    idle: Idle<D>,
    kept: Kept,
    printed: &mut Printed,
    block: &Block,
) -> (Session<D>, Served)
    requires ready { IsDownReady D.state idle kept }
    requires empty { printed.old.text ≡ [] }
    ensures served { Leads D.state (λ setting old new. IsServedSo (asked_of setting.system block.now) printed.new.text result.1 setting old new) (session_down idle kept) result.0 }
    ensures ready { IsSessionReady D.state result.0 }
    ensures power { CutsDown D.state kept.pick idle result.1 result.0.place }
    ensures pick { result.0.kept.pick ≡ pick_down result.1 kept.pick }
{
    let Ok(asked) = read_block(alloc, &idle.system, block) else {
        let place = Place::Down(idle);
        return (Session { place, kept }, Served::Undone(Undone::Memory));
    };
    serve_asked(alloc, idle, kept, printed, &asked)
}

/// Serves what a block asks for while the system is down: a restart, and nothing else.
fn serve_asked<D: Disk>(
    alloc: Global,
    idle: Idle<D>,
    kept: Kept,
    printed: &mut Printed,
    asked: &Asked,
) -> (Session<D>, Served)
    requires ready { IsDownReady D.state idle kept }
    requires empty { printed.old.text ≡ [] }
    ensures served { Leads D.state (λ setting old new. IsServedSo asked.now printed.new.text result.1 setting old new) (session_down idle kept) result.0 }
    ensures ready { IsSessionReady D.state result.0 }
    ensures power { CutsDown D.state kept.pick idle result.1 result.0.place }
    ensures pick { result.0.kept.pick ≡ pick_down result.1 kept.pick }
{
    if printed.make_room(ANSWER_ROOM).is_err() {
        let place = Place::Down(idle);
        return (Session { place, kept }, Served::Undone(Undone::Memory));
    }
    match restart_of(asked) {
        Some(cold) => restart(alloc, idle, kept, printed, cold),
        None => {
            down_line(printed);
            let place = Place::Down(idle);
            (Session { place, kept }, Served::Printed)
        }
    }
}

/// Whether a restart is asked for, and whether it is a cold start.
fn restart_of(asked: &Asked) -> Option<bool>
    ensures { result ≡ asked_restart asked.now }
{
    match asked {
        Asked::Restart => Some(false),
        Asked::ColdStart => Some(true),
        Asked::Bad(_) => None,
        Asked::BadCommand(_) => None,
        Asked::Stopped(_, _, _) => None,
        Asked::Call(_) => None,
        Asked::Quiet(_) => None,
        Asked::Power(_) => None,
        Asked::PowerIn(_, _) => None,
    }
}

/// Opens a life, and prints how that went.
fn restart<D: Disk>(
    alloc: Global,
    idle: Idle<D>,
    kept: Kept,
    printed: &mut Printed,
    cold: bool,
) -> (Session<D>, Served)
    requires ready { IsDownReady D.state idle kept }
    requires empty { printed.old.text ≡ [] }
    requires room { ANSWER_ROOM ≤ printed.old.room }
    ensures gone { IsRestartedSo D.state idle kept cold result.0 printed.new.text result.1 }
    ensures ready { IsSessionReady D.state result.0 }
{
    let begun = idle.last.is_some();
    let (session, opening) = open(alloc, idle, kept, cold);
    (session, told(printed, cold, begun, &opening))
}

/// Prints how an opening went. A disk that can't be opened ends a session in which no life has begun.
fn told(printed: &mut Printed, cold: bool, begun: bool, opening: &Opening) -> Served
    requires empty { printed.old.text ≡ [] }
    requires room { ANSWER_ROOM ≤ printed.old.room }
    ensures { IsOpeningTold cold begun opening.now printed.new.text result }
{
    match opening {
        Opening::Opened => {
            opened_line(printed, cold);
            Served::Printed
        }
        Opening::Broke => Served::Broke,
        Opening::Refused(refusal) => told_refusal(printed, begun, refusal),
        Opening::Memory => Served::Undone(Undone::Memory),
        Opening::Spent => Served::Undone(Undone::Spent),
    }
}

fn told_refusal(printed: &mut Printed, begun: bool, refusal: &ImageRefused) -> Served
    requires empty { printed.old.text ≡ [] }
    requires room { ANSWER_ROOM ≤ printed.old.room }
    ensures { IsRefusalTold begun refusal.now printed.new.text result }
{
    if begun {
        image_line(printed, refusal);
        Served::Printed
    } else {
        Served::Undone(Undone::Image(*refusal))
    }
}
