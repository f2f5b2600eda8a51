//! What a session has come to.
ghost use Rattle.std.specs.Prelude.{◌≡◌, ◌<◌, ◌++◌, false, vec_len, vec_capacity};
ghost use Rattle.model_session.specs.SessionState.{is_session_stopped};
ghost use Rattle.session_lives.specs.RunningSession.{IsSessionReady, standing_of};
ghost use Rattle.session_lives.specs.ClosedSession.{IsSessionClosed, IsClosedUp, IsClosedDown, HasRoomIf, SessionLeaves, listed};

use crate::place::{Idle, Kept, Place, Session};
use tm_control::{Closed, Control, Life};
use tm_disk::Disk;

/// What a session has come to: its disk, its lives, its stops, and whether the disk has failed since a life was opened last.
#[derive(Drop)]
pub struct Over<D: Disk> {
    pub disk: D,
    pub lives: Vec<Life>,
    pub stops: Vec<(u64, u64)>,
    pub stopped: bool,
}

/// Closes a session. A life that is open is its last; the disk is left as it is.
pub fn close<D: Disk>(session: Session<D>) -> Over<D>
    requires ready { IsSessionReady D.state session }
    ensures closed { IsSessionClosed D.state session result.disk result.lives.items result.stops.items }
    ensures leaves { SessionLeaves D.state session result.disk result.lives.items result.stops.items }
    ensures stopped { result.stopped ≡ is_session_stopped (standing_of session.place) }
{
    hand_over(session)
}

fn hand_over<D: Disk>(session: Session<D>) -> Over<D>
    requires ready { IsSessionReady D.state session }
    ensures closed { IsSessionClosed D.state session result.disk result.lives.items result.stops.items }
    ensures stopped { result.stopped ≡ is_session_stopped (standing_of session.place) }
{
    let Session { place, kept } = session;
    match place {
        Place::Up(control) => close_up(control, kept),
        Place::Down(idle) => close_down(idle, kept),
        Place::Moved => unreachable!(),
    }
}

fn close_up<D: Disk>(control: Control<D>, kept: Kept) -> Over<D>
    requires { vec_len kept.lives < vec_capacity kept.lives }
    ensures closed { IsClosedUp D.state control kept result.disk result.lives.items result.stops.items }
    ensures stopped { result.stopped ≡ false }
{
    let Kept { lives, stops, .. } = kept;
    let mut lives = lives;
    let Closed { disk, life, .. } = control.into_disk();
    lives.push_reserved(life);
    Over {
        disk,
        lives,
        stops,
        stopped: false,
    }
}

fn close_down<D: Disk>(idle: Idle<D>, kept: Kept) -> Over<D>
    requires { HasRoomIf idle.last (vec_len kept.lives) (vec_capacity kept.lives) }
    ensures closed { IsClosedDown idle kept result.disk result.lives.items result.stops.items }
    ensures stopped { result.stopped ≡ idle.stopped }
{
    let Kept { lives, stops, .. } = kept;
    let Idle {
        disk,
        last,
        stopped,
        ..
    } = idle;
    Over {
        disk,
        lives: with_life(lives, last),
        stops,
        stopped,
    }
}

fn with_life(lives: Vec<Life>, last: Option<Life>) -> Vec<Life>
    requires { HasRoomIf last (vec_len lives) (vec_capacity lives) }
    ensures { result.items ≡ lives.items ++ listed last }
{
    let mut lives = lives;
    if let Some(life) = last {
        lives.push_reserved(life);
    }
    lives
}
