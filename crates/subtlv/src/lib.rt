// The calls walk and push (document 01, 'Numbers a call gives back'): the checks in their order, a count where room may be
// short, and then the writing. Each call has all of it to itself, so that the back end makes one function of it.
#![tactic(auto)]

ghost use Rattle.std.specs.Prelude.{◌≡◌, ◌+◌, ◌-◌, ◌^◌, ◌<◌, ◌≤◌, length, Ok};
ghost use Rattle.outcome.specs.Call.{Gives};
ghost use Rattle.outcome.specs.Told.{told};
ghost use Rattle.registry.specs.Registry.{number_of};
ghost use Rattle.tape.specs.Tape.{used, with_used};
ghost use Rattle.tape.specs.Forest.{size};
ghost use Rattle.tape.specs.Laid.{RoomFor};
ghost use Rattle.meaning.specs.Frame.{covered};
ghost use Rattle.meaning.specs.AreaCall.{shown, area_call, walk_call, push_call};
ghost use Rattle.fields.specs.Stretches.{of, octets_of};
ghost use Rattle.subtlv.specs.Checks.{Checked, Fits, done};

use crate::showing::{Complete, Showing, Whole};
use fields::stretch::Stretch;
use outcome::{Done, Outcome, Refusal};
use registry::Registry;
use store::header::{in_order, room_of, set_used, used};
use store::layout::{Layout, Slim, Usual};
use store::pen::Pen;
use tape::{Octet, Position};

mod showing;

// An area of n octets needs 1 + 7n/3 records at most: seven ..
const RECORDS: usize = 7;

// .. for three octets.
const OCTETS: usize = 3;

// The checks 2 to 4 in their order: the refusal of the first that fails, or how many records there is room for behind those
// that are used.
fn check(area: &[u8], base: Octet, tape: &[u64], slim: bool) -> Result<usize, Refusal>
    ensures { Checked slim area.now base.0 tape.now result }
{
    let n = area.len();
    if 65535 < n {
        return Err(Refusal::AreaTooLong);
    }
    if 4294967295 - n < base.0 {
        return Err(Refusal::AreaTooFar);
    }
    if !in_order(tape, slim) {
        return Err(Refusal::NoTape);
    }
    let at = used(tape);
    Ok(room_of(slim, tape.len()) - at.0)
}

// The check 5: the refusal that tells how many records are needed, where there is less room.
// Where there is room for the most that the area can need, nothing is counted.
#[inline(always)]
fn fits<S: Showing>(area: &[u8], registry: Registry, room: usize) -> Result<(), Refusal>
    requires { (length area.now ≤ 65535) × (room < 2 ^ 60) }
    ensures { Fits S.shows (number_of registry) area.now room result }
{
    if RECORDS * area.len() < OCTETS * room {
        return Ok(());
    }
    let needed = S::records(area, registry);
    if room < needed {
        return Err(Refusal::NoRoom(needed));
    }
    Ok(())
}

// Counts the records that were laid from position `at` up to position `next` among the used ones.
fn count_in(tape: &mut [u64], at: Position, covered: usize, next: Position) -> Done
    requires { (4 ≤ length tape.old) × (at.0 ≤ next.0) }
    ensures { (result ≡ done covered (next.0 - at.0)) × (tape.new ≡ with_used next.0 tape.old) }
{
    let written = next.0 - at.0;
    set_used(tape, next);
    Done {
        covered,
        written,
        needed: written,
    }
}

// Lays an area on a tape behind the records that are used, and counts its records among them.
#[inline(always)]
fn append<S: Showing, L: Layout>(area: Stretch, tape: &mut [u64], layout: L) -> Done
    requires { (4 ≤ length tape.old) × RoomFor L.SLIM tape.old (used tape.old + size (of S.shows area)) }
    ensures { Gives (shown L.SLIM (covered (octets_of area.entry)) (of S.shows area.entry) tape.old) (told (Ok result)) tape.new }
{
    let at = used(&tape[..]);
    let mut pen = Pen {
        tape,
        next: at,
        layout,
    };
    let covered = S::lay(area, &mut pen);
    let Pen {
        tape,
        next,
        layout: _layout,
    } = pen;
    count_in(tape, at, covered, next)
}

// The call that shows so much of an area, behind the records that the tape has.
#[inline(always)]
fn call<S: Showing>(
    area: &[u8],
    base: Octet,
    registry: u64,
    tape: &mut [u64],
    slim: bool,
) -> Outcome
    ensures { Gives (area_call slim S.shows registry area.now base.0 tape.old) (told result) tape.new }
{
    let known = Registry::try_from(registry)?;
    let room = check(&area[..], base, &tape[..], slim)?;
    fits::<S>(&area[..], known, room)?;
    let area = Stretch {
        octets: area,
        base,
        registry: known,
    };
    // Here the layout becomes a type.
    if slim {
        Ok(append::<S, Slim>(area, tape, Slim))
    } else {
        Ok(append::<S, Usual>(area, tape, Usual))
    }
}

// The call walk: the records of an area's complete entries.
pub fn walk(area: &[u8], base: Octet, registry: u64, tape: &mut [u64], slim: bool) -> Outcome
    ensures { Gives (walk_call slim registry area.now base.0 tape.old) (told result) tape.new }
{
    call::<Complete>(&area[..], base, registry, tape, slim)
}

// The call push: the walk, and one `raw` record beside it for the octets that it does not cover, if there are any.
pub fn push(area: &[u8], base: Octet, registry: u64, tape: &mut [u64], slim: bool) -> Outcome
    ensures { Gives (push_call slim registry area.now base.0 tape.old) (told result) tape.new }
{
    call::<Whole>(&area[..], base, registry, tape, slim)
}
