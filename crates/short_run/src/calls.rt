// A call, each way, and a line of what came of it: what was refused or answered, and what the call left of the hasher.
ghost use Rattle.std.specs.Prelude.{IfOk, ◌≡◌, replicate};
ghost use Rattle.loan.specs.Loan.{loan_in};
ghost use Rattle.short_run.specs.Ways.{call_named, lanes_updated, ways_updated, lanes_finished, ways_finished, after_call};

use crate::ways::{Counts, LANE, LANES, Ways};
use bench::{LaneAnswer, lane_finish, lane_update};
use finish::{finish, finish_and_reset};
use hasher::Hasher;
use in_place::update_in_place;
use loan::Lent;
use printing::{Hex, Said};
use refusal::Refusal;
use std::io;
use std::io::Write;
use update::update;

// What a line asks for.
#[derive(Clone, Copy, Debug, PartialEq, Eq)]
pub(crate) enum Call {
    Update,
    Finish,
}

impl Call {
    fn named(letter: u8) -> Call
        ensures { result ≡ call_named letter }
    {
        match letter {
            b'u' => Call::Update,
            _ => Call::Finish,
        }
    }
}

// An update of the lane, where the hashers lie.
fn update_lane(lanes: &mut [Hasher; 17], bytes: &[u8], lent: Lent<'_>) -> Result<(), Refusal>
    ensures { lanes.new ≡ lanes_updated lanes.old bytes.now (loan_in lent.entry) }
{
    lane_update(&mut lanes[..LANES], LANE, bytes, lent)
}

// A finish-and-reset of it.
fn finish_lane(
    lanes: &mut [Hasher; 17],
    digest: &mut [u8; 20],
    lent: Lent<'_>,
) -> Result<LaneAnswer, Refusal>
    requires { digest.old ≡ replicate 20 0xA5 }
    ensures { lanes.new ≡ lanes_finished lanes.old (loan_in lent.entry) }
{
    lane_finish(&mut lanes[..LANES], LANE, digest, lent)
}

// An update of each, with the same bytes and the same loan. A refused one by value hands back no hasher; the other two are seen where
// they lie.
fn update_all<W: Write>(out: &mut W, w: Ways, bytes: &[u8], lent: Lent<'_>) -> io::Result<Ways>
    ensures { IfOk result (λ r. r ≡ ways_updated w bytes.now (loan_in lent.entry)) }
{
    let mut after = w;
    let by_value = update(w.value, bytes, lent);
    after.value = by_value.unwrap_or(w.value);
    let in_place = update_in_place(&mut after.place, bytes, lent);
    let on_lane = update_lane(&mut after.lanes, bytes, lent);
    let value = by_value.map(|_| ());
    write!(out, "{}, {}; ", Said(value), Counts(after.value))?;
    write!(
        out,
        "in place {}, {}; ",
        Said(in_place),
        Counts(after.place)
    )?;
    let lane = after.lanes[LANE];
    writeln!(out, "on a lane {}, {}", Said(on_lane), Counts(lane))?;
    Ok(after)
}

// A finish, whose hasher comes back as it was; and finish-and-resets of the other two, into 20 bytes that were A5.
fn finish_all<W: Write>(out: &mut W, w: Ways, lent: Lent<'_>) -> io::Result<Ways>
    ensures { IfOk result (λ r. r ≡ ways_finished w (loan_in lent.entry)) }
{
    let mut by_place = [0xA5u8; 20];
    let mut by_lane = [0xA5u8; 20];
    let mut after = w;
    let value = finish(w.value, lent);
    after.value = value.map_or(w.value, |f| f.hasher);
    let place = finish_and_reset(w.place, &mut by_place, lent);
    after.place = place.map_or(w.place, |f| f.hasher);
    let on_lane = finish_lane(&mut after.lanes, &mut by_lane, lent);
    write!(out, "{}, {}; ", Said(value), Counts(after.value))?;
    let outcome = place.map(|f| f.verdict);
    write!(out, "with reset {} {}, ", Said(outcome), Hex(&by_place))?;
    write!(out, "{}; ", Counts(after.place))?;
    let outcome = on_lane.map(|a| a.verdict);
    write!(out, "on a lane {} {}, ", Said(outcome), Hex(&by_lane))?;
    writeln!(out, "{}", Counts(after.lanes[LANE]))?;
    Ok(after)
}

// The call that a letter names, on a part of the message.
pub(crate) fn make<W: Write>(
    out: &mut W,
    letter: u8,
    w: Ways,
    part: &[u8],
    lent: Lent<'_>,
) -> io::Result<Ways>
    ensures { IfOk result (λ r. r ≡ after_call (call_named letter) w part.now (loan_in lent.entry)) }
{
    match Call::named(letter) {
        Call::Update => update_all(out, w, part, lent),
        Call::Finish => finish_all(out, w, lent),
    }
}
