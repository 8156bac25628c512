// A run as bytes: its single numbers, the stored signals in order of arrival, the visits of each node, its streak and its result.
ghost use Rattle.std.specs.Prelude.{◌≡◌, true, ◌+◌, ◌*◌, ◌≤◌, ◌<◌, min, length, replicate};
ghost use Rattle.laws.specs.Splice.{splice};
ghost use Rattle.host.specs.Layout.{record_length, record_signals, signal_width, store, nodes};
ghost use Rattle.host.specs.Read.{record_fits};
ghost use Rattle.host.specs.ByCount.{NodesPast};
ghost use Rattle.codec.specs.Numbers.{bytes_of};
ghost use Rattle.codec.specs.Stored.{place_of, Stored};
ghost use Rattle.in_bytes.specs.Run.{run};
ghost use Rattle.in_bytes.specs.Tests.{unused};

use codec::numbers::{numbers_size, numbers_zero, read_numbers, write_numbers};
use codec::slots::{Slot, read_slots, slots_size, slots_tidy, write_slots};
use host::layout;
use host::read::{Used, record_fits};

// The lead of a streak is its count; that of a result its output's tag.
const STREAK: Slot = Slot {
    before: 1,
    after: 0,
};

const RESULT: Slot = Slot {
    before: 2,
    after: 3,
};

// Kept: casts here and below, since there is no `From` between u64 and usize (d).
const CAPACITY: u64 = layout::STORE as u64;

// Where the stored signals end. No more of them stand in a record than there is room for, whatever the count says.
fn stored_end(stored: u64) -> usize
    ensures { result ≡ record_signals + signal_width * min stored store }
{
    layout::RECORD_SIGNALS + layout::SIGNAL_WIDTH * (stored.min(CAPACITY) as usize)
}

// From bytes into numbers that are all zero.
pub fn read_run(bytes: &[u8], start: usize, r: &mut [u64; layout::RECORD]) -> Option<usize>
    requires { r.old ≡ replicate record_length 0 }
    ensures value { result ≡ place_of (run.read bytes.now start) }
    ensures stored { Stored (run.read bytes.now start) r.old 0 r.new }
{
    let first = read_numbers(bytes, start, &mut r[..layout::RECORD_SIGNALS])?;
    let stored = r[layout::RECORD_STORED];
    if stored > CAPACITY {
        return None;
    }
    let end = stored_end(stored);
    let second = read_numbers(bytes, first, &mut r[layout::RECORD_SIGNALS..end])?;
    let third = read_numbers(
        bytes,
        second,
        &mut r[layout::RECORD_VISITS..layout::RECORD_STREAKS],
    )?;
    let fourth = read_slots(
        bytes,
        third,
        &mut r[layout::RECORD_STREAKS..layout::RECORD_RESULTS],
        STREAK,
        layout::NODES,
    )?;
    read_slots(
        bytes,
        fourth,
        &mut r[layout::RECORD_RESULTS..],
        RESULT,
        layout::NODES,
    )
}

// Its count is within its capacity, and its unused slots are zero.
pub fn run_tidy(r: &[u64; layout::RECORD]) -> bool
    ensures { result ≡ run.tidy r.now }
{
    let stored = r[layout::RECORD_STORED];
    (stored <= CAPACITY)
        & numbers_zero(&r[stored_end(stored)..layout::RECORD_VISITS])
        & slots_tidy(&r[layout::RECORD_STREAKS..], STREAK, layout::NODES)
        & slots_tidy(&r[layout::RECORD_RESULTS..], RESULT, layout::NODES)
}

// A node has no visits, no streak and no result.
fn unused(r: &[u64; layout::RECORD], n: usize) -> bool
    requires { n < nodes }
    ensures { result ≡ unused r.now n }
{
    (r[layout::RECORD_VISITS + n] == 0)
        & (r[layout::RECORD_STREAKS + layout::STREAK_WIDTH * n + STREAK.before] == 0)
        & (r[layout::RECORD_RESULTS + layout::RESULT_WIDTH * n + RESULT.before] == 0)
}

// The nodes up to the last that is used.
fn used_nodes(r: &[u64; layout::RECORD]) -> usize
    requires { run.tidy r.now ≡ true }
    ensures { NodesPast r.now result }
{
    (0..layout::NODES)
        .rev()
        .find(|n| !unused(r, *n))
        .map_or(0, |n| n + 1)
}

// The fields of a tidy record can hold its numbers. Only what is used is tested: what was read from bytes is tidy.
pub fn tidy_fits(r: &[u64; layout::RECORD]) -> bool
    requires { run.tidy r.now ≡ true }
    ensures { result ≡ record_fits r.now }
{
    let nodes = used_nodes(r);
    record_fits(
        r,
        Used {
            signals: r[layout::RECORD_STORED] as usize,
            nodes,
        },
    )
}

// How many bytes it takes.
pub fn run_size(r: &[u64; layout::RECORD]) -> usize
    ensures { result ≡ length (bytes_of (run.fields r.now)) }
{
    numbers_size(&r[..stored_end(r[layout::RECORD_STORED])])
        + numbers_size(&r[layout::RECORD_VISITS..layout::RECORD_STREAKS])
        + slots_size(&r[layout::RECORD_STREAKS..], STREAK, layout::NODES)
        + slots_size(&r[layout::RECORD_RESULTS..], RESULT, layout::NODES)
}

// Its bytes are written from a place on. The place behind them.
// Kept: the buffer and a place, since an answer's other numbers stand before the run: the place comes back, and the contract is of the whole buffer (d).
pub fn write_run(out: &mut [u8], place: usize, r: &[u64; layout::RECORD]) -> usize
    requires { place + length (bytes_of (run.fields r.now)) ≤ length out.old }
    ensures value { result ≡ place + length (bytes_of (run.fields r.now)) }
    ensures out_after { out.new ≡ splice out.old place (bytes_of (run.fields r.now)) }
{
    let end = stored_end(r[layout::RECORD_STORED]);
    let first = write_numbers(out, place, &r[..end]);
    let second = write_numbers(
        out,
        first,
        &r[layout::RECORD_VISITS..layout::RECORD_STREAKS],
    );
    let third = write_slots(
        out,
        second,
        &r[layout::RECORD_STREAKS..],
        STREAK,
        layout::NODES,
    );
    write_slots(
        out,
        third,
        &r[layout::RECORD_RESULTS..],
        RESULT,
        layout::NODES,
    )
}
