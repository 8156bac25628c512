// Columns of a lent array one behind the other, each with its room and a count of the slots that are used.
ghost use Rattle.std.specs.Prelude.{◌≡◌, true, ◌+◌, ◌^◌, ◌≤◌, length};
ghost use Rattle.laws.specs.Splice.{splice};
ghost use Rattle.codec.specs.Numbers.{bytes_of, part};
ghost use Rattle.codec.specs.Stages.{total, columns};
ghost use Rattle.codec.specs.Stored.{place_of, Stored, ZeroFrom};

use crate::numbers::{numbers_size, numbers_zero, read_numbers, write_numbers};

// Kept: the numbers and the plan of their columns stand beside one another, since the plan is worked out anew for each call. With a struct
// `columns_tidy(&w[HEAD..], &plan(w))` is `Columns { numbers: &w[HEAD..], plan: &plan(w) }.tidy()`, and its room is proved there as it is now (d).

// How many slots a column has, and how many of them are used.
#[derive(Clone, Copy)]
pub struct Column {
    pub room: usize,
    pub used: usize,
}

// Columns from bytes into an array that is zero.
// Kept: it is zero before and not behind, so its type can't say so, here and in slots (d).
pub fn read_columns(bytes: &[u8], start: usize, out: &mut [u32], plan: &[Column]) -> Option<usize>
    requires { (total plan.now ≤ length out.old) × ZeroFrom 0 out.old }
    ensures value { result ≡ place_of ((columns (2 ^ 32) plan.now).read bytes.now start) }
    ensures stored { Stored ((columns (2 ^ 32) plan.now).read bytes.now start) out.old 0 out.new }
{
    let mut at = start;
    let mut first: usize = 0;
    for column in plan {
        if column.used > column.room {
            return None;
        }
        at = read_numbers(bytes, at, &mut out[first..first + column.used])?;
        first += column.room;
    }
    Some(at)
}

// Every count is within its room, and every slot that isn't used is zero.
pub fn columns_tidy(xs: &[u32], plan: &[Column]) -> bool
    requires { total plan.now ≤ length xs.now }
    ensures { result ≡ (columns (2 ^ 32) plan.now).tidy (part xs.now 0 (total plan.now)) }
{
    let mut first: usize = 0;
    // Kept: a loop, since each column begins where the one before ends, and rooms differ, here as in the other three. They differ in what is done
    // with a column: a walk of their own would take that as a closure, which reads or writes lent bytes, adds a number, or ends it early (d).
    for column in plan {
        if column.room < column.used {
            return false;
        }
        if !numbers_zero(&xs[first + column.used..first + column.room]) {
            return false;
        }
        first += column.room;
    }
    true
}

// How many bytes tidy columns take.
pub fn columns_size(xs: &[u32], plan: &[Column]) -> usize
    requires in_bounds { (total plan.now ≤ length xs.now) × (length xs.now ≤ 65536) }
    requires tidy { (columns (2 ^ 32) plan.now).tidy (part xs.now 0 (total plan.now)) ≡ true }
    ensures { result ≡ length (bytes_of ((columns (2 ^ 32) plan.now).fields (part xs.now 0 (total plan.now)))) }
{
    let mut size: usize = 0;
    let mut first: usize = 0;
    for column in plan {
        size += numbers_size(&xs[first..first + column.used]);
        first += column.room;
    }
    size
}

// Their bytes are written from a place on. The place behind them.
pub fn write_columns(out: &mut [u8], at: usize, xs: &[u32], plan: &[Column]) -> usize
    requires in_bounds { total plan.now ≤ length xs.now }
    requires tidy { (columns (2 ^ 32) plan.now).tidy (part xs.now 0 (total plan.now)) ≡ true }
    requires fits { at + length (bytes_of ((columns (2 ^ 32) plan.now).fields (part xs.now 0 (total plan.now)))) ≤ length out.old }
    ensures value { result ≡ at + length (bytes_of ((columns (2 ^ 32) plan.now).fields (part xs.now 0 (total plan.now)))) }
    ensures out_after { out.new ≡ splice out.old at (bytes_of ((columns (2 ^ 32) plan.now).fields (part xs.now 0 (total plan.now)))) }
{
    let mut place = at;
    let mut first: usize = 0;
    for column in plan {
        place = write_numbers(out, place, &xs[first..first + column.used]);
        first += column.room;
    }
    place
}
