// The rows of a run record and of an answer: how each stands as numbers (docs/NUMBERS.md).
#![tactic(auto, using(laws::specs::Splice::splice_one, crate::specs::RowLaws::result_row), unfolding(crate::specs::Read::signal_of, crate::specs::Read::visits_of, crate::specs::Read::streak_of, crate::specs::Read::result_of, crate::specs::Write::signal_numbers, crate::specs::Write::visits_numbers, crate::specs::Write::streak_numbers, crate::specs::WriteRows::signal_digits, crate::specs::WriteRows::visits_digits, crate::specs::WriteRows::streak_digits, crate::specs::WriteRows::result_digits))]

ghost use Rattle.std.specs.Prelude.{◌≡◌, List, ℕ, ◌+◌, ◌*◌, ◌≤◌, ◌<◌, length};
ghost use mathlib.Core.List.{flat_map};
ghost use Rattle.laws.specs.Splice.{splice};
ghost use Rattle.laws.specs.Rows.{span};
ghost use Rattle.model.specs.Record.{no_signal, no_visits, no_streak, no_node_result};
ghost use Rattle.host.specs.Layout.{store, nodes, signal_width, streak_width, result_width, note_width, ending_width};
ghost use Rattle.host.specs.Read.{signal_of, visits_of, streak_of, result_of};
ghost use Rattle.model.specs.Answers.{note_numbers, ending_numbers};
ghost use Rattle.host.specs.Write.{option_numbers, signal_numbers, visits_numbers, streak_numbers, result_numbers};
ghost use Rattle.host.specs.WriteRows.{signal_digits, visits_digits, streak_digits, result_digits, Leading};
ghost use Rattle.host.specs.RowLaws.{option_wide, length_signal, length_visits, length_streak, length_result, length_note, length_ending, signal_is, visits_is, streak_is, result_is};

use crate::layout;
use crate::read::{number_at, output};
use crate::write::write;
use model::answer::{Ending, Note};
use model::{BufferedSignal, NodeResult, Output, Streak, Visits};

// A row, and its numbers in their order.
pub trait Row: Copy {
    ghost numbers: { Self → List ℕ };

    ghost WIDTH: { ℕ };

    const WIDTH: usize;

    fn write(&self, out: &mut [u64])
        requires { WIDTH ≤ length out.old }
        ensures { out.new ≡ splice out.old 0 (numbers self.now) };

    ghost wide: { (row : Self) → length (numbers row) ≡ WIDTH };
}

// A row of a run record, which has room for so many. Its digits joined are 0 only if it is the empty one.
pub trait RecordRow: Row {
    ghost room: { ℕ };

    ghost none: { Self };

    ghost of: { List ℕ → ℕ → Self };

    ghost joined: { Self → ℕ };

    fn read(xs: &[u64; layout::RECORD], i: usize) -> Self
        requires { i < room }
        ensures { result ≡ of xs.now i };

    fn digits(&self) -> u64
        ensures { result ≡ joined self.now };

    ghost only_none: { (row : Self) → joined row ≡ 0 → row ≡ none };
}

impl Row for BufferedSignal {
    ghost numbers = { signal_numbers };

    ghost WIDTH = { signal_width };

    ghost wide = { length_signal };

    const WIDTH: usize = layout::SIGNAL_WIDTH;

    fn write(&self, out: &mut [u64]) {
        let row = [
            self.sequence,
            u64::from(self.event_id),
            u64::from(self.signal),
            u64::from(self.outcome),
            u64::from(self.data),
        ];
        write(out, &row);
    }
}

// Kept: `read` and `digits` name the fields of each type in turn (d).
impl RecordRow for BufferedSignal {
    ghost room = { store };

    ghost none = { no_signal };

    ghost of = { signal_of };

    ghost joined = { signal_digits };

    ghost only_none = { signal_is };

    fn read(xs: &[u64; layout::RECORD], i: usize) -> BufferedSignal {
        let k = layout::RECORD_SIGNALS + layout::SIGNAL_WIDTH * i;
        BufferedSignal {
            sequence: xs[k],
            event_id: number_at(xs, k + 1),
            signal: number_at(xs, k + 2),
            outcome: number_at(xs, k + 3),
            data: number_at(xs, k + 4),
        }
    }

    fn digits(&self) -> u64 {
        self.sequence
            | u64::from(self.event_id)
            | u64::from(self.signal)
            | u64::from(self.outcome)
            | u64::from(self.data)
    }
}

impl Row for Visits {
    ghost numbers = { visits_numbers };

    ghost WIDTH = { 1 };

    ghost wide = { length_visits };

    const WIDTH: usize = 1;

    fn write(&self, out: &mut [u64]) {
        out[0] = u64::from(self.count);
    }
}

impl RecordRow for Visits {
    ghost room = { nodes };

    ghost none = { no_visits };

    ghost of = { visits_of };

    ghost joined = { visits_digits };

    ghost only_none = { visits_is };

    fn read(xs: &[u64; layout::RECORD], i: usize) -> Visits {
        Visits {
            count: number_at(xs, layout::RECORD_VISITS + i),
        }
    }

    fn digits(&self) -> u64 {
        u64::from(self.count)
    }
}

impl Row for Streak {
    ghost numbers = { streak_numbers };

    ghost WIDTH = { streak_width };

    ghost wide = { length_streak };

    const WIDTH: usize = layout::STREAK_WIDTH;

    fn write(&self, out: &mut [u64]) {
        let row = [u64::from(self.outcome), u64::from(self.count)];
        write(out, &row);
    }
}

impl RecordRow for Streak {
    ghost room = { nodes };

    ghost none = { no_streak };

    ghost of = { streak_of };

    ghost joined = { streak_digits };

    ghost only_none = { streak_is };

    fn read(xs: &[u64; layout::RECORD], i: usize) -> Streak {
        let k = layout::RECORD_STREAKS + layout::STREAK_WIDTH * i;
        Streak {
            outcome: number_at(xs, k),
            count: number_at(xs, k + 1),
        }
    }

    fn digits(&self) -> u64 {
        u64::from(self.outcome) | u64::from(self.count)
    }
}

impl Row for NodeResult {
    ghost numbers = { result_numbers };

    ghost WIDTH = { result_width };

    ghost wide = { length_result };

    const WIDTH: usize = layout::RESULT_WIDTH;

    fn write(&self, out: &mut [u64]) {
        let o = self.output.numbers();
        let row = [
            u64::from(self.visit),
            u64::from(self.outcome),
            o[0],
            o[1],
            o[2],
            o[3],
        ];
        write(out, &row);
    }
}

impl RecordRow for NodeResult {
    ghost room = { nodes };

    ghost none = { no_node_result };

    ghost of = { result_of };

    ghost joined = { result_digits };

    ghost only_none = { result_is };

    fn read(xs: &[u64; layout::RECORD], i: usize) -> NodeResult {
        let k = layout::RECORD_RESULTS + layout::RESULT_WIDTH * i;
        let output = output(xs[k + 2], xs[k + 3], xs[k + 4], xs[k + 5]);
        NodeResult {
            visit: number_at(xs, k),
            outcome: number_at(xs, k + 1),
            output,
        }
    }

    fn digits(&self) -> u64 {
        u64::from(self.visit)
            | u64::from(self.outcome)
            | u64::from(!matches!(self.output, Output::Nothing))
    }
}

impl Row for Note {
    ghost numbers = { note_numbers };

    ghost WIDTH = { note_width };

    ghost wide = { length_note };

    const WIDTH: usize = layout::NOTE_WIDTH;

    fn write(&self, out: &mut [u64]) {
        write(out, &self.numbers());
    }
}

impl Row for Ending {
    ghost numbers = { ending_numbers };

    ghost WIDTH = { ending_width };

    ghost wide = { length_ending };

    const WIDTH: usize = layout::ENDING_WIDTH;

    fn write(&self, out: &mut [u64]) {
        write(out, &self.numbers());
    }
}

// A row that is not there is zeros.
impl<T: Row> Row for Option<T> {
    ghost numbers = { option_numbers T.numbers T.WIDTH };

    ghost WIDTH = { T.WIDTH };

    ghost wide = { option_wide T.numbers T.WIDTH T.wide };

    const WIDTH: usize = T::WIDTH;

    fn write(&self, out: &mut [u64]) {
        match self {
            Some(row) => row.write(out),
            None => out[..T::WIDTH].fill(0),
        }
    }
}

// The first rows of a record.
pub fn read_rows<T: RecordRow>(rows: &mut [T], xs: &[u64; layout::RECORD])
    requires { length rows.old ≤ T.room }
    ensures { rows.new ≡ span (T.of xs.now) 0 (length rows.old) }
{
    for (i, row) in rows.iter_mut().enumerate() {
        *row = T::read(xs, i);
    }
}

// The rows that are written: those up to a count where the digits of all others are 0, else all. One pass without a test, so
// that the compiler makes it a vector loop.
// Kept: rows and a count, since what is given back is cut there or whole (d).
pub fn leading<T: RecordRow>(rows: &[T], count: usize) -> &[T]
    requires { count ≤ length rows.now }
    ensures { Leading T.none rows.now result.now }
{
    let digits = rows[count..]
        .iter()
        .fold(0, |digits, row| digits | row.digits());
    if digits == 0 {
        return &rows[..count];
    }
    rows
}

// Kept: each row by its place: chunks of the buffer would ask that no row has width 0, and have one more length to show (d).
pub fn write_rows<T: Row>(out: &mut [u64], rows: &[T])
    requires { T.WIDTH * length rows.now ≤ length out.old }
    ensures { out.new ≡ splice out.old 0 (flat_map T.numbers rows.now) }
{
    for (i, row) in rows.iter().enumerate() {
        row.write(&mut out[T::WIDTH * i..]);
    }
}
