// Numbers one behind the other, of 32 or of 64 bits: read into a lent array, counted, and written from one.
ghost use Rattle.std.specs.Prelude.{◌≡◌, ◌+◌, ◌-◌, ◌^◌, ◌≤◌, length};
ghost use Rattle.laws.specs.Splice.{splice};
ghost use Rattle.codec.specs.Numbers.{bytes_of, numbers_at};
ghost use Rattle.codec.specs.Stages.{all_zero};
ghost use Rattle.codec.specs.Stored.{place_of, Stored};

use crate::number::{Reader, Unsigned, number_size, write_number};

// Kept: bytes and a place go in, the next place comes out, and `?` hands it on; by a lent Reader each contract would say two things more (d).

// Numbers into all places of an array. The place behind them; None: the bytes are bad.
pub fn read_numbers<T: Unsigned>(bytes: &[u8], start: usize, out: &mut [T]) -> Option<usize>
    ensures value { result ≡ place_of (numbers_at T.top (length out.old) bytes.now start) }
    ensures stored { Stored (numbers_at T.top (length out.old) bytes.now start) (T.as_numbers out.old) 0 (T.as_numbers out.new) }
{
    let mut reader = Reader::new(bytes, start);
    for x in out.iter_mut() {
        let number = reader.take::<T>()?;
        *x = T::narrowed(number.value);
    }
    Some(reader.at)
}

// How many bytes the numbers take.
// Kept: the bound stands where sizes are added up, here and in columns and slots: reading, tidying and writing need none, and a type with it
// would ask it of them too (d).
pub fn numbers_size<T: Unsigned>(xs: &[T]) -> usize
    requires { length xs.now ≤ 65536 }
    ensures { result ≡ length (bytes_of (T.as_numbers xs.now)) }
{
    let mut size: usize = 0;
    for x in xs {
        size += number_size(x.widened());
    }
    size
}

// Their bytes are written from a place on. The place behind them.
pub fn write_numbers<T: Unsigned>(out: &mut [u8], at: usize, xs: &[T]) -> usize
    requires { at + length (bytes_of (T.as_numbers xs.now)) ≤ length out.old }
    ensures value { result ≡ at + length (bytes_of (T.as_numbers xs.now)) }
    ensures out_after { out.new ≡ splice out.old at (bytes_of (T.as_numbers xs.now)) }
{
    let mut place = at;
    for x in xs {
        place = write_number(out, place, x.widened());
    }
    place
}

// The numbers are zero. One pass without a test, so that the compiler makes it a vector loop.
pub fn numbers_zero<T: Unsigned>(xs: &[T]) -> bool
    ensures { result ≡ all_zero (T.as_numbers xs.now) }
{
    let mut dirt = T::narrowed(0);
    for x in xs {
        dirt = dirt.joined(*x);
    }
    dirt.widened() == 0
}
