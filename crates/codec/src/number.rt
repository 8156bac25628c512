// One number: its groups read, counted and written, and the reader that stands on lent bytes.
ghost use Rattle.std.specs.Prelude.{◌≡◌, ◌+◌, ◌^◌, ◌≤◌, ◌<◌, ℕ, List, length, get_or, set, bit_or, refl};
ghost use Rattle.laws.specs.Splice.{splice};
ghost use Rattle.codec.specs.Leb.{leb128, number_at};
ghost use Rattle.codec.specs.Numbers.{number_below};
ghost use Rattle.codec.specs.Stored.{number_of, behind};
ghost use Rattle.codec.specs.Groups.{followed};
ghost use Rattle.std.proofs.Common.{rules};
ghost use Rattle.std.proofs.lemmas.List.{get_or_default};

// A number and the place behind it.
#[derive(Clone, Copy)]
pub struct Number {
    pub value: u64,
    pub next: usize,
}

// Kept: bytes and a place, here and in what reads below: document 01's reader of a slice and a position (a).

// The groups behind a first one whose seven bits are low. None: the bytes are bad.
// Kept: a loop with early answers, since value, scale and place go on together, and a byte that is last, bad or lacking ends them (d).
fn following(bytes: &[u8], start: usize, low: u64) -> Option<Number>
    requires { low < 128 }
    ensures { result ≡ number_of (followed low bytes.now start) }
{
    let mut value = low;
    let mut scale: u64 = 128;
    let mut at = start;
    for _group in 1..9u8 {
        let b = u64::from(*bytes.get(at)?);
        if b == 0 {
            return None;
        }
        if b < 128 {
            return Some(Number {
                value: value + scale * b,
                next: at + 1,
            });
        }
        value += scale * (b - 128);
        scale *= 128;
        at += 1;
    }
    let last = *bytes.get(at)?;
    // Kept: an `if`, since with then_some a run is read in 1.35 of plain Rust's time, above the bar of 1.2 (b).
    if last == 1 {
        return Some(Number {
            value: value + scale,
            next: at + 1,
        });
    }
    None
}

// The number at a place.
pub fn number_at(bytes: &[u8], at: usize) -> Option<Number>
    ensures { result ≡ number_of (number_at bytes.now at) }
{
    let b = u64::from(*bytes.get(at)?);
    if b < 128 {
        return Some(Number {
            value: b,
            next: at + 1,
        });
    }
    following(bytes, at + 1, b - 128)
}

// The number of 32 bits at a place. It isn't a test behind number_at, so that `following` is called from two places: the compiler
// then leaves it outside the loops that read, and a number of one byte takes no call.
fn small_at(bytes: &[u8], at: usize) -> Option<Number>
    ensures { result ≡ number_of (number_below (2 ^ 32) bytes.now at) }
{
    let first = u64::from(*bytes.get(at)?);
    if first < 128 {
        return Some(Number {
            value: first,
            next: at + 1,
        });
    }
    let number = following(bytes, at + 1, first - 128)?;
    if 0x1_0000_0000 <= number.value {
        return None;
    }
    Some(number)
}

// Numbers of 32 or of 64 bits: what a number of the type is, what a list of them is, and what all of them are below.
pub trait Unsigned: Copy {
    ghost as_number: { Self → ℕ };

    ghost as_numbers: { List Self → List ℕ };

    ghost top: { ℕ };

    fn widened(self) -> u64
        ensures { result ≡ as_number self };

    fn narrowed(number: u64) -> Self
        requires { number < top }
        ensures { as_number result ≡ number };

    // The bits of both.
    fn joined(self, other: Self) -> Self
        ensures { as_number result ≡ bit_or (as_number self) (as_number other) };

    // The number at a place of bytes.
    fn read_at(bytes: &[u8], at: usize) -> Option<Number>
        ensures { result ≡ number_of (number_below top bytes.now at) };

    // There is one; a list is as long as that of its numbers, and has them at their places.
    ghost some: { 0 < top };

    ghost as_long: { (xs : List Self) → length (as_numbers xs) ≡ length xs };

    ghost each: { (xs : List Self) (i : ℕ) (d : Self) → i < length xs → get_or (as_numbers xs) i 0 ≡ as_number (get_or xs i d) };

    ghost set_in: { (xs : List Self) (i : ℕ) (x : Self) → as_numbers (set xs i x) ≡ set (as_numbers xs) i (as_number x) };
}

// Kept: two impls of one-line bodies, since a cast, a call and a literal of each type differ (d).
impl Unsigned for u32 {
    ghost as_number = { λ x. x };

    ghost as_numbers = { λ xs. xs };

    ghost top = { 2 ^ 32 };

    fn widened(self) -> u64 {
        u64::from(self)
    }

    fn narrowed(number: u64) -> u32 {
        // Kept: number < 2 ^ 32 is required; u32::try_from would ask for an answer where it fails (d).
        number as u32
    }

    fn joined(self, other: u32) -> u32 {
        self | other
    }

    fn read_at(bytes: &[u8], at: usize) -> Option<Number> {
        small_at(bytes, at)
    }

    ghost some = { Prim.search rules };

    ghost as_long = { λ xs. refl };

    ghost each = { λ xs i d h. get_or_default xs i 0 d h };

    ghost set_in = { λ xs i x. refl };
}

impl Unsigned for u64 {
    ghost as_number = { λ x. x };

    ghost as_numbers = { λ xs. xs };

    ghost top = { 2 ^ 64 };

    fn widened(self) -> u64 {
        self
    }

    fn narrowed(number: u64) -> u64 {
        number
    }

    fn joined(self, other: u64) -> u64 {
        self | other
    }

    fn read_at(bytes: &[u8], at: usize) -> Option<Number> {
        number_at(bytes, at)
    }

    ghost some = { Prim.search rules };

    ghost as_long = { λ xs. refl };

    ghost each = { λ xs i d h. get_or_default xs i 0 d h };

    ghost set_in = { λ xs i x. refl };
}

// A reader that stands on lent bytes and moves along them.
#[derive(Clone, Copy)]
pub struct Reader<'a> {
    pub bytes: &'a [u8],
    pub at: usize,
}

impl<'a> Reader<'a> {
    pub fn new(bytes: &'a [u8], at: usize) -> Reader<'a>
        ensures { (result.bytes ≡ bytes.entry) × (result.at ≡ at) }
    {
        Reader { bytes, at }
    }

    // Takes the field where the reader stands and moves on behind it. Where the bytes are bad it stays.
    pub fn take<T: Unsigned>(&mut self) -> Option<Number>
        ensures value { result ≡ number_of (number_below T.top self.old.bytes.now self.old.at) }
        ensures bytes_unchanged { (self.new.bytes ≡ self.old.bytes) × (self.new.at ≡ behind result self.old.at) }
    {
        let number = T::read_at(self.bytes, self.at)?;
        self.at = number.next;
        Some(number)
    }
}

// The field at a place: a reader is set there and takes it.
pub fn field<T: Unsigned>(bytes: &[u8], at: usize) -> Option<Number>
    ensures { result ≡ number_of (number_below T.top bytes.now at) }
{
    let mut reader = Reader::new(bytes, at);
    reader.take::<T>()
}

// How many bytes a number takes.
// Kept: here and in write_number the number itself says how often the loop runs, so there is no range to go over (d).
pub fn number_size(n: u64) -> usize
    ensures { result ≡ length (leb128 n) }
{
    let mut size: usize = 1;
    let mut rest = n;
    while 128 <= rest {
        rest /= 128;
        size += 1;
    }
    size
}

// A number's bytes are written from a place on. The place behind them.
// Kept: bytes and a place go in and the place behind comes out, here and in all that writes: a writer that holds both would be made for each
// call from outside, and its contracts would say the same two things, of its bytes and of its place (d).
pub fn write_number(out: &mut [u8], at: usize, n: u64) -> usize
    requires { at + length (leb128 n) ≤ length out.old }
    ensures value { result ≡ at + length (leb128 n) }
    ensures out_after { out.new ≡ splice out.old at (leb128 n) }
{
    let mut place = at;
    let mut rest = n;
    while 128 <= rest {
        out[place] = (rest % 128) as u8 + 128;
        rest /= 128;
        place += 1;
    }
    out[place] = rest as u8;
    place + 1
}
