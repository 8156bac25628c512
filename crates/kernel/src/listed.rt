// What an answer lists, in order.
ghost use Rattle.std.specs.Prelude.{◌≡◌, ◌+◌, ◌≤◌, ◌++◌, List, [], Some, map, length, ⊤};
ghost use Rattle.kernel.specs.Cost.{takes};
ghost use Rattle.kernel.specs.Drive.{added};
ghost use Rattle.kernel.specs.Listed.{listed};

use crate::code;
use std::alloc::AllocError;

// The first `count` rows are what is listed, and the others are `None`.
// Kept: an array with its count, since the library has no heap (a).
#[derive(Copy, Debug, PartialEq, Eq)]
pub struct Listed<T> {
    pub rows: [Option<T>; code::LIST],
    pub count: u32,
}

// Kept: by hand, since the proof of a derived clone of an array of options didn't close (c).
impl<T: Copy> Clone for Listed<T> {
    ghost is_clone = { λ x y. y ≡ x };

    ghost is_infallible = { λ _. ⊤ };

    fn clone(&self) -> Result<Listed<T>, AllocError> {
        Ok(*self)
    }
}

impl<T: Copy> Listed<T> {
    // Nothing is listed.
    pub fn none() -> Listed<T>
        ensures { result ≡ listed [] }
    {
        Listed {
            rows: [None; code::LIST],
            count: 0,
        }
    }

    // What is said, if something, is listed behind the others.
    pub fn add(&mut self, said: Option<T>)
        requires { self.old.count + takes said ≤ 65 }
        ensures { (xs : List T) → self.old ≡ listed xs → self.new ≡ listed (added xs said) }
    {
        if said.is_some() {
            self.rows[self.count as usize] = said;
            self.count += 1;
        }
    }

    // More are listed behind the others.
    pub fn append(&mut self, more: &[Option<T>])
        requires { self.old.count + length more.now ≤ 65 }
        ensures { (xs : List T) → (ys : List T) → self.old ≡ listed xs → more.now ≡ map Some ys → self.new ≡ listed (xs ++ ys) }
    {
        let from = self.count as usize;
        let rows = &mut self.rows[..];
        rows[from..from + more.len()].copy_from_slice(more);
        // Kept: a length is usize, and u32 has no From for it (d).
        self.count += more.len() as u32;
    }
}
