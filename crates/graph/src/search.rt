// The rows with one key, once the form says that the keys rise.
ghost use Rattle.std.specs.Prelude.{◌≡◌, eqb};
ghost use Rattle.laws.specs.Rows.{span};
ghost use Rattle.workflow.specs.View.{cell};
ghost use Rattle.graph.specs.SearchLaws.{rows_below, Rising};
ghost use Rattle.graph.specs.RowsOf.{rows_of, Within};

use workflow::layout::NUMBERS;

// The rows of one node or one action.
#[derive(Clone, Copy)]
pub struct Rows {
    pub from: usize,
    pub to: usize,
}

// Kept: columns by their places and a count, since the sheet is lent as one array of numbers (a).
impl Rows {
    // The rows with `key` in the first `count` of a column.
    pub fn of(w: &[u32; NUMBERS], column: usize, count: usize, key: u32) -> Rows
        requires { Rising w.now column count }
        ensures { result ≡ rows_of w.now column count key }
    {
        let from = w[column..column + count].partition_point(|x| *x < key);
        Rows::starting_at(w, column, from, count, key)
    }

    // The same, where they are known to start at `from`: up to the first row with another key.
    pub fn starting_at(
        w: &[u32; NUMBERS],
        column: usize,
        from: usize,
        count: usize,
        key: u32,
    ) -> Rows
        requires { (from ≡ rows_below w.now column count key) × Rising w.now column count }
        ensures { result ≡ rows_of w.now column count key }
    {
        let keys = &w[column + from..column + count];
        let to = from + keys.iter().take_while(|x| **x == key).count();
        Rows { from, to }
    }

    pub fn is_empty(self) -> bool
        ensures { result ≡ eqb self.from self.to }
    {
        self.from == self.to
    }

    // What these rows have in a column.
    pub fn numbers(self, w: &[u32; NUMBERS], column: usize) -> &[u32]
        requires { Within column self }
        ensures { result.now ≡ span (cell w.now column) self.from self.to }
    {
        &w[column + self.from..column + self.to]
    }
}
