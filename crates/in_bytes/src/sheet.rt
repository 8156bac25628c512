// A sheet as bytes: its single numbers, then the used slots of each column.
ghost use Rattle.std.specs.Prelude.{◌≡◌, true, ◌≤◌, length, replicate};
ghost use Rattle.laws.specs.Splice.{splice};
ghost use Rattle.workflow.specs.Layout.{numbers as sheet_length};
ghost use Rattle.codec.specs.Numbers.{bytes_of};
ghost use Rattle.codec.specs.Stored.{place_of, Stored};
ghost use Rattle.in_bytes.specs.Sheet.{plan, sheet};

use codec::columns::{Column, columns_size, columns_tidy, read_columns, write_columns};
use codec::numbers::{numbers_size, read_numbers, write_numbers};
use workflow::layout;

// How many single numbers there are; then the columns begin.
const HEAD: usize = layout::NODE_KIND;

const COLUMNS: usize = 17;

// The columns, of which the counts say how many slots are used.
fn plan(w: &[u32; layout::NUMBERS]) -> [Column; COLUMNS]
    ensures { result ≡ plan w.now }
{
    let node = Column {
        room: layout::NODES,
        used: w[layout::NODE_COUNT] as usize,
    };
    let route = Column {
        room: layout::ROUTES,
        used: w[layout::ROUTE_COUNT] as usize,
    };
    let limit = Column {
        room: layout::LIMITS,
        used: w[layout::LIMIT_COUNT] as usize,
    };
    let action = Column {
        room: layout::ACTIONS,
        used: w[layout::ACTION_COUNT] as usize,
    };
    let declared = Column {
        room: layout::DECLARED,
        used: w[layout::DECLARED_COUNT] as usize,
    };
    [
        node, node, node, node, node, node, node, route, route, route, limit, limit, limit, action,
        action, declared, declared,
    ]
}

// From bytes into numbers that are all zero.
pub fn read_sheet(bytes: &[u8], start: usize, w: &mut [u32; layout::NUMBERS]) -> Option<usize>
    requires { w.old ≡ replicate sheet_length 0 }
    ensures value { result ≡ place_of (sheet.read bytes.now start) }
    ensures stored { Stored (sheet.read bytes.now start) w.old 0 w.new }
{
    let next = read_numbers(bytes, start, &mut w[..HEAD])?;
    let plan = plan(w);
    read_columns(bytes, next, &mut w[HEAD..], &plan)
}

// Every count is within its capacity, and every slot that isn't used is zero.
pub fn sheet_tidy(w: &[u32; layout::NUMBERS]) -> bool
    ensures { result ≡ sheet.tidy w.now }
{
    columns_tidy(&w[HEAD..], &plan(w))
}

// How many bytes a tidy sheet takes.
pub fn sheet_size(w: &[u32; layout::NUMBERS]) -> usize
    requires { sheet.tidy w.now ≡ true }
    ensures { result ≡ length (bytes_of (sheet.fields w.now)) }
{
    numbers_size(&w[..HEAD]) + columns_size(&w[HEAD..], &plan(w))
}

// Its bytes are written to the buffer's beginning.
pub fn write_sheet(out: &mut [u8], w: &[u32; layout::NUMBERS])
    requires { (sheet.tidy w.now ≡ true) × (length (bytes_of (sheet.fields w.now)) ≤ length out.old) }
    ensures { out.new ≡ splice out.old 0 (bytes_of (sheet.fields w.now)) }
{
    let next = write_numbers(out, 0, &w[..HEAD]);
    write_columns(out, next, &w[HEAD..], &plan(w));
}
