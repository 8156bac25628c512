// A run record and an event by their structs: the bytes that their numbers have.
ghost use Rattle.std.specs.Prelude.{◌≡◌, length};
ghost use Rattle.in_bytes.specs.Boundary.{returned, left};
ghost use Rattle.in_bytes.specs.Structs.{of_state, of_event};

use crate::{kuxhoveza_write_event, kuxhoveza_write_run};
use host::write::{event_numbers, record_numbers};
use model::State;
use model::event::Event;

// Kept: functions, since an impl stands in its type's own crate, and both types are crate model's; and two of them, since a trait for two lines would be no plainer (d).

pub fn write_state(state: State, out: &mut [u8]) -> u64
    ensures value { result ≡ returned (of_state state (length out.old)) }
    ensures out_after { out.new ≡ left (of_state state (length out.old)) out.old }
{
    let numbers = record_numbers(state);
    kuxhoveza_write_run(&numbers, out)
}

pub fn write_event(event: Event, out: &mut [u8]) -> u64
    ensures value { result ≡ returned (of_event event (length out.old)) }
    ensures out_after { out.new ≡ left (of_event event (length out.old)) out.old }
{
    let numbers = event_numbers(event);
    kuxhoveza_write_event(&numbers, out)
}
