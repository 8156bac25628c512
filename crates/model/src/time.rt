// The times of orders.
ghost use Rattle.std.specs.Prelude.{◌≡◌, ◌+◌, ◌≤◌};
ghost use Rattle.workflow.specs.View.{workflow};
ghost use Rattle.model.specs.Step.{planned};

use workflow::layout::NUMBERS;

// The planned time of an order, which is its not-before time.
pub fn planned(w: &[u32; NUMBERS], last_accepted_at: u64, delay: u64) -> u64
    requires { last_accepted_at + delay ≤ 18446744073709551615 }
    ensures { result ≡ planned (workflow w.now) last_accepted_at delay }
{
    last_accepted_at + delay
}
