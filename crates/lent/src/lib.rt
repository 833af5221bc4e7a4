// The stepping call on a clock and phase that are lent.
#![tactic(auto)]

ghost use Rattle.std.specs.Prelude.{◌≡◌};
ghost use Rattle.rules.specs.Calls.{step_call};
ghost use Rattle.desk.specs.Outcomes.{step_outcome};
ghost use Rattle.lent.specs.Lent.{with_time};

use rules::{Desk, Refusal, Steps, Time};

// The clock and phase lent by themselves stand for the desk's own, which stay as they are.
pub fn step_lent(
    time: &mut Time,
    desk: &mut Desk,
    target: u32,
    reply: &mut [u32],
) -> Result<Steps, Refusal>
    ensures step { step_outcome result (with_time desk.new time.new) reply.new ≡ step_call (with_time desk.old time.old) target reply.old }
    ensures own { desk.new.time ≡ desk.old.time }
{
    let own = desk.time;
    desk.time = *time;
    let answer = desk::step(desk, target, reply);
    *time = desk.time;
    desk.time = own;
    answer
}
