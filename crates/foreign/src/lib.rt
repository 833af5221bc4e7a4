// The desk for callers in C or Rust: it is lent, a message goes in as numbers, and what is answered comes back as numbers.
#![tactic(auto)]

ghost use Rattle.std.specs.Prelude.{◌≡◌};
ghost use Rattle.rules.specs.Replies.{answered};
ghost use Rattle.foreign.specs.Foreign.{numbers_call, replied, Left};

use rules::{Desk, Message, Refusal, Steps};

// Numbers, for C: the refusal is 0 where the message was accepted; the others are 0 but after an accepted step.
#[repr(C)]
#[derive(Clone, Copy)]
pub struct Replied {
    pub refusal: u32,
    pub clock: u32,
    pub due: u32,
    pub words: u32,
}

// An answer as numbers.
impl From<Result<Option<Steps>, Refusal>> for Replied {
    ghost from_gives = { λ answer numbers. numbers ≡ replied (answered answer) };

    fn from(answer: Result<Option<Steps>, Refusal>) -> Replied {
        let (refusal, steps) = match answer {
            Ok(reached) => (0, reached.unwrap_or_default()),
            Err(refusal) => (u32::from(refusal), Steps::default()),
        };
        Replied {
            refusal,
            clock: steps.clock,
            due: steps.due,
            words: steps.words,
        }
    }
}

// Take a message on a lent desk, which is altered where it stands: the call that its kind names.
pub fn desk_take(
    desk: &mut Desk,
    kind: u32,
    byte: u32,
    first: u32,
    second: u32,
    third: u32,
    reply: &mut [u32],
) -> Replied
    ensures { Left (numbers_call desk.old kind byte first second third reply.old) result desk.new reply.new }
{
    let message = Message {
        kind,
        byte,
        first,
        second,
        third,
    };
    Replied::from(desk::take(desk, message, reply))
}
