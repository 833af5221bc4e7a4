// The exports for C and Rust: the archive has desk_take under its own name, and each export only calls the library's function, since a library exports nothing.
#![tactic(auto)]

ghost use Rattle.std.specs.Prelude.{◌≡◌};
ghost use Rattle.foreign.specs.Foreign.{numbers_call, Left};

use foreign::Replied;
use rules::Desk;

// Take a message on a lent desk, which is altered where it stands: the call that its kind names.
#[unsafe(no_mangle)]
pub extern "C" fn desk_take(
    desk: &mut Desk,
    kind: u32,
    byte: u32,
    first: u32,
    second: u32,
    third: u32,
    reply: &mut [u32],
) -> Replied
    ensures { Left (numbers_call desk.old kind byte first second third reply.old) result desk.new reply.new }
{
    foreign::desk_take(desk, kind, byte, first, second, third, reply)
}
