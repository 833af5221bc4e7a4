// Runs the reader over a message of each kind: as it is, damaged at each place, and cut short at each place. A line for each kind and
// damage has the refusal's number at the places from 0 on, and 0 where the message is accepted.
#![tactic(auto)]

ghost use Rattle.std.specs.Prelude.{◌≡◌, ◌<◌, length};

use message::SIZE;
use rules::{Message, Refusal};

// A message stands in the middle of a buffer.
const FRONT: usize = 7;

const BUFFER: usize = 32;

fn main(rt: HostRuntime) {
    table(
        &rt,
        "board",
        b"<front>DTR\x00\x01\x01\x01\x00\x00\x01\x51\x80\x00\x00\x00\x01\x00\x00\x01\x00<end>",
    );
    table(
        &rt,
        "request",
        b"<front>DTR\x00\x01\x02\x07\x00\xff\xff\xff\xff\x3b\x9a\xca\x00\x00\x00\x00\x00<end>",
    );
    table(
        &rt,
        "open",
        b"<front>DTR\x00\x01\x03\x00\x00\x00\x00\x00\x00\x00\x00\x00\x00\x00\x00\x00\x00<end>",
    );
    table(
        &rt,
        "clock",
        b"<front>DTR\x00\x01\x04\x00\x00\x3b\x9a\xca\x00\x00\x00\x00\x00\x00\x00\x00\x00<end>",
    );
}

fn table(rt: &impl Print, name: &str, buffer: &[u8; BUFFER]) {
    whole(rt, name, &buffer[FRONT..]);
    row(rt, name, "one-more", buffer, |bytes, at| {
        bytes[at] = bytes[at].wrapping_add(1);
        message::read(bytes)
    });
    row(rt, name, "255", buffer, |bytes, at| {
        bytes[at] = 255;
        message::read(bytes)
    });
    row(rt, name, "zero", buffer, |bytes, at| {
        bytes[at] = 0;
        message::read(bytes)
    });
    row(rt, name, "255-onward", buffer, |bytes, at| {
        bytes[at..SIZE].fill(255);
        message::read(bytes)
    });
    row(rt, name, "length", buffer, |bytes, at| {
        message::read(&bytes[..at])
    });
}

// The fields of the message as it is, and the rest.
fn whole(rt: &impl Print, name: &str, bytes: &[u8]) {
    let _ = print!(rt; "{name} whole ");
    let _ = match message::read(bytes) {
        Ok(m) => print!(rt;
            "{} {} {} {} {}",
            m.kind, m.byte, m.first, m.second, m.third
        ),
        Err(refusal) => print!(rt; "{refusal}"),
    };
    let _ = print!(rt; " rest ");
    let _ = rt.write_all(message::rest(bytes));
    let _ = println!(rt;);
}

// A step damages a copy of the message at a place, and reads it; a row has what the reader said at each place.
fn row<F: Fn(&mut [u8], usize) -> Result<Message, Refusal>>(
    rt: &impl Print,
    name: &str,
    label: &str,
    buffer: &[u8; BUFFER],
    step: F,
)
    requires { (bytes : _) (at : _) → length bytes.now ≡ 25 → at < 20 → F.pre step bytes at }
{
    let _ = print!(rt; "{name} {label}");
    // The place itself is what the step is given.
    for place in 0..SIZE {
        let mut damaged = *buffer;
        let read = step(&mut damaged[FRONT..], place);
        let number = read.err().map_or(0, u32::from);
        let _ = print!(rt; " {number}");
    }
    let _ = println!(rt;);
}
