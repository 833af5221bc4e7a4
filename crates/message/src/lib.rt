// Document 01, "Messages": the reader, and document 02's writer. A message is the first 20 bytes of what the reader is given, and the rest is handed on; the
// writer puts 20 bytes into a lent slice from a place on.
#![tactic(auto)]

ghost use Rattle.std.specs.Prelude.{◌≡◌, ◌≤◌, ◌+◌, true, length, Ok, eqb};
ghost use Rattle.lists.specs.Views.{all};
ghost use Rattle.rules.specs.Calls.{reader_call, writer_call};
ghost use Rattle.rules.specs.Messages.{mark, big_endian, number_at, kind_at, zeros_stand, own, encoded, fields_fit, rest};
ghost use Rattle.rules.specs.Replies.{replied, kind_of};
ghost use Rattle.message.specs.Encoding.{numbers};
ghost use Rattle.message.specs.Outcomes.{wrote};

use rules::{Kind, Message, Refusal};

pub const SIZE: usize = 20;

pub const VERSION: u32 = 1;

// The mark, for the reader to compare and the writer to store.
pub fn mark() -> [u8; 3]
    ensures { result ≡ mark }
{
    *b"DTR"
}

// The message at the front of the bytes, or the first refusal of 1 to 6 that is given.
#[tactic(auto, using(crate::proofs::Front::front), unfolding(rules::specs::Calls::reader_call))]
pub fn read(bytes: &[u8]) -> Result<Message, Refusal>
    ensures { replied result ≡ reader_call bytes.now }
{
    let front = bytes.first_chunk::<SIZE>().ok_or(Refusal::Short)?;
    read_front(front)
}

// The same of just 20 bytes; the array's type says that they are there. Out of line, and each answer returned where it is known: inlined, or with an `else` at
// the end, all answers meet in one place first, which costs a refusal for the mark half as much again.
#[tactic(auto, using(crate::proofs::Numbers::front_kind, crate::proofs::Parts::message_own, crate::proofs::Parts::own_fits, std::proofs::lemmas::Bool::Decides::nat_tests), unfolding(rules::specs::Calls::reader_call))]
#[inline(never)]
fn read_front(bytes: &[u8; SIZE]) -> Result<Message, Refusal>
    ensures { replied result ≡ reader_call bytes.now }
{
    if !bytes.starts_with(&mark()) {
        return Err(Refusal::Mark);
    }
    if number(&bytes[3..5]) != VERSION {
        return Err(Refusal::Version);
    }
    let kind = Kind::try_from(u32::from(bytes[5]))?;
    if !zeros_stand(kind, bytes) {
        return Err(Refusal::Nonzero);
    }
    let known = Known {
        kind,
        message: fields(bytes),
    };
    if known.fits() {
        return Ok(known.own());
    }
    Err(Refusal::Range)
}

// What follows the twentieth byte, as a part of the same bytes.
pub fn rest(bytes: &[u8]) -> &[u8]
    ensures { result.now ≡ rest bytes.now }
{
    &bytes[SIZE.min(bytes.len())..]
}

// The big-endian number in these bytes, four at most.
#[tactic(auto, using(crate::proofs::Numbers::taken_more), unfolding(rules::specs::Messages::big_endian))]
fn number(bytes: &[u8]) -> u32
    requires { length bytes.now ≤ 4 }
    ensures { result ≡ big_endian bytes.now }
{
    let mut value = 0;
    for byte in bytes {
        value = value * 256 + u32::from(*byte);
    }
    value
}

// The same of the four bytes from a place on, by `from_be_bytes`, which is one load: the loop over four bytes becomes a dozen shuffles.
#[tactic(auto, using(crate::proofs::Numbers::word_at))]
fn word(bytes: &[u8; SIZE], at: usize) -> u32
    requires { at + 4 ≤ 20 }
    ensures { result ≡ number_at bytes.now at 4 }
{
    u32::from_be_bytes([bytes[at], bytes[at + 1], bytes[at + 2], bytes[at + 3]])
}

// The numbers at a board's places, whatever the kind.
#[tactic(auto, using(crate::proofs::Numbers::front_kind, crate::proofs::Numbers::field_byte))]
fn fields(bytes: &[u8; SIZE]) -> Message
    ensures { result ≡ numbers bytes.now }
{
    Message {
        kind: u32::from(bytes[5]),
        byte: u32::from(bytes[6]),
        first: word(bytes, 8),
        second: word(bytes, 12),
        third: word(bytes, 16),
    }
}

// All these bytes are zero.
fn zero(bytes: &[u8]) -> bool
    ensures { result ≡ all (λ byte. eqb byte 0) bytes.now }
{
    bytes.iter().all(|byte| *byte == 0)
}

// The bytes that must be zero for the kind are.
#[tactic(auto, using(crate::proofs::Named::request_zeros, crate::proofs::Named::open_zeros, crate::proofs::Named::clock_zeros), unfolding(rules::specs::Messages::zeros_stand, rules::specs::Messages::zero_places, rules::specs::Messages::layout))]
fn zeros_stand(kind: Kind, bytes: &[u8; SIZE]) -> bool
    requires { kind_of (kind_at bytes.now) ≡ Ok kind }
    ensures { result ≡ zeros_stand bytes.now (kind_at bytes.now) }
{
    match kind {
        Kind::Board => bytes[7] == 0,
        Kind::Request => bytes[7] == 0 && word(bytes, 16) == 0,
        Kind::Open => zero(&bytes[6..]),
        Kind::Clock => zero(&bytes[6..8]) && zero(&bytes[12..]),
    }
}

// A message whose number names a kind, and this kind.
#[derive(Clone, Copy)]
struct Known {
    kind: Kind,
    message: Message,
    ghost named: { kind_of message.kind ≡ Ok kind },
}

impl Known {
    // The fields that the kind has, and 0 for the others.
    #[tactic(auto, unfolding(rules::specs::Messages::own, rules::specs::Messages::layout))]
    fn own(self) -> Message
        ensures { result ≡ own self.message }
    {
        let message = self.message;
        match self.kind {
            Kind::Board => message,
            Kind::Request => Message {
                third: 0,
                ..message
            },
            Kind::Open => Message {
                byte: 0,
                first: 0,
                second: 0,
                third: 0,
                ..message
            },
            Kind::Clock => Message {
                byte: 0,
                second: 0,
                third: 0,
                ..message
            },
        }
    }

    // The fields of the kind are in their ranges.
    #[tactic(auto, unfolding(rules::specs::Messages::fields_fit))]
    fn fits(self) -> bool
        ensures { result ≡ fields_fit self.message }
    {
        let message = self.message;
        match self.kind {
            Kind::Board => message.board().fits(),
            Kind::Request => rules::request_fits(message.byte, message.second),
            Kind::Open => true,
            Kind::Clock => rules::clock_fits(message.first),
        }
    }

    // The message's bytes.
    #[tactic(auto, using(crate::proofs::Writing::own_kind_small, crate::proofs::Writing::own_byte_small, crate::proofs::Writing::row_encoded))]
    fn encode(self) -> [u8; SIZE]
        requires { fields_fit self.message ≡ true }
        ensures { result ≡ encoded 1 self.message }
    {
        let own = self.own();
        let mut bytes = [0; SIZE];
        bytes[..3].copy_from_slice(&mark());
        bytes[3..5].copy_from_slice(&(VERSION as u16).to_be_bytes());
        bytes[5] = own.kind as u8;
        bytes[6] = own.byte as u8;
        bytes[8..12].copy_from_slice(&own.first.to_be_bytes());
        bytes[12..16].copy_from_slice(&own.second.to_be_bytes());
        bytes[16..].copy_from_slice(&own.third.to_be_bytes());
        bytes
    }
}

// A message's 20 bytes into the slice from a place on, or the first refusal of 3, 4, 6 and 14 that is given: then no byte is touched.
#[tactic(auto, unfolding(rules::specs::Calls::writer_call))]
pub fn write(version: u32, message: Message, bytes: &mut [u8], at: usize) -> Result<(), Refusal>
    ensures { wrote result bytes.new ≡ writer_call version message bytes.old at }
{
    if version != VERSION {
        return Err(Refusal::Version);
    }
    let kind = Kind::try_from(message.kind)?;
    let known = Known { kind, message };
    if !known.fits() {
        return Err(Refusal::Range);
    }
    if bytes.len().saturating_sub(at) < SIZE {
        return Err(Refusal::Room);
    }
    bytes[at..at + SIZE].copy_from_slice(&known.encode());
    Ok(())
}
