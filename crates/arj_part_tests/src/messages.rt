// Messages read, written and taken apart.
ghost use Rattle.std.specs.Prelude.{◌≡◌, ◌≤◌, ℕ, Some, IfOk};
ghost use Rattle.arj_msg.specs.Layout.{message_bytes};
ghost use Rattle.arj_msg.specs.Sendable.{IsSendable};
ghost use Rattle.arj_msg.specs.declared.message.Head.{Head};
ghost use Rattle.arj_msg.specs.declared.message.Message.TheVariants as of;

use arj_base::Bytes;
use arj_msg::{Ask, Head, Load, Message, MsgFault, decode, encode, messages_in_form};
use std::alloc::{AllocError, Global};
use std::test::Fail;

// A Load that is sent: its object has to be one. The rest its types say.
fn load_bytes(alloc: Global, head: Head, x: u16) -> Result<Bytes, AllocError>
    requires least { 1 ≤ x }
    requires most { x ≤ 256 }
    ensures { IfOk result (λ bytes. bytes ≡ message_bytes (of.Load (record { head = head; x = x }))) }
{
    encode(alloc, &Message::Load(Load { head, x }))
}

// What a Load asks for, of any request.
fn loads(m: Message) -> Option<u16>
    ensures { (head : Head) (x : ℕ) → m ≡ of.Load (record { head = head; x = x }) → result ≡ Some x }
{
    match m.asks() {
        Ok((_, Ask::Load { x })) => Some(x),
        _ => None,
    }
}

// The bytes of a message, which is let go here alone.
fn written(alloc: Global, m: Message) -> Result<Bytes, AllocError>
    requires { IsSendable m }
{
    encode(alloc, &m)
}

// Whether these bytes spell a message, which is encoded to them.
fn is_written_again(alloc: Global, bytes: &[u8]) -> Result<bool, AllocError> {
    let Ok(message) = decode(alloc, bytes) else {
        return Ok(false);
    };
    messages_in_form();
    let again = written(alloc, message)?;
    Ok(again.as_slice() == bytes)
}

// The node and the incarnation of a Hello.
fn hello_of(alloc: Global, bytes: &[u8]) -> Option<(u8, u32)> {
    match decode(alloc, bytes) {
        Ok(Message::Hello(hello)) => Some((hello.node, hello.inc)),
        _ => None,
    }
}

#[test]
fn places_of_faults(rt: HostRuntime) -> Result<(), Fail> {
    let alloc = rt.alloc();
    let hello = [0x14, 2, 0, 0, 0, 3];
    assert!(rt; hello_of(alloc, &hello) == Some((2, 3)));
    assert!(rt; is_written_again(alloc, &hello)?);
    let faults: [(&[u8], usize); 6] = [
        (&[], 0),
        (&[0xff], 0),
        (&[0x14], 1),
        (&[0x14, 2], 2),
        (&[0x14, 0], 1),
        (&[0x14, 2, 0, 0, 0, 3, 0], 6),
    ];
    for (bytes, place) in faults {
        assert!(rt; fault_of(alloc, bytes) == Some(place), "at {place}");
    }
    Ok(())
}

fn fault_of(alloc: Global, bytes: &[u8]) -> Option<usize> {
    match decode(alloc, bytes) {
        Err(MsgFault::At(place)) => Some(place as usize),
        _ => None,
    }
}

// The actions 1.1.1 and 1.1.2.
const U: [u8; 16] = [0, 0, 0, 1, 0, 0, 0, 1, 0, 0, 0, 0, 0, 0, 0, 1];

const W: [u8; 16] = [0, 0, 0, 1, 0, 0, 0, 1, 0, 0, 0, 0, 0, 0, 0, 2];

// Object 1, a counter of value 5, in version 1 by the action 1.1.1, behind the length of 55.
const STATE: [u8; 57] = [
    0, 55, 0x41, 0x52, 0x4a, 0x31, 0, 0, 0, 0, 0, 0, 0, 0, 0, 0, 0, 0, 0, 0, 0, 1, 1, 0, 0, 0, 0,
    0, 0, 0, 1, 0, 0, 0, 1, 0, 0, 0, 1, 0, 0, 0, 0, 0, 0, 0, 1, 0, 8, 0, 0, 0, 0, 0, 0, 0, 5,
];

// Object 1, a counter that is gone, in version 1 by the action 1.1.1, in format two behind the length of 49.
const GONE: [u8; 51] = [
    0, 49, 0x41, 0x52, 0x4a, 0x32, 0, 0, 0, 0, 0, 0, 0, 0, 0, 0, 0, 0, 0, 0, 0, 1, 6, 1, 0, 0, 0,
    0, 0, 0, 0, 1, 0, 0, 0, 1, 0, 0, 0, 1, 0, 0, 0, 0, 0, 0, 0, 1, 0, 1, 1,
];

// A number of four bytes, a binding, a number of eight bytes, object 256.
const N: [u8; 4] = [0, 0, 0, 7];

const B: [u8; 8] = [0, 0, 0, 1, 0, 0, 0, 2];

const V: [u8; 8] = [0, 0, 0, 0, 0, 0, 0, 9];

const X: [u8; 2] = [1, 0];

// Every message, by its fields. The first byte is the kind.
const REQUESTS: [&[&[u8]]; 23] = [
    &[&[1], &[2], &U, &W, &[2], &N, &X, &[1], &B],
    &[&[3], &[1], &U, &[1], &N, &X],
    &[&[5], &[1], &U, &[1], &N, &B, &STATE],
    &[&[7], &[1], &U, &[1], &N, &X, &B, &N, &N],
    &[
        &[9],
        &[1],
        &U,
        &[1],
        &N,
        &X,
        &B,
        &N,
        &[2],
        &U,
        &[0],
        &W,
        &[1],
        &[1],
    ],
    &[&[9], &[1], &U, &[1], &N, &X, &B, &N, &[0], &[2], &V],
    &[&[9], &[1], &U, &[1], &N, &X, &B, &N, &[0], &[3], &V],
    &[
        &[9],
        &[1],
        &U,
        &[1],
        &N,
        &X,
        &B,
        &N,
        &[0],
        &[4],
        &[2, 0, 0xff],
    ],
    &[&[9], &[1], &U, &[1], &N, &X, &B, &N, &[0], &[5], &V],
    &[&[9], &[1], &U, &[1], &N, &X, &B, &N, &[0], &[6], &V],
    &[&[9], &[1], &U, &[1], &N, &X, &B, &N, &[0], &[7]],
    &[&[9], &[1], &U, &[1], &N, &X, &B, &N, &[0], &[8], &V],
    &[&[9], &[1], &U, &[1], &N, &X, &B, &N, &[0], &[9]],
    &[&[9], &[1], &U, &[1], &N, &X, &B, &N, &[0], &[10], &V],
    &[&[9], &[1], &U, &[1], &N, &X, &B, &N, &[0], &[11], &V, &V],
    &[&[9], &[1], &U, &[1], &N, &X, &B, &N, &[0], &[12], &V],
    &[
        &[9],
        &[1],
        &U,
        &[1],
        &N,
        &X,
        &B,
        &N,
        &[0],
        &[13],
        &[2],
        &[0, 3, 1, 2, 3],
    ],
    &[&[9], &[1], &U, &[1], &N, &X, &B, &N, &[0], &[14]],
    &[
        &[11],
        &[1],
        &U,
        &[1],
        &N,
        &N,
        &[2],
        &X,
        &B,
        &X,
        &B,
        &[1],
        &U,
        &[1],
    ],
    &[&[13], &[1], &U, &[1], &N, &[2], &STATE, &STATE],
    &[&[13], &[1], &U, &[1], &N, &[1], &GONE],
    &[
        &[15],
        &[1],
        &U,
        &[1],
        &N,
        &[1],
        &X,
        &N,
        &[0, 1],
        &X,
        &[16],
        &[0, 2],
        &X,
        &[1],
        &X,
        &[1],
    ],
    &[&[17], &U, &[1], &[1], &U, &[1]],
];

const ANSWERS: [&[&[u8]]; 36] = [
    &[&[2], &U, &N, &[0], &B, &[2], &N, &N, &[2], &[3], &[3]],
    &[&[2], &U, &N, &[1], &B, &[2], &N, &[0]],
    &[&[2], &U, &N, &[2], &N, &[1], &[16]],
    &[&[2], &U, &N, &[3], &W, &[2]],
    &[&[4], &U, &N, &[0], &STATE],
    &[&[4], &U, &N, &[0], &GONE],
    &[&[4], &U, &N, &[1], &W],
    &[&[6], &U, &N, &N],
    &[&[8], &U, &N, &[0]],
    &[&[8], &U, &N, &[1], &[0], &N, &N],
    &[&[8], &U, &N, &[1], &[1], &B, &B],
    &[&[10], &U, &N, &[0], &[0]],
    &[&[10], &U, &N, &[0], &[1], &V],
    &[&[10], &U, &N, &[0], &[2], &[3, 1, 2, 3]],
    &[&[10], &U, &N, &[0], &[3]],
    &[&[10], &U, &N, &[0], &[4]],
    &[&[10], &U, &N, &[0], &[5]],
    &[&[10], &U, &N, &[0], &[6]],
    &[&[10], &U, &N, &[0], &[7]],
    &[&[10], &U, &N, &[0], &[8]],
    &[&[10], &U, &N, &[1], &W, &[0]],
    &[&[10], &U, &N, &[2], &[0], &N, &N],
    &[&[12], &U, &N, &[0], &[1], &STATE],
    &[&[12], &U, &N, &[1], &[1], &B, &B],
    &[&[14], &U, &N, &[0]],
    &[&[14], &U, &N, &[1], &X, &W],
    &[&[14], &U, &N, &[2], &X, &V],
    &[&[16], &U, &N, &[0]],
    &[&[16], &U, &N, &[1], &W, &[1]],
    &[&[16], &U, &N, &[2], &[0], &N, &N],
    &[&[16], &U, &N, &[3], &X],
    &[&[16], &U, &N, &[4], &X, &[5]],
    &[&[17], &U, &[0], &[0]],
    &[&[18], &U],
    &[&[19], &U],
    &[&[20], &[2], &N],
];

#[test]
fn every_message_is_read_back(rt: HostRuntime) -> Result<(), Fail> {
    for fields in REQUESTS.iter().chain(ANSWERS.iter()) {
        assert!(rt; is_read_back(rt.alloc(), fields)?);
    }
    Ok(())
}

// The place of the fault is that of the class: what is created is there.
#[test]
fn nothing_is_created_gone(rt: HostRuntime) -> Result<(), Fail> {
    let fields: [&[u8]; 12] = [
        &[9],
        &[1],
        &U,
        &[1],
        &N,
        &X,
        &B,
        &N,
        &[0],
        &[13],
        &[6],
        &[0, 1, 1],
    ];
    let bytes = fields.concat(rt.alloc())?;
    assert!(rt; fault_of(rt.alloc(), &bytes) == Some(39));
    Ok(())
}

// Whether each proper front of the bytes that ends in this field is a fault at the place where the field begins.
fn fronts_are_faults(alloc: Global, bytes: &[u8], place: usize, end: usize) -> bool {
    for front in place..bytes.len().min(end) {
        if fault_of(alloc, &bytes[..front]) != Some(place) {
            return false;
        }
    }
    true
}

// Whether the fields spell a message, which is encoded to them, and each proper front of them is a fault at the place
// where its first field begins that isn't whole.
fn is_read_back(alloc: Global, fields: &[&[u8]]) -> Result<bool, Fail> {
    let bytes = fields.concat(alloc)?;
    if !is_written_again(alloc, &bytes)? {
        return Ok(false);
    }
    let mut place = 0usize;
    for field in fields {
        let end = place.saturating_add(field.len());
        if !fronts_are_faults(alloc, &bytes, place, end) {
            return Ok(false);
        }
        place = end;
    }
    Ok(place == bytes.len())
}
