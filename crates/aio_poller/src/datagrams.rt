//! How endpoints of datagrams and datagrams are told, and how that is read.
ghost use Rattle.std.specs.Prelude.{◌≡◌, ◌≤◌, ◌<◌, ◌^◌, ◌==◌, ◌++◌, ℕ, List, Some, None, length, IfOk, IfErr, OnOk, IfSome, IfNone};
ghost use Rattle.std.specs.IoError.{error_kind};
ghost use Rattle.std.specs.List.{position};
ghost use Rattle.std.specs.declared.io.ErrorKind.TheVariants as kind;
ghost use Rattle.std.specs.Fmt.{decimal};
ghost use Rattle.aio_poller.specs.Datagrams.{datagram_text, endpoint_in, port_in, cut, datagram_in};

use aio_base::Blob;
use aio_text::number;
use std::alloc::Global;
use std::io;

/// A datagram that an endpoint is to send, and the port that it goes to.
#[derive(Clone, Copy)]
pub struct Outgoing<'a> {
    pub number: u32,
    pub port: u16,
    pub bytes: &'a [u8],
}

/// An endpoint as it is told: its number in decimal.
pub fn endpoint_text(alloc: Global, number: u32) -> io::Result<Blob>
    ensures { IfOk result (λ text. text ≡ decimal number) }
{
    let mut text = Vec::new(alloc);
    push_number(alloc, u64::from(number), &mut text)?;
    Ok(Blob::of(text))
}

/// A datagram at an endpoint as it is told: the endpoint's number, the port that it came from, and its bytes, with a space
/// between each two.
pub fn datagram_text(alloc: Global, number: u32, port: u16, bytes: &[u8]) -> io::Result<Blob>
    ensures text { IfOk result (λ text. text ≡ datagram_text number port bytes.now) }
    ensures err { IfErr result (λ error. error_kind error ≡ kind.OutOfMemory) }
{
    let mut text = Vec::new(alloc);
    push_number(alloc, u64::from(number), &mut text)?;
    text.push(b' ')?;
    push_number(alloc, u64::from(port), &mut text)?;
    text.push(b' ')?;
    text.extend_from_slice(bytes)?;
    Ok(Blob::of(text))
}

fn push_number(alloc: Global, number: u64, out: &mut Vec<u8>) -> io::Result<()>
    ensures text { OnOk result (out.new.items ≡ out.old.items ++ decimal number) }
    ensures err { IfErr result (λ error. error_kind error ≡ kind.OutOfMemory) }
{
    out.extend_from_slice(number.to_string(alloc)?.as_bytes())?;
    Ok(())
}

/// The number of an endpoint; nothing for what isn't one.
pub fn endpoint_in(digits: &[u8]) -> Option<u32>
    ensures { result ≡ endpoint_in digits.now }
{
    u32::try_from(number(digits)?).ok()
}

/// A port from 1 to 65,535; nothing for what isn't one.
pub fn port_in(digits: &[u8]) -> Option<u16>
    ensures { result ≡ port_in digits.now }
{
    match u16::try_from(number(digits)?) {
        Ok(0) | Err(_) => None,
        Ok(port) => Some(port),
    }
}

// Where the first space stands.
fn first_space(text: &[u8]) -> Option<usize>
    ensures place { result ≡ position (λ byte. byte == 32) text.now }
    ensures inside { IfSome result (λ at. at < length text.now) }
{
    text.iter().position(|byte| *byte == b' ')
}

// What stands before the first space, and what after it.
fn cut(text: &[u8]) -> Option<(&[u8], &[u8])>
    ensures none { IfNone result (cut text.now ≡ None) }
    ensures some { IfSome result (λ found. cut text.now ≡ Some (found.0.now, found.1.now)) }
{
    match first_space(text) {
        Some(at) => Some((&text[..at], &text[at + 1..])),
        None => None,
    }
}

/// The datagram that is to be sent; nothing for what isn't one.
pub fn datagram_in(text: &[u8]) -> Option<Outgoing<'_>>
    ensures none { IfNone result (datagram_in text.now ≡ None) }
    ensures some { IfSome result (λ it. datagram_in text.now
        ≡ Some (record { number = it.number; port = it.port; bytes = it.bytes.now })) }
{
    let (front, rest) = cut(text)?;
    let (port, bytes) = cut(rest)?;
    Some(Outgoing {
        number: endpoint_in(front)?,
        port: port_in(port)?,
        bytes,
    })
}

/// What the loop asks is read as it is meant: an endpoint, a port, a datagram.
pub fn told_is_read()
    ensures endpoint { (number : ℕ) → number < 2 ^ 32 → endpoint_in (decimal number) ≡ Some number }
    ensures port { (port : ℕ) → 1 ≤ port → port < 2 ^ 16 → port_in (decimal port) ≡ Some port }
    ensures datagram { (number port : ℕ) (bytes : List ℕ) → number < 2 ^ 32 → 1 ≤ port → port < 2 ^ 16
        → datagram_in (datagram_text number port bytes)
        ≡ Some (record { number = number; port = port; bytes = bytes }) }
{}
