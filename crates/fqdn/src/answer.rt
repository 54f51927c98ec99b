// The server's answer to a name option.
ghost use Rattle.std.specs.Prelude.{◌≡◌, ◌∷◌, ◌++◌, length, drop};
ghost use Rattle.dname.specs.Name.{shape_of};
ghost use Rattle.fqdn.specs.Flags.{flag_answer};
ghost use Rattle.fqdn.specs.Answer.{by_name, sent_flags, answer_of, Room, Put, Answered};

use crate::flags;
use crate::refusal::Refusal;
use dname::Shape;
use octets::write;

// What an option value and a suffix come to.
#[derive(Clone, Copy, PartialEq, Eq, Debug)]
pub enum NameAnswer {
    // These flags, and the option's own name.
    Whole(u8),
    // These flags, and the option's name followed by the suffix.
    Completed(u8),
}

// What the call answers. refusal: 0 where there is none. length: how many octets of the reply are
// written, 0 beside a refusal.
#[repr(C)]
#[derive(Clone, Copy, PartialEq, Eq, Debug)]
pub struct NameOptionAnswer {
    pub refusal: u32,
    pub length: u32,
}

// By the name of the option, whose flags are answered so and whose suffix is a full name.
fn by_name(flags: u8, name: &[u8], suffix: &[u8]) -> Result<NameAnswer, Refusal>
    ensures { result ≡ by_name (shape_of name.now) flags name.now suffix.now }
{
    match dname::shape_of(name) {
        Shape::Empty => Err(Refusal::NoName),
        Shape::Malformed => Err(Refusal::BadName),
        Shape::Full => Ok(NameAnswer::Whole(flags)),
        Shape::Partial => {
            if 255 < name.len() + suffix.len() {
                return Err(Refusal::LongName);
            }
            Ok(NameAnswer::Completed(flags))
        }
    }
}

// The flags to send, or the refusal.
fn sent_flags(flags: u8, honour_s: u8, honour_n: u8) -> Result<u8, Refusal>
    ensures { result ≡ sent_flags (flag_answer flags honour_s honour_n) }
{
    let decision = flags::jespurla_flag_decision(flags, honour_s, honour_n);
    if decision.refusal != 0 {
        return Err(Refusal::BadFlags);
    }
    Ok(decision.flags as u8)
}

// For a reply buffer of so many octets: each refusal in its order.
fn decide(
    value: &[u8],
    suffix: &[u8],
    honour_s: u8,
    honour_n: u8,
    room: usize,
) -> Result<NameAnswer, Refusal>
    ensures { result ≡ answer_of value.now suffix.now honour_s honour_n room }
{
    if room < 256 {
        return Err(Refusal::NoRoom);
    }
    let Some((first, name)) = value.split_first() else {
        return Err(Refusal::BadFlags);
    };
    let flags = sent_flags(*first, honour_s, honour_n)?;
    match dname::shape_of(suffix) {
        Shape::Full => by_name(flags, name, suffix),
        _ => Err(Refusal::BadName),
    }
}

// Writes flags, the name of an option value and what follows it to the front of the reply, and
// answers how many octets that are.
fn put_name(reply: &mut [u8], flags: u8, value: &[u8], tail: &[u8]) -> NameOptionAnswer
    requires { Room value.now tail.now (length reply.old) }
    ensures { Put ((flags ∷ drop 1 value.now) ++ tail.now) reply.old result reply.new }
{
    let name = write::put_octet(reply, 0, flags);
    let rest = write::put_octets(reply, name, &value[1..]);
    let end = write::put_octets(reply, rest, tail);
    let length = end as u32;
    NameOptionAnswer { refusal: 0, length }
}

// The server's answer to the value of a name option: writes the flags octet and the completed name
// to the front of the reply and answers how many octets those are, or leaves the reply as it is and
// answers a refusal. A number other than 0 says that S, or N, may be honoured.
pub fn jespurla_name_option_answer(
    value: &[u8],
    suffix: &[u8],
    honour_s: u8,
    honour_n: u8,
    reply: &mut [u8],
) -> NameOptionAnswer
    ensures { Answered value.now suffix.now honour_s honour_n reply.old result reply.new }
{
    match decide(value, suffix, honour_s, honour_n, reply.len()) {
        Ok(NameAnswer::Whole(flags)) => put_name(reply, flags, value, &[]),
        Ok(NameAnswer::Completed(flags)) => put_name(reply, flags, value, suffix),
        Err(refusal) => NameOptionAnswer {
            refusal: refusal.into(),
            length: 0,
        },
    }
}
