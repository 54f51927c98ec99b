// The flag decision.
ghost use Rattle.std.specs.Prelude.{◌≡◌, cond};
ghost use Rattle.fqdn.specs.Flags.{flag_answer};

// The answer to a client's flags octet. refusal: 0 where there is none. flags: the flags octet to
// send, 0 beside a refusal.
#[repr(C)]
#[derive(Clone, Copy, PartialEq, Eq, Debug)]
pub struct FlagAnswer {
    pub refusal: u32,
    pub flags: u32,
}

// The bits of a flags octet (RFC 4704, section 4.1). S: the server updates the name's address.
const S: u8 = 1;

// O: the server overrides the client's wish for S.
const O: u8 = 2;

// N: the server updates nothing.
const N: u8 = 4;

// What a bit adds to a flags octet.
fn bit(set: bool, weight: u8) -> u32
    ensures { result ≡ cond set weight 0 }
{
    if set { u32::from(weight) } else { 0 }
}

// The flags octet of the server's answer to a client's flags octet, or refusal 10. A number other
// than 0 says that S, or N, may be honoured. The sections are those of RFC 4704.
pub fn jespurla_flag_decision(flags: u8, honour_s: u8, honour_n: u8) -> FlagAnswer
    ensures { result ≡ flag_answer flags honour_s honour_n }
{
    // Section 4.1: the client's bits. Those above N are not looked at.
    let client_s = flags & S != 0;
    let client_o = flags & O != 0;
    let client_n = flags & N != 0;

    // Before section 6, which refuses nothing: O, a server's bit, and N together with S are refused.
    if client_o || client_n && client_s {
        return FlagAnswer {
            refusal: 10,
            flags: 0,
        };
    }

    // Section 6, first step: all bits of the answer are cleared.
    let mut s = false;
    let mut o = false;
    let mut n = false;

    // Section 6, second step: N is set if the client sets it and it may be honoured.
    if client_n && honour_n != 0 {
        n = true;
    } else {
        // Section 6, third step: otherwise S is set if the client sets it and it may be honoured.
        if client_s && honour_s != 0 {
            s = true;
        }
        // Section 6, end of the third step: O is set if S is not as the client sent it.
        if s != client_s {
            o = true;
        }
    }

    FlagAnswer {
        refusal: 0,
        flags: bit(s, S) | bit(o, O) | bit(n, N),
    }
}
