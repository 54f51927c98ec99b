// The name option of DHCPv6.
ghost use Rattle.std.specs.Prelude.{◌≡◌};
ghost use Rattle.fqdn.specs.Flags.{flag_answer};
ghost use Rattle.fqdn.specs.Answer.{Answered};

use fqdn::answer::NameOptionAnswer;
use fqdn::flags::FlagAnswer;
use fqdn::{answer, flags};

// The flags octet of the server's answer to a client's flags octet, or refusal 10. A number other
// than 0 says that S, or N, may be honoured.
#[unsafe(no_mangle)]
pub extern "C" fn jespurla_flag_decision(flags: u8, honour_s: u8, honour_n: u8) -> FlagAnswer
    ensures { result ≡ flag_answer flags honour_s honour_n }
{
    flags::jespurla_flag_decision(flags, honour_s, honour_n)
}

// The server's answer to the value of a name option: writes the flags octet and the completed name
// to the front of the reply and answers how many octets those are, or leaves the reply as it is and
// answers a refusal. A number other than 0 says that S, or N, may be honoured.
#[unsafe(no_mangle)]
pub extern "C" fn jespurla_name_option_answer(
    value: &[u8],
    suffix: &[u8],
    honour_s: u8,
    honour_n: u8,
    reply: &mut [u8],
) -> NameOptionAnswer
    ensures { Answered value.now suffix.now honour_s honour_n reply.old result reply.new }
{
    answer::jespurla_name_option_answer(value, suffix, honour_s, honour_n, reply)
}
