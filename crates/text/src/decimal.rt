// A number in decimal digits.
ghost use Rattle.octets.specs.Write.{Laid};
ghost use Rattle.text.specs.Text.{decimal};
ghost use Rattle.text.specs.Inner.{Spelled};

// The digits of a number at the end of twenty octets: those from a place on.
#[derive(Drop)]
pub(crate) struct Digits {
    pub octets: [u8; 20],
    pub from: usize,
}

// The digits of a number, the last one first.
fn digits_of(v: u64) -> Digits
    ensures { Spelled v result }
{
    let mut octets = [0u8; 20];
    let mut from = octets.len();
    let mut rest = v;
    while 10 <= rest {
        from -= 1;
        octets[from] = crate::character((rest % 10) as u8);
        rest /= 10;
    }
    from -= 1;
    octets[from] = crate::character(rest as u8);
    Digits { octets, from }
}

// A number in decimal digits.
pub fn put_decimal(buf: &mut [u8], at: usize, v: u64) -> usize
    ensures { Laid buf.old at (decimal v) buf.new result }
{
    let d = digits_of(v);
    octets::write::put_octets(buf, at, &d.octets[d.from..])
}
