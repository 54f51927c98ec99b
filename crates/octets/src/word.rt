// Octets as one number, the first the least significant: one load of the machine.
ghost use Rattle.std.specs.Prelude.{◌≡◌, [], ◌∷◌, ◌<◌};
ghost use Rattle.octets.specs.Word.{value, caseless};

// Four octets as a number.
pub fn four(a: u8, b: u8, c: u8, d: u8) -> u64
    ensures { (result ≡ value (a ∷ b ∷ c ∷ d ∷ [])) × (result < 4294967296) }
{
    u64::from(u32::from_le_bytes([a, b, c, d]))
}

// Eight octets as a number.
pub fn eight(a: u8, b: u8, c: u8, d: u8, e: u8, f: u8, g: u8, h: u8) -> u64
    ensures { result ≡ value (a ∷ b ∷ c ∷ d ∷ e ∷ f ∷ g ∷ h ∷ []) }
{
    u64::from_le_bytes([a, b, c, d, e, f, g, h])
}

// The bit of weight 32 of each of eight octets.
const CASE_BITS: u64 = 0x2020_2020_2020_2020;

// Eight octets as a number, a capital letter as the small one. Other octets with the bit of weight 64
// become one with the octet 32 above them; those under 64, lengths among them, stay.
pub fn eight_caseless(a: u8, b: u8, c: u8, d: u8, e: u8, f: u8, g: u8, h: u8) -> u64
    ensures { result ≡ value (caseless a ∷ caseless b ∷ caseless c ∷ caseless d ∷ caseless e ∷ caseless f ∷ caseless g ∷ caseless h ∷ []) }
{
    let w = eight(a, b, c, d, e, f, g, h);
    w | ((w >> 1) & CASE_BITS)
}
