// The fixed fields of a query, 240 octets.
ghost use Rattle.std.specs.Prelude.{◌≡◌, [], ◌∷◌, ◌++◌, length, replicate, ◌≤◌};
ghost use Rattle.octets.specs.Number.{big_endian};
ghost use Rattle.octets.specs.Write.{laid, WroteIf};
ghost use Rattle.leasepacket.specs.Packet.{cookie};
ghost use Rattle.deskquery.specs.Query.{fields};

use leasepacket::layout;
use octets::write;

// What the fixed fields say where queries differ. A hardware address has at most 16 octets.
#[derive(Clone, Copy)]
pub struct Fixed<'a> {
    pub xid: u32,
    pub giaddr: u32,
    pub ciaddr: u32,
    pub htype: u8,
    pub octets: &'a [u8],
    ghost short: { length octets.now ≤ 16 },
}

impl Fixed<'_> {
    // op, htype, hlen, hops, xid, secs, flags.
    fn put_front(&self, buf: &mut [u8]) -> usize
        ensures { WroteIf buf.old 0 ((1 ∷ self.now.htype ∷ length self.now.octets.now ∷ 0 ∷ []) ++ big_endian 4 self.now.xid ++ replicate 2 0 ++ replicate 2 0) buf.new result }
    {
        let hlen = self.octets.len() as u8;
        let a = write::put_octets(buf, 0, &[layout::BOOTREQUEST, self.htype, hlen, 0]);
        let b = write::put_u32(buf, a, self.xid);
        let c = write::put_zeros(buf, b, 2);
        write::put_zeros(buf, c, 2)
    }

    // The hardware address with zeros behind it.
    fn chaddr(&self) -> [u8; 16]
        ensures { result ≡ laid self.now.octets.now (replicate 16 0) }
    {
        let mut chaddr = [0; 16];
        let _end = write::put_octets(&mut chaddr, 0, self.octets);
        chaddr
    }

    // ciaddr, yiaddr and siaddr, giaddr, chaddr, sname and file, the cookie.
    fn put_back(&self, buf: &mut [u8], at: usize) -> usize
        ensures { WroteIf buf.old at (big_endian 4 self.now.ciaddr ++ replicate 8 0 ++ big_endian 4 self.now.giaddr ++ laid self.now.octets.now (replicate 16 0) ++ replicate 192 0 ++ cookie) buf.new result }
    {
        let a = write::put_u32(buf, at, self.ciaddr);
        let b = write::put_zeros(buf, a, 8);
        let c = write::put_u32(buf, b, self.giaddr);
        let d = write::put_octets(buf, c, &self.chaddr());
        let e = write::put_zeros(buf, d, 192);
        write::put_octets(buf, e, &[99, 130, 83, 99])
    }

    // All of them.
    pub(crate) fn put(&self, buf: &mut [u8]) -> usize
        ensures { WroteIf buf.old 0 (fields self.now.xid self.now.giaddr self.now.ciaddr self.now.htype self.now.octets.now) buf.new result }
    {
        let a = self.put_front(buf);
        self.put_back(buf, a)
    }
}
