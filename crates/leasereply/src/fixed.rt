// The fixed fields of a reply, 240 octets. All that is copied from the query is copied as octets.
ghost use Rattle.std.specs.Prelude.{[], ◌∷◌, ◌++◌, length, replicate, ◌≤◌};
ghost use Rattle.octets.specs.Write.{WroteIf};
ghost use Rattle.leasepacket.specs.Packet.{part, cookie};
ghost use Rattle.leasereply.specs.Reply.{fixed};

use leasepacket::layout;
use octets::write;

// A query that has all its fixed fields.
#[derive(Clone, Copy)]
pub struct Query<'a> {
    pub octets: &'a [u8],
    ghost long: { 240 ≤ length octets.now },
}

// What the fixed fields say: of the query, and of the client.
#[derive(Clone, Copy)]
pub struct Fixed<'a> {
    pub query: Query<'a>,
    pub htype: u8,
    pub hlen: u8,
    pub ciaddr: &'a [u8],
    pub chaddr: &'a [u8],
}

impl Fixed<'_> {
    // op, htype, hlen, hops, xid, secs, flags.
    fn put_front(&self, buf: &mut [u8]) -> usize
        ensures { WroteIf buf.old 0 ((2 ∷ self.now.htype ∷ self.now.hlen ∷ 0 ∷ []) ++ part self.now.query.octets.now 4 4 ++ replicate 2 0 ++ part self.now.query.octets.now 10 2) buf.new result }
    {
        let query = self.query.octets;
        let a = write::put_octets(buf, 0, &[layout::BOOTREPLY, self.htype, self.hlen, 0]);
        let b = write::put_octets(buf, a, &query[layout::XID..layout::SECS]);
        let c = write::put_zeros(buf, b, 2);
        write::put_octets(buf, c, &query[layout::FLAGS..layout::CIADDR])
    }

    // ciaddr, yiaddr and siaddr, giaddr, chaddr, sname and file, the cookie.
    fn put_back(&self, buf: &mut [u8], at: usize) -> usize
        ensures { WroteIf buf.old at (self.now.ciaddr.now ++ replicate 8 0 ++ part self.now.query.octets.now 24 4 ++ self.now.chaddr.now ++ replicate 192 0 ++ cookie) buf.new result }
    {
        let giaddr = &self.query.octets[layout::GIADDR..layout::CHADDR];
        let a = write::put_octets(buf, at, self.ciaddr);
        let b = write::put_zeros(buf, a, 8);
        let c = write::put_octets(buf, b, giaddr);
        let d = write::put_octets(buf, c, self.chaddr);
        let e = write::put_zeros(buf, d, 192);
        write::put_octets(buf, e, &[99, 130, 83, 99])
    }

    // All of them.
    pub(crate) fn put(&self, buf: &mut [u8]) -> usize
        ensures { WroteIf buf.old 0 (fixed self.now.query.octets.now self.now.htype self.now.hlen self.now.ciaddr.now self.now.chaddr.now) buf.new result }
    {
        let a = self.put_front(buf);
        self.put_back(buf, a)
    }
}
