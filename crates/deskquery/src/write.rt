// A query by any key, into a buffer with room for any.
ghost use Rattle.std.specs.Prelude.{[], ◌∷◌, ◌≡◌, true, length, ◌≤◌};
ghost use Rattle.octets.specs.Write.{WroteIf};
ghost use Rattle.leasepacket.specs.Layout.{option};
ghost use Rattle.deskquery.specs.Query.{fields, is_key, query_by};
ghost use Rattle.deskquery.specs.Promise.{Wrote, key_of, fields_for, option_for};

use crate::fixed::Fixed;
use crate::key::Key;
use leasepacket::layout;
use octets::write;

// What a query says. Its key is one that a box takes.
#[derive(Clone, Copy)]
pub struct Query<'a> {
    pub xid: u32,
    pub giaddr: u32,
    pub key: Key<'a>,
    ghost taken: { is_key (key_of key) ≡ true },
}

impl Query<'_> {
    // What the fixed fields say.
    fn fixed(&self) -> Fixed<'_>
        ensures { fields result.xid result.giaddr result.ciaddr result.htype result.octets.now ≡ fields_for self.now.xid self.now.giaddr self.now.key }
    {
        let (ciaddr, htype, octets): (u32, u8, &[u8]) = match self.key {
            Key::Address(address) => (address, 0, &[]),
            Key::Hardware(htype, octets) => (0, htype, octets),
            Key::ClientId(_) => (0, 0, &[]),
        };
        Fixed {
            xid: self.xid,
            giaddr: self.giaddr,
            ciaddr,
            htype,
            octets,
        }
    }

    // The client id as an option, if the key is one.
    fn put_id(&self, buf: &mut [u8], at: usize) -> usize
        ensures { WroteIf buf.old at (option_for self.now.key) buf.new result }
    {
        let Key::ClientId(id) = self.key else {
            return at;
        };
        let a = write::put_octets(buf, at, &[layout::CLIENT_ID, id.len() as u8]);
        write::put_octets(buf, a, id)
    }

    // All of it. The answer is its length.
    pub(crate) fn put(&self, buf: &mut [u8]) -> usize
        requires { 501 ≤ length buf.old }
        ensures { Wrote (query_by self.now.xid self.now.giaddr (key_of self.now.key)) buf.old result buf.new }
    {
        let a = self.fixed().put(buf);
        let b = put_type(buf, a);
        let c = self.put_id(buf, b);
        write::put_octet(buf, c, layout::END)
    }
}

// The message type (53), which says that this is a lease query.
#[tactic(auto, using(octets::proofs::WriteLaws::written))]
fn put_type(buf: &mut [u8], at: usize) -> usize
    ensures { WroteIf buf.old at (option 53 (10 ∷ [])) buf.new result }
{
    let kind = [layout::MESSAGE_TYPE, 1, layout::DHCPLEASEQUERY];
    write::put_octets(buf, at, &kind)
}
