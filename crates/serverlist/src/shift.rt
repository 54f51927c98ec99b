// Entries that move from place to place: one is removed, inserted, or exchanged for another.
ghost use Rattle.std.specs.Prelude.{◌≡◌, ◌≤◌, ◌<◌};
ghost use Rattle.entries.specs.Entries.{places};
ghost use Rattle.entries.specs.Places.{shifted, exchanged, without, inserted_in};
ghost use Rattle.serverlist.specs.Places.{server_places};

use crate::{PLACES, Server, ServerList, entry};

// Without the entry at a place, and with another at a place no nearer the front: those between move
// up.
fn move_up(l: &mut ServerList, out: usize, at: usize, e: Server)
    requires { (out ≤ at) × (at < places) }
    ensures { l.new ≡ shifted server_places out at e l.old }
{
    l.entries.copy_within(out + 1..at + 1, out);
    l.entries[at] = e;
}

// Without the entry at a place, and with another at a place no further back: those between move back.
fn move_back(l: &mut ServerList, out: usize, at: usize, e: Server)
    requires { (at ≤ out) × (out < places) }
    ensures { l.new ≡ shifted server_places out at e l.old }
{
    l.entries.copy_within(at..out, at + 1);
    l.entries[at] = e;
}

// Without what stands at a place, and then with an entry put in at a place: those between move. Where
// one of the two is no place of a list, nothing changes.
pub fn exchange(l: &mut ServerList, out: usize, at: usize, e: Server)
    ensures { l.new ≡ exchanged server_places out at e l.old }
{
    if PLACES <= out || PLACES <= at {
        return;
    }
    if at <= out {
        move_back(l, out, at, e);
    } else {
        move_up(l, out, at, e);
    }
}

// Without the entry at a place: those behind it move up, and the last one's place is blank. Where the
// list holds no entry there, nothing changes.
pub fn remove(l: &mut ServerList, at: usize)
    ensures { l.new ≡ without server_places at l.old }
{
    if PLACES < l.count || l.count <= at {
        return;
    }
    let last = l.count - 1;
    move_up(l, at, last, entry::blank());
    l.count = last;
}

// With an entry put in at a place: those from there on move back. Where there is no room, or the place
// is past the count, nothing changes.
pub fn insert(l: &mut ServerList, at: usize, e: Server)
    ensures { l.new ≡ inserted_in server_places at e l.old }
{
    if PLACES <= l.count || l.count < at {
        return;
    }
    let end = l.count;
    move_back(l, end, at, e);
    l.count = end + 1;
}
