// The answer of the server list call as lines of text, as the program `servers` prints it.

#![tactic(auto)]

ghost use Rattle.std.specs.Prelude.{◌*◌, ◌≤◌, ◌++◌, length};
ghost use Rattle.octets.specs.Write.{Laid};
ghost use Rattle.entries.specs.Entries.{places};
ghost use Rattle.text.specs.Text.{decimal};
ghost use Rattle.serverlines.specs.Lines.{line, server_line, server_lines, list_lines, refusal_line, answer_lines, area_lines};
ghost use Rattle.serverlines.specs.Inner.{PutWithin};

use clock::{Moment, Span};
use rdnss::ServerListAnswer;
use serverlist::{Server, entry};

// The lifetime of the router whose area the program applies.
const ROUTER_LIFETIME: u32 = 1800;

// Room for every answer: the line with the count, and a line for each of eight servers.
pub const MOST: usize = 512;

// A server's line.
fn put_server(buf: &mut [u8], at: usize, e: Server) -> usize
    ensures { PutWithin 54 buf.old at (server_line e) buf.new result }
{
    let blank = text::hex::put_hex(buf, at, &e.address.octets);
    let seconds = octets::write::put_octet(buf, blank, b' ');
    let end = text::decimal::put_decimal(buf, seconds, entry::expires(e).0);
    octets::write::put_octet(buf, end, b'\n')
}

// A line for each of some entries.
fn put_servers(buf: &mut [u8], at: usize, entries: &[Server]) -> usize
    requires { length entries.now ≤ places }
    ensures { PutWithin (54 * length entries.now) buf.old at (server_lines entries.now) buf.new result }
{
    let mut end = at;
    for e in entries {
        end = put_server(buf, end, *e);
    }
    end
}

// The line of a word and a number.
fn put_count(buf: &mut [u8], at: usize, word: &[u8; 8], n: u64) -> usize
    ensures { PutWithin 29 buf.old at (line (word.now ++ decimal n)) buf.new result }
{
    let number = octets::write::put_octets(buf, at, word);
    let line_end = text::decimal::put_decimal(buf, number, n);
    octets::write::put_octet(buf, line_end, b'\n')
}

// The line with the count, then a line for each server.
fn put_list(buf: &mut [u8], at: usize, entries: &[Server]) -> usize
    requires { length entries.now ≤ places }
    ensures { PutWithin 512 buf.old at (list_lines entries.now) buf.new result }
{
    let first = put_count(buf, at, b"servers ", entries.len() as u64);
    put_servers(buf, first, entries)
}

// The line of a refusal.
fn put_refusal(buf: &mut [u8], at: usize, refusal: u32) -> usize
    ensures { PutWithin 512 buf.old at (refusal_line refusal) buf.new result }
{
    put_count(buf, at, b"refused ", u64::from(refusal))
}

// The lines of an answer, where there is room for them.
#[tactic(auto, unfolding(crate::specs::Lines::answer_lines))]
fn put_lines(buf: &mut [u8], at: usize, answer: ServerListAnswer) -> usize
    ensures { PutWithin 512 buf.old at (answer_lines answer) buf.new result }
{
    if answer.refusal != 0 {
        return put_refusal(buf, at, answer.refusal);
    }
    put_list(buf, at, answer.list.held())
}

// The lines of an answer. All of it is written, or nothing; the place behind it is answered, or the
// one that was given. There is room for every answer in MOST octets.
pub fn put_answer(buf: &mut [u8], at: usize, answer: ServerListAnswer) -> usize
    ensures { Laid buf.old at (answer_lines answer) buf.new result }
{
    let mut lines = [0u8; MOST];
    let n = put_lines(&mut lines, 0, answer);
    octets::write::put_octets(buf, at, &lines[..n])
}

// What the program prints for an area: the lines of the answer to it, on a list without servers at
// clock 0, from a router with a lifetime of half an hour.
#[tactic(auto, unfolding(crate::specs::Lines::area_lines))]
pub fn put_area(buf: &mut [u8], area: &[u8]) -> usize
    ensures { Laid buf.old 0 (area_lines area.now) buf.new result }
{
    let empty = serverlist::empty(Moment(0));
    let answer = rdnss::jespurla_server_list(empty, Moment(0), Span(ROUTER_LIFETIME), area);
    put_answer(buf, 0, answer)
}
