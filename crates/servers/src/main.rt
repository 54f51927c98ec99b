// Reads one option area from standard input, as raw octets, applies it at clock 0 to a list without
// servers, and prints the servers, or the refusal. docs/PROGRAMS.md says what it reads and prints.

#![tactic(auto)]

ghost use Rattle.std.specs.Prelude.{◌≡◌, ◌≤◌, IfOk, length, take};

use std::io;
use std::io::{Read, Write};

// Reads until the buffer is full or the input ends, and says how many octets there are.
fn read_input<R: Read>(input: &mut R, buf: &mut [u8]) -> io::Result<usize>
    ensures { IfOk result (λ n. (n ≤ length buf.new) × (n ≡ length (take n buf.new))) }
{
    let mut n = 0;
    while n < buf.len() {
        let more = input.read(&mut buf[n..])?;
        if more == 0 {
            break;
        }
        n += more;
    }
    Ok(n)
}

// The lines for an area, on a writer.
fn print_area<W: Write>(out: &mut W, area: &[u8]) -> io::Result<()> {
    let mut lines = [0u8; serverlines::MOST];
    let n = serverlines::put_area(&mut lines, area);
    out.write_all(&lines[..n])
}

fn main(rt: HostRuntime) {
    // One octet more than an area may have: of a longer input that much is enough for its refusal.
    let mut buf = [0u8; rdnss::area::MOST + 1];
    let mut stdin = rt.stdin();
    let Ok(n) = read_input(&mut stdin, &mut buf) else {
        let _ = eprintln!(rt; "servers: error reading standard input");
        return;
    };
    let mut stdout = rt.stdout();
    if print_area(&mut stdout, &buf[..n]).is_err() {
        let _ = eprintln!(rt; "servers: error writing standard output");
    }
}
