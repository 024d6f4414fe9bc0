// Prints what the record on standard input holds: its header, its parts and its tail. Of a record that is refused it prints the refusal alone, so
// the whole is judged before the first line.
#![tactic(auto)]

ghost use Rattle.std.specs.Prelude.{◌≤◌, length};

use record::walk::Cursor;
use rules::{Header, Part, Piece, Refusal};
use std::io;
use std::io::Read;

// A println each, and no Display: an impl of its own would hold the same line.
fn print_header(rt: &impl Print, h: Header) -> io::Result<()> {
    let z = h.size;
    println!(rt; "record {} {} {} {}", z.w, z.h, z.n, h.planes)
}

fn print_part(rt: &impl Print, p: Part) -> io::Result<()> {
    println!(rt; "part {} {} {}", p.plane.0, p.level.0, p.bits)
}

fn print_parts(rt: &impl Print, bytes: &[u8], h: Header) -> io::Result<()> {
    let mut cursor = Cursor::first(h);
    while let Ok(Piece::Part(p)) = survey::part_at(bytes, cursor) {
        print_part(rt, p)?;
        cursor = Cursor::past(p);
    }
    Ok(())
}

fn print_refusal(rt: &impl Print, r: Refusal) -> io::Result<()> {
    println!(rt;
        "refused {} {}",
        answers::number(Err(r)),
        answers::place(Err(r))
    )
}

fn print_listing(rt: &impl Print, bytes: &[u8]) -> io::Result<()> {
    match survey::listed(bytes) {
        Ok(found) => {
            print_header(rt, found.header)?;
            print_parts(rt, bytes, found.header)?;
            println!(rt; "tail {}", found.tail)
        }
        Err(r) => print_refusal(rt, r),
    }
}

// Reads until the buffer is full, the input ends or a read fails, and returns how many bytes it put at its front. By hand: the library reads to the
// end onto the heap, or all of a buffer or nothing that counts.
fn read_full(input: &mut impl Read, buffer: &mut [u8]) -> usize
    ensures { result ≤ length buffer.new }
{
    let mut done = 0;
    while done < buffer.len() {
        let Ok(n) = input.read(&mut buffer[done..]) else {
            break;
        };
        if n == 0 {
            break;
        }
        done += n;
    }
    done
}

fn main(rt: HostRuntime) -> io::Result<()> {
    // One byte more than is taken tells an input that is too long.
    let mut input = [0u8; survey::LONGEST + 1];
    let n = read_full(&mut rt.stdin(), &mut input);
    print_listing(&rt, &input[..n])
}
