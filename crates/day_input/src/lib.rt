// What the day program reads: the site file, and the bytes of a turn from standard input.
#![tactic(auto)]

ghost use Rattle.std.specs.Prelude.{◌+◌, ◌≤◌, length};
ghost use Rattle.day_lines.specs.Counts.{IsPrefixLen};
ghost use Rattle.meaning.specs.Limits.{field_header, route_size};

use fields::FIELD_HEADER;
use std::fs::File;
use std::io::Read;
use std::rt::Files;

// Reads until the buffer is full, the input ends or a read fails, and answers how many bytes there were. By hand: `read_exact` does not say
// how many bytes an input that ends too early had, and the next place is where the last read stopped, so this is no loop over an index.
fn read_full<R: Read>(input: &mut R, buffer: &mut [u8]) -> usize
    ensures { IsPrefixLen result buffer.new }
{
    let mut done = 0;
    while done < buffer.len() {
        match input.read(&mut buffer[done..]) {
            Ok(n) if n > 0 => done += n,
            _ => break,
        }
    }
    done
}

// The site file's bytes, as many as fit: none where it cannot be opened.
pub fn load(files: &impl Files, file: &mut [u8]) -> usize
    ensures { IsPrefixLen result file.new }
{
    match File::open(files, "site.bin") {
        Ok(mut opened) => read_full(&mut opened, file),
        Err(_) => 0,
    }
}

// A field's header: answers how many bytes of it there were, none at the script's end. A read that fails is no end, since an empty script
// has a line of its own: it counts as one byte, so that the field is cut.
fn read_header<R: Read>(script: &mut R, head: &mut [u8]) -> usize
    requires { 1 ≤ length head.old }
    ensures { IsPrefixLen result head.new }
{
    let Ok(n) = script.read(head) else {
        return 1;
    };
    if n == 0 || n == head.len() {
        return n;
    }
    n + read_full(script, &mut head[n..])
}

// The bytes of one turn: a header, and the value that follows it if a call may have such a one. Answers how many there were.
pub fn read_piece<R: Read>(script: &mut R, piece: &mut [u8]) -> usize
    requires { field_header + route_size ≤ length piece.old }
    ensures { IsPrefixLen result piece.new }
{
    let got = read_header(script, &mut piece[..FIELD_HEADER]);
    let want = day_orders::wanted(&piece[..got]);
    if want == 0 {
        return got;
    }
    got + read_full(script, &mut piece[got..got + want])
}
