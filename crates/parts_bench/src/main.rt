// Tries the parts of the unit by hand, blocks, cutting, the line and transactions: reads cases on standard input, a line each, and
// prints one line for each.
//
//   # ..                                     a comment, printed as it stands
//   R BYTES                                  reads a block alone
//   W OUT LENGTH BYTES                       writes a block alone into an output of OUT bytes
//   C LENGTH                                 cuts a message of LENGTH data bytes
//   L ROLE T1 T2 RTY CALLS ..                makes calls on a line that is fresh
//   X ROLE T3 T4 DEVID CHECK LAST CALL ..    makes calls on an exchange that is fresh
//
// `run` says what the first three print. The last two print 4 if a setting is out of its range. Else they print 0, and for each
// CALLS or CALL a space and what came of it: `trial` and `traffic` have the rest. A line that is none of these is answered by `?`.
#![tactic(auto)]

mod run;
mod show;
mod text;
mod traffic;
mod trial;

ghost use Rattle.std.specs.Prelude.{◌≤◌, length, IfOk};

use std::io;
use std::io::Read;

// The line whose end has not come: how many bytes of it are kept, or none if it is too long to be.
#[derive(Clone, Copy)]
struct Line {
    bytes: [u8; 1024],
    kept: Option<usize>,
}

impl Line {
    fn is_begun(&self) -> bool {
        self.kept != Some(0)
    }

    // Answers the line. One that did not fit is answered as one that can't be read.
    fn answer(&self, rt: &impl Print) -> io::Result<()> {
        match self.text() {
            Some(line) => run::answer(rt, line)?,
            None => show::unreadable(rt)?,
        }
        rt.write_all(b"\n")
    }

    fn text(&self) -> Option<&[u8]> {
        self.bytes.get(..self.kept?)
    }

    // Takes one byte of the input, and answers the line where the byte ends it.
    fn take(&mut self, rt: &impl Print, byte: u8) -> io::Result<()> {
        if byte == b'\n' {
            self.answer(rt)?;
            self.kept = Some(0);
        } else {
            self.kept = self.keep(byte);
        }
        Ok(())
    }

    // Puts a byte behind those that are kept.
    fn keep(&mut self, byte: u8) -> Option<usize> {
        let at = self.kept?;
        if at < self.bytes.len() {
            self.bytes[at] = byte;
            Some(at + 1)
        } else {
            None
        }
    }
}

// Reads until the piece is full or the input ends, and gives back how many bytes were put at the start of the piece. Nothing is
// answered before: who writes all of the input before the answers are read does not wait for ever, as long as it fits in a piece.
fn read_full(input: &mut impl Read, piece: &mut [u8]) -> io::Result<usize>
    ensures { IfOk result (λ n. n ≤ length piece.new) }
{
    let mut done: usize = 0;
    while done < piece.len() {
        let n = input.read(&mut piece[done..])?;
        if n == 0 {
            return Ok(done);
        }
        done += n;
    }
    Ok(done)
}

// Reads the whole input, and answers the lines that end in it. A loop has to end, and nothing says that the input does, so the
// loop counts to a number that no run comes to.
fn take_input(rt: &impl Print, input: &mut impl Read, line: &mut Line) -> io::Result<()> {
    let mut piece = [0; 65536];
    for _ in 0..u64::MAX {
        let n = read_full(input, &mut piece)?;
        if n == 0 {
            break;
        }
        for byte in &piece[..n] {
            line.take(rt, *byte)?;
        }
    }
    Ok(())
}

// The last line may lack its end.
fn main(rt: HostRuntime) -> io::Result<()> {
    let mut line = Line {
        bytes: [0; 1024],
        kept: Some(0),
    };
    let mut input = rt.stdin();
    take_input(&rt, &mut input, &mut line)?;
    if line.is_begun() {
        line.answer(&rt)?;
    }
    Ok(())
}
