// `bench`: reads lines on standard input and prints one line each (01, "Bench program and proved table").
//
// `scribe` reads a line as a command and prints the answer, `unit` is the link unit, `run` makes its calls; what a line does is said in
// crate `talk`. Here bytes are read and written, in large pieces. What is to be printed leaves before the next piece is waited for, so
// that bench can be used by hand and behind a pipe as well as on a file.
#![tactic(auto)]

mod answer;
mod run;

ghost use Rattle.std.specs.Prelude.{◌≡◌};
ghost use Rattle.talk.specs.Listing.{silence};

use answer::first;
use link::Link;
use script::Printed;
use std::io;
use std::io::Read;

// What is carried from one line to the next, and the memory in which lines are kept, done and printed.
#[derive(Clone, Copy)]
struct Session {
    // The unit that lines are about, from the first start on that was not refused.
    bench: Option<Link>,
    // The line whose end has not come: the first `kept` bytes.
    line: [u8; 1025],
    kept: usize,
    room: [u8; 36864],
    out: [u8; 4096],
    // The answers that wait to be printed: the first `waiting` bytes.
    text: [u8; 65536],
    waiting: usize,
}

impl Session {
    // Before the first line there is no unit: that is where what `talk` says of lines begins.
    fn new() -> Session
        ensures { result.bench ≡ silence.now.shown.bench }
    {
        Session {
            bench: None,
            line: [0; 1025],
            kept: 0,
            room: [0; 36864],
            out: [0; 4096],
            text: [0; 65536],
            waiting: 0,
        }
    }

    // Keeps a part of a line. Of one that has no room it is kept that all room is taken: `script` says that such a line is too long,
    // and none of it is looked at.
    fn keep(&mut self, part: &[u8]) {
        let end = self.kept.saturating_add(part.len());
        match self.line.get_mut(self.kept..end) {
            Some(free) => {
                free.copy_from_slice(part);
                self.kept = end;
            }
            None => self.kept = self.line.len(),
        }
    }

    // Prints the answers that wait.
    fn print(&mut self, rt: &impl Print) -> io::Result<()> {
        rt.write_all(first(&self.text, self.waiting))?;
        self.waiting = 0;
        Ok(())
    }

    // Puts an answer behind those that wait to be printed. Where it has no room those are printed first.
    fn show(&mut self, rt: &impl Print, printed: Printed, count: usize) -> io::Result<()> {
        if let Some(free) = self.text.get_mut(self.waiting..) {
            let size = scribe::print_line(printed, first(&self.out, count), free);
            if 0 < size {
                self.waiting = self.waiting.saturating_add(size);
                return Ok(());
            }
        }
        self.print(rt)?;
        self.waiting = scribe::print_line(printed, first(&self.out, count), &mut self.text);
        Ok(())
    }

    // Does what the line says that is kept, now that its end has come.
    fn line_end(&mut self, rt: &impl Print) -> io::Result<()> {
        let line = first(&self.line, self.kept);
        let shown = answer::line(self.bench, line, &mut self.room, &mut self.out);
        self.bench = shown.bench;
        self.kept = 0;
        self.show(rt, shown.printed, shown.count)
    }

    // Takes a piece of the input: what stands before its first end goes on with the line that is kept, and each end is that of a line.
    fn take(&mut self, rt: &impl Print, piece: &[u8]) -> io::Result<()> {
        let mut parts = piece.split(|byte| *byte == b'\n');
        if let Some(part) = parts.next() {
            self.keep(part);
        }
        for part in parts {
            self.line_end(rt)?;
            self.keep(part);
        }
        Ok(())
    }
}

// Takes the whole input, in pieces of as much as there is, and prints the answers behind each. A loop has to end, and nothing says
// that the input does, so the turns are counted up to a number that no run reaches.
fn take_input(session: &mut Session, rt: &impl Print, input: &mut impl Read) -> io::Result<()> {
    for _ in 0..u64::MAX {
        let mut piece = [0; 65536];
        let n = input.read(&mut piece)?;
        if n == 0 {
            return Ok(());
        }
        session.take(rt, &piece[..n])?;
        session.print(rt)?;
    }
    Ok(())
}

// The last line may lack its end.
fn main(rt: HostRuntime) -> io::Result<()> {
    let mut session = Session::new();
    take_input(&mut session, &rt, &mut rt.stdin())?;
    if 0 < session.kept {
        session.line_end(&rt)?;
        session.print(&rt)?;
    }
    Ok(())
}
