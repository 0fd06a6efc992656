// What a call of the unit costs: makes the same call over and over, and prints a check value. A clock outside times the run.
//
//   speed body TURNS       bytes of blocks: ENQ, length 254, 254 bytes and the sum, and the next block
//   speed dropped TURNS    bytes on an idle line, none of them ENQ
//   speed idle TURNS       ticks with nothing due
//   speed waiting TURNS    ticks with four replies awaited (T3) and four messages open (T4)
//   speed copy TURNS       no call: the unit is copied once
//
// TURNS is decimal, 100,000,000 at most. Anything else prints `?`.
//
// The check value of the first four is the sum, over all turns, of the bytes that were to leave and of the unit's `block`, which is 1
// in each: so it is TURNS, and 2 more for each block of 258 bytes (EOT at its ENQ, ACK at its end). To that of `waiting` the eight
// timers are added: it starts anew every 1,000 ticks, so that none runs out, and each is at the ticks since then. That of `copy` is
// `block` after one was added in each turn: TURNS + 1, modulo 65,536.
#![tactic(auto)]

mod loops;
mod ready;
mod text;

ghost use Rattle.std.specs.Prelude.{◌≤◌, length};

use std::io;
use std::rt::Env;

// A program has no more to say of a word that it can't read.
fn unreadable(rt: &impl Print) -> io::Result<()> {
    print!(rt; "?")
}

fn run(rt: &impl Print, word: &[u8], turns: u64) -> io::Result<()> {
    let check = match word {
        b"body" => loops::body(turns),
        b"dropped" => loops::dropped(turns),
        b"idle" => loops::idle(turns),
        b"waiting" => loops::waiting(turns),
        b"copy" => loops::copies(turns),
        _ => return unreadable(rt),
    };
    print!(rt; "{check}")
}

// Copies an argument to the start of `word`, and gives it back. One that is missing or too long is empty.
fn argument<'a>(rt: &impl Env, at: usize, word: &'a mut [u8]) -> &'a [u8]
    ensures { length result.now ≤ length word.old }
{
    match rt.arg(at, word) {
        Ok(length) => &word[..length],
        Err(_) => &[],
    }
}

fn main(rt: HostRuntime) -> io::Result<()> {
    let mut word = [0; 16];
    let mut digits = [0; 16];
    let word = argument(&rt, 1, &mut word);
    match text::decimal(argument(&rt, 2, &mut digits)) {
        Some(turns) => run(&rt, word, turns)?,
        None => unreadable(&rt)?,
    }
    print!(rt; "\n")
}
