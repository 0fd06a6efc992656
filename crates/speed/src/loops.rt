// The loops. A turn is one call and the sum for the check value, and as little else as can be.
ghost use Rattle.std.specs.Prelude.{◌≤◌};

use crate::ready;
use link::{Answer, Link};

// What a row of calls leaves: the unit, and the sum for the check value.
#[derive(Clone, Copy)]
struct Row {
    link: Link,
    sum: u64,
}

// What a turn adds to the sum.
fn counted(answer: &Answer) -> u64 {
    (answer.count as u64).wrapping_add(u64::from(answer.link.block))
}

// So many turns. Each makes a call, leaves the next state of the unit in its place, and gives back what it adds to the sum: an answer
// handed on whole would be one copy more of the unit.
fn repeat<F: FnMut(&mut Link) -> u64>(turns: u64, mut link: Link, mut turn: F) -> Row
    requires { F.IsAlwaysCallable turn }
{
    let mut sum: u64 = 0;
    for _ in 0..turns {
        sum = sum.wrapping_add(turn(&mut link));
    }
    Row { link, sum }
}

// The bytes of a block on the line, ENQ before them: length 254, and all others 0, so that the sum is 0 too.
fn block_byte(at: u64) -> u8 {
    match at {
        0 => 5,
        1 => 254,
        _ => 0,
    }
}

// ENQ, the length byte, 254 bytes and two of the sum are 258.
fn following(at: u64) -> u64 {
    if at < 257 { at + 1 } else { 0 }
}

// So many bytes of blocks.
pub(crate) fn body(turns: u64) -> u64 {
    let mut room = [0; 36864];
    let mut out = [0; 257];
    let mut at = 0;
    repeat(turns, ready::fresh(), |link| {
        let answer = unit::byte(*link, block_byte(at), &mut room, &mut out);
        at = following(at);
        *link = answer.link;
        counted(&answer)
    })
    .sum
}

// So many bytes that an idle line drops.
pub(crate) fn dropped(turns: u64) -> u64 {
    let mut room = [0; 36864];
    let mut out = [0; 257];
    repeat(turns, ready::fresh(), |link| {
        let answer = unit::byte(*link, 7, &mut room, &mut out);
        *link = answer.link;
        counted(&answer)
    })
    .sum
}

// So many ticks.
fn ticks(turns: u64, link: Link, room: &mut [u8; 36864], out: &mut [u8; 257]) -> Row {
    repeat(turns, link, |link| {
        let answer = unit::tick(*link, room, out);
        *link = answer.link;
        counted(&answer)
    })
}

// So many ticks with nothing due. They are called here and not by `ticks`: where a call stands in one place alone the compiler builds
// it into the loop, and its cost is no longer that of a call.
pub(crate) fn idle(turns: u64) -> u64 {
    let mut room = [0; 36864];
    let mut out = [0; 257];
    repeat(turns, ready::fresh(), |link| {
        let answer = unit::tick(*link, &mut room, &mut out);
        *link = answer.link;
        counted(&answer)
    })
    .sum
}

// So many ticks of a unit that waits. It starts anew every 1,000 ticks, so that no timer runs out.
pub(crate) fn waiting(turns: u64) -> u64 {
    let mut room = [0; 36864];
    let mut out = [0; 257];
    let link = ready::waiting(&mut room, &mut out);
    let mut sum: u64 = 0;
    for _ in 0..turns / 1000 {
        sum = sum.wrapping_add(ticks(1000, link, &mut room, &mut out).sum);
    }
    let last = ticks(turns % 1000, link, &mut room, &mut out);
    sum.wrapping_add(last.sum)
        .wrapping_add(ready::timers(last.link))
}

// Which of two units is copied in a turn, to the other.
fn copied(turn: u64) -> usize
    ensures { result ≤ 1 }
{
    if turn % 2 == 0 { 0 } else { 1 }
}

// One copy in each turn, from one of two units to the other. `block` is counted on in each, so that none can be left out.
pub(crate) fn copies(turns: u64) -> u64 {
    let mut ring = [ready::fresh(); 2];
    for turn in 0..turns {
        let at = copied(turn);
        let next = 1 - at;
        ring[next] = ring[at];
        ring[next].block = ring[next].block.wrapping_add(1);
    }
    u64::from(ring[copied(turns)].block)
}
