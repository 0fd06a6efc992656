// What bench prints for a line, with its end.
ghost use Rattle.std.specs.Prelude.{◌≡◌, ◌+◌, ◌≤◌, ◌<◌, length};
ghost use Rattle.wire.specs.Lent.{filled, filled_with, onto, splice};
ghost use Rattle.script.specs.Hex.{glyph_of, hex_of, two_of};
ghost use Rattle.script.specs.Printed.{answer_text, data_field, data_fits, dropped_text, number_field, number_text, ones_of, text_of, unreadable_text, verdict_text};

use script::Printed;
use wire::put;

// How many bytes a number in decimal and the byte behind it are: of 32 bits it has at most ten digits.
fn number_size(n: u32) -> usize
    ensures value { result ≡ length (number_text n) + 1 }
    ensures upper_bound { result ≤ 11 }
{
    let mut left = n;
    let mut size: usize = 2;
    while 10 <= left {
        left = left / 10;
        size += 1;
    }
    size
}

// The last decimal digit of a number.
fn ones(n: u32) -> u8
    ensures { result ≡ ones_of n }
{
    48 + (n % 10) as u8
}

// Puts a number in decimal, without zeros before it, and a byte behind it, and gives back where they end: that byte, and before it one digit
// after the other, the last one first.
fn put_number(out: &mut [u8], at: usize, n: u32, mark: u8) -> usize
    requires { at + length (number_field n mark) ≤ length out.old }
    ensures out_after { out.new ≡ splice out.old at (number_field n mark) }
    ensures value { result ≡ at + length (number_field n mark) }
{
    let end = at + number_size(n);
    let mut i = end - 1;
    let mut left = n;
    out[i] = mark;
    while 10 <= left {
        i -= 1;
        out[i] = ones(left);
        left = left / 10;
    }
    out[at] = ones(left);
    end
}

// A hex digit, in upper case.
fn glyph(digit: u8) -> u8
    requires { digit < 16 }
    ensures { result ≡ glyph_of digit }
{
    if digit < 10 {
        return 48 + digit;
    }
    55 + digit
}

// The two digits of a byte.
fn two(byte: u8) -> [u8; 2]
    ensures { result ≡ two_of byte }
{
    [glyph(byte / 16), glyph(byte % 16)]
}

// Puts bytes in hex.
fn put_hex(out: &mut [u8], at: usize, bytes: &[u8])
    requires { at + length (hex_of bytes.now) ≤ length out.old }
    ensures { out.new ≡ splice out.old at (hex_of bytes.now) }
{
    for (i, byte) in bytes.iter().enumerate() {
        put(out, at + 2 * i, &two(*byte));
    }
}

// Puts bytes in hex, or `-`, and a space behind them, and gives back where that ends.
fn put_data(out: &mut [u8], at: usize, bytes: &[u8]) -> usize
    requires { at + length (data_field bytes.now) ≤ length out.old }
    ensures out_after { out.new ≡ splice out.old at (data_field bytes.now) }
    ensures value { result ≡ at + length (data_field bytes.now) }
{
    if bytes.len() == 0 {
        put(out, at, b"- ");
        return at + 2;
    }
    put_hex(out, at, bytes);
    let end = at + 2 * bytes.len();
    put(out, end, b" ");
    end + 1
}

// Puts an answer where there is room for it.
fn put_answer(number: u8, bytes: &[u8], note: u8, text: &mut [u8]) -> usize
    requires { length (answer_text number bytes.now note) ≤ length text.old }
    ensures { filled result text.new ≡ onto (answer_text number bytes.now note) text.old }
{
    let at_data = put_number(text, 0, number as u32, b' ');
    let at_note = put_data(text, at_data, bytes);
    put_number(text, at_note, note as u32, b'\n')
}

// Whether so many bytes in hex, or `-`, and the space behind them have room.
#[tactic(auto, unfolding(script::specs::Printed::data_fits))]
fn data_fits(count: usize, room: usize) -> bool
    ensures { result ≡ data_fits count room }
{
    2 <= room && count <= (room - 1) / 2
}

fn print_answer(number: u8, bytes: &[u8], note: u8, text: &mut [u8]) -> usize
    ensures { filled result text.new ≡ filled_with (answer_text number bytes.now note) text.old }
{
    let numbers = number_size(number as u32) + number_size(note as u32);
    if text.len() < numbers {
        return 0;
    }
    if data_fits(bytes.len(), text.len() - numbers) {
        return put_answer(number, bytes, note, text);
    }
    0
}

fn print_verdict(place: u8, verdict: u8, text: &mut [u8]) -> usize
    ensures { filled result text.new ≡ filled_with (verdict_text place verdict) text.old }
{
    if text.len() < 2 + number_size(place as u32) + number_size(verdict as u32) {
        return 0;
    }
    put(text, 0, b"V ");
    let at_verdict = put_number(text, 2, place as u32, b' ');
    put_number(text, at_verdict, verdict as u32, b'\n')
}

fn print_dropped(count: u32, text: &mut [u8]) -> usize
    ensures { filled result text.new ≡ filled_with (dropped_text count) text.old }
{
    if text.len() < 2 + number_size(count) {
        return 0;
    }
    put(text, 0, b"K ");
    put_number(text, 2, count, b'\n')
}

fn print_unreadable(text: &mut [u8]) -> usize
    ensures { filled result text.new ≡ filled_with unreadable_text text.old }
{
    if text.len() < 2 {
        return 0;
    }
    put(text, 0, b"?\n");
    2
}

// Puts a line at the front of `text`, and gives back how many bytes it has. Where there is no room for all of it, nothing is put there,
// and the answer is 0. `bytes` are those out, for an answer.
pub fn print_line(line: Printed, bytes: &[u8], text: &mut [u8]) -> usize
    ensures { filled result text.new ≡ filled_with (text_of line bytes.now) text.old }
{
    match line {
        Printed::Answer { number, note } => print_answer(number, bytes, note, text),
        Printed::Verdict { place, verdict } => print_verdict(place, verdict, text),
        Printed::Dropped { count } => print_dropped(count, text),
        Printed::Unreadable => print_unreadable(text),
    }
}
