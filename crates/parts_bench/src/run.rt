// The commands of the blocks, and the way to those of the line and of the transactions. What they print has no end of line:
// `main` adds it.
use crate::show::Hex;
use crate::{show, text, traffic, trial};
use block::Refusal;
use header::Header;
use std::io;

// Answers a line: a comment, or a command, which is a byte and a space before its fields.
pub(crate) fn answer(rt: &impl Print, line: &[u8]) -> io::Result<()> {
    match line {
        [b'#', ..] => rt.write_all(line),
        [first, b' ', fields @ ..] => command(rt, *first, fields, &line[1..]),
        _ => show::unreadable(rt),
    }
}

// Answers a line by its first byte. `spaced` are its fields with the space before them.
fn command(rt: &impl Print, first: u8, fields: &[u8], spaced: &[u8]) -> io::Result<()> {
    match first {
        b'R' => read(rt, fields),
        b'W' => write(rt, spaced),
        b'C' => cut(rt, spaced),
        b'L' => trial::answer(rt, fields),
        b'X' => traffic::answer(rt, fields),
        _ => show::unreadable(rt),
    }
}

// `R BYTES`: prints the refusal number alone, or 0, the header and the data.
fn read(rt: &impl Print, field: &[u8]) -> io::Result<()> {
    let mut buffer = [0; 5000];
    let Some(bytes) = text::all_bytes(field, &mut buffer) else {
        return show::unreadable(rt);
    };
    match codec::read_block(bytes) {
        Ok(block) => {
            print!(rt; "0")?;
            show_header(rt, block.header)?;
            print!(rt; " {}", Hex(codec::block_data(bytes)))
        }
        Err(why) => show_refusal(rt, why),
    }
}

// Prints a refusal as its number.
fn show_refusal(rt: &impl Print, why: Refusal) -> io::Result<()> {
    print!(rt; "{}", codec::refusal_number(why))
}

// Prints R DEVICE W STREAM FUNCTION E NUMBER SYSTEM, a space before each.
fn show_header(rt: &impl Print, header: Header) -> io::Result<()> {
    print!(rt;
        " {} {} {}",
        u8::from(header.r),
        header.device,
        u8::from(header.w)
    )?;
    print!(rt; " {} {}", header.stream, header.function)?;
    print!(rt; " {} {}", u8::from(header.e), header.number)?;
    let ten = header.bytes();
    print!(rt; " {}", Hex(&ten[6..]))
}

// `W OUT LENGTH BYTES`: makes an output of OUT bytes, each 0xEE, and writes the block into it.
fn write(rt: &impl Print, fields: &[u8]) -> io::Result<()> {
    let Some(front) = text::front_numbers::<2>(fields, b' ') else {
        return show::unreadable(rt);
    };
    let ([room, length], rest) = front;
    let mut buffer = [0; 5000];
    let Some(front) = text::all_bytes(text::behind(rest), &mut buffer) else {
        return show::unreadable(rt);
    };
    let mut outputs = [0xEE; 300];
    let Some(out) = outputs.get_mut(..usize::from(room)) else {
        return show::unreadable(rt);
    };
    write_bytes(rt, usize::from(length), front, out)
}

// Writes the block of the header's ten bytes and the data behind them. Prints the refusal number or 0, the bytes
// written or `-`, and how many bytes of the output beyond them differ from 0xEE.
fn write_bytes(rt: &impl Print, length: usize, front: &[u8], out: &mut [u8]) -> io::Result<()> {
    let Some((ten, data)) = front.split_first_chunk() else {
        return show::unreadable(rt);
    };
    match codec::write_block(length, Header::from_bytes(*ten), data, out) {
        Ok(n) => show_written(rt, out, n),
        Err(why) => {
            show_refusal(rt, why)?;
            print!(rt; " - {}", changed(out))
        }
    }
}

// Prints a write that was not refused: 0, the `n` bytes written, and how many bytes beyond them differ from 0xEE.
fn show_written(rt: &impl Print, out: &[u8], n: usize) -> io::Result<()> {
    let Some((written, beyond)) = out.split_at_checked(n) else {
        return show::unreadable(rt);
    };
    print!(rt; "0 {} {}", Hex(written), changed(beyond))
}

// How many bytes are not 0xEE. As one walk: `filter` with `count` took nearly twice as long.
pub(crate) fn changed(bytes: &[u8]) -> usize {
    bytes.iter().fold(0, |count: usize, byte| {
        count.wrapping_add(usize::from(*byte != 0xEE))
    })
}

// `C LENGTH`: prints the number of blocks, and each block.
fn cut(rt: &impl Print, fields: &[u8]) -> io::Result<()> {
    let Some(numbers) = text::all_numbers::<1>(fields, b' ') else {
        return show::unreadable(rt);
    };
    let [length] = numbers.map(usize::from);
    let count = cut::blocks_in(length);
    print!(rt; "{count}")?;
    for k in 1..=count {
        show_cut(rt, length, k)?;
    }
    Ok(())
}

// The message's header. Its E-bit and its block number, 7, must not show: those of a block come from the cut.
fn message_header() -> Header {
    Header {
        r: false,
        device: 1,
        w: true,
        stream: 1,
        function: 1,
        e: true,
        number: 7,
        system: 1,
    }
}

// Prints a space, and NUMBER:E:START:LENGTH of block `k`.
fn show_cut(rt: &impl Print, length: usize, k: usize) -> io::Result<()> {
    match cut::cut_block(message_header(), length, k) {
        Some(cut) => {
            let e = u8::from(cut.header.e);
            print!(rt; " {}:{e}:{}:{}", cut.header.number, cut.start, cut.length)
        }
        None => print!(rt; " -"),
    }
}
