// What leaves in a call: codes, or a whole block.
ghost use Rattle.std.specs.Prelude.{◌≡◌, ◌≤◌, [], length};
ghost use Rattle.wire.specs.Lent.{on_front};
ghost use Rattle.block.specs.Block.{block_of};
ghost use Rattle.line.specs.Codes.{bytes_out};
ghost use Rattle.exchange.specs.Reports.{report_body, report_header};
ghost use Rattle.link.specs.Run.{block_in, codes};
ghost use Rattle.unit.specs.Put.{put_at};

use exchange::Outgoing;
use header::Header;
use line::Out;
use room::Message;

// Puts a code into the output at an index, where there is one: how many bytes that is.
fn put_code(out: &mut [u8], at: usize, code: Out) -> usize
    requires { (at ≤ 1) × (257 ≤ length out.old) }
    ensures { (result ≡ length (bytes_out [] code)) × (out.new ≡ put_at out.old at code) }
{
    match code {
        Out::Code(c) => {
            out[at] = c;
            1
        }
        Out::Nothing | Out::Block => 0,
    }
}

// The code of the line's step, and behind it that of its settling.
pub(crate) fn put_codes(out: &mut [u8], first: Out, second: Out) -> usize
    requires { 257 ≤ length out.old }
    ensures { (result ≡ length (codes first second)) × (out.new ≡ on_front (codes first second) out.old) }
{
    let count = put_code(out, 0, first);
    let more = put_code(out, count, second);
    count + more
}

// A block as it stands on the line.
fn put_block(out: &mut [u8], header: Header, data: &[u8]) -> usize
    requires { (length «data».now ≤ 244) × (257 ≤ length out.old) }
    ensures { (result ≡ length (block_of header «data».now)) × (out.new ≡ on_front (block_of header «data».now) out.old) }
{
    match codec::write_block(10 + data.len(), header, data, out) {
        Ok(count) => count,
        Err(_) => 0,
    }
}

// The header of a report, to the host: one block, with W = 0, source ID 0 and its transaction number.
fn report_header(device: u16, function: u8, number: u16) -> Header
    ensures { result ≡ report_header device function number }
{
    Header {
        r: true,
        device,
        w: false,
        stream: 9,
        function,
        e: true,
        number: 1,
        system: u32::from(number),
    }
}

// A report: "The body is the two bytes hex 21 0A, then the ten header bytes of the offending block". No byte of it ever lies in the room.
fn put_report(out: &mut [u8], device: u16, shown: [u8; 10], function: u8, number: u16) -> usize
    requires { 257 ≤ length out.old }
    ensures { (result ≡ length (block_of (report_header device function number) (report_body shown))) × (out.new ≡ on_front (block_of (report_header device function number) (report_body shown)) out.old) }
{
    let mut body = [0; 12];
    wire::put(&mut body, 0, b"\x21\x0A");
    wire::put(&mut body, 2, &shown);
    put_block(out, report_header(device, function, number), &body)
}

// Block `k` of a message whose data lies in the send area, or a report, which shows `shown`.
pub(crate) fn put_message(
    out: &mut [u8],
    device: u16,
    shown: [u8; 10],
    message: Outgoing,
    k: u16,
    room: &[u8],
) -> usize
    requires { 257 ≤ length out.old }
    ensures { (result ≡ length (block_in device shown message k room.now)) × (out.new ≡ on_front (block_in device shown message k room.now) out.old) }
{
    match message {
        Outgoing::Nothing => 0,
        Outgoing::Message { header, length } => {
            match cut::cut_block(header, usize::from(length), usize::from(k)) {
                Some(cut) => put_block(
                    out,
                    cut.header,
                    store::bytes_of(room, Message::Send, cut.start, cut.length),
                ),
                None => 0,
            }
        }
        Outgoing::Report { function, number } => put_report(out, device, shown, function, number),
    }
}
