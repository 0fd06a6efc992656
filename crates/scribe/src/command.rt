// A line as a command.
ghost use Rattle.std.specs.Prelude.{◌≡◌, ◌≤◌, ℕ, eqb, length, option_map};
ghost use Rattle.script.specs.Command.{alone_by, bytes_by, line_read, number_in, open_by, primary_in, release_by, reply_by, start_by, ticks_by, told, verdict_by, with_data};
ghost use Rattle.script.specs.declared.Command.{Command};

use exchange::Primary;
use link::Setup;
use parse::{behind, field, is_data, letter, number, put_data};
use script::Command;
use settings::{Fifths, Seconds, Tenths};

// A number up to 65,535.
fn word(text: &[u8]) -> Option<u16>
    ensures { result ≡ number_in 65535 text.now }
{
    u16::try_from(number(text)?).ok()
}

// A number up to 255.
fn byte(text: &[u8]) -> Option<u8>
    ensures { result ≡ number_in 255 text.now }
{
    u8::try_from(number(text)?).ok()
}

// W: 0 or 1.
fn bit(text: &[u8]) -> Option<bool>
    ensures { result ≡ option_map (λ n. eqb n 1) (number_in 1 text.now) }
{
    match number(text)? {
        0 => Some(false),
        1 => Some(true),
        _ => None,
    }
}

// Bytes, which are put at the front of `bytes`: how many they are.
fn data(text: &[u8], bytes: &mut [u8; 512]) -> Option<usize>
    requires { length text.now ≤ 1024 }
    ensures { (command : ℕ → Command) → told (option_map command result) bytes.new ≡ with_data (Some command) text.now bytes.old }
{
    if is_data(text) {
        return Some(put_data(text, bytes));
    }
    None
}

// `H` or `E`, behind it eight numbers.
#[tactic(auto, unfolding(script::specs::Command::start_by))]
fn start(host: bool, text: &[u8]) -> Option<Command>
    ensures { result ≡ start_by host text.now }
{
    let from_t2 = behind(text);
    let from_t3 = behind(from_t2);
    let from_t4 = behind(from_t3);
    let from_rty = behind(from_t4);
    let from_device = behind(from_rty);
    let from_duplicates = behind(from_device);
    let from_last = behind(from_duplicates);
    Some(Command::Start(Setup {
        host,
        t1: Tenths(word(field(text))?),
        t2: Fifths(word(field(from_t2))?),
        t3: Seconds(word(field(from_t3))?),
        t4: Seconds(word(field(from_t4))?),
        rty: word(field(from_rty))?,
        device: word(field(from_device))?,
        duplicates: word(field(from_duplicates))?,
        last: word(from_last)?,
    }))
}

// The four numbers behind `O`.
#[tactic(auto, unfolding(script::specs::Command::primary_in))]
fn primary(text: &[u8]) -> Option<Primary>
    ensures { result ≡ primary_in text.now }
{
    let from_w = behind(text);
    let from_stream = behind(from_w);
    let from_function = behind(from_stream);
    Some(Primary {
        source: word(field(text))?,
        w: bit(field(from_w))?,
        stream: byte(field(from_stream))?,
        function: byte(field(from_function))?,
    })
}

// `O`, behind it four numbers and the data.
#[tactic(auto, unfolding(script::specs::Command::open_by))]
fn open(text: &[u8], bytes: &mut [u8; 512]) -> Option<Command>
    requires { length text.now ≤ 1024 }
    ensures { told result bytes.new ≡ open_by text.now bytes.old }
{
    let primary = primary(text)?;
    let from_data = behind(behind(behind(behind(text))));
    let length = data(from_data, bytes)?;
    Some(Command::Open { primary, length })
}

// `R`, behind it two numbers and the data.
#[tactic(auto, unfolding(script::specs::Command::reply_by))]
fn reply(text: &[u8], bytes: &mut [u8; 512]) -> Option<Command>
    requires { length text.now ≤ 1024 }
    ensures { told result bytes.new ≡ reply_by text.now bytes.old }
{
    let from_function = behind(text);
    let place = byte(field(text))?;
    let function = byte(field(from_function))?;
    let length = data(behind(from_function), bytes)?;
    Some(Command::Reply {
        place,
        function,
        length,
    })
}

// `L`, behind it `O` or `I` and a number.
#[tactic(auto, unfolding(script::specs::Command::release_by))]
fn release(text: &[u8]) -> Option<Command>
    ensures { result ≡ release_by text.now }
{
    let table = letter(field(text))?;
    let place = byte(behind(text))?;
    match table {
        b'O' => Some(Command::ReleaseOwn(place)),
        b'I' => Some(Command::ReleaseIncoming(place)),
        _ => None,
    }
}

// `B`, behind it bytes.
#[tactic(auto, unfolding(script::specs::Command::bytes_by))]
fn bytes_in(text: &[u8], bytes: &mut [u8; 512]) -> Option<Command>
    requires { length text.now ≤ 1024 }
    ensures { told result bytes.new ≡ bytes_by text.now bytes.old }
{
    Some(Command::Bytes(data(text, bytes)?))
}

// `T`, behind it a number up to 100,000.
#[tactic(auto, unfolding(script::specs::Command::ticks_by))]
fn ticks(text: &[u8]) -> Option<Command>
    ensures { result ≡ ticks_by text.now }
{
    Some(Command::Ticks(number(text)?))
}

// `V`, behind it a number.
#[tactic(auto, unfolding(script::specs::Command::verdict_by))]
fn verdict(text: &[u8]) -> Option<Command>
    ensures { result ≡ verdict_by text.now }
{
    Some(Command::Verdict(byte(text)?))
}

// `D` or `K`, nothing behind it, not even a space.
#[tactic(auto, unfolding(script::specs::Command::alone_by))]
fn alone(command: Command, line: &[u8]) -> Option<Command>
    ensures { result ≡ alone_by command line.now }
{
    if line.len() == 1 { Some(command) } else { None }
}

// Reads a line, without its end. The bytes that it says are put at the front of `bytes`; of a line that can't be read, none.
pub fn read_line(line: &[u8], bytes: &mut [u8; 512]) -> Option<Command>
    ensures { told result bytes.new ≡ line_read line.now bytes.old }
{
    if 1024 < line.len() {
        return None;
    }
    let text = behind(line);
    match letter(field(line))? {
        b'H' => start(true, text),
        b'E' => start(false, text),
        b'O' => open(text, bytes),
        b'R' => reply(text, bytes),
        b'L' => release(text),
        b'B' => bytes_in(text, bytes),
        b'T' => ticks(text),
        b'D' => alone(Command::Drained, line),
        b'V' => verdict(text),
        b'K' => alone(Command::Dropped, line),
        _ => None,
    }
}
