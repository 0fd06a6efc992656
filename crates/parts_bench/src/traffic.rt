// Transactions by themselves: `X ROLE T3 T4 DEVID CHECK LAST CALL ..`, a run of calls on an exchange that is fresh, over a room
// whose bytes are each 0xEE.
//
// ROLE is H, the host, or E, the equipment. T3 and T4 are as on the panel, DEVID is the device ID, CHECK the duplicate check, 0
// or 1, and LAST the last transaction number. Each CALL is a field by itself:
//
//   O:SOURCE:W:STREAM:FUNCTION:DATA   opens a primary
//   R:PLACE:FUNCTION:DATA             replies to the message in an incoming place
//   P                                 the last block of the message being sent was put out
//   A                                 it was acknowledged
//   F                                 a block of the message failed
//   U:BYTES                           a block went up: ten header bytes, and its data
//   T100                              so many ticks
//   LO:PLACE  LI:PLACE                releases an own place, an incoming one
//   VO:PLACE  VI:PLACE                reads an own place, an incoming one
//   BR:PLACE:OFFSET:LENGTH            reads the bytes of the reply in an own place; BI those of an incoming message; BS, with
//                                     any PLACE, those of the message being sent
//   M                                 counts the bytes of each area that are not 0xEE
//   N:NUMBER                          as though NUMBER were the last transaction number given: to bring it there may take 65,534
//                                     sends
//
// DATA and BYTES are in hex, `-` for none. Behind the last byte `x` and a count may stand: `01FFx3` is 01FFFFFF.
//
// It prints 4, and nothing of the calls, if a setting is out of its range. Else it prints 0, and for each CALL a space and:
//
//   O, R    the number of a refusal, or PLACE:HEADER:LENGTH of the message that is being sent, its block number and E being 0
//   P       `-`
//   A, F    flags, or `-`
//   U       the note, and if there are flags, `/` and flags
//   T       for each tick with flags, a comma between two: which of these ticks it is, `/` and flags; `-` if none had any
//   LO, LI  0, or the number of the refusal
//   N       0
//   VO      VERDICT:HEADER:W:STREAM:FUNCTION:LENGTH, the header of the primary, the rest of the reply as far as it is kept;
//           9 for no place
//   VI      HEADER:COMPLETE:REPLY:LENGTH, the header of the first block, and of the reply `none` (not owed), `owed`, `sending`,
//           `sent` or `failed`; 9 for no place
//   BR ..   the bytes in hex, or `-`
//   M       nine numbers with colons between: four reply areas, four incoming areas, the send area
//
// Flags are `v` and an own place that got its verdict, `c` and an incoming place whose message is complete, `d` and one whose
// message was dropped, in this order. A CALL that can't be read prints `?`, and ends the run; so do W above 1, and a stream, a
// function or a place above 255. If ROLE or a setting can't be read, `?` is all.
use crate::show::Hex;
use crate::text::Role;
use crate::{run, show, text};
use exchange::{
    Changed, Exchange, Flags, IncomingReading, Judged, Outgoing, OwnReading, Primary, ReplyStage,
    Requested,
};
use place::{Reply, Standing};
use room::Message;
use settings::{MessagePanel, Seconds, Terms};
use std::io;

// A call.
#[derive(Clone, Copy)]
enum Call<'a> {
    Open {
        primary: Primary,
        message: &'a [u8],
    },
    Reply {
        place: usize,
        function: u8,
        message: &'a [u8],
    },
    PutOut,
    Sent,
    Failed,
    Block {
        header: [u8; 10],
        message: &'a [u8],
    },
    Ticks(u16),
    Release(Which),
    SetLast(u16),
    Look(Look),
}

// A call that changes nothing.
#[derive(Clone, Copy)]
enum Look {
    Place(Which),
    Bytes {
        message: Message,
        offset: usize,
        length: usize,
    },
    Areas,
}

// The place that a field names.
#[derive(Clone, Copy)]
enum Which {
    Own(usize),
    Incoming(usize),
}

// Takes ROLE and the settings off, and makes the calls, if each setting is in its range. What is left begins with the space before
// the first CALL.
pub(crate) fn answer(rt: &impl Print, fields: &[u8]) -> io::Result<()> {
    let Some((panel, last, calls)) = read_panel(fields) else {
        return show::unreadable(rt);
    };
    match panel.terms() {
        Some(terms) => {
            print!(rt; "0")?;
            run_calls(rt, terms, last, calls)
        }
        None => print!(rt; "4"),
    }
}

// ROLE, T3, T4, DEVID, CHECK and LAST, and what stands behind them.
fn read_panel(fields: &[u8]) -> Option<(MessagePanel, u16, &[u8])> {
    let (role, rest) = text::front_role(fields)?;
    let ([t3, t4, device, duplicates, last], calls) = text::front_numbers::<5>(rest, b' ')?;
    let panel = MessagePanel {
        t3: Seconds(t3),
        t4: Seconds(t4),
        device,
        duplicates,
        host: role == Role::Host,
    };
    Some((panel, last, calls))
}

// Makes each call in turn, up to one that can't be read. A space stands before each.
fn run_calls(rt: &impl Print, terms: Terms, last: u16, calls: &[u8]) -> io::Result<()> {
    let mut room = [0xEE; 36864];
    let mut buffer = [0; 5000];
    let mut exchange = desk::fresh(last);
    for field in calls.split(|byte| *byte == b' ').skip(1) {
        print!(rt; " ")?;
        let Some(call) = read_call(field, &mut buffer) else {
            return show::unreadable(rt);
        };
        exchange = make(rt, terms, exchange, call, &mut room)?;
    }
    Ok(())
}

// A call, by its first byte.
fn read_call<'a>(field: &[u8], buffer: &'a mut [u8; 5000]) -> Option<Call<'a>> {
    match field {
        [b'O', rest @ ..] => read_open(rest, buffer),
        [b'R', rest @ ..] => read_reply(rest, buffer),
        [b'U', rest @ ..] => read_block(rest, buffer),
        _ => read_small(field),
    }
}

// A call that has no bytes.
fn read_small<'a>(field: &[u8]) -> Option<Call<'a>> {
    match field {
        [b'P'] => Some(Call::PutOut),
        [b'A'] => Some(Call::Sent),
        [b'F'] => Some(Call::Failed),
        [b'M'] => Some(Call::Look(Look::Areas)),
        [b'T', count @ ..] => Some(Call::Ticks(text::decimal(count)?)),
        [b'L', rest @ ..] => Some(Call::Release(named(rest)?)),
        [b'V', rest @ ..] => Some(Call::Look(Look::Place(named(rest)?))),
        [b'N', rest @ ..] => {
            let [last] = text::all_numbers::<1>(rest, b':')?;
            Some(Call::SetLast(last))
        }
        [b'B', rest @ ..] => Some(Call::Look(read_bytes(rest)?)),
        _ => None,
    }
}

// `:SOURCE:W:STREAM:FUNCTION:DATA`
fn read_open<'a>(fields: &[u8], buffer: &'a mut [u8; 5000]) -> Option<Call<'a>> {
    let ([source, w, stream, function], rest) = text::front_numbers::<4>(fields, b':')?;
    let primary = Primary {
        source,
        w: bit(w)?,
        stream: u8::try_from(stream).ok()?,
        function: u8::try_from(function).ok()?,
    };
    let message = text::repeated_bytes(text::behind(rest), buffer)?;
    Some(Call::Open { primary, message })
}

// A number as a bit.
fn bit(number: u16) -> Option<bool> {
    match number {
        0 => Some(false),
        1 => Some(true),
        _ => None,
    }
}

// A number as that of a place.
fn place_of(number: u16) -> Option<usize> {
    Some(usize::from(u8::try_from(number).ok()?))
}

// `:PLACE:FUNCTION:DATA`
fn read_reply<'a>(fields: &[u8], buffer: &'a mut [u8; 5000]) -> Option<Call<'a>> {
    let ([place, function], rest) = text::front_numbers::<2>(fields, b':')?;
    let place = place_of(place)?;
    let function = u8::try_from(function).ok()?;
    let message = text::repeated_bytes(text::behind(rest), buffer)?;
    Some(Call::Reply {
        place,
        function,
        message,
    })
}

// `:BYTES`, ten of them at least
fn read_block<'a>(fields: &[u8], buffer: &'a mut [u8; 5000]) -> Option<Call<'a>> {
    let field = match fields {
        [] => fields,
        [b':', field @ ..] => field,
        _ => return None,
    };
    let (header, message) = text::repeated_bytes(field, buffer)?.split_first_chunk()?;
    Some(Call::Block {
        header: *header,
        message,
    })
}

// `O:PLACE` or `I:PLACE`
fn named(field: &[u8]) -> Option<Which> {
    let (kind, rest) = field.split_first()?;
    let [place] = text::all_numbers::<1>(rest, b':')?;
    let place = place_of(place)?;
    match kind {
        b'O' => Some(Which::Own(place)),
        b'I' => Some(Which::Incoming(place)),
        _ => None,
    }
}

// `R:PLACE:OFFSET:LENGTH`, or with `I` or `S`
fn read_bytes(field: &[u8]) -> Option<Look> {
    let (kind, rest) = field.split_first()?;
    let [place, offset, length] = text::all_numbers::<3>(rest, b':')?;
    let place = place_of(place)?;
    let message = match kind {
        b'R' => Message::Reply(place),
        b'I' => Message::Incoming(place),
        b'S' => Message::Send,
        _ => return None,
    };
    Some(Look::Bytes {
        message,
        offset: usize::from(offset),
        length: usize::from(length),
    })
}

// Makes a call, shows what came of it, and gives the exchange back that it left.
fn make(
    rt: &impl Print,
    terms: Terms,
    exchange: Exchange,
    call: Call,
    room: &mut [u8; 36864],
) -> io::Result<Exchange> {
    match call {
        Call::Open { primary, message } => {
            asked(rt, clerk::open(exchange, terms, primary, message, room))
        }
        Call::Reply {
            place,
            function,
            message,
        } => asked(rt, clerk::reply(exchange, place, function, message, room)),
        Call::PutOut => put_out(rt, exchange),
        Call::Sent => changed(rt, clerk::sent(exchange)),
        Call::Failed => changed(rt, clerk::failed(exchange)),
        Call::Block { header, message } => {
            let judged = judging::judge(exchange, terms, header, message, room);
            show_judged(rt, judged)
        }
        Call::Ticks(count) => tick_on(rt, terms, exchange, count),
        Call::Release(Which::Own(place)) => released(rt, clerk::release_own(exchange, place)),
        Call::Release(Which::Incoming(place)) => {
            released(rt, clerk::release_incoming(exchange, place))
        }
        Call::SetLast(last) => set_last(rt, exchange, last),
        Call::Look(look) => {
            show_look(rt, exchange, look, room)?;
            Ok(exchange)
        }
    }
}

// A request to send a message.
fn asked(rt: &impl Print, requested: Requested) -> io::Result<Exchange> {
    match requested.asked {
        Ok(place) => {
            print!(rt; "{place}")?;
            show_outgoing(rt, clerk::outgoing(requested.exchange))?;
        }
        Err(why) => print!(rt; "{}", clerk::refusal_number(why))?,
    }
    Ok(requested.exchange)
}

// Shows the message that is being sent.
fn show_outgoing(rt: &impl Print, outgoing: Outgoing) -> io::Result<()> {
    match outgoing {
        Outgoing::Nothing => print!(rt; ":-"),
        Outgoing::Message { header, length } => {
            let ten = header.bytes();
            print!(rt; ":{}:{length}", Hex(&ten))
        }
        // A report: its function and its number.
        Outgoing::Report { function, number } => print!(rt; ":9:{function}:{number}"),
    }
}

// The last block leaves: no flag tells of it.
fn put_out(rt: &impl Print, exchange: Exchange) -> io::Result<Exchange> {
    print!(rt; "-")?;
    Ok(clerk::put_out(exchange))
}

// The end of a sending.
fn changed(rt: &impl Print, changed: Changed) -> io::Result<Exchange> {
    if any_flag(changed.flags) {
        show_flags(rt, changed.flags)?;
    } else {
        print!(rt; "-")?;
    }
    Ok(changed.exchange)
}

// Shows what a block came to.
fn show_judged(rt: &impl Print, judged: Judged) -> io::Result<Exchange> {
    print!(rt; "{}", desk::note_number(judged.note))?;
    if any_flag(judged.flags) {
        print!(rt; "/")?;
        show_flags(rt, judged.flags)?;
    }
    Ok(judged.exchange)
}

// So many ticks.
fn tick_on(
    rt: &impl Print,
    terms: Terms,
    mut exchange: Exchange,
    count: u16,
) -> io::Result<Exchange> {
    let mut shown = false;
    for tick in 1..=count {
        let changed = clerk::tick(exchange, terms);
        exchange = changed.exchange;
        if any_flag(changed.flags) {
            if shown {
                print!(rt; ",")?;
            }
            print!(rt; "{tick}/")?;
            show_flags(rt, changed.flags)?;
            shown = true;
        }
    }
    if !shown {
        print!(rt; "-")?;
    }
    Ok(exchange)
}

// A release.
fn released(rt: &impl Print, requested: Requested) -> io::Result<Exchange> {
    match requested.asked {
        Ok(_) => print!(rt; "0")?,
        Err(why) => print!(rt; "{}", clerk::refusal_number(why))?,
    }
    Ok(requested.exchange)
}

// Another last transaction number.
fn set_last(rt: &impl Print, mut exchange: Exchange, last: u16) -> io::Result<Exchange> {
    exchange.numbers.last = last;
    print!(rt; "0")?;
    Ok(exchange)
}

// Whether there is a flag.
fn any_flag(flags: Flags) -> bool {
    flags.verdicts.contains(&true)
        || flags.completed.contains(&true)
        || flags.dropped.contains(&true)
}

// Shows a letter and a place, for each place that is marked.
fn show_marks(rt: &impl Print, letter: char, marks: [bool; 4]) -> io::Result<()> {
    for (place, marked) in marks.iter().enumerate() {
        if *marked {
            print!(rt; "{letter}{place}")?;
        }
    }
    Ok(())
}

// Shows each flag.
fn show_flags(rt: &impl Print, flags: Flags) -> io::Result<()> {
    show_marks(rt, 'v', flags.verdicts)?;
    show_marks(rt, 'c', flags.completed)?;
    show_marks(rt, 'd', flags.dropped)
}

// Shows what is looked at.
fn show_look(
    rt: &impl Print,
    exchange: Exchange,
    look: Look,
    room: &[u8; 36864],
) -> io::Result<()> {
    match look {
        Look::Place(Which::Own(place)) => show_own(rt, desk::own_reading(exchange, place)),
        Look::Place(Which::Incoming(place)) => {
            show_incoming(rt, desk::incoming_reading(exchange, place))
        }
        Look::Bytes {
            message,
            offset,
            length,
        } => print!(rt; "{}", Hex(store::bytes_of(room, message, offset, length))),
        Look::Areas => show_areas(rt, room),
    }
}

// Shows an own place.
fn show_own(rt: &impl Print, reading: Option<OwnReading>) -> io::Result<()> {
    let Some(own) = reading else {
        return print!(rt; "9");
    };
    show_standing(rt, own.standing)?;
    let ten = own.primary.bytes();
    print!(rt; ":{}", Hex(&ten))?;
    show_reply(rt, own.reply)
}

// Shows a verdict, or 0 as long as it has not fallen.
fn show_standing(rt: &impl Print, standing: Standing) -> io::Result<()> {
    match standing {
        Standing::Free => print!(rt; "-"),
        Standing::Open => print!(rt; "0"),
        Standing::Given(verdict) => print!(rt; "{}", life::verdict_number(verdict)),
    }
}

// Shows what is kept of a reply.
fn show_reply(rt: &impl Print, reply: Reply) -> io::Result<()> {
    let w = u8::from(reply.w);
    print!(rt; ":{w}:{}:{}:{}", reply.stream, reply.function, reply.length)
}

// Shows an incoming place.
fn show_incoming(rt: &impl Print, reading: Option<IncomingReading>) -> io::Result<()> {
    let Some(incoming) = reading else {
        return print!(rt; "9");
    };
    let ten = incoming.primary.bytes();
    let complete = u8::from(incoming.complete);
    let stage = stage_name(incoming.reply);
    print!(rt; "{}:{complete}:{stage}:{}", Hex(&ten), incoming.length)
}

// How our reply to an incoming message stands.
fn stage_name(stage: ReplyStage) -> &'static str {
    match stage {
        ReplyStage::NotOwed => "none",
        ReplyStage::Owed => "owed",
        ReplyStage::OnItsWay => "sending",
        ReplyStage::Sent => "sent",
        ReplyStage::Failed => "failed",
    }
}

// Shows of each area how many of its bytes are not 0xEE.
fn show_areas(rt: &impl Print, room: &[u8; 36864]) -> io::Result<()> {
    for (i, area) in room.chunks(4096).enumerate() {
        if 0 < i {
            print!(rt; ":")?;
        }
        print!(rt; "{}", run::changed(area))?;
    }
    Ok(())
}
