// The lent room at work (01, "Messages"): a message's bytes are kept in it, and read. What that comes to is said in crate `room`.
//
// No public function has a `requires`: each answers for every input, and its `ensures` is an equation with a definition of `room`.
#![tactic(auto)]

ghost use Rattle.std.specs.Prelude.{◌≡◌, ◌<◌};
ghost use Rattle.room.specs.Room.{bytes_in, has_place, in_area, kept_in, place_of, places, start_of};

use room::Message;
use wire::MESSAGE_LIMIT;

// "4 reply areas, 4 incoming areas": as many as there are places of each kind.
const PLACES: usize = 4;

// "4,096 each": the bytes of an area, as many as the longest message has.
const AREA: usize = MESSAGE_LIMIT;

// "Lent room is 36,864 bytes": an area for each place, and one for the message being sent.
const ROOM: usize = 36864;

// Whether a message has a place: the one being sent always has.
#[tactic(auto, unfolding(room::specs::Room::has_place))]
fn has_place(message: Message) -> bool
    ensures { result ≡ has_place message }
{
    match message {
        Message::Reply(place) | Message::Incoming(place) => place < PLACES,
        Message::Send => true,
    }
}

// Whether `n` bytes from `offset` on are within an area. The sum of the two is never made: it may be too large.
#[tactic(auto, unfolding(room::specs::Room::in_area))]
fn in_area(offset: usize, n: usize) -> bool
    ensures { result ≡ in_area offset n }
{
    offset <= AREA && n <= AREA - offset
}

// Whether the bytes of a message from `offset` on, `n` of them, lie in the room.
#[tactic(auto, unfolding(room::specs::Room::lies, room::specs::Room::whole_room))]
fn lies(room: &[u8], message: Message, offset: usize, n: usize) -> bool
    ensures { result ≡ Rattle.room.specs.Room.lies room.now message offset n }
{
    room.len() == ROOM && has_place(message) && in_area(offset, n)
}

// Where the area of a message starts: "4 reply areas, 4 incoming areas, 1 send area, .. in that order".
fn start(message: Message) -> usize
    requires { place_of message < places }
    ensures { result ≡ start_of message }
{
    let place = match message {
        Message::Reply(place) => place,
        Message::Incoming(place) => PLACES + place,
        Message::Send => PLACES + PLACES,
    };
    place * AREA
}

// Keeps `data` in the room as the bytes of a message from `offset` on. Where these do not lie in the room, it changes
// nothing.
#[tactic(auto, unfolding(room::specs::Room::kept_in, room::specs::Room::filled), using(room::proofs::Areas::tested, room::proofs::Areas::tested_end, wire::proofs::Lent::copied))]
pub fn keep(room: &mut [u8], message: Message, offset: usize, data: &[u8])
    ensures { room.new ≡ kept_in room.old message offset «data».now }
{
    if lies(room, message, offset, data.len()) {
        let at = start(message) + offset;
        room[at..at + data.len()].copy_from_slice(data);
    }
}

// The bytes of a message from `offset` on, `length` of them, as a part of the room. Where these do not lie in the
// room, it is the empty part.
#[tactic(auto, unfolding(room::specs::Room::bytes_in, room::specs::Room::bytes_at, wire::specs::Bytes::part), using(room::proofs::Areas::tested, room::proofs::Areas::tested_end))]
pub fn bytes_of(room: &[u8], message: Message, offset: usize, length: usize) -> &[u8]
    ensures { result.now ≡ bytes_in room.now message offset length }
{
    if lies(room, message, offset, length) {
        let from = start(message) + offset;
        &room[from..from + length]
    } else {
        &room[..0]
    }
}
