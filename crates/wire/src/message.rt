// How long a message is (01, "Messages").

// The most data bytes of a message: "Total data above 4,096" is refused, and breaks one that arrives.
pub const MESSAGE_LIMIT: usize = 4096;

// The highest number that the next block of a message can have while the message arrives: each of its blocks so far has a byte at
// least.
pub const NEXT_LIMIT: u32 = 4097;
