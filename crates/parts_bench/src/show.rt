// What more than one command prints.
use std::{fmt, io};

// Bytes in hex, or `-` where there are none.
#[derive(Clone, Copy)]
pub(crate) struct Hex<'a>(pub(crate) &'a [u8]);

impl fmt::Display for Hex<'_> {
    fn fmt<W: fmt::Write>(&self, f: &mut fmt::Formatter<W>) -> fmt::Result {
        if self.0.is_empty() {
            return f.write_str("-");
        }
        for byte in self.0 {
            write!(f, "{byte:02X}")?;
        }
        Ok(())
    }
}

// What a line that can't be read is answered by. As bytes: a format is half of what such a line costs.
pub(crate) fn unreadable(rt: &impl Print) -> io::Result<()> {
    rt.write_all(b"?")
}
