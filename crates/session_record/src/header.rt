//! The header of a record.
ghost use Rattle.std.specs.Prelude.{◌≡◌, length};
ghost use Rattle.session_record.specs.Records.{header_in, header_octets};

/// What a header says: whether the board's state at the start is known, and whether counts of requests are used again.
#[derive(Clone, Copy, Debug, PartialEq, Eq, Drop)]
pub struct Header {
    pub known: bool,
    pub long: bool,
}

/// How many octets a header has.
pub(crate) const HEADER_OCTETS: usize = 8;

const KNOWN: [u8; HEADER_OCTETS] = *b"HKREC1K\n";

const UNKNOWN: [u8; HEADER_OCTETS] = *b"HKREC1U\n";

const KNOWN_LONG: [u8; HEADER_OCTETS] = *b"HKREC2K\n";

const UNKNOWN_LONG: [u8; HEADER_OCTETS] = *b"HKREC2U\n";

impl Header {
    /// The octets that spell it.
    pub(crate) fn octets(self) -> [u8; HEADER_OCTETS]
        ensures { result ≡ header_octets self }
    {
        match (self.known, self.long) {
            (true, false) => KNOWN,
            (false, false) => UNKNOWN,
            (true, true) => KNOWN_LONG,
            (false, true) => UNKNOWN_LONG,
        }
    }

    /// The header that octets begin with.
    pub(crate) fn at_front(octets: &[u8]) -> Option<Header>
        ensures { result ≡ header_in octets.now }
    {
        let first = &octets[..octets.len().min(HEADER_OCTETS)];
        if first == KNOWN.as_slice() {
            Some(Header {
                known: true,
                long: false,
            })
        } else if first == UNKNOWN.as_slice() {
            Some(Header {
                known: false,
                long: false,
            })
        } else if first == KNOWN_LONG.as_slice() {
            Some(Header {
                known: true,
                long: true,
            })
        } else if first == UNKNOWN_LONG.as_slice() {
            Some(Header {
                known: false,
                long: true,
            })
        } else {
            None
        }
    }
}
