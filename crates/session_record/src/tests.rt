ghost use Rattle.std.specs.Prelude.{◌<◌, ◌≤◌};

use crate::{Entry, RecordFault, RecordReader, RecordWriter};
use hk_base::{Items, MemShelf, MemSink, Memory, Shelf};
use std::alloc::Global;
use std::process::Abort;
use std::test::Fail;

/// A header with known start, and one packet that was received.
const RECORD: [u8; 35] = [
    0x48, 0x4b, 0x52, 0x45, 0x43, 0x31, 0x4b, 0x0a, 0x47, 0x00, 0x00, 0x00, 0x16, 0x08, 0x64, 0xc0,
    0x00, 0x00, 0x0f, 0x20, 0x03, 0x19, 0x00, 0x00, 0x00, 0x01, 0x00, 0x00, 0x00, 0x00, 0x40, 0x01,
    0x01, 0x00, 0x2a,
];

/// A shelf with the octets selected, whose listed calls fail: the first read is call 2.
fn shelf_of(
    alloc: Global,
    rt: &impl Abort,
    octets: &[u8],
    failing: &[u32],
    most: u32,
) -> Result<MemShelf, Memory>
    requires { 1 ≤ most }
{
    let name = Items::from_slice(alloc, b"record".as_slice())?;
    let file = (name, Items::from_slice(alloc, octets)?);
    let files = Items::from_vec(Vec::from_array(alloc, [file])?);
    let mut shelf = MemShelf::new(files, Items::from_slice(alloc, failing)?, most);
    assert!(rt; shelf.select("record").is_ok());
    Ok(shelf)
}

/// The packet of `RECORD` comes at offset 8.
fn is_packet(answer: &Result<Option<(u64, Entry)>, RecordFault>) -> bool {
    match answer {
        Ok(Some((8, Entry::Got(packet)))) => packet.as_slice() == &RECORD[13..],
        _ => false,
    }
}

fn is_end(answer: &Result<Option<(u64, Entry)>, RecordFault>) -> bool {
    matches!(answer, Ok(None))
}

/// Reads `RECORD` with a buffer of `most` octets from a shelf that gives `given` octets at a time.
fn read_in_pieces(alloc: Global, rt: &impl Abort, most: u32, given: u32) -> Result<(), Fail>
    requires buffer { 0 < most }
    requires pieces { 1 ≤ given }
{
    let mut shelf = shelf_of(alloc, rt, &RECORD, &[], given)?;
    let mut reader = RecordReader::new(alloc, most)?;
    assert_eq!(rt; reader.known_start(), None);
    assert!(rt; is_packet(&reader.next(&mut shelf)));
    assert_eq!(rt; reader.known_start(), Some(true));
    assert_eq!(rt; reader.long_session(), Some(false));
    assert!(rt; is_end(&reader.next(&mut shelf)));
    assert!(rt; is_end(&reader.next(&mut shelf)));
    Ok(())
}

#[test]
fn pieces_of_one_octet(rt: HostRuntime) -> Result<(), Fail> {
    read_in_pieces(rt.alloc(), &rt, 1, 4096)
}

#[test]
fn one_piece(rt: HostRuntime) -> Result<(), Fail> {
    read_in_pieces(rt.alloc(), &rt, 4096, 4096)
}

#[test]
fn a_shelf_that_gives_one_octet(rt: HostRuntime) -> Result<(), Fail> {
    read_in_pieces(rt.alloc(), &rt, 4096, 1)
}

/// A read that fails loses nothing: the next call gives what would have come.
#[test]
fn reads_that_fail(rt: HostRuntime) -> Result<(), Fail> {
    for failing in 2..=5u32 {
        let mut shelf = shelf_of(rt.alloc(), &rt, &RECORD, &[failing], 10)?;
        let mut reader = RecordReader::new(rt.alloc(), 16)?;
        let answer = reader.next(&mut shelf);
        assert_eq!(rt; answer.err(), Some(RecordFault::ReadFault));
        assert!(rt; is_packet(&reader.next(&mut shelf)));
        assert!(rt; is_end(&reader.next(&mut shelf)));
    }
    Ok(())
}

/// Faults of the octets, each answered from then on.
#[test]
fn faults(rt: HostRuntime) -> Result<(), Fail> {
    let bad_kind = [0x48, 0x4b, 0x52, 0x45, 0x43, 0x31, 0x4b, 0x0a, 0x58];
    let too_long = [
        0x48, 0x4b, 0x52, 0x45, 0x43, 0x32, 0x55, 0x0a, 0x47, 0xff, 0xff, 0xff, 0xff,
    ];
    let cases: [(&[u8], RecordFault); 4] = [
        (&RECORD[..34], RecordFault::Cut(8)),
        (&bad_kind, RecordFault::BadKind(0x58, 8)),
        (&too_long, RecordFault::TooLong(8)),
        (&RECORD[..3], RecordFault::BadMagic),
    ];
    for (octets, fault) in cases {
        let mut shelf = shelf_of(rt.alloc(), &rt, octets, &[], 64)?;
        let mut reader = RecordReader::new(rt.alloc(), 64)?;
        assert_eq!(rt; reader.next(&mut shelf).err(), Some(fault));
        assert_eq!(rt; reader.next(&mut shelf).err(), Some(fault));
    }
    Ok(())
}

/// What is written is the record, whatever pieces the sink takes.
#[test]
fn written(rt: HostRuntime) -> Result<(), Fail> {
    let mut sink = MemSink::new(rt.alloc(), Items::from_slice(rt.alloc(), &[])?, 3, 64)?;
    RecordWriter::begin(&mut sink, true, false)?;
    let packet = Items::from_slice(rt.alloc(), &RECORD[13..])?;
    RecordWriter::put(&mut sink, &Entry::Got(packet))?;
    assert_eq!(rt; sink.taken(), RECORD.as_slice());
    RecordWriter::begin(&mut sink, false, true)?;
    assert_eq!(rt; &sink.taken()[35..], b"HKREC2U\n".as_slice());
    Ok(())
}
