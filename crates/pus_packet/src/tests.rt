ghost use Rattle.std.specs.Prelude.{◌≤◌, ◌^◌, length};

use crate::{
    JoinFault, PacketFault, TcHeader, TmHeader, apid_of, crc16, join_tc, join_tm, packets,
    request_id, split_tc, split_tm,
};
use hk_base::{
    BUILTIN_WIDTHS, Form, Items, Memory, Param, RequestId, Tailoring, Widths, builtin, greatest_tag,
};
use std::alloc::Global;
use std::test::Fail;

/// A request of two octets: housekeeping structure 1 is to be enabled.
const REQUEST: TcHeader = TcHeader {
    apid: 100,
    count: 1,
    flags: 15,
    service: 3,
    subtype: 5,
    source: 1,
};

/// A report of three octets: the values of housekeeping structure 1.
const REPORT: TmHeader = TmHeader {
    apid: 100,
    count: 0,
    status: 0,
    service: 3,
    subtype: 25,
    counter: 0,
    destination: 1,
    tag: 16385,
};

const REQUEST_PACKET: [u8; 13] = [
    0x18, 0x64, 0xc0, 0x01, 0x00, 0x06, 0x2f, 0x03, 0x05, 0x00, 0x01, 0x01, 0x01,
];

const REPORT_PACKET: [u8; 22] = [
    0x08, 0x64, 0xc0, 0x00, 0x00, 0x0f, 0x20, 0x03, 0x19, 0x00, 0x00, 0x00, 0x01, 0x00, 0x00, 0x00,
    0x00, 0x40, 0x01, 0x01, 0x00, 0x2a,
];

const CHECKED_REQUEST: [u8; 15] = [
    0x18, 0x64, 0xc0, 0x01, 0x00, 0x08, 0x2f, 0x03, 0x05, 0x00, 0x01, 0x01, 0x01, 0x2a, 0xbe,
];

const CHECKED_REPORT: [u8; 24] = [
    0x08, 0x64, 0xc0, 0x00, 0x00, 0x11, 0x20, 0x03, 0x19, 0x00, 0x00, 0x00, 0x01, 0x00, 0x00, 0x00,
    0x00, 0x40, 0x01, 0x01, 0x00, 0x2a, 0x20, 0x59,
];

const CHECKED_WIDTHS: Widths = Widths {
    tc_checksum: true,
    tm_checksum: true,
    ..BUILTIN_WIDTHS
};

/// A tailoring with checksums in both directions.
fn checked(alloc: Global) -> Result<Tailoring, Memory> {
    let param = Param {
        id: 1,
        form: Form::Unsigned,
        octets: 2,
        bits: 16,
        initial: None,
    };
    let params = Items::from_vec(Vec::from_array(alloc, [param])?);
    let boots = Items::from_vec(Vec::new(alloc));
    Tailoring::new(alloc, CHECKED_WIDTHS, params, boots)
}

#[test]
fn checksums_are_those_of_other_programs(rt: HostRuntime) {
    packets();
    assert_eq!(rt; crc16(&[0, 0]), 0x1d0f);
    assert_eq!(rt; crc16(&[0, 0, 0]), 0xcc9c);
    assert_eq!(rt; crc16(&[0xab, 0xcd, 0xef, 0x01]), 0x04a2);
    assert_eq!(rt; crc16(b"123456789"), 0x29b1);
    assert_eq!(rt; crc16(&[]), 0xffff);
}

/// Whether the request and this body are joined into the packet, and the packet is split into them.
fn is_request(alloc: Global, tailoring: &Tailoring, body: &[u8], packet: &[u8]) -> bool
    requires { (length body.now ≤ 2 ^ 31) × (length packet.now ≤ 2 ^ 31) }
{
    match join_tc(alloc, tailoring, &REQUEST, body) {
        Ok(octets) => octets.as_slice() == packet
            && split_tc(tailoring, packet) == Ok((REQUEST, body)),
        Err(_) => false,
    }
}

/// Whether the report and this body are joined into the packet, and the packet is split into them.
fn is_report(alloc: Global, tailoring: &Tailoring, body: &[u8], packet: &[u8]) -> bool
    requires { (length body.now ≤ 2 ^ 31) × (length packet.now ≤ 2 ^ 31) }
{
    if greatest_tag(tailoring) < REPORT.tag {
        return false;
    }
    match join_tm(alloc, tailoring, &REPORT, body) {
        Ok(octets) => octets.as_slice() == packet
            && split_tm(tailoring, packet) == Ok((REPORT, body)),
        Err(_) => false,
    }
}

#[test]
fn packets_are_joined_and_split(rt: HostRuntime) -> Result<(), Fail> {
    let alloc = rt.alloc();
    let plain = builtin(alloc)?;
    assert!(rt; is_request(alloc, &plain, &[1, 1], &REQUEST_PACKET));
    assert!(rt; is_report(alloc, &plain, &[1, 0, 42], &REPORT_PACKET));
    let checked = checked(alloc)?;
    assert!(rt; is_request(alloc, &checked, &[1, 1], &CHECKED_REQUEST));
    assert!(rt; is_report(alloc, &checked, &[1, 0, 42], &CHECKED_REPORT));
    Ok(())
}

#[test]
fn requests_and_processes_are_named(rt: HostRuntime) {
    assert_eq!(rt; request_id(&REQUEST), RequestId { word: 0x1864_c001 });
    assert_eq!(rt; apid_of(&REPORT_PACKET[..6]), Some(100));
    assert_eq!(rt; apid_of(&REPORT_PACKET[..5]), None);
}

/// Why the request and this body can't be joined.
fn join_fault(alloc: Global, tailoring: &Tailoring, body: &[u8]) -> Option<JoinFault>
    requires { length body.now ≤ 2 ^ 31 }
{
    join_tc(alloc, tailoring, &REQUEST, body).err()
}

#[test]
fn a_packet_has_at_most_65542_octets(rt: HostRuntime) -> Result<(), Fail> {
    let alloc = rt.alloc();
    let plain = builtin(alloc)?;
    let body = vec![in alloc; 0u8; 65532]?;
    assert_eq!(rt;
        join_fault(alloc, &plain, &body),
        Some(JoinFault::TooLong(65543))
    );
    assert_eq!(rt; join_fault(alloc, &plain, &body[1..]), None);
    Ok(())
}

/// The packet with two of its octets changed.
fn changed<const N: usize>(packet: [u8; N], changes: [(usize, u8); 2]) -> [u8; N] {
    let mut octets = packet;
    for (place, octet) in changes {
        if let Some(old) = octets.get_mut(place) {
            *old = octet;
        }
    }
    octets
}

/// The first fault of octets that are to be a request.
fn request_fault(tailoring: &Tailoring, octets: &[u8]) -> Option<PacketFault>
    requires { length octets.now ≤ 2 ^ 31 }
{
    split_tc(tailoring, octets).err()
}

/// The first fault of octets that are to be a report.
fn report_fault(tailoring: &Tailoring, octets: &[u8]) -> Option<PacketFault>
    requires { length octets.now ≤ 2 ^ 31 }
{
    split_tm(tailoring, octets).err()
}

#[test]
fn the_first_fault_of_a_request_is_told(rt: HostRuntime) -> Result<(), Fail> {
    let alloc = rt.alloc();
    let plain = builtin(alloc)?;
    let table = [
        ([(5, 0x08), (0, 0x38)], PacketFault::Length(15, 13)),
        ([(0, 0x38), (2, 0x40)], PacketFault::Version(1)),
        ([(0, 0x08), (6, 0x1f)], PacketFault::Direction(0)),
        ([(0, 0x10), (2, 0x40)], PacketFault::NoSecondary),
        ([(2, 0x81), (6, 0x1f)], PacketFault::Segmented(2)),
        ([(6, 0x1f), (9, 0x07)], PacketFault::PusVersion(1)),
    ];
    for (changes, fault) in table {
        assert_eq!(rt;
            request_fault(&plain, &changed(REQUEST_PACKET, changes)),
            Some(fault)
        );
    }
    assert_eq!(rt;
        request_fault(&plain, &REQUEST_PACKET[..10]),
        Some(PacketFault::Short(10))
    );
    Ok(())
}

#[test]
fn the_first_fault_of_a_report_is_told(rt: HostRuntime) -> Result<(), Fail> {
    let alloc = rt.alloc();
    let plain = builtin(alloc)?;
    let table = [
        ([(5, 0x11), (6, 0x20)], PacketFault::Length(24, 22)),
        ([(0, 0x28), (5, 0x11)], PacketFault::Length(24, 22)),
        ([(0, 0xf8), (2, 0x40)], PacketFault::Version(7)),
        ([(0, 0x18), (6, 0x10)], PacketFault::Direction(1)),
        ([(0, 0x00), (2, 0x40)], PacketFault::NoSecondary),
        ([(2, 0x40), (6, 0x10)], PacketFault::Segmented(1)),
        ([(6, 0x30), (9, 0x07)], PacketFault::PusVersion(3)),
    ];
    for (changes, fault) in table {
        assert_eq!(rt;
            report_fault(&plain, &changed(REPORT_PACKET, changes)),
            Some(fault)
        );
    }
    assert_eq!(rt;
        report_fault(&plain, &REPORT_PACKET[..18]),
        Some(PacketFault::Short(18))
    );
    Ok(())
}

#[test]
fn a_wrong_checksum_is_told(rt: HostRuntime) -> Result<(), Fail> {
    let alloc = rt.alloc();
    let checked = checked(alloc)?;
    let request = changed(CHECKED_REQUEST, [(13, 0x2b), (14, 0xbe)]);
    assert_eq!(rt;
        request_fault(&checked, &request),
        Some(PacketFault::Checksum(0x2bbe, 0x2abe))
    );
    assert_eq!(rt;
        request_fault(&checked, &CHECKED_REQUEST[..12]),
        Some(PacketFault::Short(12))
    );
    let report = changed(CHECKED_REPORT, [(22, 0x20), (23, 0x58)]);
    assert_eq!(rt;
        report_fault(&checked, &report),
        Some(PacketFault::Checksum(0x2058, 0x2059))
    );
    assert_eq!(rt;
        report_fault(&checked, &CHECKED_REPORT[..20]),
        Some(PacketFault::Short(20))
    );
    Ok(())
}
