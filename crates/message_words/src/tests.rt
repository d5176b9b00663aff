ghost use Rattle.pus_messages.specs.Spelling.{IsRequestBody};

use crate::{WordsFault, read_words, report_words, request_words};
use hk_base::{BUILTIN_WIDTHS, Form, Items, Memory, Octets, Param, Tailoring, builtin};
use pus_messages::{Report, ReportBody, Request, RequestBody};
use pus_packet::{TcHeader, TmHeader};
use std::alloc::Global;
use std::test::Fail;

/// The body of a request, decoded.
fn request_body(
    alloc: Global,
    tailoring: &Tailoring,
    service: u8,
    subtype: u8,
    body: &[u8],
) -> Option<RequestBody> {
    if body.len() > 64 {
        return None;
    }
    if service == 3 && st03_grammar::knows_request(subtype) {
        let request = st03_grammar::decode_request(alloc, tailoring, subtype, body).ok()?;
        return Some(RequestBody::Hk(request));
    }
    if service == 4 && st04_grammar::knows_request(subtype) {
        let request = st04_grammar::decode_request(alloc, tailoring, subtype, body).ok()?;
        return Some(RequestBody::Stat(request));
    }
    if service == 20 && st20_grammar::knows_request(subtype) {
        let request = st20_grammar::decode_request(alloc, tailoring, subtype, body).ok()?;
        return Some(RequestBody::Par(request));
    }
    None
}

/// The words of the request with this header and this body.
fn words_of(alloc: Global, tailoring: &Tailoring, header: TcHeader, body: &[u8]) -> Option<Octets> {
    let body = request_body(alloc, tailoring, header.service, header.subtype, body)?;
    request_words(alloc, &Request { header, body }).ok()
}

fn write_body(tailoring: &Tailoring, body: &RequestBody, out: &mut Vec<u8>) -> Result<u8, Memory>
    requires { IsRequestBody tailoring.now body.now }
{
    match body {
        RequestBody::Hk(request) => st03_grammar::encode_request(tailoring, request, out),
        RequestBody::Stat(request) => st04_grammar::encode_request(tailoring, request, out),
        RequestBody::Par(request) => st20_grammar::encode_request(tailoring, request, out),
    }
}

/// The header of the request that a line is the words of, and its body.
fn read(alloc: Global, tailoring: &Tailoring, line: &str) -> Option<(TcHeader, Vec<u8>)> {
    let request = read_words(alloc, tailoring, line.as_bytes()).ok()?;
    let mut out = Vec::new(alloc);
    write_body(tailoring, &request.body, &mut out).ok()?;
    Some((request.header, out))
}

/// Whether the line is the words of that request, and is read as it.
fn is_line_of(
    alloc: Global,
    tailoring: &Tailoring,
    line: &str,
    header: TcHeader,
    body: &[u8],
) -> bool {
    let is_written = match words_of(alloc, tailoring, header, body) {
        Some(words) => words.as_slice() == line.as_bytes(),
        None => false,
    };
    let is_read = match read(alloc, tailoring, line) {
        Some((read_header, read_body)) => read_header == header && read_body.as_slice() == body,
        None => false,
    };
    is_written && is_read
}

/// The number in a word of a row.
fn number(word: Option<&str>) -> Option<u64> {
    word?.parse::<u64>().ok()
}

fn small_number(word: Option<&str>) -> Option<u8> {
    u8::try_from(number(word)?).ok()
}

/// The octets of a body, each two digits to the base 16.
fn octets_in(alloc: Global, digits: &str) -> Option<Vec<u8>> {
    let mut octets = Vec::new(alloc);
    let mut high = None;
    for digit in digits.as_bytes() {
        let value = if *digit < 58 {
            digit.saturating_sub(48)
        } else {
            digit.saturating_sub(87)
        };
        high = match high {
            None => Some(value),
            Some(front) => {
                octets
                    .push(u8::wrapping_mul(front, 16).wrapping_add(value))
                    .ok()?;
                None
            }
        };
    }
    Some(octets)
}

/// Whether a row `LINE = COUNT FLAGS SERVICE SUBTYPE BODY` is right both ways.
fn is_request_row(alloc: Global, tailoring: &Tailoring, row: &str) -> Option<bool> {
    let (line, told) = row.split_once(" = ")?;
    let mut words = told.split(' ');
    let header = TcHeader {
        apid: 100,
        count: u16::try_from(number(words.next())?).ok()?,
        flags: small_number(words.next())?,
        service: small_number(words.next())?,
        subtype: small_number(words.next())?,
        source: 1,
    };
    let body = octets_in(alloc, words.next()?)?;
    Some(is_line_of(alloc, tailoring, line, header, &body))
}

const REQUESTS: &str = "0 f interval hk 2 4 = 0 15 3 31 01020004
9 2 interval diag 1 2 3 4096 = 9 2 3 32 02010002031000
5 0 create hk 9 interval 8 simple 1 array 4 3 2 = 5 0 3 1 09000801000101040200030002
7 3 create diag 255 interval 4096 array 1 16 = 7 3 3 2 ff1000000101010010
16383 a append hk 3 simple 10 11 10 = 16383 10 3 29 0303000a000b000a00
1 1 append diag 1 array 7 4 array 9 5 = 1 1 3 30 0100020701000409010005
1 9 delete hk 1 200 = 1 9 3 3 0201c8
2 f delete diag 0 = 2 15 3 4 0100
3 f enable hk 3 = 3 15 3 5 0103
4 f disable hk 3 = 4 15 3 6 0103
5 f enable diag 1 2 3 = 5 15 3 7 03010203
6 f disable diag 1 = 6 15 3 8 0101
7 f structures hk 2 = 7 15 3 9 0102
8 f structures diag 1 = 8 15 3 11 0101
9 f oneshot hk 1 = 9 15 3 27 0101
10 f oneshot diag 1 = 10 15 3 28 0101
11 f periodic hk 2 1 = 11 15 3 33 020201
12 f periodic diag 4 = 12 15 3 34 0104
20 f stat-report 0 = 20 15 4 1 00
20 f stat-report 1 = 20 15 4 1 01
20 f stat-reset = 20 15 4 3 
20 f stat-enable 300 = 20 15 4 4 012c
20 f stat-disable = 20 15 4 5 
20 f stat-add 1 = 20 15 4 6 010001
20 f stat-delete 6 2 = 20 15 4 7 0200060002
20 f stat-delete all = 20 15 4 7 00
20 f stat-definitions = 20 15 4 8 
20 f report-values 4 5 = 20 15 20 1 0200040005
20 f set 7 500 = 20 15 20 3 01000701f4";

#[test]
fn requests_have_words(rt: HostRuntime) -> Result<(), Fail> {
    let tailoring = builtin(rt.alloc())?;
    for row in REQUESTS.lines() {
        assert_eq!(rt;
            is_request_row(rt.alloc(), &tailoring, row),
            Some(true),
            "{row}"
        );
    }
    Ok(())
}

/// A tailoring with one settable parameter, a signed one of one octet.
fn settable(alloc: Global) -> Result<Tailoring, Memory> {
    let param = Param {
        id: 2,
        form: Form::Signed,
        octets: 1,
        bits: 8,
        initial: Some(0),
    };
    let params = Items::from_vec(Vec::from_array(alloc, [param])?);
    let boots = Items::from_vec(Vec::new(alloc));
    Tailoring::new(alloc, BUILTIN_WIDTHS, params, boots)
}

const SETTINGS: &str = "0 f set 2 -3 = 0 15 20 3 010002fd
1 0 set 2 -128 = 1 0 20 3 01000280
2 1 set 2 127 = 2 1 20 3 0100027f";

const OTHER_SETTINGS: &str = "0 f set 2 128
0 f set 2 -129
0 f set 2 -0
0 f set 2 - 3 1
0 f set 2 --1
0 f set 2 18446744073709551616
0 f set 2 340282366920938463463374607431768211453";

#[test]
fn values_have_words(rt: HostRuntime) -> Result<(), Fail> {
    let tailoring = settable(rt.alloc())?;
    for row in SETTINGS.lines() {
        assert_eq!(rt;
            is_request_row(rt.alloc(), &tailoring, row),
            Some(true),
            "{row}"
        );
    }
    for line in OTHER_SETTINGS.lines() {
        assert!(rt;
            has_no_form(rt.alloc(), &tailoring, line.as_bytes()),
            "{line}"
        );
    }
    Ok(())
}

/// Whether the line is the words of no request.
fn has_no_form(alloc: Global, tailoring: &Tailoring, line: &[u8]) -> bool {
    matches!(read_words(alloc, tailoring, line), Err(WordsFault::Form))
}

const OTHER_LINES: &str = "
 
0
0 f
0 f 
0  f stat-reset
 0 f stat-reset
0 f stat-reset 
0 f  stat-reset
00 f stat-reset
+0 f stat-reset
-0 f stat-reset
16384 f stat-reset
4294967296 f stat-reset
x f stat-reset
0 F stat-reset
0 g stat-reset
0 0f stat-reset
0 10 stat-reset
0 f stat-rese
0 f Stat-reset
0 f stat-reset 1
0 f stät-reset
0 f enable hk 99999
0 f enable hk 256
0 f enable hk
0 f enable 1
0 f enable HK 1
0 f enable hk 01
0 f enable hk 1 1
0 f interval hk 2
0 f interval hk 2 0
0 f interval hk 2 4097
0 f interval hk 2 4 3
0 f interval hk 2 4 2 8
0 f create hk 9 interval 4
0 f create hk 9 interval 4 simple
0 f create hk 9 4 simple 1
0 f create hk 9 simple 1
0 f create hk 9 interval 0 simple 1
0 f create hk 9 interval 4 simple 8
0 f create hk 9 interval 4 array 3 1
0 f create hk 9 interval 4 array 0 1
0 f create hk 9 interval 4 array 2
0 f create hk 9 interval 4 array
0 f create hk 9 interval 4 array 2 1 simple 1
0 f append hk 1
0 f stat-report 2
0 f stat-report
0 f stat-enable 0
0 f stat-add 4
0 f stat-delete
0 f stat-delete all 1
0 f report-values 1 1
0 f report-values 65536
0 f set 1 5
0 f set 7 65536";

#[test]
fn other_lines_have_no_form(rt: HostRuntime) -> Result<(), Fail> {
    let tailoring = builtin(rt.alloc())?;
    for line in OTHER_LINES.lines() {
        assert!(rt;
            has_no_form(rt.alloc(), &tailoring, line.as_bytes()),
            "{line}"
        );
    }
    assert!(rt; has_no_form(rt.alloc(), &tailoring, b"0 f stat-reset\r"));
    assert!(rt; has_no_form(rt.alloc(), &tailoring, b"0 f stat-reset\n"));
    assert!(rt; has_no_form(rt.alloc(), &tailoring, b"0 f stat-reset\xff"));
    Ok(())
}

/// The body of a report, decoded.
fn report_body(
    alloc: Global,
    tailoring: &Tailoring,
    service: u8,
    subtype: u8,
    body: &[u8],
) -> Option<ReportBody> {
    if body.len() > 64 {
        return None;
    }
    if service == 1 && st01_reports::knows(subtype) {
        let report = st01_reports::decode(alloc, tailoring, subtype, body).ok()?;
        return Some(ReportBody::Verify(report));
    }
    if service == 3 && st03_grammar::knows_report(subtype) {
        let report = st03_grammar::decode_report(alloc, tailoring, subtype, body).ok()?;
        return Some(ReportBody::Hk(report));
    }
    if service == 4 && st04_grammar::knows_report(subtype) {
        let report = st04_grammar::decode_report(alloc, tailoring, subtype, body).ok()?;
        return Some(ReportBody::Stat(report));
    }
    if service == 20 && st20_grammar::knows_report(subtype) {
        let report = st20_grammar::decode_report(alloc, tailoring, subtype, body).ok()?;
        return Some(ReportBody::Par(report));
    }
    None
}

/// Whether the line is the words of the report of that type with that body.
fn is_line_of_report(
    alloc: Global,
    tailoring: &Tailoring,
    line: &str,
    tag: u64,
    service: u8,
    subtype: u8,
    body: &[u8],
) -> bool {
    let Some(body) = report_body(alloc, tailoring, service, subtype, body) else {
        return false;
    };
    let header = TmHeader {
        apid: 100,
        count: 0,
        status: 0,
        service,
        subtype,
        counter: 0,
        destination: 1,
        tag,
    };
    match report_words(alloc, &Report { header, body }) {
        Ok(words) => words.as_slice() == line.as_bytes(),
        Err(_) => false,
    }
}

/// Whether a row `LINE = TAG SERVICE SUBTYPE BODY` is right.
fn is_report_row(alloc: Global, tailoring: &Tailoring, row: &str) -> Option<bool> {
    let (line, told) = row.split_once(" = ")?;
    let mut words = told.split(' ');
    let tag = number(words.next())?;
    let service = small_number(words.next())?;
    let subtype = small_number(words.next())?;
    let body = octets_in(alloc, words.next()?)?;
    Some(is_line_of_report(alloc, tailoring, line, tag, service, subtype, &body))
}

const REPORTS: &str = "5 1.1 request 1864c000 = 5 1 1 1864c000
6 1.2 request 1864c000 code 6 detail 196616 = 6 1 2 1864c000000600030008
7 1.3 request 0864ffff = 7 1 3 0864ffff
20483 1.4 request 1864c001 code 103 detail 0 = 20483 1 4 1864c001006700000000
281474976710655 1.5 request 1864c00a step 255 = 281474976710655 1 5 1864c00aff
5 1.6 request 1864c000 step 2 code 102 detail 0 = 5 1 6 1864c00002006600000000
28676 1.7 request 1864c000 = 28676 1 7 1864c000
20484 1.8 request 1864c000 code 200 refused 2 refused 3 = 20484 1 8 1864c00000c8020203
0 1.10 request 1864c000 code 1 detail 4294967295 = 0 1 10 1864c0000001ffffffff
36868 3.10 hk 2 enabled interval 4 simple 1 array 4 3 = 36868 3 10 020100040100010104010003
9 3.12 diag 1 disabled interval 1 simple 4 5 = 9 3 12 01000001020004000500
16385 3.25 hk 1 octets 2 = 16385 3 25 01002a
16386 3.26 diag 1 octets 0 = 16386 3 26 01
10 3.35 hk 1 enabled 4 3 disabled 2 = 10 3 35 020101000403000002
11 3.36 diag 1 disabled 1 = 11 3 36 0101000001
8200 4.2 rows 1 = 8200 4 2 00000000000000000000200801000200000002fd000000000000fc000000001000fc
12 4.9 rows 2 = 12 4 9 0100040200010002
8201 20.2 rows 1 = 8201 20 2 01000701f4";

#[test]
fn reports_have_words(rt: HostRuntime) -> Result<(), Fail> {
    let tailoring = builtin(rt.alloc())?;
    for row in REPORTS.lines() {
        assert_eq!(rt;
            is_report_row(rt.alloc(), &tailoring, row),
            Some(true),
            "{row}"
        );
    }
    Ok(())
}
