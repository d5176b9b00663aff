ghost use Rattle.std.specs.Prelude.{IfOk};
ghost use Rattle.std.specs.Option.{option_copied};
ghost use Rattle.report_structures.specs.Changes.{IsFormedState};

use crate::checks::check_few;
use crate::{ApplyFault, Refusal, apply, changes_of_requests};
use hk_base::{Key, Kind, Structure, Tailoring, builtin};
use st03_grammar::{decode_request, knows_request};
use std::alloc::Global;
use std::test::Fail;

const FIRST: Key = Key {
    kind: Kind::Housekeeping,
    id: 1,
};

/// What the first instruction of a request makes of a structure.
fn outcome(
    alloc: Global,
    tailoring: &Tailoring,
    subtype: u8,
    body: &[u8],
    before: Option<&Structure>,
) -> Result<Option<Structure>, ApplyFault>
    requires { IsFormedState tailoring.now (option_copied before) }
    ensures { IfOk result (IsFormedState tailoring.now) }
{
    if !knows_request(subtype) || body.len() > 32 {
        return Err(ApplyFault::Memory);
    }
    let Ok(request) = decode_request(alloc, tailoring, subtype, body) else {
        return Err(ApplyFault::Memory);
    };
    changes_of_requests();
    match request.at(1) {
        Some((_, change)) => apply(alloc, tailoring, change, before),
        None => Err(ApplyFault::Memory),
    }
}

/// A structure that a test begins with: none, the first one of the tailoring, or that one disabled.
#[derive(Clone, Copy, Drop)]
enum Start {
    Absent,
    First,
    Disabled,
}

/// What the first instruction of a request makes of a structure.
fn changed(
    alloc: Global,
    tailoring: &Tailoring,
    start: Start,
    subtype: u8,
    body: &[u8],
) -> Result<Option<Structure>, ApplyFault>
    ensures { IfOk result (IsFormedState tailoring.now) }
{
    match start {
        Start::Absent => outcome(alloc, tailoring, subtype, body, None),
        Start::First => outcome(alloc, tailoring, subtype, body, tailoring.boot(FIRST)),
        Start::Disabled => match outcome(alloc, tailoring, 6, &[1, 1], tailoring.boot(FIRST))? {
            Some(disabled) => outcome(alloc, tailoring, subtype, body, Some(&disabled)),
            None => Ok(None),
        },
    }
}

/// Why the first instruction of a request is refused.
fn refusal(
    alloc: Global,
    tailoring: &Tailoring,
    start: Start,
    subtype: u8,
    body: &[u8],
) -> Option<Refusal> {
    match changed(alloc, tailoring, start, subtype, body) {
        Err(ApplyFault::Refused(refusal)) => Some(refusal),
        _ => None,
    }
}

/// Whether the structure that is left is enabled, and the size of its payload.
fn left(
    alloc: Global,
    tailoring: &Tailoring,
    start: Start,
    subtype: u8,
    body: &[u8],
) -> Option<(bool, u32)> {
    match changed(alloc, tailoring, start, subtype, body) {
        Ok(Some(after)) => Some((after.enabled, tailoring.payload_size(&after.def))),
        _ => None,
    }
}

#[test]
fn changes_are_refused(rt: HostRuntime) -> Result<(), Fail> {
    let tailoring = builtin(rt.alloc())?;
    let wide = [9, 0, 255, 3, 0, 1, 0, 7, 0, 3, 1, 255, 1, 0, 6];
    let rows: [(Start, u8, &[u8], Refusal); 9] = [
        (Start::First, 1, &[1, 0, 4, 1, 0, 1, 0], Refusal::Exists),
        (Start::First, 3, &[1, 1], Refusal::Enabled),
        (Start::First, 29, &[1, 1, 0, 2, 0], Refusal::Enabled),
        (Start::Disabled, 29, &[1, 1, 0, 1, 0], Refusal::Doubled(1)),
        (
            Start::Disabled,
            29,
            &[1, 0, 1, 3, 1, 0, 10],
            Refusal::BadRepetition(3, 4),
        ),
        (Start::Absent, 1, &wide, Refusal::TooWide(1025)),
        (
            Start::Absent,
            1,
            &[9, 0, 4, 2, 0, 1, 0, 1, 0],
            Refusal::Doubled(1),
        ),
        (Start::Absent, 3, &[1, 9], Refusal::Absent),
        (Start::Absent, 31, &[1, 9, 0, 4], Refusal::Absent),
    ];
    for (start, subtype, body, expected) in rows {
        let found = refusal(rt.alloc(), &tailoring, start, subtype, body);
        assert_eq!(rt; found, Some(expected), "subtype {subtype}");
    }
    Ok(())
}

#[test]
fn changes_are_made(rt: HostRuntime) -> Result<(), Fail> {
    let tailoring = builtin(rt.alloc())?;
    let wide = [9, 0, 255, 2, 0, 1, 0, 7, 1, 255, 1, 0, 6];
    let rows: [(Start, u8, &[u8], (bool, u32)); 4] = [
        (Start::Absent, 1, &wide, (false, 1024)),
        (
            Start::Disabled,
            29,
            &[1, 1, 0, 2, 1, 2, 1, 0, 10],
            (false, 5),
        ),
        (Start::Disabled, 5, &[1, 1], (true, 2)),
        (Start::First, 9, &[1, 1], (true, 2)),
    ];
    for (start, subtype, body, expected) in rows {
        let found = left(rt.alloc(), &tailoring, start, subtype, body);
        assert_eq!(rt; found, Some(expected), "subtype {subtype}");
    }
    Ok(())
}

#[test]
fn lists_have_at_most_255_members(rt: HostRuntime) {
    assert_eq!(rt; check_few(255), Ok(()));
    assert_eq!(rt; check_few(256), Err(Refusal::TooMany(256)));
}
