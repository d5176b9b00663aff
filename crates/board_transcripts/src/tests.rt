//! What boards do. The lines were worked out from the formats of packets and from the rules of the services.
use crate::replay::replayed;
use std::process::Abort;
use std::test::Fail;

/// The repetition number of an array that does not divide the interval, and a message type that is not known.
#[test]
fn bad_requests_are_turned_away(rt: HostRuntime) -> Result<(), Fail> {
    assert_eq!(rt;
        replayed(rt.alloc(), BAD_REQUESTS_ARE_TURNED_AWAY)?.as_str(),
        BAD_REQUESTS_ARE_TURNED_AWAY
    );
    Ok(())
}

const BAD_REQUESTS_ARE_TURNED_AWAY: &str = "\
uplink 1864c000000d2f03010001090008000103010003, waiting
  Ok(1) 0
    1 turned-away 0 packet 0864c0000016200102000000010000000000011864c000000600030008
uplink 1864c00100042f11010001
  Ok(1)
    2 turned-away 1 packet 0864c0010016200102000100010000000000021864c001003200001101
";

/// Octets that are no packet, a packet that came before or of another application process or source, and a lower count.
#[test]
fn others_are_discarded(rt: HostRuntime) -> Result<(), Fail> {
    assert_eq!(rt;
        replayed(rt.alloc(), OTHERS_ARE_DISCARDED)?.as_str(),
        OTHERS_ARE_DISCARDED
    );
    Ok(())
}

const OTHERS_ARE_DISCARDED: &str = "\
uplink 1864c000
  Ok(0)
uplink 1864c00700062f030500010103
  Ok(1)
    1 accepted 7 packet 0864c0000010200101000000010000000000011864c007
uplink 1864c00700062f030500010103
  Ok(0)
uplink 1865c00800062f030500010103
  Ok(0)
uplink 1864c00800062f030500020103
  Ok(0)
uplink 1864c00600062f030500010103
  Ok(0)
uplink 1864c00900062f030500010103, waiting
  Ok(1) 2
    2 accepted 9 packet 0864c0010010200101000100010000000000021864c009
";

/// A value that is not there, one that is set, and its report.
#[test]
fn values_are_set_and_reported(rt: HostRuntime) -> Result<(), Fail> {
    assert_eq!(rt;
        replayed(rt.alloc(), VALUES_ARE_SET_AND_REPORTED)?.as_str(),
        VALUES_ARE_SET_AND_REPORTED
    );
    Ok(())
}

const VALUES_ARE_SET_AND_REPORTED: &str = "\
value 1, uplink 1864c00000072f14010001010001, work, waiting
  None Ok(1) Ok(1) 0
    1 accepted 0 packet 0864c0000010200101000000010000000000011864c000
    2 not-started 0 packet 0864c0010016200104000000010000000000021864c000006c00000001
value 7, uplink 1864c0010009201403000101000701f4, work, work, work, work, value 7
  Some(100) Ok(1) Ok(1) Ok(1) Ok(1) Ok(0) Some(500)
    3 accepted 1
    4 started 1
    5 executed 1 1 done
    6 completed 1
uplink 1864c00200072014010001010007, work, work, work
  Ok(1) Ok(1) Ok(2) Ok(1)
    7 accepted 2
    8 started 2
    9 executed 2 1 done
    10 emitted packet 0864c00200112014020000000100000000000a01000701f4
    11 completed 2
";

/// The second structure is enabled, and is not deleted. The first one is gone when the next request begins.
#[test]
fn refused_instructions_are_told(rt: HostRuntime) -> Result<(), Fail> {
    assert_eq!(rt;
        replayed(rt.alloc(), REFUSED_INSTRUCTIONS_ARE_TOLD)?.as_str(),
        REFUSED_INSTRUCTIONS_ARE_TOLD
    );
    Ok(())
}

const REFUSED_INSTRUCTIONS_ARE_TOLD: &str = "\
uplink 1864c00000072f03030001020301, uplink 1864c001000620030500010103, waiting
  Ok(1) Ok(1) 2
    1 accepted 0 packet 0864c0000010200101000000010000000000011864c000
    2 accepted 1
hk 3, work, work, hk 3, work, hk 1, work, waiting, work, waiting
  false 2 Ok(1) Ok(1) none Ok(1) true 4 Ok(1) 1 Ok(1) 0
    3 started 0 packet 0864c0010010200103000000010000000000031864c000
    4 executed 0 1 done packet 0864c0020011200105000000010000000000041864c00001
    5 executed 0 2 refused packet 0864c0030017200106000000010000000000051864c00002006700000000
    6 completed 0 2 packet 0864c0040014200108000000010000000000061864c00000c80102
    7 not-started 1 packet 0864c0050016200104000000010000000000071864c001006600000000
";

/// Its interval begins in slot 1. The sample of the last slot is reported.
#[test]
fn enabled_structure_is_reported(rt: HostRuntime) -> Result<(), Fail> {
    assert_eq!(rt;
        replayed(rt.alloc(), ENABLED_STRUCTURE_IS_REPORTED)?.as_str(),
        ENABLED_STRUCTURE_IS_REPORTED
    );
    Ok(())
}

const ENABLED_STRUCTURE_IS_REPORTED: &str = "\
uplink 1864c00000062f030500010103, work, work, work
  Ok(1) Ok(1) Ok(1) Ok(1)
    1 accepted 0 packet 0864c0000010200101000000010000000000011864c000
    2 started 0 packet 0864c0010010200103000000010000000000021864c000
    3 executed 0 1 done
    4 completed 0 packet 0864c0020010200107000000010000000000041864c000
close, close, filed 6, file 6 9, filed 6
  Ok(1) Ok(1) false Ok(1) true
    4096 filed 7 0 100
    8192 filed 7 1 100
    8193 filed 6 2 9
file 6 9, value 6, slot, close, value 6, slot, filed 6
  no event Some(9) 2 Ok(2) Some(9) 3 false
    12288 filed 7 2 100
    12289 emitted packet 0864c0030011200319000000010000000030010300000009
";

/// A sample is missing.
#[test]
fn incomplete_structure_is_not_reported(rt: HostRuntime) -> Result<(), Fail> {
    assert_eq!(rt;
        replayed(rt.alloc(), INCOMPLETE_STRUCTURE_IS_NOT_REPORTED)?.as_str(),
        INCOMPLETE_STRUCTURE_IS_NOT_REPORTED
    );
    Ok(())
}

const INCOMPLETE_STRUCTURE_IS_NOT_REPORTED: &str = "\
uplink 1864c00000062f030500010103, work, work, work, close, close
  Ok(1) Ok(1) Ok(1) Ok(1) Ok(1) Ok(1)
    1 accepted 0 packet 0864c0000010200101000000010000000000011864c000
    2 started 0 packet 0864c0010010200103000000010000000000021864c000
    3 executed 0 1 done
    4 completed 0 packet 0864c0020010200107000000010000000000041864c000
    4096 filed 7 0 100
    8192 filed 7 1 100
close
  Ok(1)
    12288 filed 7 2 100
";

/// The interval of structure 2 becomes 4 in slot 2, so it is reported at the end of slot 6.
#[test]
fn changed_interval_begins_anew(rt: HostRuntime) -> Result<(), Fail> {
    assert_eq!(rt;
        replayed(rt.alloc(), CHANGED_INTERVAL_BEGINS_ANEW)?.as_str(),
        CHANGED_INTERVAL_BEGINS_ANEW
    );
    Ok(())
}

const CHANGED_INTERVAL_BEGINS_ANEW: &str = "\
file 1 10, file 3 20, close
  Ok(1) Ok(1) Ok(1)
    1 filed 1 0 10
    2 filed 3 0 20
    4096 filed 7 0 100
file 1 11, file 3 21, close
  Ok(1) Ok(1) Ok(1)
    4097 filed 1 1 11
    4098 filed 3 1 21
    8192 filed 7 1 100
uplink 1864c000000820031f000101020004, work, work, work, hk 2
  Ok(1) Ok(1) Ok(1) Ok(1) true 4
    8193 accepted 0
    8194 started 0
    8195 executed 0 1 done
    8196 completed 0
file 1 12, file 3 22, close
  Ok(1) Ok(1) Ok(1)
    8197 filed 1 2 12
    8198 filed 3 2 22
    12288 filed 7 2 100
file 1 13, file 3 23, close
  Ok(1) Ok(1) Ok(2)
    12289 filed 1 3 13
    12290 filed 3 3 23
    16384 filed 7 3 100
    16385 emitted packet 0864c000000f2003190000000100000000400101000d
file 1 14, file 3 24, close
  Ok(1) Ok(1) Ok(1)
    16386 filed 1 4 14
    16387 filed 3 4 24
    20480 filed 7 4 100
file 1 15, file 3 25, close
  Ok(1) Ok(1) Ok(1)
    20481 filed 1 5 15
    20482 filed 3 5 25
    24576 filed 7 5 100
file 1 16, file 3 26, close
  Ok(1) Ok(1) Ok(2)
    24577 filed 1 6 16
    24578 filed 3 6 26
    28672 filed 7 6 100
    28673 emitted packet 0864c0010013200319000100010000000070010200101718191a
";

/// Six slots have a sample each, and the structure is disabled.
#[test]
fn one_shot_is_reported_once(rt: HostRuntime) -> Result<(), Fail> {
    assert_eq!(rt;
        replayed(rt.alloc(), ONE_SHOT_IS_REPORTED_ONCE)?.as_str(),
        ONE_SHOT_IS_REPORTED_ONCE
    );
    Ok(())
}

const ONE_SHOT_IS_REPORTED_ONCE: &str = "\
uplink 1864c000000620031b00010103, work, work, work, hk 3
  Ok(1) Ok(1) Ok(1) Ok(1) false 2
    1 accepted 0
    2 started 0
    3 executed 0 1 done
    4 completed 0
file 6 70000, close, file 6 70001, close, file 6 70002, close, file 6 70003, close, file 6 70004, close, file 6 70005, close
  Ok(1) Ok(1) Ok(1) Ok(1) Ok(1) Ok(2) Ok(1) Ok(1) Ok(1) Ok(1) Ok(1) Ok(1)
    5 filed 6 0 70000
    4096 filed 7 0 100
    4097 filed 6 1 70001
    8192 filed 7 1 100
    8193 filed 6 2 70002
    12288 filed 7 2 100
    12289 emitted packet 0864c0000011200319000000010000000030010300011172
    12290 filed 6 3 70003
    16384 filed 7 3 100
    16385 filed 6 4 70004
    20480 filed 7 4 100
    20481 filed 6 5 70005
    24576 filed 7 5 100
";

/// A report that resets the statistics, and the next one.
#[test]
fn statistics_are_reported(rt: HostRuntime) -> Result<(), Fail> {
    assert_eq!(rt;
        replayed(rt.alloc(), STATISTICS_ARE_REPORTED)?.as_str(),
        STATISTICS_ARE_REPORTED
    );
    Ok(())
}

const STATISTICS_ARE_REPORTED: &str = "\
uplink 1864c000000920040600010200020007, work, work, work, work
  Ok(1) Ok(1) Ok(1) Ok(1) Ok(1)
    1 accepted 0
    2 started 0
    3 executed 0 1 done
    4 executed 0 2 done
    5 completed 0
file 2 -3, close, file 2 -4, clock 8200
  Ok(1) Ok(1) Ok(1) Ok(0)
    6 filed 2 0 -3
    4096 filed 7 0 100
    4097 filed 2 1 -4
uplink 1864c0010005200401000101, work, work, work
  Ok(1) Ok(1) Ok(2) Ok(1)
    8200 accepted 1
    8201 started 1
    8202 executed 1 1 done
    8203 emitted packet 0864c00000462004020000000100000000200b00000000000000000000200b02000200000002fd000000000000fc000000001000fc000700000001006400000000000000640000000000000064
    8204 completed 1
uplink 1864c0020005200401000100, work, work, work
  Ok(1) Ok(1) Ok(2) Ok(1)
    8205 accepted 2
    8206 started 2
    8207 executed 2 1 done
    8208 emitted packet 0864c00100192004020001000100000000201000000000200b00000000201000
    8209 completed 2
";

/// The structure, and its properties.
#[test]
fn created_structure_is_shown(rt: HostRuntime) -> Result<(), Fail> {
    assert_eq!(rt;
        replayed(rt.alloc(), CREATED_STRUCTURE_IS_SHOWN)?.as_str(),
        CREATED_STRUCTURE_IS_SHOWN
    );
    Ok(())
}

const CREATED_STRUCTURE_IS_SHOWN: &str = "\
uplink 1864c000000f20030100010900040100010102010003, work, work, work, hk 9
  Ok(1) Ok(1) Ok(1) Ok(1) false 4
    1 accepted 0
    2 started 0
    3 executed 0 1 done
    4 completed 0
uplink 1864c001000620030900010109, work, work, work
  Ok(1) Ok(1) Ok(2) Ok(1)
    5 accepted 1
    6 started 1
    7 executed 1 1 done
    8 emitted packet 0864c000001820030a00000001000000000008090000040100010102010003
    9 completed 1
uplink 1864c002000620032100010109, work, work, work
  Ok(1) Ok(1) Ok(2) Ok(1)
    10 accepted 2
    11 started 2
    12 executed 2 1 done
    13 emitted packet 0864c00100112003230000000100000000000d0109000004
    14 completed 2
";

/// The greatest tag is taken.
#[test]
fn time_ends(rt: HostRuntime) -> Result<(), Fail> {
    assert_eq!(rt; replayed(rt.alloc(), TIME_ENDS)?.as_str(), TIME_ENDS);
    Ok(())
}

const TIME_ENDS: &str = "\
clock 281474976710655, file 6 1, file 1 1, filed 6, filed 1, close, slot, apid
  Ok(0) Ok(1) Err(TimeExhausted) true false Err(TimeExhausted) 0 100
    281474976710655 filed 6 0 1
";
