//! The widths that a document states.
ghost use Rattle.std.specs.Prelude.{◌≡◌, ◌≤◌, ◌<◌, ◌^◌, ◌-◌, ◌==◌, IfOk, codes};
ghost use Rattle.hk_base.specs.Fit.{IsWithin, IsFitWidths};
ghost use Rattle.hk_tailoring.specs.Checks.{Answers, Passes};
ghost use Rattle.hk_tailoring.specs.Keys.{section_of, natural_at, flag_at};
ghost use Rattle.hk_tailoring.specs.Widths.{identity_checks, time_checks, checksum_checks, id_octets_checks, count_octets_checks, limit_checks};
ghost use Rattle.hk_tailoring.specs.Widths.{max_interval_checks, width_checks, greatest_interval, max_interval_in, IsStated, AreWidths};

use crate::fault::TailoringFault;
use crate::keys::greatest_in;
use crate::section::Section;
use hk_base::Widths;

#[derive(Clone, Copy)]
struct Identity {
    packed: bool,
    apid: u16,
    ground_address: u16,
}

#[derive(Clone, Copy)]
struct Times {
    coarse: u8,
    fine: u8,
    slot: u64,
}

#[derive(Clone, Copy)]
struct Checksums {
    requests: bool,
    reports: bool,
}

#[derive(Clone, Copy)]
struct IdOctets {
    structure: u8,
    parameter: u8,
    interval: u8,
}

#[derive(Clone, Copy)]
struct CountOctets {
    count: u8,
    repetition: u8,
    step: u8,
}

#[derive(Clone, Copy)]
struct Limits {
    mean_fraction: u8,
    max_interval: u32,
    max_payload: u32,
}

/// The version and the addresses.
#[tactic(auto, unfolding(crate::specs::Widths::identity_checks))]
fn read_identity(document: &Section<'_>) -> Result<Identity, TailoringFault>
    ensures checked { Passes (identity_checks (section_of document.now)) result }
    ensures packed { IfOk result (λ x. x.packed ≡ (natural_at (section_of document.now) (codes "version") 0 == 2)) }
    ensures apid { IfOk result (λ x. (x.apid ≡ natural_at (section_of document.now) (codes "apid") 0) × (x.apid ≤ 2046)) }
    ensures address { IfOk result (λ x. x.ground_address ≡ natural_at (section_of document.now) (codes "ground") 0) }
{
    let version = document.needed_number("version", 1, 2)?;
    let apid = document.needed_number("apid", 0, 2046)?;
    let address = document.needed_number("ground", 0, 65535)?;
    Ok(Identity {
        packed: version == 2,
        apid: apid as u16,
        ground_address: address as u16,
    })
}

/// The time field, and the slot in its ticks.
#[tactic(auto, unfolding(crate::specs::Widths::time_checks))]
fn read_times(document: &Section<'_>) -> Result<Times, TailoringFault>
    ensures checked { Passes (time_checks (section_of document.now)) result }
    ensures coarse { IfOk result (λ x. IsStated (section_of document.now) (codes "coarse") 4 1 4 x.coarse) }
    ensures fine { IfOk result (λ x. (x.fine ≡ natural_at (section_of document.now) (codes "fine") 2) × (x.fine ≤ 3)) }
    ensures slot { IfOk result (λ x. IsStated (section_of document.now) (codes "slot") 0 16 (2 ^ 32) x.slot) }
{
    let coarse = document.number_or("coarse", 1, 4, 4)?;
    let fine = document.number_or("fine", 0, 3, 2)?;
    let slot = document.needed_number("slot", 16, 4294967296)?;
    Ok(Times {
        coarse: coarse as u8,
        fine: fine as u8,
        slot,
    })
}

/// The checksums of packets.
#[tactic(auto, unfolding(crate::specs::Widths::checksum_checks))]
fn read_checksums(document: &Section<'_>) -> Result<Checksums, TailoringFault>
    ensures checked { Passes (checksum_checks (section_of document.now)) result }
    ensures requests { IfOk result (λ x. x.requests ≡ flag_at (section_of document.now) (codes "tc_checksum")) }
    ensures reports { IfOk result (λ x. x.reports ≡ flag_at (section_of document.now) (codes "tm_checksum")) }
{
    let requests = document.flag("tc_checksum")?;
    let reports = document.flag("tm_checksum")?;
    Ok(Checksums { requests, reports })
}

/// The octets of identifiers and of intervals.
#[tactic(auto, unfolding(crate::specs::Widths::id_octets_checks))]
fn read_id_octets(document: &Section<'_>) -> Result<IdOctets, TailoringFault>
    ensures checked { Passes (id_octets_checks (section_of document.now)) result }
    ensures structure { IfOk result (λ x. IsStated (section_of document.now) (codes "structure_octets") 1 1 2 x.structure) }
    ensures parameter { IfOk result (λ x. IsStated (section_of document.now) (codes "parameter_octets") 2 1 2 x.parameter) }
    ensures interval { IfOk result (λ x. IsStated (section_of document.now) (codes "interval_octets") 2 1 4 x.interval) }
{
    let structure = document.number_or("structure_octets", 1, 2, 1)?;
    let parameter = document.number_or("parameter_octets", 1, 2, 2)?;
    let interval = document.number_or("interval_octets", 1, 4, 2)?;
    Ok(IdOctets {
        structure: structure as u8,
        parameter: parameter as u8,
        interval: interval as u8,
    })
}

/// The octets of counts, of repetition numbers and of steps.
#[tactic(auto, unfolding(crate::specs::Widths::count_octets_checks))]
fn read_count_octets(document: &Section<'_>) -> Result<CountOctets, TailoringFault>
    ensures checked { Passes (count_octets_checks (section_of document.now)) result }
    ensures count { IfOk result (λ x. IsStated (section_of document.now) (codes "count_octets") 1 1 2 x.count) }
    ensures repetition { IfOk result (λ x. IsStated (section_of document.now) (codes "repetition_octets") 1 1 2 x.repetition) }
    ensures step { IfOk result (λ x. IsStated (section_of document.now) (codes "step_octets") 1 1 2 x.step) }
{
    let count = document.number_or("count_octets", 1, 2, 1)?;
    let repetition = document.number_or("repetition_octets", 1, 2, 1)?;
    let step = document.number_or("step_octets", 1, 2, 1)?;
    Ok(CountOctets {
        count: count as u8,
        repetition: repetition as u8,
        step: step as u8,
    })
}

/// The greatest interval that may be allowed, by the octets of intervals.
fn greatest_interval_of(octets: u8) -> u64
    requires { IsWithin 1 4 octets }
    ensures greatest { result ≡ greatest_interval octets }
    ensures within { IsWithin 1 4096 result × (result < 256 ^ octets) }
{
    greatest_in(8 * octets).min(4096)
}

/// The greatest interval that is allowed.
fn read_max_interval(document: &Section<'_>, octets: u8) -> Result<u32, TailoringFault>
    requires { IsWithin 1 4 octets }
    ensures number { let s = section_of document.now in Answers (λ n. n) (max_interval_checks s octets) (max_interval_in s octets) result }
    ensures within { IfOk result (λ n. IsWithin 1 4096 n × (n < 256 ^ octets)) }
{
    let greatest = greatest_interval_of(octets);
    let max_interval = document.number_or("max_interval", 1, greatest, greatest)?;
    Ok(max_interval as u32)
}

/// The fraction of a mean, and the limits.
#[tactic(auto, unfolding(crate::specs::Widths::limit_checks))]
fn read_limits(document: &Section<'_>, interval_octets: u8) -> Result<Limits, TailoringFault>
    requires { IsWithin 1 4 interval_octets }
    ensures checked { Passes (limit_checks (section_of document.now) interval_octets) result }
    ensures mean_fraction { IfOk result (λ x. IsStated (section_of document.now) (codes "mean_fraction") 0 0 2 x.mean_fraction) }
    ensures max_interval { IfOk result (λ x. x.max_interval ≡ max_interval_in (section_of document.now) interval_octets) }
    ensures interval_fits { IfOk result (λ x. IsWithin 1 4096 x.max_interval × (x.max_interval < 256 ^ interval_octets)) }
    ensures max_payload { IfOk result (λ x. IsStated (section_of document.now) (codes "max_payload") 1024 1 4096 x.max_payload) }
{
    let mean_fraction = document.number_or("mean_fraction", 0, 2, 0)?;
    let max_interval = read_max_interval(document, interval_octets)?;
    let max_payload = document.number_or("max_payload", 1, 4096, 1024)?;
    Ok(Limits {
        mean_fraction: mean_fraction as u8,
        max_interval,
        max_payload: max_payload as u32,
    })
}

/// The widths of a document.
#[tactic(auto, unfolding(crate::specs::Widths::width_checks))]
pub fn read_widths(document: &Section<'_>) -> Result<Widths, TailoringFault>
    ensures checked { Passes (width_checks (section_of document.now)) result }
    ensures stated { IfOk result (AreWidths (section_of document.now)) }
    ensures fit { IfOk result IsFitWidths }
{
    let identity = read_identity(document)?;
    let times = read_times(document)?;
    let checksums = read_checksums(document)?;
    let ids = read_id_octets(document)?;
    let counts = read_count_octets(document)?;
    let limits = read_limits(document, ids.interval)?;
    Ok(Widths {
        apid: identity.apid,
        ground: identity.ground_address,
        coarse: times.coarse,
        fine: times.fine,
        slot: times.slot,
        tc_checksum: checksums.requests,
        tm_checksum: checksums.reports,
        packed: identity.packed,
        structure_octets: ids.structure,
        parameter_octets: ids.parameter,
        interval_octets: ids.interval,
        count_octets: counts.count,
        repetition_octets: counts.repetition,
        step_octets: counts.step,
        mean_fraction: limits.mean_fraction,
        max_interval: limits.max_interval,
        max_payload: limits.max_payload,
    })
}
