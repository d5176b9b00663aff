//! A line for each value of a report.
ghost use Rattle.std.specs.Prelude.{◌≡◌, ◌≤◌, ◌+◌, ◌++◌, Ok, length};
ghost use Rattle.body_fields.specs.Outcomes.{Appends};
ghost use Rattle.hk_base.specs.Payload.{places};
ghost use Rattle.sample_slots.specs.Slots.{IsSampled};
ghost use Rattle.session_texts.specs.Blocks.{value_line, value_lines};

use crate::parts::{Part, put_parts};
use hk_base::{Definition, Memory, Value};
use sample_slots::{Place, place, place_count};

/// Appends a line for each value, one for each place of a report with this last slot.
pub(crate) fn write_values(
    out: &mut Vec<u8>,
    def: &Definition,
    last: u64,
    values: &[Value],
) -> Result<(), Memory>
    requires sampled { IsSampled def.now }
    requires whole { def.now.interval ≤ last + 1 }
    requires each { length values.now ≡ length (places def.now last) }
    ensures { Appends out.old.items result out.new.items (value_lines (places def.now last) (Ok values.now)) }
{
    for number in 0..place_count(def) {
        let Some(place) = place(def, last, number) else {
            unreachable!();
        };
        write_value(out, place, values[number as usize])?;
    }
    Ok(())
}

/// Appends the line of a value.
fn write_value(out: &mut Vec<u8>, place: Place, value: Value) -> Result<(), Memory>
    ensures { Appends out.old.items result out.new.items (value_line (place, value)) }
{
    put_parts(
        out,
        &[
            Part::Text("value "),
            Part::Number(u64::from(place.param)),
            Part::Text(" slot "),
            Part::Number(place.slot),
            Part::Text(" = "),
            Part::Value(value),
            Part::Text("\n"),
        ],
    )
}
