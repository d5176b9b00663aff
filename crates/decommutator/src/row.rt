use hk_base::Value;

/// A sampled value: its parameter's ID, the slot in which it was sampled, and the value before calibration.
#[derive(Clone, Copy, Debug, PartialEq, Eq, Drop)]
pub struct ValueRow {
    pub param: u32,
    pub slot: u64,
    pub value: Value,
}
