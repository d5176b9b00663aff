//! The keys of a table: whether they are there, their kinds and their ranges.
ghost use Rattle.std.specs.Prelude.{◌≡◌, ◌≤◌, ◌^◌, ◌-◌, ℕ, ◌++◌, is_some, true, false, Some, None, MatchOption, IfOk, option_map, pos};
ghost use Rattle.toml.specs.View.{view};
ghost use Rattle.hk_tailoring.specs.Checks.{Answers, IsUnlessMemory};
ghost use Rattle.hk_tailoring.specs.Keys as keys;
ghost use Rattle.hk_tailoring.specs.Keys.{section_of, at_key, flag_at, natural, number_checks, needed_number_checks, flag_checks, AnswersNumber};

use crate::fault::TailoringFault;
use crate::section::{Place, Section};
use hk_base::{Memory, Octets};
use toml::Value;

impl Section<'_> {
    /// The value of a key.
    pub fn value(&self, key: &str) -> Option<&Value>
        ensures { option_map (λ v. view v.now) result ≡ at_key (section_of self.now) key.now }
    {
        self.table.get(key)
    }

    /// The path of a key.
    fn path_of(&self, key: &str) -> Result<Octets, Memory>
        ensures { IfOk result (λ path. path ≡ keys.path_of (section_of self.now) key.now) }
    {
        let mut path = String::new(self.alloc);
        match self.place {
            Place::Document => write!(path, "{key}")?,
            Place::Parameter(n) => write!(path, "parameter[{n}].{key}")?,
            Place::Structure(n) => write!(path, "structure[{n}].{key}")?,
            Place::Array(n, m) => write!(path, "structure[{n}].array[{m}].{key}")?,
        }
        Ok(Octets::from_vec(path.into_bytes()))
    }

    /// The path of a member of a key's list.
    fn member_path(&self, key: &str, n: usize) -> Result<Octets, Memory>
        ensures { IfOk result (λ path. path ≡ keys.member_path (section_of self.now) key.now n) }
    {
        let mut path = String::new(self.alloc);
        match self.place {
            Place::Document => write!(path, "{key}[{n}]")?,
            Place::Parameter(at) => write!(path, "parameter[{at}].{key}[{n}]")?,
            Place::Structure(at) => write!(path, "structure[{at}].{key}[{n}]")?,
            Place::Array(at, m) => write!(path, "structure[{at}].array[{m}].{key}[{n}]")?,
        }
        Ok(Octets::from_vec(path.into_bytes()))
    }

    /// The fault of a key that isn't there.
    pub fn missing(&self, key: &str) -> TailoringFault
        ensures { IsUnlessMemory result (TailoringFault.MissingKey (keys.path_of (section_of self.now) key.now)) }
    {
        match self.path_of(key) {
            Ok(path) => TailoringFault::MissingKey(path),
            Err(Memory) => TailoringFault::Memory,
        }
    }

    /// The fault of a key with another kind of value.
    pub fn wrong_kind(&self, key: &str) -> TailoringFault
        ensures { IsUnlessMemory result (TailoringFault.WrongKind (keys.path_of (section_of self.now) key.now)) }
    {
        match self.path_of(key) {
            Ok(path) => TailoringFault::WrongKind(path),
            Err(Memory) => TailoringFault::Memory,
        }
    }

    /// The fault of a key with a number that isn't in its range.
    pub fn out_of_range(&self, key: &str, n: i64) -> TailoringFault
        ensures { IsUnlessMemory result (TailoringFault.OutOfRange (keys.path_of (section_of self.now) key.now) n) }
    {
        match self.path_of(key) {
            Ok(path) => TailoringFault::OutOfRange(path, n),
            Err(Memory) => TailoringFault::Memory,
        }
    }

    /// The fault of a member of a list that is no whole number.
    pub fn wrong_member(&self, key: &str, n: usize) -> TailoringFault
        ensures { IsUnlessMemory result (TailoringFault.WrongKind (keys.member_path (section_of self.now) key.now n)) }
    {
        match self.member_path(key, n) {
            Ok(path) => TailoringFault::WrongKind(path),
            Err(Memory) => TailoringFault::Memory,
        }
    }

    /// The fault of a member of a list with a number that isn't in its range.
    pub fn member_out_of_range(&self, key: &str, n: usize, value: i64) -> TailoringFault
        ensures { IsUnlessMemory result (TailoringFault.OutOfRange (keys.member_path (section_of self.now) key.now n) value) }
    {
        match self.member_path(key, n) {
            Ok(path) => TailoringFault::OutOfRange(path, value),
            Err(Memory) => TailoringFault::Memory,
        }
    }

    /// The fault of a key that the table doesn't have.
    pub fn unknown(&self, key: &str) -> TailoringFault
        ensures { IsUnlessMemory result (TailoringFault.UnknownKey (keys.path_of (section_of self.now) key.now)) }
    {
        match self.path_of(key) {
            Ok(path) => TailoringFault::UnknownKey(path),
            Err(Memory) => TailoringFault::Memory,
        }
    }

    /// A key that is there, with a whole number from low to high.
    #[tactic(auto, unfolding(crate::specs::Keys::number_checks, crate::specs::Keys::natural_at))]
    fn number_of(
        &self,
        key: &str,
        value: &Value,
        low: u64,
        high: u64,
    ) -> Result<u64, TailoringFault>
        requires { at_key (section_of self.now) key.now ≡ Some (view value.now) }
        ensures number { (missing : ℕ) → AnswersNumber (number_checks (section_of self.now) key.now low high) (section_of self.now) key.now missing result }
        ensures within { IfOk result (λ n. (low ≤ n) × (n ≤ high)) }
    {
        let Some(number) = value.as_integer() else {
            return Err(self.wrong_kind(key));
        };
        match natural_within(number, low, high) {
            Some(n) => Ok(n),
            None => Err(self.out_of_range(key, number)),
        }
    }

    /// A key that must be there, with a whole number from low to high.
    #[tactic(auto, unfolding(crate::specs::Keys::needed_number_checks))]
    pub fn needed_number(&self, key: &str, low: u64, high: u64) -> Result<u64, TailoringFault>
        ensures number { AnswersNumber (needed_number_checks (section_of self.now) key.now low high) (section_of self.now) key.now 0 result }
        ensures within { IfOk result (λ n. (low ≤ n) × (n ≤ high)) }
    {
        match self.value(key) {
            Some(value) => self.number_of(key, value, low, high),
            None => Err(self.missing(key)),
        }
    }

    /// A whole number from low to high, or the one that stands where the key is missing.
    #[tactic(auto, unfolding(crate::specs::Keys::number_checks, crate::specs::Keys::natural_at))]
    pub fn number_or(
        &self,
        key: &str,
        low: u64,
        high: u64,
        missing: u64,
    ) -> Result<u64, TailoringFault>
        requires { (low ≤ missing) × (missing ≤ high) }
        ensures number { AnswersNumber (number_checks (section_of self.now) key.now low high) (section_of self.now) key.now missing result }
        ensures within { IfOk result (λ n. (low ≤ n) × (n ≤ high)) }
    {
        match self.value(key) {
            Some(value) => self.number_of(key, value, low, high),
            None => Ok(missing),
        }
    }

    /// A flag, false where the key is missing.
    #[tactic(auto, unfolding(crate::specs::Keys::flag_checks, crate::specs::Keys::flag_at))]
    pub fn flag(&self, key: &str) -> Result<bool, TailoringFault>
        ensures flag { Answers (λ flag. flag) (flag_checks (section_of self.now) key.now) (flag_at (section_of self.now) key.now) result }
    {
        let Some(value) = self.value(key) else {
            return Ok(false);
        };
        match value.as_bool() {
            Some(flag) => Ok(flag),
            None => Err(self.wrong_kind(key)),
        }
    }
}

/// The number, where it is one from low to high.
pub fn natural_within(number: i64, low: u64, high: u64) -> Option<u64>
    ensures within { is_some result ≡ keys.is_within low high number }
    ensures bounds { MatchOption result (keys.is_within low high number ≡ false) (λ n. (n ≡ natural number) × (low ≤ n) × (n ≤ high)) }
{
    match u64::try_from(number) {
        Ok(n) if low <= n && n <= high => Some(n),
        _ => None,
    }
}

/// The greatest number in so many bits.
pub fn greatest_in(bits: u8) -> u64
    requires { (1 ≤ bits) × (bits ≤ 64) }
    ensures { result ≡ 2 ^ bits - 1 }
{
    ((1u128 << bits) - 1) as u64
}
