//! The lists of a table: how many members they have, and which.
ghost use Rattle.std.specs.Prelude.{◌≡◌, ◌≤◌, ◌<◌, ◌^◌, ◌-◌, ◌≤ℤ◌, ◌<ℤ◌, ◌++◌, ◌∷◌, [], OnOk, ℕ, List, true, Some, None};
ghost use Rattle.std.specs.Prelude.{map, length, is_some, IfSome, IfOk, option_map, pos};
ghost use Rattle.std.specs.List.{list_all, AllPass, AllByRecursion};
ghost use Rattle.toml.specs.Data.{as_table};
ghost use Rattle.toml.specs.View.{view, items_view};
ghost use Rattle.hk_tailoring.specs.Checks.{Answers, Passes, IsUnlessMemory};
ghost use Rattle.hk_tailoring.specs.Keys as keys;
ghost use Rattle.hk_tailoring.specs.Keys.{section_of, at_key, list_at, natural_of, length_check, list_checks, tables_checks};
ghost use Rattle.hk_tailoring.specs.Keys.{needed_tables_checks, member_checks, numbers_checks, needed_numbers_checks, AnswersIds, AnswersValues, AnswersMembers};

use crate::fault::TailoringFault;
use crate::keys::{greatest_in, natural_within};
use crate::section::Section;
use hk_base::Items;
use toml::Value;

impl Section<'_> {
    /// The number of members of a list that is there is from low to high.
    fn count(&self, key: &str, count: usize, low: usize, high: usize) -> Result<(), TailoringFault>
        requires there { is_some (at_key (section_of self.now) key.now) ≡ true }
        requires count { count ≡ length (list_at (section_of self.now) key.now) }
        requires small { count < 2 ^ 63 }
        ensures checked { Passes (length_check (section_of self.now) key.now low high ∷ []) result }
        ensures within { OnOk result ((low ≤ count) × (count ≤ high)) }
    {
        if low <= count && count <= high {
            Ok(())
        } else {
            Err(self.out_of_range(key, count as i64))
        }
    }

    /// A list of so many values that may be missing, and is empty then.
    #[tactic(auto, unfolding(crate::specs::Keys::list_checks, crate::specs::Keys::list_at))]
    pub fn list(&self, key: &str, low: usize, high: usize) -> Result<&[Value], TailoringFault>
        ensures values { let s = section_of self.now in Answers (λ v. map view v.now) (list_checks s key.now low high) (list_at s key.now) result }
        ensures few { IfOk result (λ values. length values.now ≤ high) }
        ensures many { is_some (at_key (section_of self.now) key.now) ≡ true → IfOk result (λ values. low ≤ length values.now) }
    {
        let Some(value) = self.value(key) else {
            return Ok(&[]);
        };
        let Some(values) = list_of(value) else {
            return Err(self.wrong_kind(key));
        };
        self.count(key, values.len(), low, high)?;
        Ok(values)
    }

    /// A list of so many tables that may be missing, and is empty then.
    #[tactic(auto, unfolding(crate::specs::Keys::tables_checks, crate::specs::Keys::list_at))]
    pub fn tables(&self, key: &str, low: usize, high: usize) -> Result<&[Value], TailoringFault>
        ensures tables { IfOk result (λ values. AllPass (λ value. is_some (as_table (view value))) values.now) }
        ensures values { let s = section_of self.now in Answers (λ v. map view v.now) (tables_checks s key.now low high) (list_at s key.now) result }
        ensures few { IfOk result (λ values. length values.now ≤ high) }
        ensures many { is_some (at_key (section_of self.now) key.now) ≡ true → IfOk result (λ values. low ≤ length values.now) }
    {
        let Some(value) = self.value(key) else {
            return Ok(&[]);
        };
        let Some(values) = table_list_of(value) else {
            return Err(self.wrong_kind(key));
        };
        self.count(key, values.len(), low, high)?;
        Ok(values)
    }

    /// A list of so many tables that must be there.
    #[tactic(auto, unfolding(crate::specs::Keys::needed_tables_checks))]
    pub fn needed_tables(
        &self,
        key: &str,
        low: usize,
        high: usize,
    ) -> Result<&[Value], TailoringFault>
        ensures tables { IfOk result (λ values. AllPass (λ value. is_some (as_table (view value))) values.now) }
        ensures values { let s = section_of self.now in Answers (λ v. map view v.now) (needed_tables_checks s key.now low high) (list_at s key.now) result }
        ensures within { IfOk result (λ values. (low ≤ length values.now) × (length values.now ≤ high)) }
    {
        match self.value(key) {
            Some(_) => self.tables(key, low, high),
            None => Err(self.missing(key)),
        }
    }

    /// A whole number up to a greatest one, in a list at a place from 0.
    #[tactic(auto, unfolding(crate::specs::Keys::member_checks))]
    fn member(
        &self,
        key: &str,
        n: usize,
        value: &Value,
        greatest: u64,
    ) -> Result<u64, TailoringFault>
        ensures number { let d = view value.now in Answers (λ m. Some m) (member_checks (section_of self.now) key.now greatest (n, d)) (natural_of d) result }
        ensures within { IfOk result (λ m. m ≤ greatest) }
    {
        let Some(number) = value.as_integer() else {
            return Err(self.wrong_member(key, n));
        };
        match natural_within(number, 0, greatest) {
            Some(m) => Ok(m),
            None => Err(self.member_out_of_range(key, n, number)),
        }
    }

    /// A list of so many IDs that may be missing, and is empty then.
    #[tactic(auto, using(crate::proofs::CheckLemmas::in_order), unfolding(crate::specs::Keys::numbers_checks))]
    pub fn ids(
        &self,
        key: &str,
        low: usize,
        high: usize,
        greatest: u64,
    ) -> Result<Items<u32>, TailoringFault>
        requires { greatest < 2 ^ 32 }
        ensures ids { AnswersIds (numbers_checks (section_of self.now) key.now low high greatest) (section_of self.now) key.now result }
        ensures few { IfOk result (λ ids. length ids ≤ high) }
        ensures many { is_some (at_key (section_of self.now) key.now) ≡ true → IfOk result (λ ids. low ≤ length ids) }
    {
        let values = self.list(key, low, high)?;
        let ids = self.id_members(key, values, greatest)?;
        Ok(Items::from_vec(ids))
    }

    /// A list of so many IDs that must be there.
    #[tactic(auto, unfolding(crate::specs::Keys::needed_numbers_checks))]
    pub fn needed_ids(
        &self,
        key: &str,
        low: usize,
        high: usize,
        greatest: u64,
    ) -> Result<Items<u32>, TailoringFault>
        requires { greatest < 2 ^ 32 }
        ensures ids { AnswersIds (needed_numbers_checks (section_of self.now) key.now low high greatest) (section_of self.now) key.now result }
        ensures within { IfOk result (λ ids. (low ≤ length ids) × (length ids ≤ high)) }
    {
        match self.value(key) {
            Some(_) => self.ids(key, low, high, greatest),
            None => Err(self.missing(key)),
        }
    }

    /// The values of an enumerated parameter with so many bits.
    #[tactic(auto, unfolding(crate::specs::Keys::needed_numbers_checks))]
    pub fn needed_values(
        &self,
        key: &str,
        low: usize,
        high: usize,
        bits: u8,
    ) -> Result<Items<hk_base::Value>, TailoringFault>
        requires { (1 ≤ bits) × (bits ≤ 64) }
        ensures values { AnswersValues (needed_numbers_checks (section_of self.now) key.now low high (2 ^ bits - 1)) (section_of self.now) key.now result }
        ensures within { IfOk result (λ values. (low ≤ length values) × (length values ≤ high)) }
        ensures small { IfOk result (λ values. AllByRecursion (λ v. (pos 0 ≤ℤ v) × (v <ℤ pos (2 ^ bits))) values) }
    {
        match self.value(key) {
            Some(_) => self.values(key, low, high, bits),
            None => Err(self.missing(key)),
        }
    }

    /// A list of so many numbers of so many bits that may be missing, and is empty then.
    #[tactic(auto, using(crate::proofs::CheckLemmas::in_order), unfolding(crate::specs::Keys::numbers_checks))]
    fn values(
        &self,
        key: &str,
        low: usize,
        high: usize,
        bits: u8,
    ) -> Result<Items<hk_base::Value>, TailoringFault>
        requires { (1 ≤ bits) × (bits ≤ 64) }
        ensures values { AnswersValues (numbers_checks (section_of self.now) key.now low high (2 ^ bits - 1)) (section_of self.now) key.now result }
        ensures few { IfOk result (λ values. length values ≤ high) }
        ensures many { is_some (at_key (section_of self.now) key.now) ≡ true → IfOk result (λ values. low ≤ length values) }
        ensures small { IfOk result (λ values. AllByRecursion (λ v. (pos 0 ≤ℤ v) × (v <ℤ pos (2 ^ bits))) values) }
    {
        let values = self.list(key, low, high)?;
        let numbers = self.value_members(key, values, bits)?;
        Ok(Items::from_vec(numbers))
    }

    /// The numbers of so many bits in a list.
    fn value_members(
        &self,
        key: &str,
        values: &[Value],
        bits: u8,
    ) -> Result<Vec<hk_base::Value>, TailoringFault>
        requires { (1 ≤ bits) × (bits ≤ 64) }
        ensures values { AnswersMembers (λ numbers. numbers.items) (map pos) (section_of self.now) key.now (2 ^ bits - 1) (map view values.now) result }
        ensures count { IfOk result (λ numbers. length numbers.items ≡ length values.now) }
        ensures small { IfOk result (λ numbers. AllByRecursion (λ v. (pos 0 ≤ℤ v) × (v <ℤ pos (2 ^ bits))) numbers.items) }
    {
        let greatest = greatest_in(bits);
        let mut numbers = Vec::new(self.alloc);
        for (n, value) in values.iter().enumerate() {
            let number = self.member(key, n, value, greatest)?;
            numbers.push(hk_base::Value::from(number))?;
        }
        Ok(numbers)
    }

    /// The IDs in a list.
    fn id_members(
        &self,
        key: &str,
        values: &[Value],
        greatest: u64,
    ) -> Result<Vec<u32>, TailoringFault>
        requires { greatest < 2 ^ 32 }
        ensures ids { AnswersMembers (λ ids. ids.items) (λ ids. ids) (section_of self.now) key.now greatest (map view values.now) result }
        ensures count { IfOk result (λ ids. length ids.items ≡ length values.now) }
    {
        let mut ids = Vec::new(self.alloc);
        for (n, value) in values.iter().enumerate() {
            let id = self.member(key, n, value, greatest)?;
            ids.push(id as u32)?;
        }
        Ok(ids)
    }
}

/// The values of a list.
fn list_of(value: &Value) -> Option<&[Value]>
    ensures { option_map (λ values. map view values.now) result ≡ keys.list_of (view value.now) }
{
    match value.as_array() {
        Some(array) => Some(array.as_slice()),
        None => None,
    }
}

/// The values of a list that has tables alone.
fn table_list_of(value: &Value) -> Option<&[Value]>
    ensures tables { option_map (λ values. map view values.now) result ≡ keys.table_list_of (view value.now) }
    ensures each { IfSome result (λ values. AllPass (λ value. is_some (as_table (view value))) values.now) }
    ensures list { IfSome result (λ values. keys.list_of (view value.now) ≡ Some (map view values.now)) }
{
    let values = list_of(value)?;
    if are_tables(values) {
        Some(values)
    } else {
        None
    }
}

/// Whether each value is a table.
fn are_tables(values: &[Value]) -> bool
    ensures { result ≡ list_all (λ value. is_some (as_table (view value))) values.now }
{
    values.iter().all(|value| value.as_table().is_some())
}
