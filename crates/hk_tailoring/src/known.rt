//! The keys that a table may have.
ghost use Rattle.std.specs.Prelude.{◌≡◌, [], ◌∷◌, option_map, string_bytes};
ghost use Rattle.std.specs.List.{list_any};
ghost use Rattle.std.specs.Str.{bytes_eq};
ghost use Rattle.hk_tailoring.specs.Checks.{Passes};
ghost use Rattle.hk_tailoring.specs.Keys.{section_of};
ghost use Rattle.hk_tailoring.specs.Known.{known_keys, known_check, unknown_key};

use crate::fault::TailoringFault;
use crate::section::{Section, TableKind};

impl TableKind {
    /// Whether a table of this kind may have the key.
    fn has(self, key: &str) -> bool
        ensures { result ≡ list_any (bytes_eq key.now) (known_keys self) }
    {
        match self {
            TableKind::Document => is_document_key(key),
            TableKind::Parameter { packed, enumerated } => match key {
                "id" | "kind" | "initial" => true,
                "octets" => !packed,
                "bits" => packed,
                "values" => enumerated,
                _ => false,
            },
            TableKind::Structure => matches!(
                key,
                "kind" | "id" | "interval" | "enabled" | "simple" | "array"
            ),
            TableKind::Array => matches!(key, "repetition" | "parameters"),
        }
    }
}

/// Whether a document may have the key.
fn is_document_key(key: &str) -> bool
    ensures { result ≡ list_any (bytes_eq key.now) (known_keys TableKind.Document) }
{
    matches!(
        key,
        "version"
            | "apid"
            | "ground"
            | "coarse"
            | "fine"
            | "slot"
            | "tc_checksum"
            | "tm_checksum"
            | "structure_octets"
            | "parameter_octets"
            | "interval_octets"
            | "count_octets"
            | "repetition_octets"
            | "step_octets"
            | "mean_fraction"
            | "max_interval"
            | "max_payload"
            | "parameter"
            | "structure"
    )
}

impl Section<'_> {
    /// No key is there that a table of this kind doesn't have.
    #[tactic(auto, unfolding(crate::specs::Known::known_check))]
    pub fn only(&self, kind: TableKind) -> Result<(), TailoringFault>
        ensures checked { Passes (known_check (section_of self.now) (known_keys kind) ∷ []) result }
    {
        match self.first_unknown(kind) {
            Some(key) => Err(self.unknown(key)),
            None => Ok(()),
        }
    }

    /// The first key that a table of this kind doesn't have.
    fn first_unknown(&self, kind: TableKind) -> Option<&str>
        ensures { option_map (λ key. key.now) result ≡ unknown_key (known_keys kind) (section_of self.now).members }
    {
        for key in self.table.keys() {
            if !kind.has(key.as_str()) {
                return Some(key.as_str());
            }
        }
        None
    }
}
