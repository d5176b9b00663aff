use super::read;
use std::alloc::{AllocError, Global};
use std::test::Fail;

const OCTETS: &str = "version = 1\napid = 100\nground = 1\nslot = 4096\n";

const BITS: &str = "version = 2\napid = 100\nground = 1\nslot = 4096\n";

const PARAM: &str = "[[parameter]]\nid = 7\nkind = \"unsigned\"\noctets = 2\ninitial = 100\n";

const PACKED: &str = "[[parameter]]\nid = 7\nkind = \"unsigned\"\nbits = 3\n";

const STRUCTURE: &str = "[[structure]]\nkind = \"housekeeping\"\nid = 1\ninterval = 8\n";

/// How many structures a file states, or the text of its fault.
fn answer(alloc: Global, parts: &[&str]) -> Result<String, AllocError> {
    let mut file = String::new(alloc);
    for part in parts {
        file.push_str(part)?;
    }
    match read(alloc, file.as_bytes()) {
        Ok(tailoring) => {
            let structures = tailoring.boots().len();
            format!(in alloc; "structures {structures}")
        }
        Err(fault) => match fault.text(alloc) {
            Ok(text) => match String::from_utf8(text.into_vec()) {
                Ok(text) => Ok(text),
                Err(_) => String::from_str(alloc, "no text"),
            },
            Err(_) => String::from_str(alloc, "no memory"),
        },
    }
}

/// Both versions, and faults at three depths. Each check has its files in tests/tailorings, at the top.
#[test]
fn answers(rt: HostRuntime) -> Result<(), Fail> {
    let rows: &[(&[&str], &str)] = &[
        (
            &[OCTETS, PARAM, STRUCTURE, "simple = [7]\n"],
            "structures 1",
        ),
        (&[BITS, PACKED, STRUCTURE, "simple = [7]\n"], "structures 1"),
        (&["version = 1\nversion = 1\n"], "not toml"),
        (&[OCTETS, PACKED], "missing key parameter[0].octets"),
        (
            &[OCTETS, PARAM, STRUCTURE, "simple = [7, 7]\n"],
            "doubled parameter 7",
        ),
    ];
    for (parts, wanted) in rows {
        let found = answer(rt.alloc(), parts)?;
        assert_eq!(rt; found.as_str(), *wanted);
    }
    Ok(())
}
