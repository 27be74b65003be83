//! What no contract says: that there is memory for tables, and for their text.
use super::*;
use hs_token::decode_line;
use std::alloc::Global;
use std::test::Fail;

/// Table lines with their ends, and the same as they are spelled again.
const TEXTS: [(&[u8], &[u8]); 4] = [
    (b"", b""),
    (
        b"table\td\tt\tc\tk\tint\tnot\t+007\ti\tPRIMARY\tprimary\tk\n",
        b"table\td\tt\tc\tk\tint\tnot\t7\ti\tPRIMARY\tprimary\tk\n",
    ),
    (
        b"table\td\tt\tc\ta\tint\tnull\t\x00\tc\tb\tbytes:3\tnot\t\x01I\ti\tPRIMARY\tprimary\tb\n",
        b"table\td\tt\tc\ta\tint\tnull\t\x00\tc\tb\tbytes:3\tnot\t\x01I\ti\tPRIMARY\tprimary\tb\n",
    ),
    (
        b"table\td\tt\tc\tk\tint\tauto\t\x00\ti\tPRIMARY\tprimary\tk\n",
        b"table\td\tt\tc\tk\tint\tauto\t\x00\ti\tPRIMARY\tprimary\tk\n",
    ),
];

/// The lines of a text, added one after another to the empty schema, and spelled again.
fn again(alloc: Global, text: &[u8]) -> Result<Vec<u8>, Fail> {
    let mut schema = empty(alloc);
    for line in text.split(|byte| *byte == b'\n') {
        if !line.is_empty() {
            let tokens = decode_line(alloc, line)?;
            schema.add_table(alloc, &tokens)?;
        }
    }
    Ok(schema.spell(alloc)?)
}

#[test]
fn a_text_is_read_and_spelled_again(rt: HostRuntime) -> Result<(), Fail> {
    for (given, printed) in TEXTS {
        let text = again(rt.alloc(), given)?;
        assert!(rt; text.as_slice() == printed, "{given:?}");
    }
    Ok(())
}

#[test]
fn a_line_that_breaks_a_rule_is_not_told_as_want_of_memory(rt: HostRuntime) -> Result<(), Fail> {
    let alloc = rt.alloc();
    for line in [b"tables".as_slice(), b"table\td\tt", b"table\td\tt\tc\tk"] {
        let tokens = decode_line(alloc, line)?;
        let answer = empty(alloc).add_table(alloc, &tokens);
        assert!(rt;
            matches!(answer, Err(SchemaFault::Broken { .. })),
            "{line:?}"
        );
    }
    Ok(())
}
