//! `element`: it reads no source.

use crate::desk::{answer, hold_each};
use std::test::Fail;

/// Number 289 of the elements with 4 lines: the rotary element, but for the names of its states and lines.
const ROTARY: &str = "1,1,1,1\n1,2,1,2\n1,3,2,1\n1,4,2,2\n2,1,1,3\n2,2,1,4\n2,3,2,4\n2,4,2,3\n";

/// Number 9 of those with 2 lines.
const NINTH: &str = "1,1,1,2\n1,2,2,1\n2,1,2,2\n2,2,1,1\n";

/// The last one with a line.
const SWAP: &str = "1,1,2,1\n2,1,1,1\n";

#[test]
fn writes_the_table_of_an_element(rt: HostRuntime) -> Result<(), Fail> {
    let rows: [(&[&str], &str, u8, &str); 7] = [
        (&["element", "4", "289"], "unread", 0, ROTARY),
        (&["element", "2", "9"], "", 0, NINTH),
        (&["element", "1", "1"], "", 0, SWAP),
        (&["element", "1", "2"], "", 5, "word: number\n"),
        (&["element", "2", "24"], "", 5, "word: number\n"),
        (
            &["element", "10", "2432902008176640000"],
            "",
            5,
            "word: number\n",
        ),
        (
            &["element", "10", "4611686018427387904"],
            "",
            5,
            "word: number\n",
        ),
    ];
    hold_each(&rt, rt.alloc(), &rows)
}

#[test]
fn the_greatest_element_turns_all_pairs_round(rt: HostRuntime) -> Result<(), Fail> {
    let last = answer(rt.alloc(), &["element", "10", "2432902008176639999"], b"")?;
    assert!(rt; last.text.starts_with(b"1,1,2,10\n1,2,2,9\n"));
    assert!(rt; last.text.ends_with(b"2,9,1,2\n2,10,1,1\n"));
    Ok(())
}

#[test]
fn other_words_have_no_form(rt: HostRuntime) -> Result<(), Fail> {
    for list in [
        &["element", "0", "0"],
        &["element", "11", "0"],
        &["element", "04", "0"],
        &["element", "4", "4611686018427387905"],
        &["element", "=4", "0"],
    ] {
        assert_eq!(rt;
            answer(rt.alloc(), list, b"")?.text.as_slice(),
            b"usage\n".as_slice()
        );
    }
    Ok(())
}
