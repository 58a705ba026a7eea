//! `equal`: whether two sequential machines answer alike.

use crate::desk::hold_each;
use std::test::Fail;

#[test]
fn compares_two_machines(rt: HostRuntime) -> Result<(), Fail> {
    let rows: [(&[&str], &str, u8, &str); 8] = [
        (
            &["equal", "1", "1"],
            "1,1,1,1\n%\n1,1,2,1\n2,1,1,1\n",
            0,
            "equal\n",
        ),
        (
            &["equal", "1", "1"],
            "1,1,2,1\n2,1,1,2\n%\n1,1,1,1\n",
            0,
            "differ 1 1\nfirst 2\nsecond 1\n",
        ),
        (
            &["equal", "2", "1"],
            "1,1,2,1\n2,1,1,2\n%\n1,1,1,1\n",
            0,
            "differ 1\nfirst 2\nsecond 1\n",
        ),
        (
            &["equal", "1", "1"],
            "1,1,1,1\n1,2,1,2\n%\n1,1,1,1\n",
            0,
            "differ 2\nfirst 2\nsecond -\n",
        ),
        (
            &["equal", "1", "1"],
            "1,2,2,1\n1,1,3,2\n2,1,1,3\n3,1,4,4\n%\n1,2,2,1\n1,1,3,2\n2,1,1,4\n3,1,4,5\n",
            0,
            "differ 1 1\nfirst 4\nsecond 5\n",
        ),
        (
            &["equal", "2", "1"],
            "1,1,1,1\n%\n1,1,1,1\n",
            5,
            "word: state\n",
        ),
        (
            &["equal", "1", "1048576"],
            "1,1,1,1\n%\n1,1,1,1\n",
            5,
            "word: second state\n",
        ),
        (
            &["equal", "2", "2"],
            "1,1,1,1\n%\n1,1,1,1\n",
            5,
            "word: state\n",
        ),
    ];
    hold_each(&rt, rt.alloc(), &rows)
}

#[test]
fn refuses_what_is_no_pair_of_machines(rt: HostRuntime) -> Result<(), Fail> {
    let rows: [(&[&str], &str, u8, &str); 7] = [
        (&["equal", "1", "1"], "1,1,1,1\n", 3, "text: no second\n"),
        (
            &["equal", "1", "1"],
            "1,1,1\n%\n1,1,1\n",
            3,
            "text: record 1 fields\n",
        ),
        (
            &["equal", "1", "1"],
            "1,1,1,1\n1,1,2,2\n%\n1,0,1,1\n",
            3,
            "text: second record 1 field 2 number\n",
        ),
        (
            &["equal", "9", "9"],
            "1,1,1,1\n1,1,2,2\n%\n1,1,1,1\n2,1,1,1\n",
            4,
            "machine: domain 1 2\n",
        ),
        (
            &["equal", "9", "9"],
            "1,1,1,1\n%\n1,1,1,1\n2,1,1,1\n",
            4,
            "machine: second range 1 2\n",
        ),
        (&["equal", "0", "1"], "", 2, "usage\n"),
        (&["equal", "1", "1048577"], "", 2, "usage\n"),
    ];
    hold_each(&rt, rt.alloc(), &rows)
}
