//! Configuration texts of version 2, and `migrate`.

use crate::desk::{answer, answer_in_pieces, hold, hold_each};
use bn_circuits::Quiet;
use bn_top::Status;
use std::test::Fail;

/// Two columns of two rows, the signal at the first row.
const COLUMNS: &str = "rotary 2\nelements 6\nstart 0.w\nend 4.e\nsteps 0\nat 0.w\n\
                       c 0 2 H\nr 3.w 4.e\nr 4.w -\nc 3 2 V\nr - -\nr - 0.e\n";

/// After one step the first row is horizontal, and no column begins there.
const STEPPED: &str = "rotary 2\nelements 6\nstart 0.w\nend 4.e\nsteps 1\nat 1.n\n\
                       e 0 H 2.e 3.w 1.n 4.e\ne 1 V 0.s 4.w 2.n -\ne 2 H 1.s - 2.s 0.n\n\
                       c 3 2 V\nr - -\nr - 0.e\n";

/// After eight steps the signal has left, and there are two columns again.
const CROSSED: &str = "rotary 2\nelements 6\nstart 0.w\nend 4.e\nsteps 8\nleft 4.e\n\
                       c 0 2 V\nr 3.w 4.e\nr 4.w -\nc 3 2 H\nr - -\nr - 0.e\n";

/// The same as `COLUMNS` in version 1.
const ELEMENTS: &str = "rotary 1\nelements 6\nstart 0.w\nend 4.e\nsteps 0\nat 0.w\n\
                        e 0 V 2.e 3.w 1.n 4.e\ne 1 V 0.s 4.w 2.n -\ne 2 H 1.s - 2.s 0.n\n\
                        e 3 V 5.e - 4.n -\ne 4 V 3.s - 5.n 0.e\ne 5 V 4.s - 5.s 3.n\n";

/// `ELEMENTS` after one step.
const ELEMENTS_STEPPED: &str = "rotary 1\nelements 6\nstart 0.w\nend 4.e\nsteps 1\nat 1.n\n\
                                e 0 H 2.e 3.w 1.n 4.e\ne 1 V 0.s 4.w 2.n -\n\
                                e 2 H 1.s - 2.s 0.n\ne 3 V 5.e - 4.n -\n\
                                e 4 V 3.s - 5.n 0.e\ne 5 V 4.s - 5.s 3.n\n";

/// The second column spelled out, element by element.
const SPELLED_OUT: &str = "rotary 2\nelements 6\nstart 0.w\nend 4.e\nsteps 0\nat 0.w\n\
                           c 0 2 H\nr 3.w 4.e\nr 4.w -\ne 3 V 5.e - 4.n -\n\
                           e 4 V 3.s - 5.n 0.e\ne 5 V 4.s - 5.s 3.n\n";

#[test]
fn a_text_is_stepped_in_its_version(rt: HostRuntime) -> Result<(), Fail> {
    let rows: [(&[&str], &str, u8, &str); 7] = [
        (&["step", "1"], COLUMNS, 0, STEPPED),
        (&["step", "8"], COLUMNS, 0, CROSSED),
        (&["back", "1"], STEPPED, 0, COLUMNS),
        (&["back", "100"], CROSSED, 0, COLUMNS),
        (&["step", "1"], ELEMENTS, 0, ELEMENTS_STEPPED),
        (&["migrate"], ELEMENTS, 0, COLUMNS),
        (&["migrate"], COLUMNS, 0, COLUMNS),
    ];
    hold_each(&rt, rt.alloc(), &rows)
}

#[test]
fn a_plan_is_the_same_of_either_version(rt: HostRuntime) -> Result<(), Fail> {
    let one = answer(rt.alloc(), &["plan"], ELEMENTS.as_bytes())?;
    let two = answer(rt.alloc(), &["plan"], COLUMNS.as_bytes())?;
    assert_eq!(rt; one.status, Status::Done);
    assert_eq!(rt; one.text.as_slice(), two.text.as_slice());
    Ok(())
}

#[test]
fn the_first_fault_of_a_column_is_told(rt: HostRuntime) -> Result<(), Fail> {
    let head = "rotary 2\nelements 6\nstart 0.w\nend 4.e\nsteps 0\nat 0.w\n";
    let rows = [
        ("c 0 0 H\n", "text: line 7 syntax\n"),
        ("c 1 2 H\n", "text: line 7 order\n"),
        ("c 0 6 H\n", "text: line 7 target\n"),
        ("c 0 4 H\nr - -\n", "text: line 9 syntax\n"),
        (
            "c 0 2 H\nr 3.w 4.e\nr 3.w -\n",
            "text: line 9 two sources\n",
        ),
        ("c 0 2 H\nr 1.n -\n", "text: line 8 two sources\n"),
        ("c 0 2 H\nr 0.w -\n", "text: line 8 start fed\n"),
        ("e 0 V 2.n - - -\nc 1 2 H\n", "text: line 8 two sources\n"),
        ("c 0 2 H\ne 1 V - - - -\n", "text: line 8 syntax\n"),
    ];
    for (entries, output) in rows {
        let mut input = Vec::from_slice(rt.alloc(), head.as_bytes())?;
        input.extend_from_slice(entries.as_bytes())?;
        let answer = answer(rt.alloc(), &["migrate"], input.as_slice())?;
        assert_eq!(rt; answer.text.as_slice(), output.as_bytes(), "{entries}");
        assert_eq!(rt; answer.status.code(), 3);
    }
    Ok(())
}

#[test]
fn an_end_start_or_exit_inside_a_column_is_told(rt: HostRuntime) -> Result<(), Fail> {
    let rows = [
        ("0.w", "0.n", "at 0.w", "text: line 7 end wired\n"),
        ("0.w", "2.e", "left 1.s", "text: line 7 left wired\n"),
        ("1.n", "2.e", "at 0.w", "text: line 7 start fed\n"),
        ("2.w", "2.e", "left 2.e", "text: line 8 syntax\n"),
    ];
    for (start, end, place, output) in rows {
        let mut input = Vec::from_slice(rt.alloc(), b"rotary 2\nelements 3\nstart ")?;
        for part in [start, "\nend ", end, "\nsteps 0\n", place, "\nc 0 2 V\n"] {
            input.extend_from_slice(part.as_bytes())?;
        }
        let answer = answer(rt.alloc(), &["migrate"], input.as_slice())?;
        assert_eq!(rt; answer.text.as_slice(), output.as_bytes());
        assert_eq!(rt; answer.status.code(), 3);
    }
    Ok(())
}

#[test]
fn a_column_that_is_spelled_out_is_told_last(rt: HostRuntime) -> Result<(), Fail> {
    let rows = [
        (SPELLED_OUT, 3, "text: line 10 spelling\n"),
        ("", 3, "text: line 1 syntax\n"),
        ("rotary 2\n", 3, "text: line 2 syntax\n"),
        ("rotary 2\nelements 4194305\n", 3, "text: line 2 too many\n"),
        ("rotary 2\nelements 4194304\n", 3, "text: line 3 syntax\n"),
        ("rotary 1\nelements 1048577\n", 3, "text: line 2 too many\n"),
        (
            "rotary 1\nelements 1\nstart 0.n\nend 0.s\nsteps 0\nat 0.n\nc 0 1 V\n",
            3,
            "text: line 7 syntax\n",
        ),
    ];
    hold(&rt, rt.alloc(), &["step", "0"], &rows)?;
    let mut more = Vec::from_slice(rt.alloc(), SPELLED_OUT.as_bytes())?;
    more.push(b'\n')?;
    let behind = answer(rt.alloc(), &["step", "0"], more.as_slice())?;
    assert_eq!(rt;
        behind.text.as_slice(),
        b"text: line 13 syntax\n".as_slice()
    );
    Ok(())
}

#[test]
fn a_text_comes_and_goes_byte_by_byte(rt: HostRuntime) -> Result<(), Fail> {
    let rows: [(&[&str], &str, &str); 4] = [
        (&["step", "1"], COLUMNS, STEPPED),
        (&["back", "8"], CROSSED, COLUMNS),
        (&["migrate"], ELEMENTS, COLUMNS),
        (&["step", "1"], SPELLED_OUT, "text: line 10 spelling\n"),
    ];
    for (list, input, output) in rows {
        let answer = answer_in_pieces(rt.alloc(), list, input.as_bytes(), &mut Quiet, 1, 1)?;
        assert_eq!(rt; answer.text.as_slice(), output.as_bytes());
    }
    Ok(())
}

#[test]
fn a_long_line_has_no_form(rt: HostRuntime) -> Result<(), Fail> {
    for count in [112usize, 128, 129, 200] {
        let mut input = vec![in rt.alloc(); b'a'; count]?;
        input.push(b'\n')?;
        let answer = answer(rt.alloc(), &["step", "1"], input.as_slice())?;
        assert_eq!(rt; answer.text.as_slice(), b"text: line 1 syntax\n".as_slice());
    }
    Ok(())
}
