//! `layout`: what a board is made of.

use crate::desk::{answer, hold_each};
use bn_top::Status;
use std::test::Fail;

/// The least machine in standard form.
const LEAST: &str = "S,_,_,+,T\nT,_,_,0,F\n";

/// Where the banks of the control and of the eight cells stand.
const MODULES: &str = "elements 1244\nmodules 9\nmodule 0 control from 0 columns 54 lines 15\n\
     module 1 tape 1 cell 0 from 864 columns 2 lines 10\n\
     module 2 tape 1 cell 1 from 886 columns 2 lines 10\n\
     module 3 tape 1 cell 2 from 908 columns 2 lines 10\n\
     module 4 tape 2 cell 0 from 930 columns 6 lines 14\n\
     module 5 tape 2 cell 1 from 1020 columns 6 lines 14\n\
     module 6 tape 2 cell 2 from 1110 columns 6 lines 14\n\
     module 7 tape 3 cell 0 from 1200 columns 2 lines 10\n\
     module 8 tape 3 cell 1 from 1222 columns 2 lines 10\n";

/// What the columns of the control stand for.
const COLUMNS: &str =
    "column 0 of control begin\ncolumn 1 of control end\ncolumn 2 of control reads A1\n\
     column 3 of control reads A1 0\ncolumn 4 of control reads A1'\ncolumn 5 of control reads A2\n\
     column 6 of control reads A2 0\ncolumn 7 of control reads A2'\ncolumn 8 of control reads A3\n\
     column 9 of control reads A3 0\ncolumn 10 of control reads A3 0 2\n\
     column 11 of control reads B1\ncolumn 12 of control reads B1 0\n\
     column 13 of control reads B1 0 2\ncolumn 14 of control reads B2\n\
     column 15 of control reads B2 0\ncolumn 16 of control reads B2 0 2\n\
     column 17 of control reads C3\ncolumn 18 of control reads C2'\n\
     column 19 of control reads C2' 0\ncolumn 20 of control reads C2\n\
     column 21 of control reads C1'\ncolumn 22 of control reads C1' 0\n\
     column 23 of control shifts 1 2\ncolumn 24 of control shifts 2 1\n\
     column 25 of control shifts 3 2\ncolumn 26 of control shifts 6 1\n\
     column 27 of control shifts 6 3\ncolumn 28 of control shifts 8 1\n\
     column 29 of control shifts 8 3\ncolumn 30 of control shifts 11 2\n\
     column 31 of control shifts 12 1\ncolumn 32 of control shifts 13 2\n\
     column 33 of control writes A1' 3 0\ncolumn 34 of control writes A1' 1\n\
     column 35 of control writes A2 2\ncolumn 36 of control writes A2' 3 0\n\
     column 37 of control writes A2' 1\ncolumn 38 of control writes A3 2\n\
     column 39 of control writes B1' 3 2 0\ncolumn 40 of control writes B1' 2 0\n\
     column 41 of control writes B1' 1\ncolumn 42 of control writes B2' 3 2 0\n\
     column 43 of control writes B2' 2 0\ncolumn 44 of control writes B2' 1\n\
     column 45 of control writes C3 3 2 0\ncolumn 46 of control writes C3 2 0\n\
     column 47 of control writes C3 1\ncolumn 48 of control writes C2' 2\n\
     column 49 of control writes C2 3 0\ncolumn 50 of control writes C2 1\n\
     column 51 of control writes C1' 2\ncolumn 52 of control writes C1 3 0\n\
     column 53 of control writes C1 1\n";

/// How its lines are called.
const LINES: &str = "line 0 of control in Start out End\nline 1 of control in A 0 1 out Rd 1\n\
     line 2 of control in DoneW 1 out W 0 1\nline 3 of control in DoneR 1 out SR 1\n\
     line 4 of control in DoneL 1 out SL 1\nline 5 of control in A 0 2 out Rd 2\n\
     line 6 of control in A 1 2 out W 0 2\nline 7 of control in A 2 2 out W 1 2\n\
     line 8 of control in DoneW 2 out W 2 2\nline 9 of control in DoneR 2 out SR 2\n\
     line 10 of control in DoneL 2 out SL 2\nline 11 of control in A 0 3 out Rd 3\n\
     line 12 of control in DoneW 3 out W 0 3\nline 13 of control in DoneR 3 out SR 3\n\
     line 14 of control in DoneL 3 out SL 3\n";

/// What all cells of a tape have.
const TAPES: &str = "column 0 of tape 1 plain _\ncolumn 1 of tape 1 head _\nline 0 of tape 1 Rd\n\
     line 1 of tape 1 W 0\nline 2 of tape 1 SR\nline 3 of tape 1 SL\nline 4 of tape 1 TakeR\n\
     line 5 of tape 1 A 0\nline 6 of tape 1 DoneW\nline 7 of tape 1 DoneR\nline 8 of tape 1 DoneL\n\
     line 9 of tape 1 TakeL\ncolumn 0 of tape 2 plain _\ncolumn 1 of tape 2 plain 1\n\
     column 2 of tape 2 plain 2\ncolumn 3 of tape 2 head _\ncolumn 4 of tape 2 head 1\n\
     column 5 of tape 2 head 2\nline 0 of tape 2 Rd\nline 1 of tape 2 W 0\nline 2 of tape 2 W 1\n\
     line 3 of tape 2 W 2\nline 4 of tape 2 SR\nline 5 of tape 2 SL\nline 6 of tape 2 TakeR\n\
     line 7 of tape 2 A 0\nline 8 of tape 2 A 1\nline 9 of tape 2 A 2\nline 10 of tape 2 DoneW\n\
     line 11 of tape 2 DoneR\nline 12 of tape 2 DoneL\nline 13 of tape 2 TakeL\n\
     column 0 of tape 3 plain _\ncolumn 1 of tape 3 head _\nline 0 of tape 3 Rd\n\
     line 1 of tape 3 W 0\nline 2 of tape 3 SR\nline 3 of tape 3 SL\nline 4 of tape 3 TakeR\n\
     line 5 of tape 3 A 0\nline 6 of tape 3 DoneW\nline 7 of tape 3 DoneR\nline 8 of tape 3 DoneL\n\
     line 9 of tape 3 TakeL\n";

#[test]
fn tells_modules_columns_and_lines_in_order(rt: HostRuntime) -> Result<(), Fail> {
    let told = answer(
        rt.alloc(),
        &["layout", "=", "0", "2", "2", "1"],
        LEAST.as_bytes(),
    )?;
    assert_eq!(rt; told.status, Status::Done);
    let mut rest = told.text.as_slice();
    for part in [MODULES, COLUMNS, LINES, TAPES] {
        assert!(rt; rest.starts_with(part.as_bytes()));
        rest = &rest[part.len()..];
    }
    assert!(rt; rest.is_empty());
    Ok(())
}

#[test]
fn refuses_as_compile_does(rt: HostRuntime) -> Result<(), Fail> {
    let rows: [(&[&str], &str, u8, &str); 6] = [
        (&["layout", "=", "0", "2", "2", "1"], "", 3, "text: empty\n"),
        (
            &["layout", "=9", "0", "0", "2", "1"],
            "S,_,_,+,F\nS,_,_,0,F\n",
            4,
            "machine: S1 1 2\n",
        ),
        (&["layout", "=9", "0", "0", "2", "1"], LEAST, 5, "word: 1\n"),
        (
            &["layout", "=", "0", "1048576", "2", "1"],
            LEAST,
            6,
            "size: elements 23069872\n",
        ),
        (&["layout", "=", "0", "2", "2"], LEAST, 2, "usage\n"),
        (&["layout", "", "0", "2", "2", "1"], LEAST, 2, "usage\n"),
    ];
    hold_each(&rt, rt.alloc(), &rows)
}
