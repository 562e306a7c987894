// Days where a builder is tempted, and whole days to commit and abort, each by its whole report.
use crate::day::day;
use std::io;

pub fn cases(rt: &impl Print) -> io::Result<()> {
    ends(rt)?;
    groups(rt)?;
    prepares(rt)?;
    crashes(rt)
}

// START, row 0 to 1 and 2, rows 1 and 2 to 0, TIMEOUT 0, row 3 to 1, row 4 to 0, TIMEOUT 0, row 5 to 2; and an unwilling site 0, whose
// row 0 goes to site 1.
fn ends(rt: &impl Print) -> io::Result<()> {
    day(
        rt,
        b"a day to commit",
        b"\x03\x02\x02\x07\x00\x01\x02\x00\x00\x01\x02\x00\x00\x02\x02\x01\x00\x00\x02\x02\x00\x00\x03\x00\x02\x03\x00\x01\x02\x04\x00\x00\x03\x00\x02\x05\x00\x02",
        b"sites 3 commit 2 abort 2 events 10 rows 7 news 9\n0 up coordinator committed PCc 421\n1 up subordinate commit-group PC- 221\n2 up subordinate committed P-c 424\nend 38\n",
    )?;
    day(
        rt,
        b"site 0 unwilling",
        b"\x03\x02\x02\x06\x00\x01\x02\x00\x00\x01",
        b"sites 3 commit 2 abort 2 events 2 rows 2 news 1\n0 up coordinator aborted --a 500\n1 up subordinate aborted --a 550\n2 up subordinate active --- 000\nend 10\n",
    )
}

// n 4, C 3, A 2: one site's in-group row twice is no quorum; and a site in the abort group stays when a join commit arrives.
fn groups(rt: &impl Print) -> io::Result<()> {
    day(
        rt,
        b"a repeated in-group message makes no quorum",
        b"\x04\x03\x02\x0f\x00\x01\x02\x00\x00\x01\x02\x00\x00\x02\x02\x00\x00\x03\x02\x01\x00\x00\x02\x02\x00\x00\x02\x03\x00\x00\x03\x00\x02\x04\x00\x01\x02\x05\x00\x00\x02\x05\x00\x00\x03\x00",
        b"sites 4 commit 3 abort 2 events 12 rows 7 news 10\n0 up coordinator commit-group PC- 2211\n1 up subordinate commit-group PC- 2211\n2 up subordinate prepared P-- 1010\n3 up subordinate prepared P-- 1001\nend 46\n",
    )?;
    day(
        rt,
        b"the abort group stays at a join commit",
        b"\x03\x02\x02\x07\x00\x01\x02\x00\x00\x01\x02\x00\x00\x02\x02\x01\x00\x00\x02\x02\x00\x00\x03\x00\x03\x02\x03\x02\x02\x03\x00\x02\x02\x06\x00\x00\x03\x00",
        b"sites 3 commit 2 abort 2 events 11 rows 8 news 7\n0 up coordinator commit-group PC- 213\n1 up subordinate prepared P-- 110\n2 up coordinator abort-group PA- 213\nend 38\n",
    )
}

// Site 1, prepared, holds 313 after START, row 0 to 1, TIMEOUT 0, row 2 to 2, row 3 to 0, TIMEOUT 1, row 4 to 0 and row 5 to 1. Site 2 has
// joined without P, so TIMEOUT 1 joins the abort group.
fn prepares(rt: &impl Print) -> io::Result<()> {
    day(
        rt,
        b"T1 code 3 is no prepare",
        b"\x03\x02\x02\x07\x00\x01\x02\x00\x00\x01\x03\x00\x02\x02\x00\x02\x02\x03\x00\x00\x03\x01\x02\x04\x00\x00\x02\x05\x00\x01\x03\x01",
        b"sites 3 commit 2 abort 2 events 9 rows 7 news 6\n0 up coordinator abort-group PA- 313\n1 up coordinator abort-group PA- 333\n2 up subordinate abort-group -A- 303\nend 32\n",
    )
}

// With no group record a crash leaves the own entry alone; with one, the vector after joining.
fn crashes(rt: &impl Print) -> io::Result<()> {
    day(
        rt,
        b"the vector does not outlive a crash",
        b"\x03\x02\x02\x07\x00\x01\x02\x00\x00\x01\x02\x01\x00\x00\x04\x00\x05\x00\x03\x00",
        b"sites 3 commit 2 abort 2 events 6 rows 3 news 2\n0 up coordinator prepared P-- 100\n1 up subordinate prepared P-- 110\n2 up subordinate active --- 000\nend 20\n",
    )?;
    day(
        rt,
        b"the group record's vector does",
        b"\x03\x02\x02\x07\x00\x01\x02\x00\x00\x01\x02\x01\x00\x00\x03\x00\x02\x02\x00\x02\x02\x03\x00\x00\x04\x00",
        b"sites 3 commit 2 abort 2 events 7 rows 4 news 5\n0 down subordinate abort-group PA- 310\n1 up subordinate prepared P-- 110\n2 up subordinate abort-group -A- 313\nend 26\n",
    )
}
