// Days for request (i) of document 02: a site that restarts before it has voted, each by its whole report.
use crate::day::day;
use std::io;

// START, CRASH 1, RECOVER 1; the same, then row 0 to 1 and its vote, row 1, to 0; CRASH 0, RECOVER 0, START.
pub fn cases(rt: &impl Print) -> io::Result<()> {
    day(
        rt,
        b"R1 site 1 restarts before it has voted",
        b"\x03\x02\x02\x07\x00\x01\x04\x01\x05\x01",
        b"sites 3 commit 2 abort 2 events 3 rows 1 news 0\n0 up coordinator prepared P-- 100\n1 up subordinate aborted --a 050\n2 up subordinate active --- 000\nend 10\n",
    )?;
    day(
        rt,
        b"R2 its vote shows the abort",
        b"\x03\x02\x02\x07\x00\x01\x04\x01\x05\x01\x02\x00\x00\x01\x02\x01\x00\x00",
        b"sites 3 commit 2 abort 2 events 5 rows 2 news 2\n0 up coordinator aborted P-a 550\n1 up subordinate aborted --a 150\n2 up subordinate active --- 000\nend 18\n",
    )?;
    day(
        rt,
        b"R3 site 0 restarts before START",
        b"\x03\x02\x02\x07\x00\x04\x00\x05\x00\x01",
        b"sites 3 commit 2 abort 2 events 2 rows 0 news 0\n0 up subordinate aborted --a 500\n1 up subordinate active --- 000\n2 up subordinate active --- 000\nrefused 14 at 9\n",
    )
}
