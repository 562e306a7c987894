// The days marked M, each by its whole report. n = 3, C = A = 2, all willing unless said.
use crate::day::day;
use std::io;

pub fn cases(rt: &impl Print) -> io::Result<()> {
    accepted(rt)?;
    silent(rt)?;
    stopped(rt)
}

fn accepted(rt: &impl Print) -> io::Result<()> {
    day(
        rt,
        b"M1 header only",
        b"\x03\x02\x02\x07\x00",
        b"sites 3 commit 2 abort 2 events 0 rows 0 news 0\n0 up subordinate active --- 000\n1 up subordinate active --- 000\n2 up subordinate active --- 000\nend 5\n",
    )?;
    day(
        rt,
        b"M2 START",
        b"\x03\x02\x02\x07\x00\x01",
        b"sites 3 commit 2 abort 2 events 1 rows 1 news 0\n0 up coordinator prepared P-- 100\n1 up subordinate active --- 000\n2 up subordinate active --- 000\nend 6\n",
    )?;
    day(
        rt,
        b"M3 the report of the paper",
        b"\x03\x02\x02\x07\x00\x01\x02\x00\x00\x01\x02\x01\x00\x00\x03\x00\x02\x02\x00\x02\x02\x03\x00\x00\x03\x00",
        b"sites 3 commit 2 abort 2 events 7 rows 5 news 5\n0 up coordinator aborted PAa 513\n1 up subordinate prepared P-- 110\n2 up subordinate abort-group -A- 313\nend 26\n",
    )?;
    day(
        rt,
        b"M4 site 1 unwilling",
        b"\x03\x02\x02\x05\x00\x01\x02\x00\x00\x01\x02\x01\x00\x00",
        b"sites 3 commit 2 abort 2 events 3 rows 2 news 2\n0 up coordinator aborted P-a 550\n1 up subordinate aborted --a 150\n2 up subordinate active --- 000\nend 14\n",
    )
}

fn silent(rt: &impl Print) -> io::Result<()> {
    day(
        rt,
        b"M5 START, CRASH 0, RECOVER 0, TIMEOUT 0",
        b"\x03\x02\x02\x07\x00\x01\x04\x00\x05\x00\x03\x00",
        b"sites 3 commit 2 abort 2 events 4 rows 2 news 0\n0 up coordinator prepared P-- 100\n1 up subordinate active --- 000\n2 up subordinate active --- 000\nend 12\n",
    )?;
    day(
        rt,
        b"M6 START, row 0 twice to site 1",
        b"\x03\x02\x02\x07\x00\x01\x02\x00\x00\x01\x02\x00\x00\x01",
        b"sites 3 commit 2 abort 2 events 3 rows 3 news 1\n0 up coordinator prepared P-- 100\n1 up subordinate prepared P-- 110\n2 up subordinate active --- 000\nend 14\n",
    )?;
    day(
        rt,
        b"M7 TIMEOUT 2 at once",
        b"\x03\x02\x02\x07\x00\x03\x02",
        b"sites 3 commit 2 abort 2 events 1 rows 0 news 0\n0 up subordinate active --- 000\n1 up subordinate active --- 000\n2 up subordinate aborted --a 005\nend 7\n",
    )
}

fn stopped(rt: &impl Print) -> io::Result<()> {
    day(
        rt,
        b"M8 START twice",
        b"\x03\x02\x02\x07\x00\x01\x01",
        b"sites 3 commit 2 abort 2 events 1 rows 1 news 0\n0 up coordinator prepared P-- 100\n1 up subordinate active --- 000\n2 up subordinate active --- 000\nrefused 14 at 6\n",
    )?;
    day(
        rt,
        b"M9 row 0 to its sender",
        b"\x03\x02\x02\x07\x00\x01\x02\x00\x00\x00",
        b"sites 3 commit 2 abort 2 events 1 rows 1 news 0\n0 up coordinator prepared P-- 100\n1 up subordinate active --- 000\n2 up subordinate active --- 000\nrefused 11 at 6\n",
    )?;
    day(
        rt,
        b"M10 RECOVER 1 at once",
        b"\x03\x02\x02\x07\x00\x05\x01",
        b"sites 3 commit 2 abort 2 events 0 rows 0 news 0\n0 up subordinate active --- 000\n1 up subordinate active --- 000\n2 up subordinate active --- 000\nrefused 13 at 5\n",
    )
}
