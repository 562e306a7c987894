// A day for request (vi) of document 02: sites of different weight, by its whole report.
use crate::day::day;
use std::io;

// Weights 2, 2 and 1, C = A = 3: the day M3. Sites 0 and 2 are two, and weigh 3.
pub fn cases(rt: &impl Print) -> io::Result<()> {
    day(
        rt,
        b"W1 two sites weigh an abort quorum of three",
        b"\x82\x03\x03\x00\x03\x00\x07\x00\x02\x02\x01\x01\x02\x00\x00\x01\x02\x01\x00\x00\x03\x00\x02\x02\x00\x02\x02\x03\x00\x00\x03\x00",
        b"sites 3 commit 3 abort 3 events 7 rows 5 news 5\n0 up coordinator aborted PAa 513\n1 up subordinate prepared P-- 110\n2 up subordinate abort-group -A- 313\nend 32\n",
    )
}
