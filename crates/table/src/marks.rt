// 17's check of the kept places, in one pass that marks each row where it is held.
// docs/TRUST.md names `valid_table`: places of 16 bits, 0 for a free one, and row counts beside them. The marks are one array: no heap.
ghost use Rattle.std.specs.Prelude.{◌≡◌, ℕ, ◌≤◌, ◌<◌, length, get_or};
ghost use Rattle.choice.specs.Choice.{pick};
ghost use Rattle.table.specs.Table.{valid_table};
ghost use Rattle.table.specs.laws.Marks.{is_new, with_mark, rows_marked, all_marked};

// One place: false where it holds no row below its competition's count, or one that is marked already.
// The counts are lent, since a copy for each place would cost more than the rest.
fn mark(rows: &[usize; 16], x: u16, marks: &mut [u8]) -> bool
    requires { length marks.old ≡ 16384 }
    ensures tells { result ≡ is_new (λ c. get_or rows.now c 0) marks.old x }
    ensures leaves { marks.new ≡ pick result (with_mark marks.old x) marks.old }
{
    if x == 0 {
        return true;
    }
    if 16384 < x {
        return false;
    }
    let y = usize::from(x) - 1;
    if rows[y / 1024] <= y % 1024 {
        return false;
    }
    if marks[y] != 0 {
        return false;
    }
    marks[y] = 1;
    true
}

// The rows of competition c below its count.
fn rows_marked(marks: &[u8], c: usize, count: usize) -> bool
    requires { (length marks.now ≡ 16384) × (c < 16) × (count ≤ 1024) }
    ensures { result ≡ rows_marked marks.now c count }
{
    let first = 1024 * c;
    marks[first..first + count].iter().all(|&mark| mark == 1)
}

fn all_marked(rows: [usize; 16], marks: &[u8]) -> bool
    requires { (length marks.now ≡ 16384) × ((c : ℕ) → c < 16 → get_or rows c 0 ≤ 1024) }
    ensures { result ≡ all_marked (λ c. get_or rows c 0) marks.now }
{
    (0..16).all(|c| rows_marked(marks, c, rows[c]))
}

// Each competition has every row number below its row count at exactly one place, and the places hold nothing else.
pub fn valid_table(rows: [usize; 16], held: &[u16]) -> bool
    requires { (c : ℕ) → c < 16 → get_or rows c 0 ≤ 1024 }
    ensures { result ≡ valid_table (λ c. get_or rows c 0) held.now }
{
    let mut marks = [0u8; 16384];
    for &x in held {
        if !mark(&rows, x, &mut marks) {
            return false;
        }
    }
    all_marked(rows, &marks)
}
