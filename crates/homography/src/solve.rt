// Gauss and Jordan's elimination with partial pivoting on eight rows of nine: eight unknowns and
// the right-hand side. Entry j of row r stands at r * 9 + j.
ghost use Rattle.std.specs.Prelude.{◌≡◌, ◌<◌};
ghost use Rattle.homography.specs.Arithmetic.{rounded};
ghost use Rattle.homography.specs.Elimination.{pivot_of, swapped, divided, reduced, cleared, last_column};
ghost use Rattle.homography.specs.Inner.{unknowns};

// The row, from col down, whose entry in the column has the largest absolute value; the earlier of
// equals. A NaN is neither larger nor smaller, so it stays where it stands first and is else passed
// by.
fn pivot(a: &[f64; 72], col: usize) -> usize
    requires { col < 8 }
    ensures { (result ≡ pivot_of rounded a.now col) × (result < 8) }
{
    let mut piv = col;
    for r in col + 1..8 {
        if float::abs(a[r * 9 + col]) > float::abs(a[piv * 9 + col]) {
            piv = r;
        }
    }
    piv
}

// Rows p and q change places.
fn swap_rows(a: &mut [f64; 72], p: usize, q: usize)
    requires { (p < 8) × (q < 8) }
    ensures { a.new ≡ swapped rounded a.old p q }
{
    for j in 0..9 {
        a.swap(p * 9 + j, q * 9 + j);
    }
}

// Row r is divided by d, from the column col on: what stands before it was cleared and is not read
// again.
fn divide_row(a: &mut [f64; 72], r: usize, col: usize, d: f64)
    requires { (r < 8) × (col < 8) }
    ensures { a.new ≡ divided rounded a.old r col d }
{
    for j in col..9 {
        a[r * 9 + j] /= d;
    }
}

// Row r less its entry in the column times the pivot row, from the column col on. The pivot row
// itself stays, and so does a row that has 0 there.
fn reduce_row(a: &mut [f64; 72], r: usize, col: usize)
    requires { (r < 8) × (col < 8) }
    ensures { a.new ≡ reduced rounded a.old r col }
{
    if r == col {
        return;
    }
    let f = a[r * 9 + col];
    if f == 0.0 {
        return;
    }
    for j in col..9 {
        a[r * 9 + j] -= f * a[col * 9 + j];
    }
}

// One column: the pivot row comes to its place and is divided by its pivot, and then the column is
// cleared in every other row, above and below.
fn clear_column(a: &mut [f64; 72], col: usize, piv: usize)
    requires { (col < 8) × (piv ≡ pivot_of rounded a.old col) × (piv < 8) }
    ensures { a.new ≡ cleared rounded a.old col }
{
    swap_rows(a, col, piv);
    let d = a[col * 9 + col];
    divide_row(a, col, col, d);
    for r in 0..8 {
        reduce_row(a, r, col);
    }
}

// The last column.
fn last_column(a: &[f64; 72]) -> [f64; 8]
    ensures { result ≡ last_column rounded a.now }
{
    let mut h = [0.0; 8];
    for r in 0..8 {
        h[r] = a[r * 9 + 8];
    }
    h
}

// The eight unknowns. There are none where the pivot of some column has an absolute value below
// 1e-12; a NaN is not below it.
pub fn solve8(rows: [f64; 72]) -> Option<[f64; 8]>
    ensures { result ≡ unknowns rows }
{
    let mut a = rows;
    for col in 0..8 {
        let piv = pivot(&a, col);
        if float::abs(a[piv * 9 + col]) < 1e-12 {
            return None;
        }
        clear_column(&mut a, col, piv);
    }
    Some(last_column(&a))
}
