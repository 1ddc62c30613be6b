//! The inverse of a square matrix over the field, by elimination: operations on the rows make the matrix the unit
//! matrix, and the unit matrix the inverse. A matrix of k rows and columns is a slice of its rows, one after another.

ghost use Rattle.std.specs.Prelude.{◌≡◌, ◌≢◌, ℕ, ◌*◌, ◌+◌, ◌<◌, ◌≤◌, length};
ghost use Rattle.sw_words.specs.Bytes.{IsBytes};
ghost use Rattle.sw_cauchy.specs.Elimination.{HasUnitColumns, IsRowAdded, IsRowScaled, IsRowOperation};
ghost use Rattle.sw_cauchy.specs.Linear.{AreIndependent, IsInverse, matrix_entry};

use sw_gf256::{inv, mul, mul_acc};

/// Writes the inverse of a matrix whose rows are independent. The matrix itself becomes the unit matrix.
pub(crate) fn invert(matrix: &mut [u8], inverse: &mut [u8], k: usize)
    requires small { k ≤ 256 }
    requires square { length matrix.old ≡ k * k }
    requires inverse_square { length inverse.old ≡ k * k }
    requires independent { AreIndependent k matrix.old }
    ensures bytes { IsBytes inverse.new }
    ensures inverse { IsInverse k inverse.new matrix.old }
{
    write_unit_matrix(inverse, k);
    for column in 0..k {
        eliminate(matrix, inverse, k, column);
    }
}

/// Writes the matrix of ones on the diagonal and zeros elsewhere.
pub(crate) fn write_unit_matrix(unit: &mut [u8], k: usize)
    requires small { k ≤ 256 }
    requires square { length unit.old ≡ k * k }
    ensures bytes { IsBytes unit.new }
    ensures unit { HasUnitColumns k unit.new k }
{
    unit.fill(0);
    for row in 0..k {
        unit[row * k + row] = 1;
    }
}

// Makes one more column that of the unit matrix.
fn eliminate(current: &mut [u8], companion: &mut [u8], k: usize, column: usize)
    requires small { k ≤ 256 }
    requires within { column < k }
    requires current_square { length current.old ≡ k * k }
    requires companion_square { length companion.old ≡ k * k }
    requires independent { AreIndependent k current.old }
    requires before { HasUnitColumns k current.old column }
    ensures operation { IsRowOperation k column current.old companion.old current.new companion.new }
    ensures after { HasUnitColumns k current.new (column + 1) }
    ensures companion_bytes { IsBytes companion.new }
{
    fill_pivot(current, companion, k, column);
    let scale = inv(current[column * k + column]);
    scale_row(current, k, column, scale);
    scale_row(companion, k, column, scale);
    clear_column(current, companion, k, column);
}

// Adds a row so that the entry on the diagonal is not zero.
fn fill_pivot(current: &mut [u8], companion: &mut [u8], k: usize, column: usize)
    requires small { k ≤ 256 }
    requires within { column < k }
    requires current_square { length current.old ≡ k * k }
    requires companion_square { length companion.old ≡ k * k }
    requires independent { AreIndependent k current.old }
    requires before { HasUnitColumns k current.old column }
    ensures operation { IsRowOperation k column current.old companion.old current.new companion.new }
    ensures pivot { 0 < matrix_entry k current.new column column }
{
    if current[column * k + column] == 0 {
        let row = find_pivot(current, k, column);
        add_row(current, k, column, row, 1);
        add_row(companion, k, column, row, 1);
    }
}

// A row, of those from the diagonal on, whose entry in the column is not zero.
fn find_pivot(current: &[u8], k: usize, column: usize) -> usize
    requires small { k ≤ 256 }
    requires within { column < k }
    requires current_square { length current.now ≡ k * k }
    requires independent { AreIndependent k current.now }
    requires before { HasUnitColumns k current.now column }
    ensures from { column ≤ result }
    ensures within { result < k }
    ensures pivot { 0 < matrix_entry k current.now result column }
{
    for row in column..k {
        if current[row * k + column] != 0 {
            return row;
        }
    }
    unreachable!()
}

// Adds multiples of the row with a one on the diagonal to all others, so that their entries in the column are zero.
fn clear_column(current: &mut [u8], companion: &mut [u8], k: usize, column: usize)
    requires small { k ≤ 256 }
    requires within { column < k }
    requires current_square { length current.old ≡ k * k }
    requires companion_square { length companion.old ≡ k * k }
    requires one { matrix_entry k current.old column column ≡ 1 }
    ensures operation { IsRowOperation k column current.old companion.old current.new companion.new }
    ensures one { matrix_entry k current.new column column ≡ 1 }
    ensures cleared { (i : ℕ) → i < k → i ≢ column → matrix_entry k current.new i column ≡ 0 }
{
    for row in 0..k {
        if row != column {
            clear_entry(current, companion, k, row, column);
        }
    }
}

// Adds a multiple of the row with a one on the diagonal to another row, so that its entry in the column is zero.
fn clear_entry(current: &mut [u8], companion: &mut [u8], k: usize, row: usize, column: usize)
    requires small { k ≤ 256 }
    requires row_within { row < k }
    requires column_within { column < k }
    requires apart { row ≢ column }
    requires current_square { length current.old ≡ k * k }
    requires companion_square { length companion.old ≡ k * k }
    requires one { matrix_entry k current.old column column ≡ 1 }
    ensures operation { IsRowOperation k column current.old companion.old current.new companion.new }
    ensures cleared { matrix_entry k current.new row column ≡ 0 }
    ensures others { (i : ℕ) → i < k → i ≢ row → matrix_entry k current.new i column ≡ matrix_entry k current.old i column }
{
    let factor = current[row * k + column];
    add_row(current, k, row, column, factor);
    add_row(companion, k, row, column, factor);
}

// Adds a multiple of a row to another.
fn add_row(matrix: &mut [u8], k: usize, target: usize, source: usize, factor: u8)
    requires small { k ≤ 256 }
    requires square { length matrix.old ≡ k * k }
    requires target_within { target < k }
    requires source_within { source < k }
    requires apart { target ≢ source }
    ensures { IsRowAdded k matrix.old matrix.new target source factor }
{
    if source < target {
        let (above, below) = matrix.split_at_mut(target * k);
        mul_acc(&mut below[..k], &above[source * k..source * k + k], factor);
    } else {
        let (above, below) = matrix.split_at_mut(source * k);
        mul_acc(&mut above[target * k..target * k + k], &below[..k], factor);
    }
}

// Multiplies a row.
fn scale_row(matrix: &mut [u8], k: usize, row: usize, factor: u8)
    requires small { k ≤ 256 }
    requires square { length matrix.old ≡ k * k }
    requires within { row < k }
    ensures { IsRowScaled k matrix.old matrix.new row factor }
{
    for entry in matrix[row * k..row * k + k].iter_mut() {
        *entry = mul(factor, *entry);
    }
}
