//! A row of coefficients times pieces of one width.

ghost use Rattle.std.specs.Prelude.{◌≡◌, ◌*◌, ◌++◌, OnOk, length, slice_index};
ghost use Rattle.sw_cauchy.specs.Rows.{row_times, rows_times};

use sw_gf256::mul_acc;
use sw_types::NoMemory;

/// Adds the sums of a matrix's k rows, one after another.
pub(crate) fn push_matrix_times(
    out: &mut Vec<u8>,
    k: usize,
    matrix: &[u8],
    pieces: &[u8],
    width: usize,
) -> Result<(), NoMemory>
    requires { length matrix.now ≡ k * k }
    ensures { OnOk result (out.new.items ≡ out.old.items ++ rows_times k width matrix.now pieces.now k) }
{
    for i in 0..k {
        push_row_times(out, &matrix[i * k..(i + 1) * k], pieces, width)?;
    }
    Ok(())
}

/// Adds the sum of the products of a row's entries with as many pieces of one width, which stand one after another.
pub(crate) fn push_row_times(
    out: &mut Vec<u8>,
    row: &[u8],
    pieces: &[u8],
    width: usize,
) -> Result<(), NoMemory>
    ensures { OnOk result (out.new.items ≡ out.old.items ++ row_times (length row.now) width (slice_index row.now) pieces.now) }
{
    let start = out.len();
    let end = start.checked_add(width).ok_or(NoMemory)?;
    out.resize(end, 0)?;
    write_row_times(&mut out[start..end], row, pieces);
    Ok(())
}

/// Writes the sum of the products of a row's entries with as many pieces, which stand one after another. Where they end
/// early, zeros count in place of what is missing.
pub(crate) fn write_row_times(sum: &mut [u8], row: &[u8], pieces: &[u8])
    ensures { sum.new ≡ row_times (length row.now) (length sum.old) (slice_index row.now) pieces.now }
{
    let width = sum.len();
    sum.fill(0);
    let mut rest = pieces;
    for factor in row {
        let (piece, after) = rest.split_at(width.min(rest.len()));
        mul_acc(&mut sum[..piece.len()], piece, *factor);
        rest = after;
    }
}
