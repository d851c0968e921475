// A patch list as text.
ghost use Rattle.std.specs.Prelude.{◌≡◌, ℕ, ◌+◌, ◌*◌, ◌≤◌, ◌<◌, length, take, drop, ◌++◌};
ghost use Rattle.base.specs.Loops.{table};
ghost use Rattle.blobs.specs.Patches.{record_length, patch_at};
ghost use Rattle.patch_text.specs.Text.{field, record_line, record_lines, patch_text, refused_text};
ghost use Rattle.patch_text.specs.Steps.{Written};

use crate::read::Size;
use blobs::Blob;
use blobs::internal::blob_at;

// Writes all of `bytes` from `at` on.
fn copy(bytes: &[u8], out: &mut [u8], at: usize) -> usize
    requires { at + length bytes.now ≤ length out.old }
    ensures { (take result out.new ≡ take at out.old ++ bytes.now) ×
        (result ≡ at + length bytes.now) }
{
    let end = at + bytes.len();
    out[at..end].copy_from_slice(bytes);
    end
}

// Writes a number and the letter after it.
fn put(out: &mut [u8], at: usize, n: u64, after: u8) -> usize
    requires { at + 21 ≤ length out.old }
    ensures { Written out.old out.new at result 21 (field n after) }
{
    let mut digits = itoa::Buffer::new();
    let end = copy(digits.format(n).as_bytes(), out, at);
    out[end] = after;
    end + 1
}

// Writes a record's line.
fn put_record(out: &mut [u8], at: usize, b: Blob) -> usize
    requires { at + 168 ≤ length out.old }
    ensures { Written out.old out.new at result 168 (record_line b) }
{
    let mut end = at;
    for n in [b.area, b.sx, b.sy, b.x0, b.y0, b.x1, b.y1] {
        end = put(out, end, n, b' ');
    }
    put(out, end, b.outline, b'\n')
}

// Writes the first n records' lines.
fn put_records(out: &mut [u8], at: usize, patches: &[u64], n: usize) -> usize
    requires { (at + 168 * n ≤ length out.old) × (record_length * n ≤ length patches.now) }
    ensures { Written out.old out.new at result (168 * n)
        (record_lines (table (patch_at patches.now) n)) }
{
    let mut end = at;
    for j in 0..n {
        end = put_record(out, end, blob_at(patches, j));
    }
    end
}

// Writes the list of n patches of a mask of this size.
pub fn list(size: Size, patches: &[u64], n: usize, out: &mut [u8]) -> usize
    requires { (63 + 168 * n ≤ length out.old) × (record_length * n ≤ length patches.now) }
    ensures { (take result out.new ≡ patch_text size.w size.h (table (patch_at patches.now) n)) ×
        (result ≤ length out.new) }
{
    let width = put(out, 0, size.w as u64, b' ');
    let sides = put(out, width, size.h as u64, b' ');
    let head = put(out, sides, n as u64, b'\n');
    put_records(out, head, patches, n)
}

// Writes the refusal.
pub fn refused(out: &mut [u8]) -> usize
    requires { 10 ≤ length out.old }
    ensures { (take result out.new ≡ refused_text) × (result ≤ length out.new) }
{
    copy(b"refused 2\n", out, 0)
}
