//! Lines that are built in place, without memory, before they are written.

ghost use Rattle.std.specs.Prelude.{◌≡◌, ◌≤◌, ◌+◌, ◌++◌, length};
ghost use Rattle.std.specs.Fmt.{decimal, signed_decimal};
ghost use Rattle.arrayvec.specs.ArrayVec.{array_vec_len};
ghost use Rattle.byte_output.specs.Column.{right_in};
ghost use Rattle.byte_output.specs.declared.line.TheConstants.{LINE_BYTES, COLUMN_BYTES};

use arrayvec::ArrayVec;
use itoa::Buffer;

/// The most bytes that a line has.
pub const LINE_BYTES: usize = 160;

/// The most bytes of a column, and of what stands in it.
pub const COLUMN_BYTES: usize = 20;

/// A line's bytes so far.
pub type LineBuffer = ArrayVec<u8, LINE_BYTES>;

/// Appends a text.
pub fn push(line: &mut LineBuffer, text: &[u8])
    requires { array_vec_len line.old + length text.now ≤ LINE_BYTES }
    ensures items { line.new.items ≡ line.old.items ++ text.now }
    ensures len { array_vec_len line.new ≡ array_vec_len line.old + length text.now }
{
    let _ = line.try_extend_from_slice(text);
}

/// Appends a label and a number in decimal.
pub fn push_unsigned(line: &mut LineBuffer, label: &str, number: u64)
    requires { array_vec_len line.old + length label.now + 20 ≤ LINE_BYTES }
    ensures items { line.new.items ≡ line.old.items ++ (label.now ++ decimal number) }
    ensures len { array_vec_len line.new ≤ array_vec_len line.old + length label.now + 20 }
{
    let mut digits = Buffer::new();
    push(line, label.as_bytes());
    push(line, digits.format(number).as_bytes());
}

/// Appends a label and a signed number in decimal.
pub fn push_signed(line: &mut LineBuffer, label: &str, number: i32)
    requires { array_vec_len line.old + length label.now + 11 ≤ LINE_BYTES }
    ensures items { line.new.items ≡ line.old.items ++ (label.now ++ signed_decimal number) }
    ensures len { array_vec_len line.new ≤ array_vec_len line.old + length label.now + 11 }
{
    let mut digits = Buffer::new();
    push(line, label.as_bytes());
    push(line, digits.format(number).as_bytes());
}

/// Appends a text, right-aligned in a column of `places` bytes. A longer text is appended as it is.
pub fn push_right(line: &mut LineBuffer, places: usize, text: &[u8])
    requires narrow { places ≤ COLUMN_BYTES }
    requires short { length text.now ≤ COLUMN_BYTES }
    requires room { array_vec_len line.old + COLUMN_BYTES ≤ LINE_BYTES }
    ensures items { line.new.items ≡ line.old.items ++ right_in places text.now }
    ensures len { array_vec_len line.new ≤ array_vec_len line.old + COLUMN_BYTES }
{
    let spaces = [b' '; COLUMN_BYTES];
    push(line, &spaces[..places.saturating_sub(text.len())]);
    push(line, text);
}

/// Appends a number in decimal, right-aligned in a column of `places` bytes.
pub fn push_column(line: &mut LineBuffer, places: usize, number: u64)
    requires narrow { places ≤ COLUMN_BYTES }
    requires room { array_vec_len line.old + COLUMN_BYTES ≤ LINE_BYTES }
    ensures items { line.new.items ≡ line.old.items ++ right_in places (decimal number) }
    ensures len { array_vec_len line.new ≤ array_vec_len line.old + COLUMN_BYTES }
{
    let mut digits = Buffer::new();
    push_right(line, places, digits.format(number).as_bytes());
}
