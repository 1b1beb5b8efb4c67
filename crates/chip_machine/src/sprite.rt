//! The stored pixels that a sprite covers, as bits of the screen's rows.

ghost use Rattle.std.specs.Prelude.{◌≡◌, ℕ, ◌+◌, ◌-◌, ◌*◌, ◌/◌, ◌%◌, ◌<◌, ◌≤◌, false, ◌==◌, slice_index, ◌^◌, length};
ghost use Rattle.std.specs.Int.{bit_at};
ghost use Rattle.chip_machine.specs.Points.{lights};
ghost use Rattle.chip_machine.specs.Sprite.{is_set, scale};
ghost use Rattle.chip_machine.specs.inner.SpriteBytes.{LiesIn, covers, covers_by_length, first_column, row_bytes_by_length, sprite_row_bytes};

use crate::doubled::DOUBLED;
use crate::limits::SPRITE_BYTES;

/// The number of columns of the screen.
pub(crate) const WIDTH: usize = 128;

/// The number of rows of the screen.
pub(crate) const HEIGHT: usize = 64;

/// The width and height of a pixel of the size, in stored pixels.
pub(crate) fn scale_of(high: bool) -> usize
    ensures value { result ≡ scale high }
    ensures some { 1 ≤ result }
    ensures few { result ≤ 2 }
{
    if high { 1 } else { 2 }
}

/// The byte of a sprite at an index, or 0 past its end.
fn byte_at(sprite: &[u8], at: usize) -> u8
    ensures { result ≡ slice_index sprite.now at }
{
    if at < sprite.len() { sprite[at] } else { 0 }
}

/// The number of rows of a sprite. In the high size, a sprite of `SPRITE_BYTES` bytes has two bytes
/// per row.
#[tactic(auto, unfolding(crate::specs::inner::SpriteBytes::row_bytes_by_length))]
fn rows_of(high: bool, sprite: &[u8]) -> usize
    ensures { length sprite.now ≤ row_bytes_by_length high sprite.now * result }
{
    if high && sprite.len() == SPRITE_BYTES {
        SPRITE_BYTES / 2
    } else {
        sprite.len()
    }
}

/// The first line that a sprite may cover, and the number of lines. A line is one row of pixels of the
/// size.
pub(crate) fn lines_under(high: bool, y: u8, sprite: &[u8]) -> (usize, usize)
    ensures first { result.0 ≡ y % (64 / scale high) }
    ensures on_screen { scale high * (result.0 + result.1) ≤ 64 }
    ensures above { (x column row : ℕ) → row < scale high * result.0
        → covers_by_length high x y sprite.now column row ≡ false }
    ensures below { (x column row : ℕ) → scale high * (result.0 + result.1) ≤ row → row < 64
        → covers_by_length high x y sprite.now column row ≡ false }
{
    let height = HEIGHT / scale_of(high);
    let first = y as usize % height;
    (first, rows_of(high, sprite).min(height - first))
}

/// The part of the screen that the up to sixteen columns of a sprite's row lie in. Each part has its
/// own loop, which reads and writes no more than necessary.
#[derive(Clone, Copy)]
pub(crate) enum Half {
    /// All columns are in the left half.
    Left,
    /// The columns start in the left half, and may reach into the right half.
    Middle,
    /// The columns start in the right half.
    Right,
}

/// The part of the screen that the columns of a sprite lie in.
pub(crate) fn half_of(high: bool, x: u8) -> Half
    ensures { LiesIn result (first_column high x) }
{
    let scale = scale_of(high);
    let start = scale * (x as usize % (WIDTH / scale));
    if start >= WIDTH / 2 {
        Half::Right
    } else if start + 16 <= WIDTH / 2 {
        Half::Left
    } else {
        Half::Middle
    }
}

/// The bits that a row of a sprite covers in each stored row of its line. The sprite's columns lie in
/// this half.
pub(crate) fn covered_bits(high: bool, half: Half, x: u8, sprite: &[u8], row: usize) -> u128
    requires half { LiesIn half (first_column high x) }
    requires few { row < 64 }
    ensures { (y column at : ℕ) → column < 128 → scale high * (y % (64 / scale high) + row) ≤ at
        → at < scale high * (y % (64 / scale high) + row) + scale high
        → lights result column ≡ covers_by_length high x y sprite.now column at }
{
    let scale = scale_of(high);
    let left = x as usize % (WIDTH / scale);
    let pattern = pattern_at(high, sprite, row);
    placed(pattern, half, scale * left)
}

/// Sixteen columns, shifted so that the first one is at `start`. Columns outside the screen are lost.
/// Each shift is by fewer than 64 columns, which is faster than a shift by any number.
fn placed(columns: u16, half: Half, start: usize) -> u128
    requires on_screen { start < 128 }
    requires half { LiesIn half start }
    ensures { result ≡ columns * 2 ^ 112 % 2 ^ 128 / 2 ^ start }
{
    match half {
        Half::Left => u128::from((u64::from(columns) << 48) >> (start % 64)) << 64,
        Half::Middle => (u128::from(columns) << 112) >> (start % 64),
        Half::Right => (u128::from(columns) << 48) >> (start % 64),
    }
}

/// The up to sixteen stored columns of a sprite's row; the leftmost column is the highest bit.
fn pattern_at(high: bool, sprite: &[u8], row: usize) -> u16
    requires { row < 64 }
    ensures { (i : ℕ) → i < 16
        → (bit_at result (15 - i) == 1)
        ≡ is_set (row_bytes_by_length high sprite.now) sprite.now (i / scale high) row }
{
    if !high {
        doubled(byte_at(sprite, row))
    } else if sprite.len() == SPRITE_BYTES {
        u16::from(byte_at(sprite, 2 * row)) << 8 | u16::from(byte_at(sprite, 2 * row + 1))
    } else {
        u16::from(byte_at(sprite, row)) << 8
    }
}

/// The 16 bits in which each bit of a byte occurs twice.
fn doubled(byte: u8) -> u16
    ensures { (k : ℕ) → k < 16 → bit_at result k ≡ bit_at byte (k / 2) }
{
    DOUBLED[byte as usize]
}

/// The bits that a sprite covers in each stored row of a line. The sprite may wrap or have wide rows
/// in the low size.
pub(crate) fn stripe_over(wraps: bool, high: bool, x: u8, y: u8, sprite: &[u8], line: usize) -> u128
    requires { line < 64 / scale high }
    ensures { (column at : ℕ) → column < 128 → scale high * line ≤ at
        → at < scale high * line + scale high
        → lights result column ≡ covers wraps high x y sprite.now column at }
{
    let scale = scale_of(high);
    let height = HEIGHT / scale;
    let start = scale * (x as usize % (WIDTH / scale));
    let top = y as usize % height;
    if wraps {
        around(
            row_bits(high, sprite, (line + height - top) % height),
            start,
        )
    } else if line < top {
        0
    } else {
        row_bits(high, sprite, line - top) >> start
    }
}

/// The columns rotated right by `start`: columns that leave at the right re-enter at the left.
fn around(columns: u128, start: usize) -> u128
    requires { start < 128 }
    ensures { (column : ℕ) → column < 128
        → lights result column ≡ lights columns ((column + 128 - start) % 128) }
{
    columns >> start | columns << ((128 - start) % 128)
}

/// The columns of one row of a sprite that starts at the left edge.
fn row_bits(high: bool, sprite: &[u8], row: usize) -> u128
    requires { row < 64 }
    ensures { (column : ℕ) → column < 128 → lights result column
        ≡ is_set (sprite_row_bytes sprite.now) sprite.now (column / scale high) row }
{
    u128::from(wide_pattern_at(high, sprite, row)) << 96
}

/// The up to 32 stored columns of a sprite's row; the leftmost column is the highest bit.
fn wide_pattern_at(high: bool, sprite: &[u8], row: usize) -> u32
    requires { row < 64 }
    ensures { (i : ℕ) → i < 32
        → (bit_at result (31 - i) == 1)
        ≡ is_set (sprite_row_bytes sprite.now) sprite.now (i / scale high) row }
{
    if high || sprite.len() != SPRITE_BYTES {
        u32::from(pattern_at(high, sprite, row)) << 16
    } else {
        let first = doubled(byte_at(sprite, 2 * row));
        let second = doubled(byte_at(sprite, 2 * row + 1));
        u32::from(first) << 16 | u32::from(second)
    }
}
