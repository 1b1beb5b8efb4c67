//! The screen as 64 rows of 128 bits. The leftmost column is the highest bit.

ghost use Rattle.std.specs.Prelude.{◌≡◌, ℕ, ◌+◌, ◌-◌, ◌*◌, ◌/◌, ◌%◌, ◌<◌, ◌≤◌, false, not, ◌&&◌, ◌||◌, ◌==◌, length, slice_index, slice_index_or, IfOk, ◌^◌, IsTrue, ◌↔◌};
ghost use Rattle.std.specs.FinSet as set;
ghost use Rattle.chip_machine.specs.Points.{Points, points_code, is_lit, IsOnScreen, symmetric_difference, meets, lights};
ghost use Rattle.chip_machine.specs.inner.Stored.{in_rows, AreTurned};
ghost use Rattle.chip_machine.specs.Sprite.{scale};
ghost use Rattle.chip_machine.specs.inner.SpriteBytes.{LiesIn, covered_by_bytes, covers, covers_by_length, first_column};
ghost use Rattle.chip_machine.specs.Scroll.{scrolled_down, scrolled_right, scrolled_left};

use crate::limits::SPRITE_BYTES;
use crate::sprite::{
    HEIGHT, Half, WIDTH, covered_bits, half_of, lines_under, scale_of, stripe_over,
};
use std::alloc::{AllocError, Global};
use std::marker::Model;

/// The screen. Contracts see it as the set of its lit pixels.
#[derive(Drop)]
pub(crate) struct Screen {
    rows: Vec<u128>,
}

impl Model for Screen {
    ghost Value = { Points };

    ghost coded = { points_code };

    ghost view = { λ a. in_rows a.rows.items };

    ghost invariant = { λ a. length a.rows.items ≡ 64 };
}

impl Screen {
    /// Returns a dark screen. Fails only if memory runs out.
    pub(crate) fn new(alloc: Global) -> Result<Self, AllocError>
        ensures { IfOk result (λ screen. screen ≡ set.empty) }
    {
        let rows = vec![in alloc; 0; HEIGHT]?;
        Ok(Screen { rows })
    }

    /// Whether a pixel is lit. No pixel outside the screen is lit.
    pub(crate) fn lit(&self, column: usize, row: usize) -> bool
        ensures member { result ≡ is_lit self.now column row }
        ensures on_screen { IsOnScreen self.now }
    {
        if column < WIDTH && row < HEIGHT {
            self.rows[row] >> (127 - column) & 1 == 1
        } else {
            false
        }
    }

    /// The pixels of a row; the leftmost pixel is the highest bit. No pixel past the last row is lit.
    pub(crate) fn row(&self, row: usize) -> u128
        ensures points { (column : ℕ) → column < 128
            → lights result column ≡ is_lit self.now column row }
        ensures dark { (result ≡ 0)
            ↔ ((column : ℕ) → column < 128 → is_lit self.now column row ≡ false) }
    {
        if row < HEIGHT { self.rows[row] } else { 0 }
    }

    /// Makes every pixel dark.
    pub(crate) fn clear(&mut self)
        ensures { self.new ≡ set.empty }
    {
        darken(&mut self.rows);
    }

    /// Moves every pixel down by this many rows. Pixels that leave the screen are lost.
    pub(crate) fn scroll_down(&mut self, rows: usize)
        ensures { self.new ≡ scrolled_down rows self.old }
    {
        lower(&mut self.rows, rows);
    }

    /// Moves every pixel right by this many columns. Pixels that leave the screen are lost.
    pub(crate) fn scroll_right(&mut self, columns: usize)
        requires { columns ≤ 8 }
        ensures { self.new ≡ scrolled_right columns self.old }
    {
        to_the_right(&mut self.rows, columns);
    }

    /// Moves every pixel left by this many columns. Pixels that leave the screen are lost.
    pub(crate) fn scroll_left(&mut self, columns: usize)
        requires { columns ≤ 8 }
        ensures { self.new ≡ scrolled_left columns self.old }
    {
        to_the_left(&mut self.rows, columns);
    }

    /// Returns another screen with the same pixels. Fails only if memory runs out.
    pub(crate) fn copy_of(&self) -> Result<Self, AllocError>
        ensures { IfOk result (λ screen. screen ≡ self.now) }
    {
        let rows = self.rows.clone()?;
        Ok(Screen { rows })
    }

    /// Copies the pixels of another screen into this one.
    pub(crate) fn copy_from(&mut self, other: &Screen)
        ensures { self.new ≡ other.now }
    {
        self.rows.copy_from_slice(&other.rows);
    }

    /// Replaces the pixels with these rows. The leftmost pixel is the highest bit.
    pub(crate) fn set_rows(&mut self, rows: &[u128])
        requires { length rows.now ≡ 64 }
        ensures { self.new ≡ in_rows rows.now }
    {
        self.rows.copy_from_slice(rows);
    }

    /// True only if another screen has the same pixels.
    pub(crate) fn is_same(&self, other: &Screen) -> bool
        ensures { IsTrue result → self.now ≡ other.now }
    {
        self.rows == other.rows
    }

    /// Draws a sprite, and returns whether it covers a pixel that was lit.
    #[inline(always)]
    pub(crate) fn draw(&mut self, wraps: bool, high: bool, x: u8, y: u8, sprite: &[u8]) -> bool
        ensures lit { self.new
            ≡ symmetric_difference self.old (covered_by_bytes wraps high x y sprite.now) }
        ensures hit { result ≡ meets self.old (covered_by_bytes wraps high x y sprite.now) }
    {
        toggle(&mut self.rows, wraps, high, x, y, sprite)
    }
}

/// Makes each row dark.
fn darken(rows: &mut [u128])
    ensures { (k : ℕ) → slice_index rows.new k ≡ 0 }
{
    for row in rows.iter_mut() {
        *row = 0;
    }
}

/// Moves each item `by` places towards the end, and drops the items that leave the slice.
fn move_later<T: Copy>(items: &mut [T], by: usize)
    requires { by ≤ length items.old }
    ensures { (k : ℕ) (d : T) → by ≤ k → k < length items.old
        → slice_index_or items.new k d ≡ slice_index_or items.old (k - by) d }
{
    let end = items.len() - by;
    items.copy_within(..end, by);
}

/// Moves each row down by `n` rows.
fn lower(rows: &mut [u128], n: usize)
    requires { length rows.old ≡ 64 }
    ensures moved { (row : ℕ) → n ≤ row → row < 64
        → slice_index rows.new row ≡ slice_index rows.old (row - n) }
    ensures entered { (row : ℕ) → row < n → row < 64 → slice_index rows.new row ≡ 0 }
{
    let n = n.min(HEIGHT);
    move_later(rows, n);
    darken(&mut rows[..n]);
}

/// Moves the columns of each row right by `n`. The call occurs twice, because a shift by a constant,
/// such as the usual 4, is faster.
fn to_the_right(rows: &mut [u128], n: usize)
    requires { n < 128 }
    ensures bits { (row : ℕ) → slice_index rows.old row < 2 ^ 128 }
    ensures moved { (row : ℕ) → row < length rows.old
        → slice_index rows.new row ≡ slice_index rows.old row / 2 ^ n }
{
    if n == 4 {
        shift_right(rows, 4);
    } else {
        shift_right(rows, n);
    }
}

/// Shifts each row right by `n`.
#[inline(always)]
fn shift_right(rows: &mut [u128], n: usize)
    requires { n < 128 }
    ensures bits { (row : ℕ) → slice_index rows.old row < 2 ^ 128 }
    ensures moved { (row : ℕ) → row < length rows.old
        → slice_index rows.new row ≡ slice_index rows.old row / 2 ^ n }
{
    for bits in rows.iter_mut() {
        *bits >>= n;
    }
}

/// Moves the columns of each row left by `n`, like `to_the_right`.
fn to_the_left(rows: &mut [u128], n: usize)
    requires { n < 128 }
    ensures { (row : ℕ) → row < length rows.old
        → slice_index rows.new row ≡ slice_index rows.old row * 2 ^ n % 2 ^ 128 }
{
    if n == 4 {
        shift_left(rows, 4);
    } else {
        shift_left(rows, n);
    }
}

/// Shifts each row left by `n`.
#[inline(always)]
fn shift_left(rows: &mut [u128], n: usize)
    requires { n < 128 }
    ensures { (row : ℕ) → row < length rows.old
        → slice_index rows.new row ≡ slice_index rows.old row * 2 ^ n % 2 ^ 128 }
{
    for bits in rows.iter_mut() {
        *bits <<= n;
    }
}

/// Inverts the pixels of a stripe of columns in `count` rows. Returns the columns in which an inverted
/// pixel was lit.
fn turn(rows: &mut [u128], from: usize, count: usize, stripe: u128) -> u128
    requires { from + count ≤ length rows.old }
    ensures { AreTurned from (from + count) (λ column row. lights stripe column) rows.old rows.new
        (not (result == 0)) }
{
    let mut met = 0;
    for row in from..from + count {
        met |= rows[row] & stripe;
        rows[row] ^= stripe;
    }
    met
}

/// Inverts each pixel that a sprite covers, and returns whether one of them was lit. Sprites that wrap
/// or have wide rows in the low size use a general loop; a faster loop draws all others.
#[inline(always)]
fn toggle(rows: &mut [u128], wraps: bool, high: bool, x: u8, y: u8, sprite: &[u8]) -> bool
    requires { length rows.old ≡ 64 }
    ensures { AreTurned 0 64 (covers wraps high x y sprite.now) rows.old rows.new result }
{
    if is_clipped(wraps, high, sprite) {
        toggle_clipped(rows, high, x, y, sprite)
    } else {
        toggle_all_lines(rows, wraps, high, x, y, sprite)
    }
}

/// Whether a sprite neither wraps nor has wide rows in the low size.
#[inline(always)]
fn is_clipped(wraps: bool, high: bool, sprite: &[u8]) -> bool
    ensures { result ≡ (not wraps && (not (length sprite.now == SPRITE_BYTES) || high)) }
{
    !wraps && (sprite.len() != SPRITE_BYTES || high)
}

/// Inverts each pixel that a sprite covers, line by line over the whole screen. Returns whether one of
/// these pixels was lit.
#[inline(never)]
fn toggle_all_lines(rows: &mut [u128], wraps: bool, high: bool, x: u8, y: u8, sprite: &[u8]) -> bool
    requires { length rows.old ≡ 64 }
    ensures { AreTurned 0 64 (covers wraps high x y sprite.now) rows.old rows.new result }
{
    let scale = scale_of(high);
    let mut met = 0;
    for line in 0..HEIGHT / scale {
        let stripe = stripe_over(wraps, high, x, y, sprite, line);
        met |= turn(rows, scale * line, scale, stripe);
    }
    met != 0
}

/// Inverts each pixel that a clipped sprite covers, and returns whether one of them was lit. The call
/// occurs several times, because each copy is compiled for its own size and width.
#[inline(never)]
fn toggle_clipped(rows: &mut [u128], high: bool, x: u8, y: u8, sprite: &[u8]) -> bool
    requires { length rows.old ≡ 64 }
    ensures { AreTurned 0 64 (covers_by_length high x y sprite.now) rows.old rows.new result }
{
    // Each size, width and half has its own loop, because loops over constants are faster than one
    // loop for all.
    if !high {
        toggle_in(rows, false, x, y, sprite)
    } else if sprite.len() == SPRITE_BYTES {
        toggle_in(rows, true, x, y, sprite)
    } else {
        toggle_in(rows, true, x, y, sprite)
    }
}

/// Inverts the covered pixels, with the loop for the half that the sprite's columns lie in.
#[inline(always)]
fn toggle_in(rows: &mut [u128], high: bool, x: u8, y: u8, sprite: &[u8]) -> bool
    requires { length rows.old ≡ 64 }
    ensures { AreTurned 0 64 (covers_by_length high x y sprite.now) rows.old rows.new result }
{
    match half_of(high, x) {
        Half::Left => toggle_lines(rows, high, Half::Left, x, y, sprite),
        Half::Middle => toggle_lines(rows, high, Half::Middle, x, y, sprite),
        Half::Right => toggle_lines(rows, high, Half::Right, x, y, sprite),
    }
}

/// Inverts the covered pixels line by line. The sprite's columns lie in this half.
#[inline(always)]
fn toggle_lines(rows: &mut [u128], high: bool, half: Half, x: u8, y: u8, sprite: &[u8]) -> bool
    requires size { length rows.old ≡ 64 }
    requires half { LiesIn half (first_column high x) }
    ensures { AreTurned 0 64 (covers_by_length high x y sprite.now) rows.old rows.new result }
{
    let scale = scale_of(high);
    let (first, count) = lines_under(high, y, sprite);
    let mut met = 0;
    for row in 0..count {
        let stripe = covered_bits(high, half, x, sprite, row);
        met |= turn(rows, scale * (first + row), scale, stripe);
    }
    met != 0
}
