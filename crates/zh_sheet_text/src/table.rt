//! A table for people (docs/FORMATS.md, "Tables for people"): wide, with a column for each field, or tall, with a line
//! for each field, if the lines of the wide one would have more than 80 characters.
ghost use Rattle.std.specs.Prelude.{◌≡◌, ◌≤◌, ◌+◌, ◌++◌, OnOk, length, decimal, replicate};
ghost use Rattle.zh_sheet_text.specs.Table.{IsTablePlace, characters, column_width, field_line, grid_text, on_left, on_right, table_place};
ghost use Rattle.zh_sheet_text.specs.Table.{table_width, tall_lines, tall_table, tall_width, wide_cells, wide_line, wide_table};
ghost use Rattle.zh_sheet_text.specs.Table.{widest, widest_below};

use arrayvec::ArrayVec;
use std::alloc::AllocError;
use zh_text::{push, push_numeral};

/// The most characters in a line of the wide table.
const MOST_COLUMNS: usize = 80;

/// The text of a cell.
pub type CellText = ArrayVec<u8, 48>;

/// A cell with a text of at most 48 bytes.
pub fn text_cell(text: &str) -> CellText
    requires { length text.now ≤ 48 }
    ensures { result.items ≡ text.now }
{
    let mut cell = CellText::new();
    push(&mut cell, text);
    cell
}

/// A cell with a number.
pub fn number_cell(number: u64) -> CellText
    ensures { result.items ≡ decimal number }
{
    let mut cell = CellText::new();
    push_numeral(&mut cell, number);
    cell
}

/// What a line or a column of a table is about.
#[derive(Clone, Copy)]
pub enum TablePlace {
    /// The heading, or the column of names.
    Head,
    /// The constituency or group with this number.
    At(u32),
    /// All constituencies or groups.
    Total,
}

/// What line or column `number` is about in a table of `last` constituencies or groups.
pub fn table_place(last: u32, number: u32) -> TablePlace
    ensures place { result ≡ table_place last number }
    ensures there { IsTablePlace last result }
{
    if number == 0 {
        TablePlace::Head
    } else if number <= last {
        TablePlace::At(number)
    } else {
        TablePlace::Total
    }
}

/// The cells of a table. Line 0 is its heading, and column 0 says what each line is about.
pub trait TableCells {
    ghost use Rattle.std.specs.Prelude.{◌≡◌, ◌≤◌};
    ghost use Rattle.zh_sheet_text.specs.Table.{Grid};

    /// What must hold for the cells to be read.
    ghost AreCells: { Self → Type 0 };

    /// The table in the words of `specs/`.
    ghost grid: { Self → Grid };

    /// The number of lines below the heading.
    fn lines(&self) -> u32
        ensures lines { result ≡ (grid self.now).lines }
        ensures few { result ≤ 33 };

    /// The number of columns to the right of the first.
    fn columns(&self) -> u32
        ensures columns { result ≡ (grid self.now).columns }
        ensures some { 1 ≤ result }
        ensures few { result ≤ 33 };

    /// The text of a cell.
    fn cell(&self, line: u32, column: u32) -> CellText
        requires whole { AreCells self.now }
        requires line { line ≤ (grid self.now).lines }
        requires column { column ≤ (grid self.now).columns }
        ensures { result.items ≡ (grid self.now).cell line column };
}

/// The number of characters of a text in UTF-8: each byte counts, except continuation bytes (128 to 191).
fn characters(text: &[u8]) -> usize
    ensures characters { result ≡ characters text.now }
    ensures few { result ≤ length text.now }
{
    text.iter()
        .filter(|byte| **byte < 128 || **byte >= 192)
        .count()
}

/// The number of characters in a cell.
fn cell_width<T: TableCells>(cells: &T, line: u32, column: u32) -> usize
    requires whole { T.AreCells cells.now }
    requires line { line ≤ (T.grid cells.now).lines }
    requires column { column ≤ (T.grid cells.now).columns }
    ensures width { result ≡ characters ((T.grid cells.now).cell line column) }
    ensures few { result ≤ 48 }
{
    characters(&cells.cell(line, column))
}

/// The number of characters in the longest cell of a column below the heading, at least three.
fn widest_below<T: TableCells>(cells: &T, column: u32) -> usize
    requires whole { T.AreCells cells.now }
    requires column { column ≤ (T.grid cells.now).columns }
    ensures width { result ≡ widest_below (T.grid cells.now) column }
    ensures few { result ≤ 48 }
{
    let mut width = 3;
    for place in 0..cells.lines() {
        width = width.max(cell_width(cells, place + 1, column));
    }
    width
}

/// The number of characters in the longest cell of a column, at least three.
fn widest<T: TableCells>(cells: &T, column: u32) -> usize
    requires whole { T.AreCells cells.now }
    requires column { column ≤ (T.grid cells.now).columns }
    ensures width { result ≡ widest (T.grid cells.now) column }
    ensures few { result ≤ 48 }
{
    widest_below(cells, column).max(cell_width(cells, 0, column))
}

/// The width of a column, including the two spaces before it.
fn column_width<T: TableCells>(cells: &T, column: u32) -> usize
    requires whole { T.AreCells cells.now }
    requires column { column ≤ (T.grid cells.now).columns }
    ensures width { result ≡ column_width (T.grid cells.now) column }
    ensures few { result ≤ 50 }
{
    2 + widest(cells, column)
}

/// The width of the wide table.
fn table_width<T: TableCells>(cells: &T) -> usize
    requires { T.AreCells cells.now }
    ensures { result ≡ table_width (T.grid cells.now) }
{
    let mut width = widest(cells, 0);
    for place in 0..cells.columns() {
        width += column_width(cells, place + 1);
    }
    width
}

/// The width of the only column of the tall table, including the two spaces before it.
fn tall_width<T: TableCells>(cells: &T) -> usize
    requires { T.AreCells cells.now }
    ensures { result ≡ tall_width (T.grid cells.now) }
{
    let mut width = 3;
    for place in 0..cells.columns() {
        width = width.max(widest_below(cells, place + 1));
    }
    2 + width
}

/// Appends the cells of a line of the wide table, except the first.
fn push_cells<T: TableCells>(out: &mut Vec<u8>, cells: &T, line: u32) -> Result<(), AllocError>
    requires whole { T.AreCells cells.now }
    requires line { line ≤ (T.grid cells.now).lines }
    ensures { OnOk result (out.new.items ≡ out.old.items ++ wide_cells (T.grid cells.now) line) }
{
    for place in 0..cells.columns() {
        let width = column_width(cells, place + 1);
        push_right(out, width, &cells.cell(line, place + 1))?;
    }
    Ok(())
}

/// Appends a line of the wide table.
fn push_wide_line<T: TableCells>(out: &mut Vec<u8>, cells: &T, line: u32) -> Result<(), AllocError>
    requires whole { T.AreCells cells.now }
    requires line { line ≤ (T.grid cells.now).lines }
    ensures { OnOk result (out.new.items ≡ out.old.items ++ wide_line (T.grid cells.now) line) }
{
    push_left(out, widest(cells, 0), &cells.cell(line, 0))?;
    push_cells(out, cells, line)?;
    out.extend_from_slice(b"\n")
}

/// Appends the wide table.
fn push_wide_table<T: TableCells>(out: &mut Vec<u8>, cells: &T) -> Result<(), AllocError>
    requires { T.AreCells cells.now }
    ensures { OnOk result (out.new.items ≡ out.old.items ++ wide_table (T.grid cells.now)) }
{
    push_wide_line(out, cells, 0)?;
    for place in 0..cells.lines() {
        push_wide_line(out, cells, place + 1)?;
    }
    Ok(())
}

/// Appends the line of a field of the tall table.
fn push_field<T: TableCells>(
    out: &mut Vec<u8>,
    cells: &T,
    line: u32,
    column: u32,
) -> Result<(), AllocError>
    requires whole { T.AreCells cells.now }
    requires line { line ≤ (T.grid cells.now).lines }
    requires column { column ≤ (T.grid cells.now).columns }
    ensures { OnOk result (out.new.items ≡ out.old.items ++ field_line (T.grid cells.now) line column) }
{
    out.extend_from_slice(b"  ")?;
    push_left(out, 40, &cells.cell(0, column))?;
    push_right(out, tall_width(cells), &cells.cell(line, column))?;
    out.extend_from_slice(b"\n")
}

/// Appends what the tall table has for a line: its name with its last field, and below it a line for each other field.
fn push_tall_lines<T: TableCells>(out: &mut Vec<u8>, cells: &T, line: u32) -> Result<(), AllocError>
    requires whole { T.AreCells cells.now }
    requires line { line ≤ (T.grid cells.now).lines }
    ensures { OnOk result (out.new.items ≡ out.old.items ++ tall_lines (T.grid cells.now) line) }
{
    let last = cells.columns();
    push_left(out, 42, &cells.cell(line, 0))?;
    push_right(out, tall_width(cells), &cells.cell(line, last))?;
    out.extend_from_slice(b"\n")?;
    for place in 0..last - 1 {
        push_field(out, cells, line, place + 1)?;
    }
    Ok(())
}

/// Appends the tall table.
fn push_tall_table<T: TableCells>(out: &mut Vec<u8>, cells: &T) -> Result<(), AllocError>
    requires { T.AreCells cells.now }
    ensures { OnOk result (out.new.items ≡ out.old.items ++ tall_table (T.grid cells.now)) }
{
    for place in 0..cells.lines() {
        push_tall_lines(out, cells, place + 1)?;
    }
    Ok(())
}

/// Appends a table for people: the wide one if it has at most 80 characters in a line, otherwise the tall one.
pub fn push_table<T: TableCells>(out: &mut Vec<u8>, cells: &T) -> Result<(), AllocError>
    requires { T.AreCells cells.now }
    ensures { OnOk result (out.new.items ≡ out.old.items ++ grid_text (T.grid cells.now)) }
{
    if table_width(cells) <= MOST_COLUMNS {
        push_wide_table(out, cells)
    } else {
        push_tall_table(out, cells)
    }
}

/// Appends this many spaces.
fn push_spaces(out: &mut Vec<u8>, count: usize) -> Result<(), AllocError>
    ensures { OnOk result (out.new.items ≡ out.old.items ++ replicate count 32) }
{
    for _ in 0..count {
        out.push(b' ')?;
    }
    Ok(())
}

/// Appends a text and then spaces, up to this number of characters. A longer text is not cut.
fn push_left(out: &mut Vec<u8>, width: usize, text: &[u8]) -> Result<(), AllocError>
    ensures { OnOk result (out.new.items ≡ out.old.items ++ on_left width text.now) }
{
    out.extend_from_slice(text)?;
    push_spaces(out, width.saturating_sub(characters(text)))
}

/// Appends spaces and then a text, up to this number of characters. A longer text is not cut.
fn push_right(out: &mut Vec<u8>, width: usize, text: &[u8]) -> Result<(), AllocError>
    ensures { OnOk result (out.new.items ≡ out.old.items ++ on_right width text.now) }
{
    push_spaces(out, width.saturating_sub(characters(text)))?;
    out.extend_from_slice(text)
}
