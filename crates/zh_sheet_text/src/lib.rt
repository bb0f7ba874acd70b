//! The text of a sheet, its seats as a table, and why there are none.
#![tactic(auto)]

mod laws;
mod line;
mod lots;
mod mark;
mod refusals;
mod seat_cells;
mod seats;
mod sheet_writer;
mod table;
mod write_buffer;

pub use laws::no_longer;
pub use line::{Head, LineParts, SheetPart, label_text, mark_after, yes_or_no};
pub use mark::{Mark, MarkedSheet, NoSeats, Source};
pub use refusals::refusal_text;
pub use seat_cells::{marked_table, seat_table};
pub use seats::{millionths_or_nothing, number_or_nothing, write_seats};
pub use sheet_writer::{line_at, line_count, write_sheet};
pub use table::{
    CellText, TableCells, TablePlace, number_cell, push_table, table_place, text_cell,
};
