// Cells in columns.
use std::alloc::{AllocError, Global};
use std::fmt;

/// The side of a column on which its cells stand.
#[derive(Clone, Copy)]
pub enum Side {
    Left,
    Right,
}

/// A column: how wide it is, and on which side its cells stand.
#[derive(Clone, Copy)]
pub struct Column {
    pub side: Side,
    pub width: usize,
}

/// Rows of cells, in columns that are as wide as their widest cell.
#[derive(Drop)]
pub struct Table {
    columns: Vec<Column>,
    rows: Vec<Vec<String>>,
}

/// A line of cells, two spaces apart, and nothing behind the last. A
/// cell that is wider than its column pushes on the ones behind it.
#[derive(Clone, Copy)]
pub struct Row<'a> {
    pub columns: &'a [Column],
    pub cells: &'a [String],
}

const GAP: usize = 2;

impl Table {
    /// A table without rows, with a column for each side.
    pub fn new(heap: Global, sides: &[Side]) -> Result<Table, AllocError> {
        let columns = sides
            .iter()
            .map(|side| Column {
                side: *side,
                width: 0,
            })
            .collect(heap)?;
        Ok(Table {
            columns,
            rows: Vec::new(heap),
        })
    }

    /// Adds a row, and widens the columns that it needs wider.
    pub fn push(&mut self, cells: Vec<String>) -> Result<(), AllocError> {
        for (column, cell) in self.columns.iter_mut().zip(cells.iter()) {
            column.width = column.width.max(cell.len());
        }
        self.rows.push(cells)?;
        Ok(())
    }
}

// Each row is a line.
impl fmt::Display for Table {
    fn fmt<W: fmt::Write>(&self, f: &mut fmt::Formatter<W>) -> fmt::Result {
        for cells in self.rows.iter() {
            let row = Row {
                columns: self.columns.as_slice(),
                cells: cells.as_slice(),
            };
            writeln!(f, "{row}")?;
        }
        Ok(())
    }
}

impl fmt::Display for Row<'_> {
    fn fmt<W: fmt::Write>(&self, f: &mut fmt::Formatter<W>) -> fmt::Result {
        let mut blank = 0usize;
        for (column, cell) in self.columns.iter().zip(self.cells.iter()) {
            let room = column.width.saturating_sub(cell.len());
            match column.side {
                _ if cell.is_empty() => blank = blank.saturating_add(room).saturating_add(GAP),
                Side::Left => {
                    write!(f, "{:blank$}{cell}", "")?;
                    blank = room.saturating_add(GAP);
                }
                Side::Right => {
                    let before = blank.saturating_add(room);
                    write!(f, "{:before$}{cell}", "")?;
                    blank = GAP;
                }
            }
        }
        Ok(())
    }
}
