//! Tables of text, for a person.
use scl_cl::Mem;
use std::alloc::Global;
use unicode_width::UnicodeWidthStr;

/// The most columns of a terminal that a column of a table takes; what follows a wider cell goes to the next line.
const MOST: usize = 32;

/// Lines of cells.
#[derive(Drop)]
pub(crate) struct Table {
    alloc: Global,
    lines: Vec<Vec<String>>,
}

fn push_spaces(text: &mut String, count: usize) -> Mem<()> {
    for _ in 0..count {
        text.push(' ')?;
    }
    Ok(())
}

/// Writes a cell and what leads to the next, whose column begins at `start`.
fn push_cell(text: &mut String, cell: &str, width: usize, start: usize) -> Mem<()> {
    text.push_str(cell)?;
    let taken = cell.width();
    if taken > width {
        text.push('\n')?;
        push_spaces(text, start)
    } else {
        push_spaces(text, width.saturating_sub(taken).saturating_add(2))
    }
}

fn push_line(text: &mut String, cells: &[String], widths: &[usize]) -> Mem<()> {
    text.push_str("  ")?;
    let mut start = 2usize;
    let last = cells.len().saturating_sub(1);
    for (at, cell) in cells.iter().enumerate() {
        if at == last {
            text.push_str(cell.as_str())?;
        } else {
            let width = widths.get(at).copied().unwrap_or(0);
            start = start.saturating_add(width).saturating_add(2);
            push_cell(text, cell.as_str(), width, start)?;
        }
    }
    text.push('\n')
}

impl Table {
    pub(crate) fn new(alloc: Global) -> Table {
        Table {
            alloc,
            lines: Vec::new(alloc),
        }
    }

    pub(crate) fn push(&mut self, cells: Vec<String>) -> Mem<()> {
        self.lines.push(cells)?;
        Ok(())
    }

    fn width(&self, column: usize) -> usize {
        let mut most = 0usize;
        for cells in &self.lines {
            if let Some(cell) = cells.get(column) {
                most = most.max(cell.as_str().width());
            }
        }
        most.min(MOST)
    }

    fn widths(&self) -> Mem<Vec<usize>> {
        let columns = self.lines.first().map_or(0, |cells| cells.len());
        let mut widths = Vec::new(self.alloc);
        for column in 0..columns {
            widths.push(self.width(column))?;
        }
        Ok(widths)
    }

    /// Writes the lines, each with two spaces before it.
    pub(crate) fn write(&self, text: &mut String) -> Mem<()> {
        let widths = self.widths()?;
        for cells in &self.lines {
            push_line(text, cells, &widths)?;
        }
        Ok(())
    }
}
