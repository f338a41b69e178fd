// The columns of a case: the room for them, and the part of it that the case fills.
use cases::show::Page;
use cases::values::Value;
use cases::words::{BadCase, Words};

// The most values of a column, and the most bytes of a buffer.
const VALUES: usize = 6200;

const BYTES: usize = 300000;

// A column or a buffer: its length, then its values.
pub(crate) fn read_column<'a, V: Value>(
    words: &mut Words,
    room: &'a mut [V],
) -> Result<&'a mut [V], BadCase> {
    let n = words.read_within(room.len())?;
    let column = &mut room[..n];
    for value in column.iter_mut() {
        *value = words.read()?;
    }
    Ok(column)
}

pub(crate) fn put_column<V: Value>(page: &mut Page, column: &[V]) {
    page.put(b" |");
    for value in column {
        page.put_next(*value);
    }
}

// The table of a case.
#[derive(Drop)]
pub(crate) struct Table<'a> {
    pub x: &'a mut [i32],
    pub y: &'a mut [i32],
    pub kit: &'a mut [u64],
}

impl Table<'_> {
    pub(crate) fn lent(&self) -> table::Table<'_> {
        table::Table {
            x: self.x,
            y: self.y,
            kit: self.kit,
        }
    }

    pub(crate) fn read_sheet(&mut self, src: &[u8]) -> Result<scan::Sheet, verdict::Refusal> {
        let into = scan::Columns {
            x: self.x,
            y: self.y,
            kit: self.kit,
        };
        sheet::read(src, into)
    }

    pub(crate) fn put(&self, page: &mut Page) {
        put_column(page, self.x);
        put_column(page, self.y);
        put_column(page, self.kit);
    }
}

// The columns of a case's tree.
#[derive(Drop)]
pub(crate) struct Tree<'a> {
    pub level: &'a mut [u8],
    pub start: &'a mut [u16],
    pub count: &'a mut [u8],
    pub x_lo: &'a mut [i32],
    pub x_hi: &'a mut [i32],
    pub y_lo: &'a mut [i32],
    pub y_hi: &'a mut [i32],
    pub kits: &'a mut [u64],
    pub entries: &'a mut [u16],
}

impl Tree<'_> {
    pub(crate) fn lent(&self, nodes: usize, listed: usize) -> tree::Tree<'_> {
        let shape = tree::Shape {
            nodes,
            listed,
            level: self.level,
            start: self.start,
            count: self.count,
            entries: self.entries,
        };
        let sides = tree::Sides {
            x_lo: self.x_lo,
            x_hi: self.x_hi,
            y_lo: self.y_lo,
            y_hi: self.y_hi,
        };
        tree::Tree {
            shape,
            sides,
            kits: self.kits,
        }
    }

    pub(crate) fn build(&mut self, table: &table::Table) -> Result<build::Built, verdict::Refusal> {
        let into = build::Columns {
            level: self.level,
            start: self.start,
            count: self.count,
            x_lo: self.x_lo,
            x_hi: self.x_hi,
            y_lo: self.y_lo,
            y_hi: self.y_hi,
            kits: self.kits,
            entries: self.entries,
        };
        build::build(table, into)
    }

    pub(crate) fn put(&self, page: &mut Page) {
        put_column(page, self.level);
        put_column(page, self.start);
        put_column(page, self.count);
        put_column(page, self.x_lo);
        put_column(page, self.x_hi);
        put_column(page, self.y_lo);
        put_column(page, self.y_hi);
        put_column(page, self.kits);
        put_column(page, self.entries);
    }
}

// Room for a table.
#[derive(Drop)]
pub(crate) struct TableRoom {
    x: [i32; VALUES],
    y: [i32; VALUES],
    kit: [u64; VALUES],
}

impl TableRoom {
    pub(crate) fn new() -> TableRoom {
        TableRoom {
            x: [0; VALUES],
            y: [0; VALUES],
            kit: [0; VALUES],
        }
    }

    pub(crate) fn read(&mut self, words: &mut Words) -> Result<Table<'_>, BadCase> {
        let TableRoom { x, y, kit } = self;
        Ok(Table {
            x: read_column(words, x)?,
            y: read_column(words, y)?,
            kit: read_column(words, kit)?,
        })
    }
}

// Room for the columns of a tree.
#[derive(Drop)]
pub(crate) struct TreeRoom {
    level: [u8; VALUES],
    start: [u16; VALUES],
    count: [u8; VALUES],
    x_lo: [i32; VALUES],
    x_hi: [i32; VALUES],
    y_lo: [i32; VALUES],
    y_hi: [i32; VALUES],
    kits: [u64; VALUES],
    entries: [u16; VALUES],
}

impl TreeRoom {
    pub(crate) fn new() -> TreeRoom {
        TreeRoom {
            level: [0; VALUES],
            start: [0; VALUES],
            count: [0; VALUES],
            x_lo: [0; VALUES],
            x_hi: [0; VALUES],
            y_lo: [0; VALUES],
            y_hi: [0; VALUES],
            kits: [0; VALUES],
            entries: [0; VALUES],
        }
    }

    pub(crate) fn read(&mut self, words: &mut Words) -> Result<Tree<'_>, BadCase> {
        let TreeRoom {
            level,
            start,
            count,
            x_lo,
            x_hi,
            y_lo,
            y_hi,
            kits,
            entries,
        } = self;
        Ok(Tree {
            level: read_column(words, level)?,
            start: read_column(words, start)?,
            count: read_column(words, count)?,
            x_lo: read_column(words, x_lo)?,
            x_hi: read_column(words, x_hi)?,
            y_lo: read_column(words, y_lo)?,
            y_hi: read_column(words, y_hi)?,
            kits: read_column(words, kits)?,
            entries: read_column(words, entries)?,
        })
    }
}

// Room for all that a case lends.
#[derive(Drop)]
pub(crate) struct Room {
    pub table: TableRoom,
    pub tree: TreeRoom,
    pub bytes: [u8; BYTES],
}

impl Room {
    pub(crate) fn new() -> Room {
        Room {
            table: TableRoom::new(),
            tree: TreeRoom::new(),
            bytes: [0; BYTES],
        }
    }
}
