// A table and its tree, in columns of one size.
ghost use Rattle.std.specs.Prelude.{◌<◌};

use crate::show::{put, put_signed};
use build::{Built, Columns};
use table::Table;
use tree::{Shape, Sides, Tree};
use verdict::Refusal;

// Every lent column has room for the entry list of the largest tree.
const ROOM: usize = 4368;

// What a case changes once the tree is built, in the order of their numbers in the output, from 1 on.
#[derive(Clone, Copy, Debug, PartialEq, Eq)]
pub(crate) enum Column {
    Level = 1,
    Start,
    Count,
    Entry,
    XLo,
    XHi,
    YLo,
    YHi,
    Kits,
    Nodes,
    Listed,
    ShortKits,
    X,
    ShortY,
}

// Of a column that is cut short the index is how much of it is lent.
#[derive(Clone, Copy)]
pub(crate) struct Change {
    pub column: Column,
    pub index: usize,
    pub value: u64,
}

// A coordinate comes as itself plus 2,000,000.
fn coordinate(value: u64) -> i32 {
    (value % 4000001) as i32 - 2000000
}

#[derive(Drop)]
struct Place {
    x: i32,
    y: i32,
    kit: u64,
}

fn harbour(p: u64) -> Place {
    match p {
        0 => Place { x: 0, y: 0, kit: 1 },
        1 => Place { x: 3, y: 4, kit: 2 },
        2 => Place {
            x: 10,
            y: 0,
            kit: 1,
        },
        _ => Place {
            x: 10,
            y: 5,
            kit: 2,
        },
    }
}

// Four places are harbour H; else they are strewn over the whole range, with up to five kinds each.
fn place_at(places: usize, p: u64) -> Place {
    if places == 4 {
        return harbour(p);
    }
    let q = p % 4096;
    Place {
        x: coordinate(1000000 + q * 7919 % 2000001),
        y: coordinate(1000000 + q * 104729 % 2000001),
        kit: q * 2654435761 % 4294967296 % 31 * 2147483649,
    }
}

// The first n numbers of a column, or all of it.
fn first<T>(column: &[T], n: usize) -> &[T] {
    &column[..n.min(column.len())]
}

fn set<T: Copy>(column: &mut [T], index: usize, value: T) {
    if let Some(number) = column.get_mut(index) {
        *number = value;
    }
}

// What is lent of it: `places` of x and kit, `y_lent` of y, `kits_lent` of kits, all of the rest.
#[derive(Drop)]
pub(crate) struct Case {
    places: usize,
    y_lent: usize,
    kits_lent: usize,
    nodes: usize,
    listed: usize,
    x: [i32; ROOM],
    y: [i32; ROOM],
    kit: [u64; ROOM],
    level: [u8; ROOM],
    start: [u16; ROOM],
    count: [u8; ROOM],
    entries: [u16; ROOM],
    x_lo: [i32; ROOM],
    x_hi: [i32; ROOM],
    y_lo: [i32; ROOM],
    y_hi: [i32; ROOM],
    kits: [u64; ROOM],
}

impl Case {
    // Columns for a table, with no places and no tree yet.
    pub(crate) fn new(places: usize) -> Case {
        Case {
            places,
            y_lent: places,
            kits_lent: ROOM,
            nodes: 0,
            listed: 0,
            x: [0; ROOM],
            y: [0; ROOM],
            kit: [0; ROOM],
            level: [0; ROOM],
            start: [0; ROOM],
            count: [0; ROOM],
            entries: [0; ROOM],
            x_lo: [0; ROOM],
            x_hi: [0; ROOM],
            y_lo: [0; ROOM],
            y_hi: [0; ROOM],
            kits: [0; ROOM],
        }
    }

    // The places of the table, put where the columns stand: columns that are made first and then moved would need their room twice.
    pub(crate) fn strew(&mut self) {
        let columns = self.x.iter_mut().zip(&mut self.y).zip(&mut self.kit);
        for (p, ((x, y), kit)) in columns.take(self.places).enumerate() {
            let place = place_at(self.places, p as u64);
            *x = place.x;
            *y = place.y;
            *kit = place.kit;
        }
    }

    pub(crate) fn build(&mut self) -> Result<Built, Refusal> {
        let table = Table {
            x: first(&self.x, self.places),
            y: first(&self.y, self.places),
            kit: first(&self.kit, self.places),
        };
        let into = Columns {
            level: &mut self.level,
            start: &mut self.start,
            count: &mut self.count,
            x_lo: &mut self.x_lo,
            x_hi: &mut self.x_hi,
            y_lo: &mut self.y_lo,
            y_hi: &mut self.y_hi,
            kits: &mut self.kits,
            entries: &mut self.entries,
        };
        let built = build::build(&table, into);
        if let Ok(b) = built {
            self.nodes = b.nodes;
            self.listed = b.listed;
        }
        built
    }

    pub(crate) fn check(&self) -> Result<(), Refusal> {
        let table = Table {
            x: first(&self.x, self.places),
            y: first(&self.y, self.y_lent),
            kit: first(&self.kit, self.places),
        };
        let shape = Shape {
            nodes: self.nodes,
            listed: self.listed,
            level: &self.level,
            start: &self.start,
            count: &self.count,
            entries: &self.entries,
        };
        let sides = Sides {
            x_lo: &self.x_lo,
            x_hi: &self.x_hi,
            y_lo: &self.y_lo,
            y_hi: &self.y_hi,
        };
        let kits = first(&self.kits, self.kits_lent);
        inspect::check(&table, &Tree { shape, sides, kits })
    }

    pub(crate) fn change(&mut self, c: Change) {
        let z = coordinate(c.value);
        match c.column {
            Column::Level => set(&mut self.level, c.index, (c.value % 256) as u8),
            Column::Start => set(&mut self.start, c.index, (c.value % 65536) as u16),
            Column::Count => set(&mut self.count, c.index, (c.value % 256) as u8),
            Column::Entry => set(&mut self.entries, c.index, (c.value % 65536) as u16),
            Column::XLo => set(&mut self.x_lo, c.index, z),
            Column::XHi => set(&mut self.x_hi, c.index, z),
            Column::YLo => set(&mut self.y_lo, c.index, z),
            Column::YHi => set(&mut self.y_hi, c.index, z),
            Column::Kits => set(&mut self.kits, c.index, c.value),
            Column::Nodes => self.nodes = c.value as usize,
            Column::Listed => self.listed = c.value as usize,
            Column::ShortKits => self.kits_lent = c.index,
            Column::X => set(&mut self.x, c.index, z),
            Column::ShortY => self.y_lent = c.index,
        }
    }

    fn show_node(&self, n: usize)
        requires { n < ROOM }
    {
        put(b"\nnode=", n as u64);
        put(b" level=", u64::from(self.level[n]));
        put(b" start=", u64::from(self.start[n]));
        put(b" count=", u64::from(self.count[n]));
        put_signed(b" x=", self.x_lo[n]);
        put_signed(b" to ", self.x_hi[n]);
        put_signed(b" y=", self.y_lo[n]);
        put_signed(b" to ", self.y_hi[n]);
        put(b" kit=", self.kits[n]);
    }

    // The tree whole.
    pub(crate) fn show(&self) {
        for n in 0..self.nodes.min(ROOM) {
            self.show_node(n);
        }
        io::write_all(1, b"\nentries");
        for entry in first(&self.entries, self.listed) {
            put(b" ", u64::from(*entry));
        }
        io::write_all(1, b"\n");
    }
}
