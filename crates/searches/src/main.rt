// The search on harbour H: over the builder's tree, over a foreign tree, and what it refuses; and on
// two trees at the depth limit.
#![tactic(auto)]

use build::Columns;
use table::Table;
use tree::{Shape, Sides, Tree};

// Harbour H.
fn harbour() -> Table<'static> {
    Table {
        x: &[0, 3, 10, 10],
        y: &[0, 4, 0, 5],
        kit: &[1, 2, 1, 2],
    }
}

fn put(word: &[u8], n: u64) {
    io::write_all(1, word);
    io::print_decimal(1, n);
}

fn show(f: &found::Found) {
    put(b"code=", u64::from(f.code));
    put(b" at=", f.at as u64);
    put(b" known=", u64::from(f.known));
    put(b" squared=", f.squared);
    put(b" steps=", u64::from(f.steps));
    io::write_all(1, b" places");
    for place in f.places {
        put(b" ", u64::from(place));
    }
    io::write_all(1, b"\n");
}

fn over_tree(table: &Table<'_>, tree: &Tree<'_>, want: u64, allowance: u32) {
    show(&search::search(table, tree, want, allowance));
}

// The lent columns are longer than the tree of a few places needs.
fn over_built(table: &Table<'_>, want: u64, allowance: u32) {
    let mut level = [0; 2];
    let mut start = [0; 2];
    let mut count = [0; 2];
    let mut x_lo = [0; 2];
    let mut x_hi = [0; 2];
    let mut y_lo = [0; 2];
    let mut y_hi = [0; 2];
    let mut kits = [0; 2];
    let mut entries = [0; 16];
    let into = Columns {
        level: &mut level,
        start: &mut start,
        count: &mut count,
        x_lo: &mut x_lo,
        x_hi: &mut x_hi,
        y_lo: &mut y_lo,
        y_hi: &mut y_hi,
        kits: &mut kits,
        entries: &mut entries,
    };
    let (nodes, listed) = match build::build(table, into) {
        Ok(b) => (b.nodes, b.listed),
        Err(_) => (0, 0),
    };
    let tree = Tree {
        shape: Shape {
            nodes,
            listed,
            level: &level,
            start: &start,
            count: &count,
            entries: &entries,
        },
        sides: Sides {
            x_lo: &x_lo,
            x_hi: &x_hi,
            y_lo: &y_lo,
            y_hi: &y_hi,
        },
        kits: &kits,
    };
    over_tree(table, &tree, want, allowance);
}

// Harbour H under the nodes 0, 6, 5, 4, 3, each below the one before; node 3 has leaf 2 with places
// 3, 2 and leaf 1 with places 1, 0. The tree is right if there are 7 nodes, node 4's greatest x is
// 10 and node 5's kit word is 3.
fn over_chain(nodes: usize, east: i32, word: u64, want: u64, allowance: u32) {
    let tree = Tree {
        shape: Shape {
            nodes,
            listed: 10,
            level: &[6, 1, 1, 2, 3, 4, 5],
            start: &[0, 1, 3, 5, 7, 8, 9],
            count: &[1, 2, 2, 2, 1, 1, 1],
            entries: &[6, 1, 0, 3, 2, 2, 1, 3, 4, 5],
        },
        sides: Sides {
            x_lo: &[0, 0, 10, 0, 0, 0, 0],
            x_hi: &[10, 3, 10, 10, east, 10, 10],
            y_lo: &[0, 0, 0, 0, 0, 0, 0],
            y_hi: &[5, 4, 5, 5, 5, 5, 5],
        },
        kits: &[3, 3, 3, 3, 3, word, 3],
    };
    over_tree(&harbour(), &tree, want, allowance);
}

// The depth limit: six levels and eight kinds, so that a group is 48 replacements below the root and
// the walk calls itself 48 levels deep. The nodes 0 to 4 have runs of one; leaf 5 has one place for
// each kind.
fn over_tall(allowance: u32) {
    let table = Table {
        x: &[0, 7, 3, 5, 1, 6, 2, 4],
        y: &[2, 5, 0, 6, 3, 1, 4, 7],
        kit: &[8, 1, 64, 2, 128, 16, 4, 32],
    };
    let tree = Tree {
        shape: Shape {
            nodes: 6,
            listed: 13,
            level: &[6, 5, 4, 3, 2, 1],
            start: &[0, 1, 2, 3, 4, 5],
            count: &[1, 1, 1, 1, 1, 8],
            entries: &[1, 2, 3, 4, 5, 0, 1, 2, 3, 4, 5, 6, 7],
        },
        sides: Sides {
            x_lo: &[0; 6],
            x_hi: &[7; 6],
            y_lo: &[0; 6],
            y_hi: &[7; 6],
        },
        kits: &[255; 6],
    };
    over_tree(&table, &tree, 255, allowance);
}

// As deep, with two ways down from the root: to leaf 10 with the places 0 to 3, two for each kind,
// and to leaf 9 with the same places 20 to the east, numbered 4 to 7, the last one first.
fn over_fork(allowance: u32) {
    let table = Table {
        x: &[3, 5, 1, 0, 23, 25, 21, 20],
        y: &[0, 1, 0, 2, 0, 1, 0, 2],
        kit: &[86, 45, 147, 232, 86, 45, 147, 232],
    };
    let tree = Tree {
        shape: Shape {
            nodes: 11,
            listed: 18,
            level: &[6, 5, 5, 4, 4, 3, 3, 2, 2, 1, 1],
            start: &[0, 2, 3, 4, 5, 6, 7, 8, 9, 10, 14],
            count: &[2, 1, 1, 1, 1, 1, 1, 1, 1, 4, 4],
            entries: &[1, 2, 3, 4, 5, 6, 7, 8, 9, 10, 7, 6, 5, 4, 0, 1, 2, 3],
        },
        sides: Sides {
            x_lo: &[0, 20, 0, 20, 0, 20, 0, 20, 0, 20, 0],
            x_hi: &[25, 25, 5, 25, 5, 25, 5, 25, 5, 25, 5],
            y_lo: &[0; 11],
            y_hi: &[2; 11],
        },
        kits: &[255; 11],
    };
    over_tree(&table, &tree, 255, allowance);
}

// S1 to S7.
fn soundings() {
    over_built(&harbour(), 3, 7);
    over_built(&harbour(), 3, 6);
    over_built(&harbour(), 1, 3);
    over_built(&harbour(), 32, 0);
    over_built(&harbour(), 1, 0);
    let one = Table {
        x: &[5],
        y: &[-5],
        kit: &[3],
    };
    over_built(&one, 3, 100);
    let none = Table {
        x: &[],
        y: &[],
        kit: &[],
    };
    over_built(&none, 1, 100);
}

// At every allowance: places 2, 3 are met first; 0, 1 tie and win at step 19, the last.
fn allowances() {
    for allowance in 0..21 {
        over_chain(7, 10, 3, 3, allowance);
    }
}

fn foreign() {
    over_chain(7, 10, 3, 1, 100);
    over_chain(7, 10, 3, 2, 100);
    over_chain(7, 10, 3, 32, 0);
}

// The first group is step 49. In the fork 58 of the 293 candidates are dropped, of nodes and of
// places; the best group of the east is step 140, and the one that ties and wins is step 256.
fn depth_limit() {
    for allowance in [48, 49] {
        over_tall(allowance);
    }
    for allowance in [48, 49, 255, 256, 292, 293] {
        over_fork(allowance);
    }
}

// The want, the table, the tree; eight kinds and x = 1,000,000 are not refused for that.
fn refusals() {
    for want in [0, 511, 255] {
        over_built(&harbour(), want, 7);
    }
    let short = Table {
        x: &[0, 3, 10, 10],
        y: &[0, 4, 0],
        kit: &[1, 2, 1, 2],
    };
    over_built(&short, 3, 7);
    for x in [1000001, 1000000] {
        let wide = Table {
            x: &[0, 3, x, 10],
            y: &[0, 4, 0, 5],
            kit: &[1, 2, 1, 2],
        };
        over_built(&wide, 3, 7);
    }
    over_chain(6, 10, 3, 3, 100);
    over_chain(7, 11, 3, 3, 100);
    over_chain(7, 10, 7, 3, 100);
}

fn main() {
    soundings();
    allowances();
    foreign();
    depth_limit();
    refusals();
}
