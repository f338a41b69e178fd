// Runs the builder and the check: on harbour H, on tables of many sizes, and on trees with one number changed.
#![tactic(auto)]

use case::{Case, Change, Column};
use show::put;

mod case;
mod show;

// Builds the tree of a table, changes one thing, checks, and says what came out. A small tree that was not changed is shown whole.
fn trial(places: usize, change: Option<Change>) {
    let mut case = Case::new(places);
    case.strew();
    let built = case.build();
    put(b"places=", places as u64);
    let (code, nodes, listed) = match built {
        Ok(b) => (0, b.nodes, b.listed),
        Err(refusal) => (refusal.reason.code(), 0, 0),
    };
    put(b" build=", u64::from(code));
    put(b" nodes=", nodes as u64);
    put(b" listed=", listed as u64);
    match change {
        Some(c) => {
            put(b" column=", c.column as u64);
            put(b" index=", c.index as u64);
            put(b" value=", c.value);
            case.change(c);
        }
        None if places <= 17 => case.show(),
        None => {}
    }
    let (code, at) = match case.check() {
        Ok(()) => (0, 0),
        Err(refusal) => (refusal.reason.code(), refusal.at),
    };
    put(b" code=", u64::from(code));
    put(b" at=", at as u64);
    io::write_all(1, b"\n");
}

fn changed(places: usize, column: Column, index: usize, value: u64) {
    let change = Change {
        column,
        index,
        value,
    };
    trial(places, Some(change));
}

// Most cases are over 257 places: node 1 over the leaves 3 to 18, node 2 over leaf 19, which has one place.
fn at(column: Column, index: usize, value: u64) {
    changed(257, column, index, value);
}

fn two(column: Column, index: usize, a: u64, b: u64) {
    at(column, index, a);
    at(column, index, b);
}

// A side of a box, one less and one more than it is: of both upper nodes, the last of each level, one in the middle.
fn beside(column: Column, index: usize, side: u64) {
    at(column, index, side.wrapping_sub(1));
    at(column, index, side.wrapping_add(1));
}

fn sides(column: Column, most: u64, leaf: u64, last: u64) {
    beside(column, 0, most);
    beside(column, 1, most);
    beside(column, 2, last);
    beside(column, 7, leaf);
    beside(column, 19, last);
    at(column, 12, 0);
}

// A kit word with its lowest bit changed, without any, with its highest bit changed.
fn kit_word(index: usize, word: u64) {
    two(Column::Kits, index, word ^ 1, 0);
    at(Column::Kits, index, word ^ 9223372036854775808);
}

// Tables of many sizes, the first of them harbour H.
fn sizes() {
    trial(4, None);
    trial(0, None);
    trial(1, None);
    trial(16, None);
    trial(17, None);
    trial(256, None);
    trial(257, None);
    trial(4096, None);
}

// Harbour H.
fn harbour() {
    changed(4, Column::XHi, 0, 2000011);
    changed(4, Column::Entry, 2, 1);
    changed(4, Column::XHi, 0, 2000009);
    changed(4, Column::Kits, 0, 7);
    changed(4, Column::Level, 0, 2);
}

// Rules 11 and 12.
fn rules_11_and_12() {
    at(Column::ShortY, 256, 0);
    at(Column::X, 100, 3000001);
    at(Column::X, 0, 999999);
    two(Column::X, 256, 3000000, 3000001);
}

// Rule 21.
fn rule_21() {
    two(Column::Nodes, 0, 0, 1);
    two(Column::Nodes, 0, 19, 21);
    two(Column::Nodes, 0, 2048, 2049);
    at(Column::Nodes, 0, 18446744073709551615);
    at(Column::Listed, 0, 0);
    two(Column::Listed, 0, 275, 277);
    at(Column::Listed, 0, 18446744073709551615);
    at(Column::ShortKits, 19, 0);
    at(Column::ShortKits, 20, 0);
    changed(0, Column::Nodes, 0, 1);
    changed(0, Column::Listed, 0, 1);
    changed(1, Column::Nodes, 0, 0);
}

// Rule 22.
fn rule_22() {
    two(Column::Level, 0, 0, 7);
    at(Column::Level, 5, 7);
    two(Column::Level, 19, 0, 255);
    two(Column::Count, 0, 1, 3);
    two(Column::Count, 3, 0, 17);
    at(Column::Count, 3, 15);
    two(Column::Count, 19, 2, 17);
    at(Column::Start, 0, 1);
    two(Column::Start, 7, 82, 84);
    two(Column::Start, 19, 0, 65535);
}

// Rule 23.
fn rule_23() {
    two(Column::Entry, 0, 0, 20);
    two(Column::Entry, 0, 3, 65535);
    two(Column::Entry, 2, 0, 1);
    at(Column::Entry, 2, 2);
    at(Column::Entry, 5, 20);
    two(Column::Entry, 19, 257, 65535);
    two(Column::Entry, 275, 257, 65535);
    two(Column::Level, 1, 6, 3);
    at(Column::Level, 2, 1);
    at(Column::Level, 3, 2);
    at(Column::Level, 19, 2);
    at(Column::Level, 0, 4);
}

// Rule 24.
fn rule_24() {
    at(Column::Entry, 1, 1);
    at(Column::Entry, 0, 2);
    at(Column::Entry, 3, 3);
    at(Column::Entry, 18, 3);
    at(Column::Entry, 2, 19);
    at(Column::Entry, 100, 98);
    at(Column::Entry, 30, 19);
    at(Column::Entry, 275, 0);
    at(Column::Entry, 19, 248);
    at(Column::Entry, 20, 0);
}

// Rule 25.
fn rule_25() {
    sides(Column::XLo, 1000000, 1530573, 2963912);
    sides(Column::XHi, 2995588, 2219526, 2963912);
    sides(Column::YLo, 1000000, 1023529, 2972780);
    sides(Column::YHi, 2993080, 2016840, 2972780);
}

// Rule 26.
fn rule_26() {
    kit_word(0, 66571993119);
    kit_word(1, 66571993119);
    kit_word(2, 17179869192);
    kit_word(7, 66571993119);
    kit_word(19, 17179869192);
}

// The largest tree.
fn largest() {
    changed(4096, Column::Entry, 272, 4096);
    changed(4096, Column::Entry, 4367, 1);
    changed(4096, Column::Kits, 272, 1);
    changed(4096, Column::XLo, 200, 1000000);
    changed(4096, Column::Count, 272, 15);
}

fn main() {
    sizes();
    harbour();
    rules_11_and_12();
    rule_21();
    rule_22();
    rule_23();
    rule_24();
    rule_25();
    rule_26();
    largest();
}
