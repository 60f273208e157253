// The trials of document 01 on the calls, and three of document 02, Paper 4: after each trial's name, the answers in
// order. P1 is about majorities, which no step answers: `model` proves it. At first every place of the second store and
// the second list holds what no entry may: only places inside a length are looked at.
#![tactic(auto)]

use cluster::Cluster;
use records::Record;
use refinement::{Lent, LentMut};
use std::io;

// A row, and the places that are lent with it. (`lent_trials` has it too: for two programs alone it would be a crate of
// its own, with a contract and a must-fail edit of `new`, which would be longer.)
#[derive(Drop)]
struct Trial {
    row: Cluster,
    store: [u32; 4096],
    store2: [u16; 4096],
    list: [u32; 512],
    list2: [u16; 512],
}

// Members 1 to 4, leader 1, normal, news taken, logs empty: of a row opened with board 1.
const FOUR_READY: [[u8; 4]; 13] = [
    [3, 2, 0, 0],
    [3, 3, 0, 0],
    [3, 4, 0, 0],
    [10, 0, 0, 0],
    [6, 1, 0, 0],
    [11, 0, 0, 0],
    [12, 2, 0, 0],
    [12, 3, 0, 0],
    [13, 0, 0, 0],
    [6, 1, 0, 0],
    [6, 2, 0, 0],
    [6, 3, 0, 0],
    [6, 4, 0, 0],
];

// A record in short: step, board, second board, value.
fn record(short: [u8; 4]) -> Record {
    let [step, board, other, value] = short;
    Record {
        step,
        board,
        other,
        spare: 0,
        value: value as u32,
    }
}

impl Trial {
    // The row opened with board 1.
    fn new() -> Trial {
        let (row, _) = steps::opening(1);
        Trial {
            row,
            store: [7; 4096],
            store2: [65535; 4096],
            list: [7; 512],
            list2: [65535; 512],
        }
    }

    // A record's step: its answer.
    fn step(&mut self, short: [u8; 4]) -> u8 {
        let mut p = LentMut {
            store: &mut self.store,
            store2: &mut self.store2,
            list: &mut self.list,
            list2: &mut self.list2,
        };
        refusal::answer(&steps::step(&mut self.row, &mut p, record(short)))
    }

    // Records one after the other, each answer shown.
    fn play(&mut self, rt: &impl Print, sheet: &[[u8; 4]]) -> io::Result<()> {
        for short in sheet {
            let answer = self.step(*short);
            print!(rt; "{answer} ")?;
        }
        Ok(())
    }

    // Two records in turn, so many times, with no answer shown.
    fn alternate(&mut self, a: [u8; 4], b: [u8; 4], times: u32) {
        for _ in 0..times {
            self.step(a);
            self.step(b);
        }
    }

    // Shows how long the shown list is, and its last entry, value and term.
    fn show_last(&self, rt: &impl Print) -> io::Result<()> {
        let p = Lent {
            store: &self.store,
            store2: &self.store2,
            list: &self.list,
            list2: &self.list2,
        };
        let values = shown::visible(&self.row, p);
        print!(rt; "shown {} ", values.len())?;
        if let Some(value) = values.last() {
            print!(rt; "{value} ")?;
        }
        if let Some(term) = shown::visible_terms(&self.row, p).last() {
            print!(rt; "{term} ")?;
        }
        Ok(())
    }
}

fn main(rt: HostRuntime) -> io::Result<()> {
    print!(rt; "P2 ")?;
    for b in [0, 9, 8] {
        let (_, x) = steps::opening(b);
        let answer = refusal::answer(&x);
        print!(rt; "{answer} ")?;
    }
    by_itself(&rt, "P3", &[[2, 1, 0, 0], [1, 1, 0, 41], [2, 1, 0, 0]])?;
    by_itself(&rt, "P4", &[[1, 2, 0, 41]])?;
    by_itself(&rt, "P5", &[[5, 0, 0, 0], [4, 1, 0, 0], [4, 2, 0, 0]])?;
    by_itself(&rt, "P6", &[[3, 2, 0, 0], [3, 2, 0, 0]])?;
    longer(&rt)?;
    full(&rt)?;
    worn(&rt)?;
    four(&rt)?;
    sales(&rt)?;
    vacant(&rt)?;
    kept(&rt)
}

// A trial by itself: its name, and its records after an opening with board 1.
fn by_itself(rt: &impl Print, name: &str, sheet: &[[u8; 4]]) -> io::Result<()> {
    let mut t = Trial::new();
    print!(rt; "\n{name} ")?;
    t.play(rt, sheet)
}

// The trials that go on from each other.
fn longer(rt: &impl Print) -> io::Result<()> {
    let mut t = Trial::new();
    print!(rt; "\nP7 ")?;
    t.play(
        rt,
        &[
            [3, 2, 0, 0],
            [5, 0, 0, 0],
            [11, 0, 0, 0],
            [10, 0, 0, 0],
            [11, 0, 0, 0],
            [6, 1, 0, 0],
            [11, 0, 0, 0],
        ],
    )?;
    print!(rt; "\nP8 ")?;
    t.play(rt, &[[13, 0, 0, 0], [12, 2, 0, 0], [13, 0, 0, 0]])?;
    print!(rt; "epoch {} ", t.row.registry.view.epoch)?;
    print!(rt; "\nP9 ")?;
    t.play(rt, &[[5, 0, 0, 0]])?;
    let view = t.row.registry.view;
    print!(rt; "leader {} epoch {} ", view.leader, view.epoch)
}

// A log that gets full.
fn full(rt: &impl Print) -> io::Result<()> {
    let mut t = Trial::new();
    print!(rt; "\nfull ")?;
    t.alternate([1, 1, 0, 5], [1, 1, 0, 5], 255);
    t.play(rt, &[[1, 1, 0, 9], [1, 1, 0, 9], [1, 1, 0, 9]])
}

// Epochs that are used up.
fn worn(rt: &impl Print) -> io::Result<()> {
    let mut t = Trial::new();
    print!(rt; "\nworn ")?;
    t.alternate([3, 2, 0, 0], [4, 2, 0, 0], 1999);
    t.play(rt, &[[3, 2, 0, 0], [4, 2, 0, 0]])
}

// The last case: four boards.
fn four(rt: &impl Print) -> io::Result<()> {
    let mut t = Trial::new();
    print!(rt; "\nfour ")?;
    t.play(rt, &FOUR_READY)?;
    t.play(
        rt,
        &[
            [1, 1, 0, 41],
            [8, 4, 0, 0],
            [5, 0, 0, 0],
            [6, 2, 0, 0],
            [6, 3, 0, 0],
            [10, 0, 0, 0],
            [14, 2, 0, 0],
            [14, 3, 0, 0],
            [15, 2, 0, 0],
            [6, 2, 0, 0],
            [1, 2, 0, 42],
            [6, 4, 0, 0],
            [9, 2, 4, 0],
            [7, 4, 0, 0],
        ],
    )?;
    print!(rt; "length {} ", t.row.len[3])
}

// Document 02, Paper 4: 1 appends 40, which 2 and 4 receive, then 41, which 4 alone receives. 2 leads, under leader
// epoch 7, and appends 41 too. Board 4's own 41 is another sale: it joins, and its log is cut to 40. Then it receives
// the sale of 2, is counted, and two receipts are given.
fn sales(rt: &impl Print) -> io::Result<()> {
    let mut t = Trial::new();
    print!(rt; "\nsales ")?;
    t.play(rt, &FOUR_READY)?;
    t.play(
        rt,
        &[
            [1, 1, 0, 40],
            [8, 2, 0, 0],
            [8, 4, 0, 0],
            [1, 1, 0, 41],
            [8, 4, 0, 0],
            [5, 0, 0, 0],
            [6, 2, 0, 0],
            [6, 3, 0, 0],
            [10, 0, 0, 0],
            [14, 2, 0, 0],
            [14, 3, 0, 0],
            [15, 2, 0, 0],
            [6, 2, 0, 0],
            [1, 2, 0, 41],
            [6, 4, 0, 0],
            [7, 4, 0, 0],
        ],
    )?;
    print!(rt; "length {} ", t.row.len[3])?;
    t.play(
        rt,
        &[[8, 4, 0, 0], [9, 2, 4, 0], [2, 2, 0, 0], [2, 2, 0, 0]],
    )?;
    t.show_last(rt)
}

// While no leader is named the receipts are shown: 1 appends 41, 2 and 3 receive it and are counted, a receipt is
// given, and the leader is changed.
fn vacant(rt: &impl Print) -> io::Result<()> {
    let mut t = Trial::new();
    print!(rt; "\nvacant ")?;
    t.play(rt, &FOUR_READY)?;
    t.play(
        rt,
        &[
            [1, 1, 0, 41],
            [8, 2, 0, 0],
            [8, 3, 0, 0],
            [9, 1, 2, 0],
            [9, 1, 3, 0],
            [2, 1, 0, 0],
            [5, 0, 0, 0],
        ],
    )?;
    t.show_last(rt)
}

// Kept epochs: 1 appends 41; a receipt with that entry's epoch made 0, 4,001 and 4,000; adding 2 with the receipt's
// made 0 and 1. A refused row shows nothing.
fn kept(rt: &impl Print) -> io::Result<()> {
    let mut t = Trial::new();
    let receipt = [2, 1, 0, 0];
    let add = [3, 2, 0, 0];
    print!(rt; "\nkept ")?;
    t.play(rt, &[[1, 1, 0, 41]])?;
    t.store2[0] = 0;
    t.play(rt, &[receipt])?;
    t.show_last(rt)?;
    t.store2[0] = 4001;
    t.play(rt, &[receipt])?;
    t.store2[0] = 4000;
    t.play(rt, &[receipt])?;
    t.list2[0] = 0;
    t.play(rt, &[add])?;
    t.list2[0] = 1;
    t.play(rt, &[add])?;
    println!(rt; "")
}
