// P7, P8 and the last case of document 01 as a hub makes them: the controller's steps 10 to 12 and 14 over its record,
// which the hub lends, the other steps over the row. After each trial's name, the answers in order, as in `trials`.
#![tactic(auto)]

use cluster::Cluster;
use members::Board;
use records::Record;
use refinement::LentMut;
use refusal::Refusal;
use std::io;

// A row, and the places that are lent with it. (`trials` has it too: for two programs alone it would be a crate of its
// own, with a contract and a must-fail edit of `new`, which would be longer.)
#[derive(Drop)]
struct Trial {
    row: Cluster,
    store: [u32; 4096],
    store2: [u16; 4096],
    list: [u32; 512],
    list2: [u16; 512],
}

// A record in short: its step, a digit for its board, one for the second board, two for the value. So 3_2_0_00 is add
// 2, and 1_1_0_41 is append 1, 41. One number: as an array each record of a longer list has a line of its own.
fn record(n: u32) -> Record {
    Record {
        step: (n / 10000 % 16) as u8,
        board: (n / 1000 % 10) as u8,
        other: (n / 100 % 10) as u8,
        spare: 0,
        value: n % 100,
    }
}

impl Trial {
    // The row opened with board 1.
    fn new() -> Trial {
        let (row, _) = steps::opening(1);
        Trial {
            row,
            store: [7; 4096],
            store2: [65535; 4096],
            list: [7; 512],
            list2: [65535; 512],
        }
    }

    // One record: the controller's own steps over its record, all others over the row. For well-formed records alone:
    // no field of the controller's is looked at here. A match on numbers: steps are numbers, as in `Record`.
    fn turn(&mut self, r: Record) -> Result<u8, Refusal> {
        let row = &mut self.row;
        match r.step {
            10 => lending::refresh_controller(row),
            11 => lending::read_leader(row),
            12 => lending::read(row, Board::new(r.board)?),
            14 => lending::hear(row, Board::new(r.board)?),
            _ => {
                let mut p = LentMut {
                    store: &mut self.store,
                    store2: &mut self.store2,
                    list: &mut self.list,
                    list2: &mut self.list2,
                };
                steps::step(row, &mut p, r)
            }
        }
    }

    // The records of a trial, each answer shown.
    fn play(&mut self, rt: &impl Print, sheet: &[u32]) -> io::Result<()> {
        for n in sheet {
            let answer = refusal::answer(&self.turn(record(*n)));
            print!(rt; "{answer} ")?;
        }
        Ok(())
    }
}

fn main(rt: HostRuntime) -> io::Result<()> {
    longer(&rt)?;
    four(&rt)
}

// P7, and P8 that goes on from it.
fn longer(rt: &impl Print) -> io::Result<()> {
    let mut t = Trial::new();
    print!(rt; "P7 ")?;
    t.play(
        rt,
        &[
            3_2_0_00, 5_0_0_00, 11_0_0_00, 10_0_0_00, 11_0_0_00, 6_1_0_00, 11_0_0_00,
        ],
    )?;
    print!(rt; "\nP8 ")?;
    t.play(rt, &[13_0_0_00, 12_2_0_00, 13_0_0_00])?;
    print!(rt; "epoch {} ", t.row.registry.view.epoch)
}

// The last case: four boards.
fn four(rt: &impl Print) -> io::Result<()> {
    let mut t = Trial::new();
    print!(rt; "\nfour ")?;
    t.play(
        rt,
        &[
            3_2_0_00, 3_3_0_00, 3_4_0_00, 10_0_0_00, 6_1_0_00, 11_0_0_00, 12_2_0_00, 12_3_0_00,
            13_0_0_00, 6_1_0_00, 6_2_0_00, 6_3_0_00, 6_4_0_00,
        ],
    )?;
    t.play(
        rt,
        &[
            1_1_0_41, 8_4_0_00, 5_0_0_00, 6_2_0_00, 6_3_0_00, 10_0_0_00, 14_2_0_00, 14_3_0_00,
            15_2_0_00, 6_2_0_00, 1_2_0_42, 6_4_0_00, 9_2_4_00, 7_4_0_00,
        ],
    )?;
    println!(rt; "length {} ", t.row.len[3])
}
