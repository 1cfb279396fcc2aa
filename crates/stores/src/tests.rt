// A table taken through a day of changes and questions; the answers are those of an independent model.
use crate::entry::Entry;
use crate::making::{blank_root, check_making};
use crate::table::Table;
use crate::traits::{ReadHalf, Store};
use paths::path::Path;
use paths::stamp::Panel;
use paths::vector::Vector;

// Data, so that each operation can stand beside its answer.
#[derive(Clone, Copy)]
enum Op {
    // a path by its number, and the first four places of its vector
    Put(u32, u32, u32, u32, u32),
    Drop(u32),
    Tick,
    Count,
    Next(u32),
    // the third place of the vector found, or of the bounds
    Found(u32),
    Least(u32),
    Greatest(u32),
}

// 9 where a path is not found or a put is refused, 0 where there is no next: one number for each step of the table below.
fn answer(table: &mut Table<'_>, op: Op) -> u32 {
    done(table, op).unwrap_or(9)
}

fn done(table: &mut Table<'_>, op: Op) -> Option<u32> {
    Some(match op {
        Op::Put(number, a, b, c, d) => {
            let vector = Vector {
                places: [a, b, c, d, 0, 0, 0, 0],
            };
            let path = Path::try_from(number).ok()?;
            let put = table.put(
                path,
                Entry {
                    vector,
                    grade: None,
                },
            );
            put.ok()?;
            0
        }
        Op::Drop(number) => u32::from(table.drop(Path::try_from(number).ok()?)),
        Op::Tick => {
            let _ = table.tick();
            table.clock()
        }
        Op::Count => table.count() as u32,
        Op::Next(number) => table
            .next(Path::try_from(number).ok()?)
            .map_or(0, |next| next.number),
        Op::Found(number) => third(table.find(Path::try_from(number).ok()?)?.vector),
        Op::Least(number) => third(table.bounds(Path::try_from(number).ok()?).least),
        Op::Greatest(number) => third(table.bounds(Path::try_from(number).ok()?).greatest),
    })
}

fn third(vector: Vector) -> u32 {
    vector.place(Panel { number: 3 })
}

const ROOT: u32 = 0;

const REEL: u32 = 0x0300_0000;

const SCENE: u32 = 0x0301_0000;

const NODE: u32 = 0x0301_0101;

const OTHER: u32 = 0x0102_0304;

const LAST: u32 = 0x0900_0000;

#[test]
fn a_table_answers_as_the_model_does(rt: HostRuntime) {
    let steps = [
        (Op::Count, 1),
        (Op::Put(SCENE, 0, 0, 5, 0), 0),
        (Op::Put(NODE, 4, 0, 5, 0), 0),
        (Op::Put(OTHER, 0, 0, 0, 7), 0),
        (Op::Put(LAST, 1, 0, 0, 0), 9),
        (Op::Put(SCENE, 0, 0, 6, 0), 0),
        (Op::Count, 4),
        (Op::Found(SCENE), 6),
        (Op::Found(LAST), 9),
        (Op::Next(ROOT), OTHER),
        (Op::Next(OTHER), SCENE),
        (Op::Next(SCENE), NODE),
        (Op::Next(NODE), 0),
        (Op::Greatest(ROOT), 6),
        (Op::Least(SCENE), 5),
        (Op::Greatest(SCENE), 6),
        (Op::Least(NODE), 5),
        (Op::Greatest(LAST), 0),
        (Op::Drop(ROOT), 0),
        (Op::Drop(LAST), 0),
        (Op::Drop(SCENE), 1),
        (Op::Put(LAST, 1, 0, 0, 0), 0),
        (Op::Least(SCENE), 0),
        (Op::Greatest(REEL), 5),
        (Op::Tick, 1),
        (Op::Tick, 2),
    ];
    let mut slots = [blank_root(); 5];
    let mut table = Table::make(Panel { number: 2 }, 4, &mut slots);
    for (op, want) in steps {
        assert!(rt; answer(&mut table, op) == want);
    }
}

#[test]
fn a_store_wants_memory(rt: HostRuntime) {
    assert!(rt; check_making(8, 1000, 1000, 1000).is_ok());
    assert!(rt; check_making(8, 1000, 1000, 999).is_err());
    assert!(rt; check_making(0, 4, 4, 4).is_err());
    assert!(rt; check_making(1, 0, 0, 4).is_err());
}
