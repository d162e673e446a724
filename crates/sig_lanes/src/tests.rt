use crate::{Block, Sig, first_meet};
use row_sets::{ReadSet, WriteSet};
use schema::Look;
use std::alloc::Global;
use std::test::Fail;

/// The signature of a put at a key of table 1.
fn of_put(alloc: Global, key: u64) -> Result<Sig, Fail> {
    let mut writes = WriteSet::new(alloc);
    writes.put(1, key, &[])?;
    Ok(Sig::of_writes(&writes))
}

/// The signature of a look at keys of table 1.
fn of_look(alloc: Global, lo: u64, hi: u64) -> Result<Sig, Fail> {
    let mut reads = ReadSet::new(alloc);
    reads.add_range(Look { table: 1, lo, hi })?;
    Ok(Sig::of_reads(&reads))
}

/// A look from a key to a key, a written key, and whether their signatures meet. The keys 0 and 987 of table 1 have one
/// bit, 778, and key 1 has 387. None of the keys 2 to 17 has either bit (computed by a Python program).
static CASES: [(u64, u64, u64, bool); 7] = [
    (0, 0, 0, true),
    (987, 987, 0, true),
    (1, 1, 0, false),
    (2, 17, 0, false),
    (2, 18, 0, true),
    (5, 4, 5, false),
    (0, u64::MAX, 3, true),
];

#[test]
fn signatures_meet_where_bits_are_shared(rt: HostRuntime) -> Result<(), Fail> {
    let alloc = rt.alloc();
    for &(lo, hi, key, expected) in &CASES {
        let reads = of_look(alloc, lo, hi)?;
        let writes = of_put(alloc, key)?;
        assert_eq!(rt; reads.meets(&writes), expected, "{lo} to {hi}, {key}");
    }
    Ok(())
}

/// Tries signatures of key 1 with a signature of key 0 at the end. The last signature is the first that meets a look at
/// key 987.
#[test]
fn the_first_that_meets_is_found(rt: HostRuntime) -> Result<(), Fail> {
    let alloc = rt.alloc();
    let reads = of_look(alloc, 987, 987)?;
    let mut all = Vec::new(alloc);
    for count in 0..17 {
        assert_eq!(rt; first_meet(&reads, &all), None);
        all.push(of_put(alloc, 0)?)?;
        assert_eq!(rt; first_meet(&reads, &all), Some(count));
        all.pop();
        all.push(of_put(alloc, 1)?)?;
    }
    Ok(())
}

/// The bits of keys of table 1, computed by a Python program.
static BITS: [(u64, usize); 3] = [(0, 778), (1, 387), (987, 778)];

#[test]
fn keys_set_their_bits(rt: HostRuntime) -> Result<(), Fail> {
    for &(key, bit) in &BITS {
        let words = of_put(rt.alloc(), key)?.words();
        for index in 0..16 {
            let expected = if index == bit / 64 {
                1 << (bit % 64)
            } else {
                0
            };
            assert_eq!(rt; words[index], expected, "word {index} of key {key}");
        }
    }
    Ok(())
}

/// Looks at keys of table 1, against which a block is held after each of the steps below.
static LOOKS: [(u64, u64); 3] = [(987, 987), (2, 17), (0, u64::MAX)];

/// The steps on a block: a lane, and the key of the put whose signature it takes, or none where it is cleared. The
/// lanes that each look then meets stand behind (computed by a Python program).
static STEPS: [(usize, Option<u64>, [u8; 3]); 24] = [
    (0, Some(2), [0b0000_0000, 0b0000_0001, 0b0000_0001]),
    (1, Some(3), [0b0000_0000, 0b0000_0011, 0b0000_0011]),
    (2, Some(4), [0b0000_0000, 0b0000_0111, 0b0000_0111]),
    (3, Some(5), [0b0000_0000, 0b0000_1111, 0b0000_1111]),
    (4, Some(6), [0b0000_0000, 0b0001_1111, 0b0001_1111]),
    (5, Some(7), [0b0000_0000, 0b0011_1111, 0b0011_1111]),
    (6, Some(8), [0b0000_0000, 0b0111_1111, 0b0111_1111]),
    (7, Some(9), [0b0000_0000, 0b1111_1111, 0b1111_1111]),
    (7, Some(0), [0b1000_0000, 0b0111_1111, 0b1111_1111]),
    (0, Some(0), [0b1000_0001, 0b0111_1110, 0b1111_1111]),
    (6, Some(0), [0b1100_0001, 0b0011_1110, 0b1111_1111]),
    (1, Some(0), [0b1100_0011, 0b0011_1100, 0b1111_1111]),
    (5, Some(0), [0b1110_0011, 0b0001_1100, 0b1111_1111]),
    (2, Some(0), [0b1110_0111, 0b0001_1000, 0b1111_1111]),
    (4, Some(0), [0b1111_0111, 0b0000_1000, 0b1111_1111]),
    (3, Some(0), [0b1111_1111, 0b0000_0000, 0b1111_1111]),
    (3, None, [0b1111_0111, 0b0000_0000, 0b1111_0111]),
    (7, None, [0b0111_0111, 0b0000_0000, 0b0111_0111]),
    (0, None, [0b0111_0110, 0b0000_0000, 0b0111_0110]),
    (4, None, [0b0110_0110, 0b0000_0000, 0b0110_0110]),
    (1, None, [0b0110_0100, 0b0000_0000, 0b0110_0100]),
    (6, None, [0b0010_0100, 0b0000_0000, 0b0010_0100]),
    (2, None, [0b0010_0000, 0b0000_0000, 0b0010_0000]),
    (5, None, [0b0000_0000, 0b0000_0000, 0b0000_0000]),
];

#[test]
fn a_block_meets_as_its_signatures_do(rt: HostRuntime) -> Result<(), Fail> {
    let alloc = rt.alloc();
    let mut block = Block::empty();
    let mut single = Vec::new(alloc);
    for _ in 0..8 {
        single.push(Sig::empty())?;
    }
    for &(lane, key, expected) in &STEPS {
        assert!(rt; lane < 8 && single.len() == 8);
        match key {
            Some(key) => {
                single[lane] = of_put(alloc, key)?;
                block.set(lane, &single[lane]);
            }
            None => {
                single[lane] = Sig::empty();
                block.clear(lane);
            }
        }
        for index in 0..3 {
            let look = of_look(alloc, LOOKS[index].0, LOOKS[index].1)?;
            let met = block.meets(&look);
            assert_eq!(rt;
                met,
                expected[index],
                "look {index} at lane {lane}, key {key:?}"
            );
            for other in 0..8 {
                assert_eq!(rt;
                    single[other].meets(&look),
                    met >> other & 1 == 1,
                    "look {index} at lane {other}"
                );
            }
        }
    }
    Ok(())
}
