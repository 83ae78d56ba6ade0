// The fit on sweeps that are worked by hand, and what it refuses.
use super::*;
use loss::{Absolute, Band, Bands, PullLimit, Reading, Squares};
use std::alloc::Global;
use std::test::Fail;

const TOP: u16 = 10;

// Readings of a level and a weight.
fn readings(heap: Global, read: &[(u32, u32)]) -> Result<Vec<Entry<Reading>>, Fail> {
    let mut entries = Vec::new(heap);
    for ((level, weight), count) in read.iter().zip(0..u32::MAX) {
        let point = Reading::new(*level, *weight)?;
        entries.push(Entry { count, point })?;
    }
    Ok(entries)
}

fn levels<L: Loss>(heap: Global, loss: &L, entries: &[Entry<L::Point>]) -> Result<Vec<u16>, Fail> {
    let mut levels = vec![in heap; 0; entries.len()]?;
    fit(loss, entries, TOP, &mut levels)?;
    Ok(levels)
}

#[test]
fn squares_by_hand(rt: HostRuntime) -> Result<(), Fail> {
    let heap = rt.alloc();
    let sweeps: [(&[(u32, u32)], &[u16]); 7] = [
        (&[(3, 1), (1, 1), (2, 1)], &[2, 2, 2]),
        (&[(2, 1), (1, 1)], &[1, 1]),
        (&[(4, 1), (1, 3)], &[2, 2]),
        (&[(40, 1)], &[10]),
        (&[(9, 1), (1, 1), (1, 1)], &[4, 4, 4]),
        (&[(4, 1), (1, 1), (0, 1)], &[2, 2, 2]),
        (&[(5, 1), (6, 1), (1, 1)], &[4, 4, 4]),
    ];
    for (read, expected) in sweeps {
        let found = levels(heap, &Squares, &readings(heap, read)?)?;
        assert_eq!(rt; found.as_slice(), expected);
    }
    Ok(())
}

#[test]
fn other_losses_by_hand(rt: HostRuntime) -> Result<(), Fail> {
    let heap = rt.alloc();
    let entries = readings(heap, &[(5, 1), (2, 1), (4, 1)])?;
    assert_eq!(rt;
        levels(heap, &Absolute, &entries)?.as_slice(),
        [2u16, 2, 4].as_slice()
    );
    let entries = readings(heap, &[(9, 1), (1, 1), (1, 1)])?;
    let limited = PullLimit::new(Squares, 3);
    assert_eq!(rt;
        levels(heap, &limited, &entries)?.as_slice(),
        [2u16, 2, 2].as_slice()
    );
    let older = Band::new(6, 9, 1)?;
    let newer = Band::new(2, 4, 1)?;
    let entries = [
        Entry {
            count: 0,
            point: older,
        },
        Entry {
            count: 1,
            point: newer,
        },
    ];
    assert_eq!(rt;
        levels(heap, &Bands, &entries)?.as_slice(),
        [4u16, 4].as_slice()
    );
    Ok(())
}

// A refusal leaves the levels as they were.
#[test]
fn refusals(rt: HostRuntime) -> Result<(), Fail> {
    let point = Reading::new(7, 1)?;
    let entry = Entry { count: 0, point };
    let mut levels = [5; 1025];
    let many = [entry; 1025];
    assert_eq!(rt;
        fit(&Squares, &many, TOP, &mut levels),
        Err(Misfit::TooMany)
    );
    assert!(rt; levels == [5; 1025]);
    assert_eq!(rt;
        fit(&Squares, &many[0..1024], TOP, &mut levels),
        Err(Misfit::Places)
    );
    assert!(rt; levels == [5; 1025]);
    assert_eq!(rt;
        fit(&Squares, &many[0..1024], TOP, &mut levels[0..1024]),
        Ok(())
    );
    assert!(rt; levels[0] == 7);
    assert!(rt; levels[1023] == 7);
    assert!(rt; levels[1024] == 5);
    Ok(())
}
