//! Worked examples of what each choice leaves, and each public call once with ample memory.
use nvm_model::{Choice, Line, NoMemory, NvmState};
use std::alloc::Global;

/// The word of this place that a choice leaves of the first line.
fn left(
    state: &NvmState,
    alloc: Global,
    choice: Choice,
    place: usize,
) -> Result<Option<u64>, NoMemory> {
    let image = state.image_by(alloc, choice)?;
    Ok(match image.first() {
        Some(line) => line.words.get(place).copied(),
        None => None,
    })
}

#[test]
fn leaves_versions_from_the_mark_on(rt: HostRuntime) -> Result<(), NoMemory> {
    let mut state = NvmState::new(rt.alloc(), 1)?;
    state.store_word(0, 0, 5)?;
    state.store_word(0, 0, 6)?;
    assert_eq!(rt; left(&state, rt.alloc(), Choice::Oldest, 0)?, Some(0));
    assert_eq!(rt; left(&state, rt.alloc(), Choice::Newest, 0)?, Some(6));
    state.flush(0);
    state.store_word(0, 0, 7)?;
    state.fence();
    assert_eq!(rt; left(&state, rt.alloc(), Choice::Oldest, 0)?, Some(6));
    assert_eq!(rt; left(&state, rt.alloc(), Choice::Newest, 0)?, Some(7));
    Ok(())
}

#[test]
fn alternates_by_the_number_of_the_word(rt: HostRuntime) -> Result<(), NoMemory> {
    let mut state = NvmState::new(rt.alloc(), 1)?;
    state.store_line(
        0,
        &Line {
            words: [10, 11, 12, 13, 14, 15, 16, 17],
        },
    )?;
    assert_eq!(rt; left(&state, rt.alloc(), Choice::Alternating, 0)?, Some(0));
    assert_eq!(rt; left(&state, rt.alloc(), Choice::Alternating, 1)?, Some(11));
    assert_eq!(rt; left(&state, rt.alloc(), Choice::Alternating, 6)?, Some(0));
    assert_eq!(rt; left(&state, rt.alloc(), Choice::Alternating, 7)?, Some(17));
    Ok(())
}

#[test]
fn keeps_lines_apart(rt: HostRuntime) -> Result<(), NoMemory> {
    let mut state = NvmState::new(rt.alloc(), 2)?;
    assert_eq!(rt; state.lines(), 2);
    state.store_line(
        1,
        &Line {
            words: [1, 2, 3, 4, 5, 6, 7, 8],
        },
    )?;
    state.store_word(1, 7, 9)?;
    assert_eq!(rt; state.load(0), Line { words: [0; 8] });
    assert_eq!(rt;
        state.load(1),
        Line {
            words: [1, 2, 3, 4, 5, 6, 7, 9]
        }
    );
    Ok(())
}

#[test]
fn has_no_room_for_too_many_lines(rt: HostRuntime) {
    assert!(rt; NvmState::new(rt.alloc(), u64::MAX / 8 + 1).is_err());
}
